//! Taking a bundle apart.

ghost use Rattle.std.specs.Prelude.{◌≡◌, ◌↔◌, List, ℕ, Err, IfNone, IfOk, IfSome, MatchResult};
ghost use Rattle.tipc_bundle.specs.Splitting.{count_of, AreInside, IsBundle, IsFirstBad};

use crate::HEADER_BYTES;
use crate::inner::{first_padded, leading_packet};
use crate::padding::padded_size;
use std::alloc::Global;
use tipc_header::{Header, decode};
use tipc_types::{Bytes, Inner, NoMemory};

/// Why a bundle gave no packets.
#[derive(Clone, Copy, Debug, PartialEq, Eq)]
pub enum SplitFault {
    /// The inner packets aren't as the bundle's format asks. (This project's profile.)
    BadInner {
        /// The first bad place, in bytes from the begin of the bundle's header: where an inner packet begins that is
        /// no packet or neither payload nor name items, the first byte of padding that isn't zero, or the first byte
        /// behind as many inner packets as the bundle counts.
        place: u32,
    },
    /// Memory ran out.
    NoMemory,
}

impl From<NoMemory> for SplitFault {
    ghost use Rattle.tipc_bundle.specs.declared.splitting.SplitFault.TheVariants as fault;

    ghost from_gives = { λ _ e. e ≡ fault.NoMemory };

    fn from(_error: NoMemory) -> SplitFault {
        SplitFault::NoMemory
    }
}

/// How many inner packets a bundle counts.
fn inner_count(bundle: &[u8]) -> u16
    requires { IsBundle bundle.now }
    ensures { result ≡ count_of bundle.now }
{
    let Ok(packet) = decode(bundle) else {
        unreachable!()
    };
    match packet.header {
        Header::Bundler(bundle) => bundle.count,
        _ => unreachable!(),
    }
}

/// The first bad place of a bundle that counts so many inner packets.
fn bad_place(bundle: &[u8], count: u16) -> Option<usize>
    requires bundle { IsBundle bundle.now }
    requires count { count ≡ count_of bundle.now }
    ensures some { IfSome result (λ place. IsFirstBad bundle.now place) }
    ensures none { IfNone result ((packets : List (List ℕ)) × AreInside packets bundle.now) }
{
    let mut place = HEADER_BYTES;
    for _ in 0..count {
        match first_padded(&bundle[place..]) {
            Ok(size) => place += size,
            Err(offset) => return Some(place + offset),
        }
    }
    if place < bundle.len() {
        return Some(place);
    }
    None
}

/// Copies of the inner packets of a bundle in which they stand.
fn inner_packets(alloc: Global, bundle: &[u8], count: u16) -> Result<Inner, NoMemory>
    requires bundle { IsBundle bundle.now }
    requires inside { (packets : List (List ℕ)) × AreInside packets bundle.now }
    requires count { count ≡ count_of bundle.now }
    ensures { IfOk result (λ inner. AreInside inner bundle.now) }
{
    let mut inner = Inner::new(alloc);
    let mut place = HEADER_BYTES;
    for _ in 0..count {
        let packet = leading_packet(&bundle[place..]);
        inner.push(Bytes::from_slice(alloc, packet)?)?;
        place += padded_size(packet.len());
    }
    Ok(inner)
}

/// The inner packets of a bundle, in order. (TIPC 2.0 draft; the padding and what is bad are this project's profile.)
///
/// `bundle` is a packet that [`decode`] reads as a bundler's, under any numbers.
///
/// # Errors
///
/// `BadInner` exactly where they aren't as the bundle's format asks, and then with the first bad place, whether there
/// is memory or not; else `NoMemory` where memory runs out.
pub fn split(alloc: Global, bundle: &[u8]) -> Result<Inner, SplitFault>
    requires { IsBundle bundle.now }
    // What is given stands in the bundle.
    ensures ok { IfOk result (λ inner. AreInside inner bundle.now) }
    // What stands in it is given, unless memory runs out.
    ensures only { (packets : List (List ℕ)) → AreInside packets bundle.now →
        MatchResult result (λ inner. inner ≡ packets) (λ fault. fault ≡ SplitFault.NoMemory) }
    // Which place is bad, if any.
    ensures bad { (place : ℕ) → (result ≡ Err (SplitFault.BadInner place)) ↔ IsFirstBad bundle.now place }
{
    let count = inner_count(bundle);
    if let Some(place) = bad_place(bundle, count) {
        return Err(SplitFault::BadInner {
            place: place as u32,
        });
    }
    Ok(inner_packets(alloc, bundle, count)?)
}
