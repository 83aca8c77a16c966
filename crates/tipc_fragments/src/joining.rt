//! Fragments are joined to the message that they were cut from.

ghost use Rattle.std.specs.Prelude.{◌≡◌, true, IfErr, IfOk, OnErr, OnOk};
ghost use Rattle.tipc_fragments.specs.Cutting.{is_last, may_follow, piece_of};

use crate::cutting::MOST_CUT;
use std::alloc::{AllocError, Global};
use std::marker::Model;
use std::mem;
use tipc_header::{FragmentType, HeaderFault, decode};
use tipc_types::{Bytes, Few, NoMemory};

/// The arrival numbers of the frames that brought the fragments of a message, in order.
pub type Arrivals = Few<u64>;

/// What a fragment that was joined makes of the message.
#[derive(Debug, Drop, PartialEq)]
pub enum Joined {
    /// More fragments are to come.
    More,
    /// It was the last one.
    Whole {
        /// The bytes of the message's packet.
        message: Bytes,
        /// The arrival numbers of its fragments, in their order.
        arrivals: Arrivals,
    },
}

/// Why a fragment wasn't joined.
#[derive(Clone, Copy, Debug, PartialEq, Eq)]
pub enum JoinFault {
    /// It isn't the next fragment of a message: there was no first one before, it is another first one, or its
    /// number doesn't follow.
    NotInOrder,
    /// The message would have more than 66,044 bytes.
    TooLong,
    /// The message is whole, and its bytes are no packet: why.
    BadMessage(HeaderFault),
    /// Memory ran out.
    NoMemory,
}

impl From<AllocError> for JoinFault {
    ghost use Rattle.tipc_fragments.specs.declared.joining.JoinFault.TheVariants.{NoMemory};

    ghost from_gives = { λ _ e. e ≡ NoMemory };

    fn from(_error: AllocError) -> JoinFault {
        JoinFault::NoMemory
    }
}

/// Whether a fragment of this kind may stand behind so many others.
fn may_follow(kind: FragmentType, before: usize) -> bool
    ensures { result ≡ may_follow kind before }
{
    match kind {
        FragmentType::First => before == 0,
        FragmentType::Middle | FragmentType::Last => before > 0,
    }
}

/// Whether a fragment of this kind ends its message.
fn is_last(kind: FragmentType) -> bool
    ensures { result ≡ is_last kind }
{
    matches!(kind, FragmentType::Last)
}

/// Joins the fragments of one flow, in the order in which they are taken: at most one message is begun at a time.
/// (TIPC 2.0 draft; that one out of order drops the begun message is this project's profile.)
#[derive(Drop)]
pub struct Joiner {
    bytes: Vec<u8>,
    arrivals: Vec<u64>,
}

impl Model for Joiner {
    ghost use Rattle.tipc_fragments.specs.Joining.{Joining};

    ghost Value = { Joining };

    ghost view = { λ j. record { bytes = j.bytes.items; arrivals = j.arrivals.items } };
}

impl Joiner {
    ghost use Rattle.tipc_fragments.specs.Joining.{after, answer_of, fresh, grown, has_room, is_next, whole_of, IsFault};

    /// A joiner with no message begun.
    pub fn new(alloc: Global) -> Joiner
        ensures { result ≡ fresh }
    {
        Joiner {
            bytes: Vec::new(alloc),
            arrivals: Vec::new(alloc),
        }
    }

    /// A joiner that has begun the same message.
    pub fn copy(&self) -> Result<Joiner, NoMemory>
        ensures { IfOk result (λ joiner. joiner ≡ self.now) }
    {
        Ok(Joiner {
            bytes: self.bytes.clone()?,
            arrivals: self.arrivals.clone()?,
        })
    }

    /// Whether this fragment is the next one.
    fn is_next(&self, kind: FragmentType, number: u16) -> bool
        ensures { result ≡ is_next self.now kind number }
    {
        let before = self.arrivals.len();
        may_follow(kind, before) && number as usize == before + 1
    }

    /// Whether the begun message may have this piece besides.
    fn has_room(&self, piece: &[u8]) -> bool
        ensures { result ≡ has_room self.now piece.now }
    {
        self.bytes.len() + piece.len() <= MOST_CUT
    }

    /// Drops the begun message.
    fn clear(&mut self)
        ensures { self.new ≡ fresh }
    {
        self.bytes.clear();
        self.arrivals.clear();
    }

    /// Puts a fragment behind those of the begun message.
    fn grow(&mut self, piece: &[u8], by: u64) -> Result<(), AllocError>
        ensures ok { OnOk result (self.new ≡ grown self.old piece.now by) }
        ensures err { OnErr result (self.new ≡ self.old) }
    {
        self.arrivals.reserve(1)?;
        self.bytes.extend_from_slice(piece)?;
        self.arrivals.push_reserved(by);
        Ok(())
    }

    /// Gives the message that is whole now, where it is a packet. No message is begun then.
    fn finish(&mut self) -> Result<Joined, JoinFault>
        ensures answer { result ≡ whole_of self.old }
        ensures after { self.new ≡ fresh }
    {
        let alloc = *self.bytes.allocator();
        let bytes = mem::replace(&mut self.bytes, Vec::new(alloc));
        let arrivals = mem::replace(&mut self.arrivals, Vec::new(alloc));
        if let Err(fault) = decode(&bytes) {
            return Err(JoinFault::BadMessage(fault));
        }
        Ok(Joined::Whole {
            message: Bytes::from_vec(bytes),
            arrivals: Arrivals::from_vec(arrivals),
        })
    }

    /// Joins a fragment: its kind, its number, its piece of the message, and the arrival number of its frame.
    /// The last one gives the message.
    ///
    /// # Errors
    ///
    /// The first that holds:
    /// - NotInOrder, where it isn't the next fragment: a first one comes exactly where no message is begun, and the
    ///   numbers count from 1;
    /// - TooLong, where the message would have more than 66,044 bytes;
    /// - BadMessage, where it is the last one and the message's bytes are no packet, with the decoder's fault;
    /// - NoMemory, where memory runs out.
    ///
    /// The begun message is then dropped, and a first fragment that wasn't in order begins none; but NoMemory
    /// changes nothing.
    pub fn add(
        &mut self,
        kind: FragmentType,
        number: u16,
        piece: &[u8],
        by: u64,
    ) -> Result<Joined, JoinFault>
        ensures ok { let it = piece_of kind number piece.now in
            IfOk result (λ joined. (answer_of self.old it by ≡ Ok joined) × (self.new ≡ after self.old it by)) }
        ensures fault { let it = piece_of kind number piece.now in
            IfErr result (IsFault self.old self.new (answer_of self.old it by)) }
        ensures no_memory { result ≡ Err JoinFault.NoMemory →
            (is_next self.old kind number ≡ true) × (has_room self.old piece.now ≡ true) }
    {
        if !self.is_next(kind, number) {
            self.clear();
            return Err(JoinFault::NotInOrder);
        }
        if !self.has_room(piece) {
            self.clear();
            return Err(JoinFault::TooLong);
        }
        self.grow(piece, by)?;
        if is_last(kind) {
            self.finish()
        } else {
            Ok(Joined::More)
        }
    }
}
