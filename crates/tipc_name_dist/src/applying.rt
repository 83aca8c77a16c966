//! What a node learns of a peer's items.

ghost use Rattle.std.specs.Prelude.{◌≡◌, ◌≤◌, ℕ, Err, List, None, Some, false, true, length, if◌then◌else◌, IfNone, IfOk, IfSome, OnErr, OnOk};
ghost use Rattle.tipc_types.specs.Address.{IsNodeWord};
ghost use Rattle.tipc_types.specs.declared.services.Publication.{Publication};
ghost use Rattle.tipc_types.specs.Tables.{put, without};
ghost use Rattle.tipc_name_dist.specs.Applying.{applied, forgotten_from, can_be_put, held_as, is_ordered, learned_from, learnt_of, told_by, undone};
ghost use Rattle.tipc_name_dist.specs.Items.{items_in};

use std::alloc::Global;
use tipc_name_table::{NameFault, Names};
use tipc_types::{Addr, Item, List, Message, NoMemory, PortId, Publication, Scope, ServiceRange};

/// What a node learned of a peer's message. (This project's profile.)
#[derive(Clone, Debug, Drop, PartialEq)]
pub enum Learnt {
    /// These publications of the peer are held now, in the order of their items.
    Learned(List),
    /// These were held, and are no longer.
    Forgot(List),
}

/// What a peer's message made of a name table, up to its first item that doesn't fit.
#[derive(Drop)]
struct AppliedFront {
    /// What was learned or forgotten by the items that are applied.
    learnt: Learnt,
    /// The place of the first item that doesn't fit, from 0: None where all items are applied.
    bad: Option<u32>,
}

/// Why an item message wasn't applied whole. (This project's profile.)
#[derive(Clone, Copy, Debug, PartialEq, Eq)]
pub enum ItemFault {
    /// The item at this place, from 0, doesn't fit: its lower bound is above the upper one; it tells of a publication
    /// whose key is held, or of one more where 1,024 of that node are; or it withdraws what isn't held. The items
    /// before it are applied.
    BadItem {
        /// The item's place in the message.
        place: u32,
    },
    /// Memory ran out. Nothing is changed.
    NoMemory,
}

impl From<NoMemory> for ItemFault {
    ghost use Rattle.std.specs.Prelude.{◌≡◌};
    ghost use Rattle.tipc_name_dist.specs.declared.applying.ItemFault.TheVariants as fault;

    ghost from_gives = { λ _ e. e ≡ fault.NoMemory };

    fn from(_error: NoMemory) -> ItemFault {
        ItemFault::NoMemory
    }
}

/// The publications of the items that are applied, and the place of the first item that doesn't fit.
#[derive(Drop)]
struct Front {
    publications: List,
    bad: Option<u32>,
}

/// Why one item wasn't applied. Nothing is changed then.
#[derive(Clone, Copy, Debug, PartialEq, Eq)]
enum Unfit {
    /// It doesn't fit.
    Bad,
    /// Memory ran out.
    NoMemory,
}

/// The publication of which a peer's item tells: None exactly where its lower bound is above the upper one.
pub fn told_by(from: Addr, item: &Item) -> Option<Publication>
    ensures told { result ≡ (if is_ordered item.now then Some (told_by from.word item.now) else None) }
{
    let Ok(range) = ServiceRange::new(item.kind, item.lower, item.upper) else {
        return None;
    };
    Some(Publication {
        range,
        scope: Scope::Cluster,
        at: PortId {
            node: from,
            port: item.port,
        },
        key: item.key,
    })
}

/// Why an item isn't applied, whose publication isn't added.
fn reason(fault: NameFault) -> Unfit
    ensures bad { result ≡ Unfit.Bad → (fault ≡ NameFault.NoMemory → ⊥) }
    ensures memory { result ≡ Unfit.NoMemory → fault ≡ NameFault.NoMemory }
{
    match fault {
        NameFault::Duplicate | NameFault::Full => Unfit::Bad,
        NameFault::NoMemory => Unfit::NoMemory,
    }
}

/// Adds the publication of a peer's item.
fn learn<N: Names>(names: &mut N, p: &Publication) -> Result<(), Unfit>
    requires { IsNodeWord p.now.at.node.word }
    ensures new { OnOk result (can_be_put (N.table names.old) p.now ≡ true) }
    ensures after { OnOk result (N.table names.new ≡ put p.now (N.table names.old)) }
    ensures bad { result ≡ Err Unfit.Bad → can_be_put (N.table names.old) p.now ≡ false }
    ensures memory { result ≡ Err Unfit.NoMemory → can_be_put (N.table names.old) p.now ≡ true }
    ensures err { OnErr result (N.table names.new ≡ N.table names.old) }
{
    if let Err(fault) = names.publish(*p) {
        return Err(reason(fault));
    }
    Ok(())
}

/// Takes back what was learned, the last first.
fn take_back<N: Names>(names: &mut N, from: Addr, mut learned: Vec<Publication>)
    ensures { N.table names.new ≡ undone from.word learned.items (N.table names.old) }
{
    while let Some(p) = learned.pop() {
        let _ = names.withdraw(from, p.key);
    }
}

/// All items fit.
fn whole(publications: Vec<Publication>) -> Front
    ensures { (result.publications ≡ publications.items) × (result.bad ≡ None) }
{
    Front {
        publications: List::from_vec(publications),
        bad: None,
    }
}

/// The item at this place doesn't fit.
fn up_to(publications: Vec<Publication>, place: usize) -> Front
    requires { place ≤ 70 }
    ensures { (result.publications ≡ publications.items) × (result.bad ≡ Some place) }
{
    Front {
        publications: List::from_vec(publications),
        bad: Some(place as u32),
    }
}

/// Learns the publications of a peer's items, one after the other, up to the first that doesn't fit.
fn learn_all<N: Names>(
    alloc: Global,
    names: &mut N,
    from: Addr,
    items: &[Item],
) -> Result<Front, NoMemory>
    requires node { IsNodeWord from.word }
    requires few { length items.now ≤ 70 }
    ensures ok { IfOk result (λ front. learned_from from.word (N.table names.old) items.now ≡
        record { table = N.table names.new; publications = front.publications; bad = front.bad }) }
    ensures err { OnErr result (N.table names.new ≡ N.table names.old) }
{
    let mut learned = Vec::with_capacity(alloc, items.len())?;
    for place in 0..items.len() {
        let Some(p) = told_by(from, &items[place]) else {
            return Ok(up_to(learned, place));
        };
        match learn(names, &p) {
            Ok(()) => learned.push_reserved(p),
            Err(Unfit::Bad) => return Ok(up_to(learned, place)),
            Err(Unfit::NoMemory) => {
                take_back(names, from, learned);
                return Err(NoMemory);
            }
        }
    }
    Ok(whole(learned))
}

/// Forgets the publication that a peer's withdrawal names: None exactly where it doesn't fit.
fn forget<N: Names>(names: &mut N, from: Addr, item: &Item) -> Option<Publication>
    ensures held { result ≡ held_as from.word (N.table names.old) item.now }
    ensures after { IfSome result (λ p. N.table names.new ≡ without from.word item.now.key (N.table names.old)) }
    ensures none { IfNone result (N.table names.new ≡ N.table names.old) }
{
    if item.lower > item.upper {
        return None;
    }
    match names.withdraw(from, item.key) {
        Ok(p) => Some(p),
        Err(_) => None,
    }
}

/// Forgets the publications that a peer's withdrawals name, one after the other, up to the first that doesn't fit.
fn forget_all<N: Names>(
    alloc: Global,
    names: &mut N,
    from: Addr,
    items: &[Item],
) -> Result<Front, NoMemory>
    requires few { length items.now ≤ 70 }
    ensures ok { IfOk result (λ front. forgotten_from from.word (N.table names.old) items.now ≡
        record { table = N.table names.new; publications = front.publications; bad = front.bad }) }
    ensures err { OnErr result (N.table names.new ≡ N.table names.old) }
{
    let mut forgotten = Vec::with_capacity(alloc, items.len())?;
    for place in 0..items.len() {
        match forget(names, from, &items[place]) {
            Some(p) => forgotten.push_reserved(p),
            None => return Ok(up_to(forgotten, place)),
        }
    }
    Ok(whole(forgotten))
}

/// Applies a peer's message to a name table, one item after the other, up to the first that doesn't fit.
fn apply_front<N: Names>(
    alloc: Global,
    names: &mut N,
    from: Addr,
    message: &Message,
) -> Result<AppliedFront, NoMemory>
    requires node { IsNodeWord from.word }
    requires few { length (items_in message.now) ≤ 70 }
    ensures ok { IfOk result (λ front. (ps : List Publication) ×
        (applied from.word (N.table names.old) message.now ≡
        record { table = N.table names.new; publications = ps; bad = front.bad }) ×
        (front.learnt ≡ learnt_of message.now ps)) }
    ensures err { OnErr result (N.table names.new ≡ N.table names.old) }
{
    let Message::Items { withdrawal, items } = message else {
        return Ok(AppliedFront {
            learnt: Learnt::Learned(List::new(alloc)),
            bad: None,
        });
    };
    if *withdrawal {
        let front = forget_all(alloc, names, from, items.as_slice())?;
        return Ok(AppliedFront {
            learnt: Learnt::Forgot(front.publications),
            bad: front.bad,
        });
    }
    let front = learn_all(alloc, names, from, items.as_slice())?;
    Ok(AppliedFront {
        learnt: Learnt::Learned(front.publications),
        bad: front.bad,
    })
}

/// Applies a peer's message of at most 70 items to a name table, one item after the other: its publications are
/// learned, at ports of the peer and as seen in the cluster, or forgotten. A user's message has no items. (TIPC 2.0
/// draft, name distributor.)
///
/// # Errors
///
/// `BadItem` with the place of the first item that doesn't fit, those before it being applied; `NoMemory` where
/// memory runs out, which changes nothing.
pub fn apply<N: Names>(
    alloc: Global,
    names: &mut N,
    from: Addr,
    message: &Message,
) -> Result<Learnt, ItemFault>
    requires node { IsNodeWord from.word }
    requires few { length (items_in message.now) ≤ 70 }
    ensures ok { IfOk result (λ learnt.
        (learnt ≡ learnt_of message.now (applied from.word (N.table names.old) message.now).publications) ×
        ((applied from.word (N.table names.old) message.now).bad ≡ None) ×
        (N.table names.new ≡ (applied from.word (N.table names.old) message.now).table)) }
    ensures bad { (place : ℕ) → result ≡ Err (ItemFault.BadItem place) →
        ((applied from.word (N.table names.old) message.now).bad ≡ Some place) ×
        (N.table names.new ≡ (applied from.word (N.table names.old) message.now).table) }
    ensures err { result ≡ Err ItemFault.NoMemory → N.table names.new ≡ N.table names.old }
{
    let front = apply_front(alloc, names, from, message)?;
    match front.bad {
        Some(place) => Err(ItemFault::BadItem { place }),
        None => Ok(front.learnt),
    }
}
