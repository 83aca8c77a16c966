//! Tests of the table of states: tables of calls and of what they change.

use std::process::Abort;
use std::test::Fail;
use tipc_link_fsm::{Change, LinkFsm};
use tipc_types::{Cause, LinkState, Reply, Why};

/// The first epoch of boot 1, and the last one.
const OWN: u64 = 4_294_967_297;

const LAST: u64 = 8_589_934_591;

/// The first two epochs of boot 2, of a peer.
const PEER: u64 = 8_589_934_593;

const PEER_NEXT: u64 = 8_589_934_594;

/// A call at a link end, with its epochs, the peer's first, and whether the pair's other link is up.
enum Call {
    Tick(bool),
    Reset(u64, bool),
    Activate(u64, u64),
    Traffic(u64, u64),
    PeerTunnel(u64),
    Release,
    ContactEnded,
    ForgetPeer,
    Cut(bool),
}

/// A call, what it changes, and the state behind it.
type Row = (Call, Change, LinkState);

/// What a call changes.
fn changed(end: &mut LinkFsm, call: &Call) -> Change {
    match call {
        Call::Tick(held) => end.on_tick(*held),
        Call::Reset(es, held) => end.on_reset(*es, *held),
        Call::Activate(es, er) => end.on_activate(*es, *er),
        Call::Traffic(es, er) => end.on_traffic(*es, *er),
        Call::PeerTunnel(epoch) => end.on_peer_tunnel(*epoch),
        Call::Release => end.release(),
        Call::ContactEnded => end.contact_ended(),
        Call::ForgetPeer => end.forget_peer(),
        Call::Cut(held) => end.on_cut(*held),
    }
}

/// These calls, one after another, change what they should.
fn all_change(rt: &impl Abort, end: &mut LinkFsm, rows: &[Row]) {
    for (call, change, state) in rows {
        let told = changed(end, call);
        assert!(rt; told == *change);
        assert!(rt; end.state() == *state);
    }
}

/// The end has this epoch, knows this one of the peer, and was silent for so many ticks.
fn knows(rt: &impl Abort, end: &LinkFsm, own: u64, peer: Option<u64>, silent: u8) {
    assert!(rt; end.own() == own);
    assert!(rt; end.peer() == peer);
    assert!(rt; end.silent() == silent);
}

/// It goes up by a RESET and traffic.
static UP: [Row; 11] = [
    (
        Call::Tick(false),
        Change::Answer(Reply::Reset),
        LinkState::ResetUnknown,
    ),
    (
        Call::Traffic(PEER, OWN),
        Change::Ignore(Why::Epoch),
        LinkState::ResetUnknown,
    ),
    (
        Call::Reset(PEER, false),
        Change::Answer(Reply::Activate),
        LinkState::ResetReset,
    ),
    (
        Call::Tick(false),
        Change::Answer(Reply::Activate),
        LinkState::ResetReset,
    ),
    (
        Call::Activate(PEER, OWN + 1),
        Change::Ignore(Why::Epoch),
        LinkState::ResetReset,
    ),
    (
        Call::Traffic(PEER, OWN),
        Change::Up,
        LinkState::WorkingWorking,
    ),
    (
        Call::Reset(PEER, false),
        Change::Ignore(Why::Epoch),
        LinkState::WorkingWorking,
    ),
    (
        Call::Tick(false),
        Change::Answer(Reply::State { probe: false }),
        LinkState::WorkingWorking,
    ),
    (
        Call::Tick(false),
        Change::Answer(Reply::State { probe: true }),
        LinkState::WorkingUnknown,
    ),
    (
        Call::Activate(PEER, OWN),
        Change::Stay,
        LinkState::WorkingWorking,
    ),
    (
        Call::Traffic(PEER, OWN),
        Change::Stay,
        LinkState::WorkingWorking,
    ),
];

/// It falls silent while the other link is up.
static SILENT: [Row; 5] = [
    (
        Call::Tick(true),
        Change::Answer(Reply::State { probe: false }),
        LinkState::WorkingWorking,
    ),
    (
        Call::Tick(true),
        Change::Answer(Reply::State { probe: true }),
        LinkState::WorkingUnknown,
    ),
    (
        Call::Tick(true),
        Change::Answer(Reply::State { probe: true }),
        LinkState::WorkingUnknown,
    ),
    (
        Call::Tick(true),
        Change::Answer(Reply::State { probe: true }),
        LinkState::WorkingUnknown,
    ),
    (
        Call::Tick(true),
        Change::Down(Cause::Silent),
        LinkState::Held,
    ),
];

#[test]
fn an_end_goes_up_is_heard_and_falls_silent(rt: HostRuntime) {
    let mut end = LinkFsm::new(OWN);
    assert!(rt; end.state() == LinkState::ResetUnknown);
    all_change(&rt, &mut end, &UP);
    knows(&rt, &end, OWN, Some(PEER), 0);
    all_change(&rt, &mut end, &SILENT);
    assert!(rt; end.own() == OWN + 1);
}

/// It goes down by a tunnel packet of the peer's other end, and is let go.
static HELD: [Row; 8] = [
    (
        Call::Activate(PEER_NEXT, OWN),
        Change::Up,
        LinkState::WorkingWorking,
    ),
    (
        Call::PeerTunnel(PEER),
        Change::Stay,
        LinkState::WorkingWorking,
    ),
    (
        Call::PeerTunnel(PEER_NEXT),
        Change::Down(Cause::PeerTunnel),
        LinkState::Held,
    ),
    (
        Call::Reset(PEER_NEXT, true),
        Change::Ignore(Why::Held),
        LinkState::Held,
    ),
    (
        Call::Activate(PEER_NEXT, OWN + 1),
        Change::Ignore(Why::Held),
        LinkState::Held,
    ),
    (Call::Tick(true), Change::Stay, LinkState::Held),
    (
        Call::Release,
        Change::Answer(Reply::Reset),
        LinkState::ResetUnknown,
    ),
    (Call::Release, Change::Stay, LinkState::ResetUnknown),
];

/// It goes up again, the peer resets it, and the contact ends.
static RESET: [Row; 5] = [
    (
        Call::Reset(PEER, false),
        Change::Ignore(Why::Epoch),
        LinkState::ResetUnknown,
    ),
    (
        Call::Activate(PEER_NEXT, OWN + 1),
        Change::Up,
        LinkState::WorkingWorking,
    ),
    (
        Call::Reset(PEER_NEXT + 1, false),
        Change::Down(Cause::PeerReset),
        LinkState::ResetUnknown,
    ),
    (
        Call::ContactEnded,
        Change::Answer(Reply::Reset),
        LinkState::ResetUnknown,
    ),
    (
        Call::Reset(PEER_NEXT + 1, false),
        Change::Answer(Reply::Activate),
        LinkState::ResetReset,
    ),
];

/// The peer is forgotten.
static FORGOTTEN: [Row; 2] = [
    (Call::ForgetPeer, Change::Stay, LinkState::ResetUnknown),
    (Call::Cut(false), Change::Stay, LinkState::ResetUnknown),
];

/// It goes up once more and is cut.
static CUT: [Row; 2] = [
    (
        Call::Activate(PEER_NEXT + 1, OWN + 3),
        Change::Up,
        LinkState::WorkingWorking,
    ),
    (
        Call::Cut(false),
        Change::Down(Cause::Cut),
        LinkState::ResetUnknown,
    ),
];

/// It goes up once more, and the contact ends.
static ENDED: [Row; 2] = [
    (
        Call::Activate(PEER_NEXT + 1, OWN + 3),
        Change::Up,
        LinkState::WorkingWorking,
    ),
    (
        Call::ContactEnded,
        Change::Down(Cause::ContactEnded),
        LinkState::ResetUnknown,
    ),
];

#[test]
fn an_end_is_held_released_reset_and_parted(rt: HostRuntime) -> Result<(), Fail> {
    let mut end = LinkFsm::new(OWN);
    all_change(&rt, &mut end, &HELD);
    knows(&rt, &end, OWN + 1, Some(PEER_NEXT), 0);
    all_change(&rt, &mut end, &RESET);
    knows(&rt, &end, OWN + 3, Some(PEER_NEXT + 1), 0);
    all_change(&rt, &mut end, &FORGOTTEN);
    knows(&rt, &end, OWN + 3, None, 0);
    all_change(&rt, &mut end.copy()?, &CUT);
    all_change(&rt, &mut end, &ENDED);
    Ok(())
}

/// An end in the last epoch of its boot goes up by nothing, and stays in it.
static LAST_EPOCH: [Row; 4] = [
    (
        Call::Activate(PEER, LAST),
        Change::Ignore(Why::Epoch),
        LinkState::ResetUnknown,
    ),
    (
        Call::Reset(PEER, false),
        Change::Answer(Reply::Activate),
        LinkState::ResetReset,
    ),
    (
        Call::Traffic(PEER, LAST),
        Change::Ignore(Why::Epoch),
        LinkState::ResetReset,
    ),
    (
        Call::ContactEnded,
        Change::Answer(Reply::Reset),
        LinkState::ResetUnknown,
    ),
];

#[test]
fn the_last_epoch_of_a_boot_isnt_taken_up(rt: HostRuntime) {
    let mut end = LinkFsm::new(LAST);
    all_change(&rt, &mut end, &LAST_EPOCH);
    assert!(rt; end.own() == LAST);
}
