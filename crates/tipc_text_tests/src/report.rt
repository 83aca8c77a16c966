//! Tests of texts that no script asks for.

use std::test::Fail;
use tipc_report::{Told, print};
use tipc_types::{Addr, Answer, Arrival, LinkState, PeerLinks, Sequence, Why};

/// Links to two peers: one is silent on bearer 0 and held on bearer 1, and one is down on bearer 1 alone.
const LINKS: [PeerLinks; 2] = [
    PeerLinks {
        peer: Addr { word: 0x0100_1001 },
        first: Some(LinkState::WorkingUnknown),
        second: Some(LinkState::Held),
    },
    PeerLinks {
        peer: Addr { word: 0x0100_1020 },
        first: None,
        second: Some(LinkState::ResetReset),
    },
];

#[test]
fn links_have_a_letter_for_each_bearer(rt: HostRuntime) -> Result<(), Fail> {
    let peers = Sequence::from_slice(rt.alloc(), &LINKS)?;
    let mut report = Vec::new(rt.alloc());
    print(2, &Told::Links(peers), &mut report)?;
    assert!(rt; report.as_slice() == b"2 links 1:WH 32:-R\n".as_slice());
    Ok(())
}

#[test]
fn the_number_of_a_header_fault_is_told(rt: HostRuntime) -> Result<(), Fail> {
    let unread = Answer::Arrived(Arrival::Ignored(Why::Header(17)));
    let mut report = Vec::new(rt.alloc());
    print(3, &Told::Answer(unread), &mut report)?;
    assert!(rt; report.as_slice() == b"3 ignored header 17\n".as_slice());
    Ok(())
}
