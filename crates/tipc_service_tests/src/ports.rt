//! Tests of ports: they are made and closed, and no number comes twice.

use std::process::Abort;
use std::test::Fail;
use tipc_ports::*;

/// A call at ports, and what it answers.
enum Call {
    /// The ports 1 to 256 are made.
    Fill,
    /// The number of the port that is made.
    Make(Result<u32, PortFault>),
    /// A port is closed, or there is none of this number.
    Close(u32, bool),
    /// Whether there is a port of this number.
    Has(u32, bool),
}

/// This is the number of the port that is made.
fn makes(rt: &impl Abort, ports: &mut Ports, answer: Result<u32, PortFault>) {
    assert!(rt; ports.make() == answer);
}

/// The ports 1 to 256 are made.
fn fills(rt: &impl Abort, ports: &mut Ports) {
    for number in 1..=256 {
        makes(rt, ports, Ok(number));
    }
}

/// A port is closed, or there is none of this number.
fn closes(rt: &impl Abort, ports: &mut Ports, port: u32, is_there: bool) {
    assert!(rt; ports.close(port).is_ok() == is_there);
}

/// One call answers as it should.
fn answers(rt: &impl Abort, ports: &mut Ports, call: &Call) {
    match call {
        Call::Fill => fills(rt, ports),
        Call::Make(answer) => makes(rt, ports, *answer),
        Call::Close(port, is_there) => closes(rt, ports, *port, *is_there),
        Call::Has(port, is_there) => assert!(rt; ports.has(*port) == *is_there),
    }
}

/// These calls, one after another, answer as they should.
fn all_answer(rt: &impl Abort, ports: &mut Ports, calls: &[Call]) {
    for call in calls {
        answers(rt, ports, call);
    }
}

/// These calls, one after another, answer as they should at a copy of ports.
fn all_answer_at_a_copy(rt: &impl Abort, ports: &Ports, calls: &[Call]) -> Result<(), Fail> {
    let mut copy = ports.copy()?;
    all_answer(rt, &mut copy, calls);
    Ok(())
}

/// Calls at the ports of a boot, at a copy of them, and then at the ports, answer as they should.
fn go_on(
    rt: &impl Abort,
    mut ports: Ports,
    first: &[Call],
    at_a_copy: &[Call],
    then: &[Call],
) -> Result<(), Fail> {
    all_answer(rt, &mut ports, first);
    all_answer_at_a_copy(rt, &ports, at_a_copy)?;
    all_answer(rt, &mut ports, then);
    Ok(())
}

/// The ports 1 to 256 are made, and one of them is closed.
static FULL: [Call; 8] = [
    Call::Fill,
    Call::Make(Err(PortFault::Full)),
    Call::Close(1, true),
    Call::Close(1, false),
    Call::Make(Ok(257)),
    Call::Has(2, true),
    Call::Has(257, true),
    Call::Has(1, false),
];

/// At a copy of them.
static AT_A_COPY: [Call; 3] = [
    Call::Close(2, true),
    Call::Make(Ok(258)),
    Call::Has(2, false),
];

/// At those that were copied.
static COPIED: [Call; 2] = [Call::Has(2, true), Call::Has(258, false)];

#[test]
fn ports_are_made_and_closed(rt: HostRuntime) -> Result<(), Fail> {
    let ports = Ports::new(rt.alloc(), 1);
    go_on(&rt, ports, &FULL, &AT_A_COPY, &COPIED)
}

/// A boot, and the number of its first port.
static BOOTS: [(u32, &[Call]); 6] = [
    (1, &[Call::Make(Ok(1))]),
    (2, &[Call::Make(Ok(1_048_577))]),
    (3, &[Call::Make(Ok(2_097_153))]),
    (4_096, &[Call::Make(Ok(4_293_918_721))]),
    (4_097, &[Call::Make(Ok(1))]),
    (4_294_967_295, &[Call::Make(Ok(4_292_870_145))]),
];

#[test]
fn each_boot_has_other_numbers(rt: HostRuntime) -> Result<(), Fail> {
    for (boot, calls) in &BOOTS {
        assert!(rt; *boot != 0);
        go_on(&rt, Ports::new(rt.alloc(), *boot), calls, &[], &[])?;
    }
    Ok(())
}
