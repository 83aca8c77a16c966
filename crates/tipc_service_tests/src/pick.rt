//! Tests of choosing, by a closure and one after another.

ghost use Rattle.std.specs.Prelude.{◌≡◌, ◌≤◌, ◌%◌};

use std::process::Abort;
use std::test::Fail;
use tipc_pick::*;

/// What is chosen of three at one turn after another, and of ten at the last turn that there is.
fn chosen<P: Pick + Drop>(rt: &impl Abort, chooser: &mut Chooser<P>, places: &[u64]) {
    for place in places {
        let choice = chooser.choose(3);
        assert!(rt; choice == *place);
        chooser.advance();
    }
    assert!(rt; chooser.choose_at(u64::MAX, 10) == 5);
}

#[test]
fn a_closure_is_asked_at_each_turn(rt: HostRuntime) -> Result<(), Fail> {
    let pick = Box::new(
        rt.alloc(),
        |turn: u64, count: u64| -> u64
            requires { 1 ≤ count }
            ensures { result ≡ turn % count }
        { turn % count },
    )?;
    let mut chooser = Chooser::new(StoredPick::new(pick));
    chosen(&rt, &mut chooser, &[0, 1, 2, 0]);
    chosen(&rt, &mut chooser.again(), &[0, 1]);
    chosen(&rt, &mut chooser, &[1]);
    Ok(())
}

#[test]
fn one_after_another_is_chosen(rt: HostRuntime) {
    chosen(&rt, &mut Chooser::new(RoundRobin), &[0, 1, 2, 0]);
}
