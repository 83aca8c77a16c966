//! Tests of the numbers of a contact.

use tipc_contact::{Contact, Standing};

/// The number that is shown, how it stands, and the highest seen then.
static SHOWN: [(u64, Standing, u64); 5] = [
    (0, Standing::Same, 0),
    (4_294_967_298, Standing::Higher, 4_294_967_298),
    (4_294_967_297, Standing::Lower, 4_294_967_298),
    (4_294_967_298, Standing::Same, 4_294_967_298),
    (8_589_934_593, Standing::Higher, 8_589_934_593),
];

#[test]
fn numbers_that_a_peer_shows(rt: HostRuntime) {
    let mut contact = Contact::new(1);
    assert!(rt; contact.own == 4_294_967_297 && contact.seen == 0);
    for (number, standing, seen) in &SHOWN {
        let told = contact.show(*number);
        assert!(rt; told == *standing);
        assert!(rt; contact.seen == *seen);
    }
}
