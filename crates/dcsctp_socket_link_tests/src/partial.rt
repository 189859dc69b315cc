//! Messages that are abandoned (RFC 3758): those that arrive do so once, whole and in order. The reliable
//! ones among them, such as the last of each stream, aren't held up.

use crate::run::{Effort, PLAIN};
use crate::simulation::runs_each;

#[test]
fn messages_that_are_given_up_hold_nothing_up(rt: HostRuntime) {
    let once = [Effort::SentOnce; 4];
    let lifetime = [Effort::Lifetime; 4];
    let mixed = [
        Effort::SentOnce,
        Effort::Reliable,
        Effort::Lifetime,
        Effort::SentTwice,
    ];
    for (name, efforts, has_unordered, interleaving) in [
        ("sent once", once, false, false),
        ("sent once, I-DATA", once, false, true),
        ("a lifetime", lifetime, false, false),
        ("a lifetime, I-DATA", lifetime, false, true),
        ("mixed", mixed, true, false),
        ("mixed, I-DATA", mixed, true, true),
    ] {
        let mut run = PLAIN;
        run.name = name;
        run.efforts = efforts;
        run.has_unordered = has_unordered;
        run.interleaving = interleaving;
        runs_each(&rt, rt.alloc(), &run);
    }
}
