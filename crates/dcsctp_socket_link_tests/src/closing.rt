//! Associations that are shut down (RFC 9260, section 9.2) while messages are in flight: all that were sent
//! arrive, and each end closes once, whatever is lost.

use crate::run::{Closing, PLAIN};
use crate::simulation::closes;

#[test]
fn an_association_is_shut_down_over_a_bad_link(rt: HostRuntime) {
    for (name, closing, interleaving) in [
        ("shut down by one, DATA", Closing::ByOne, false),
        ("shut down by one, I-DATA", Closing::ByOne, true),
        ("shut down by both, DATA", Closing::ByBoth, false),
        ("shut down by both, I-DATA", Closing::ByBoth, true),
    ] {
        for seed in 0..20 {
            let mut run = PLAIN;
            run.name = name;
            run.seed = seed;
            run.faults = (seed % 4) as u32 * 10;
            run.interleaving = interleaving;
            run.closing = closing;
            closes(&rt, rt.alloc(), &run);
        }
    }
}

// The numbers count the packets of A and of B from the shutdown on; 0 means none. The last messages are in
// flight then, so that some packets carry DATA and SACKs.
#[test]
fn each_packet_of_a_shutdown_may_be_lost_and_any_two(rt: HostRuntime) {
    for closing in [Closing::ByOne, Closing::ByBoth] {
        for first in 0..8 {
            for second in first..8 {
                for lost in [
                    [[first, second], [0, 0]],
                    [[first, 0], [second, 0]],
                    [[second, 0], [first, 0]],
                    [[0, 0], [first, second]],
                ] {
                    let mut run = PLAIN;
                    run.name = "a packet or two are lost";
                    run.longest = 200;
                    run.closing = closing;
                    run.lost = lost;
                    closes(&rt, rt.alloc(), &run);
                }
            }
        }
    }
}
