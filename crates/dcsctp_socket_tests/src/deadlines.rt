//! The list of deadlines by its calls: three deadlines, in each order of their moments.

use dcsctp_core::api::SocketTime;
use dcsctp_core::{DeadlineKind, Deadlines};
use std::time::Duration;

fn at(millis: u64) -> SocketTime {
    SocketTime::zero() + Duration::from_millis(millis)
}

// The first deadline of an empty list, and once each of three kinds was added.
fn firsts_of(delay: u64, retransmission: u64, heartbeat: u64) -> [Option<SocketTime>; 4] {
    let mut deadlines = Deadlines::new();
    let none = deadlines.first();
    deadlines.add(DeadlineKind::AcknowledgementDelay, Some(at(delay)));
    let one = deadlines.first();
    deadlines.add(DeadlineKind::Retransmission, Some(at(retransmission)));
    let two = deadlines.first();
    deadlines.add(DeadlineKind::HeartbeatInterval, Some(at(heartbeat)));
    [none, one, two, deadlines.first()]
}

// The moment of each kind, and the first deadline once it is added.
const ORDERS: [(&str, [u64; 3], [u64; 3]); 6] = [
    (
        "delay, retransmission, heartbeat",
        [10, 20, 30],
        [10, 10, 10],
    ),
    (
        "delay, heartbeat, retransmission",
        [10, 30, 20],
        [10, 10, 10],
    ),
    (
        "retransmission, delay, heartbeat",
        [20, 10, 30],
        [20, 10, 10],
    ),
    (
        "retransmission, heartbeat, delay",
        [30, 10, 20],
        [30, 10, 10],
    ),
    (
        "heartbeat, delay, retransmission",
        [20, 30, 10],
        [20, 20, 10],
    ),
    (
        "heartbeat, retransmission, delay",
        [30, 20, 10],
        [30, 20, 10],
    ),
];

#[test]
fn first_deadline_is_the_earliest(rt: HostRuntime) {
    for (name, moments, firsts) in ORDERS {
        let found = firsts_of(moments[0], moments[1], moments[2]);
        assert_eq!(rt; found[0], None, "{name}");
        for index in 0..3 {
            assert_eq!(rt; found[index + 1], Some(at(firsts[index])), "{name}");
        }
    }
}

#[test]
fn timer_that_does_not_run_has_no_deadline(rt: HostRuntime) {
    let mut deadlines = Deadlines::new();
    deadlines.add(DeadlineKind::AcknowledgementDelay, Some(at(20)));
    deadlines.add(DeadlineKind::Retransmission, None);
    deadlines.add(DeadlineKind::HeartbeatInterval, Some(at(30)));
    assert_eq!(rt; deadlines.first(), Some(at(20)));
    deadlines.clear();
    assert_eq!(rt; deadlines.first(), None);
}
