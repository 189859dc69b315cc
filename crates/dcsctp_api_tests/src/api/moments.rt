//! Moments, and the durations between them.

use crate::api::checks::same;
use crate::api::identifiers::greater;
use dcsctp_api::{SocketTime, socket_time_order};
use std::time::Duration;

const LAST_NANOS: u128 = 18_446_744_073_709_551_615_999_999_999;

#[test]
fn moments_stop_at_both_ends(rt: HostRuntime) {
    let second = Duration::from_secs(1);
    let zero = SocketTime::zero();
    let last = SocketTime::infinite_future();
    same(&rt, "the last in nanoseconds", last.as_nanos(), LAST_NANOS);
    let moments = (last + second, zero - second);
    same(&rt, "a second beyond an end", moments, (last, zero));
    let durations = (zero - last, last - zero);
    same(
        &rt,
        "from end to end",
        durations,
        (Duration::ZERO, Duration::MAX),
    );
}

#[test]
fn moments_are_counted_in_nanoseconds(rt: HostRuntime) {
    let early = SocketTime::zero() + Duration::from_millis(1500);
    let late = early + Duration::from_nanos(1);
    let before = late - Duration::from_secs(1);
    let nanos = (early.as_nanos(), before.as_nanos());
    same(
        &rt,
        "early, late less a second",
        nanos,
        (1_500_000_000, 500_000_001),
    );
    same(&rt, "between", late - early, Duration::from_nanos(1));
    let compared = (early < late, greater(late, early));
    same(&rt, "early is before late", compared, (true, late));
    socket_time_order();
}
