//! Moments in a snapshot: a process that a socket is handed over to has another clock, so they count in
//! milliseconds from the moment at which the snapshot is made.

ghost use Rattle.std.specs.Prelude.{◌≡◌};
ghost use Rattle.dcsctp_types.specs.Lifetimes.{millis_ahead, millis_since, moment_ahead, moment_before};

use crate::time::SocketTime;
use std::time::Duration;

// A millisecond in nanoseconds.
const MILLISECOND: u128 = 1_000_000;

// The greatest number of 32 bits with a sign.
const GREATEST: u128 = 0x7fff_ffff;

/// How many milliseconds the moment is after `now`, rounded down. For a moment that is over it is negative,
/// with the distance rounded up, so that it stays over. Both stop at the least and the greatest `i32`.
pub fn millis_ahead(now: SocketTime, moment: SocketTime) -> i32
    ensures { result ≡ millis_ahead now moment }
{
    let now = now.as_nanos();
    let moment = moment.as_nanos();
    if moment < now {
        let behind = (now - moment - 1) / MILLISECOND;
        -1 - behind.min(GREATEST) as i32
    } else {
        let ahead = (moment - now) / MILLISECOND;
        ahead.min(GREATEST) as i32
    }
}

/// The moment that many milliseconds after `now`, or before it if they are negative. It isn't before moment
/// zero, and not after the last one.
pub fn moment_at(now: SocketTime, millis: i32) -> SocketTime
    ensures { result ≡ moment_ahead now millis }
{
    let distance = Duration::from_millis(u64::from(millis.unsigned_abs()));
    if millis < 0 {
        now - distance
    } else {
        now + distance
    }
}

/// How many milliseconds ago the moment was, rounded down. It stops at the greatest `i32`, and a moment ahead
/// of `now` was 0 ago.
pub fn millis_since(now: SocketTime, moment: SocketTime) -> i32
    ensures { result ≡ millis_since now moment }
{
    let since = now.as_nanos().saturating_sub(moment.as_nanos()) / MILLISECOND;
    since.min(GREATEST) as i32
}

/// The moment so many milliseconds ago, not before moment zero. A number below 0 counts as 0.
pub fn moment_before(now: SocketTime, millis: i32) -> SocketTime
    ensures { result ≡ moment_before now millis }
{
    if millis < 0 {
        return now;
    }
    now - Duration::from_millis(u64::from(millis.unsigned_abs()))
}
