//! Timers and the retransmission timeout.

use crate::api::checks::same;
use dcsctp_api::types::{Options, SocketTime};
use dcsctp_send_timer::BackoffAlgorithm::{self, Exponential, Fixed};
use dcsctp_send_timer::{RetransmissionTimeout, Timer};
use dcsctp_testing::{Row, Takes, run_steps};
use std::process::Abort;
use std::time::Duration;

/// One step of a timer. Times are in milliseconds.
#[derive(Clone, Copy)]
enum Step {
    /// A new timer instead of the old one: how long it runs, and how it backs off. Then how often at most,
    /// and its longest wait.
    Begins(u64, BackoffAlgorithm, Option<u32>, Option<u64>),

    /// It starts at this moment.
    Starts(u64),

    /// It starts at the last moment.
    StartsLast,

    /// It runs for that long from its next start on.
    Lasts(u64),

    /// It stops.
    Stops,

    /// Does it expire at this moment?
    Expires(u64, bool),

    /// When it expires next, in nanoseconds; if it doesn't run, never.
    Next(Option<u128>),
}

// The moment that many milliseconds after the first.
fn at(millis: u64) -> SocketTime {
    SocketTime::zero() + Duration::from_millis(millis)
}

// A timer that doesn't run.
fn begun(millis: u64, backoff: BackoffAlgorithm, most: Option<u32>, longest: Option<u64>) -> Timer {
    let longest = match longest {
        Some(millis) => Some(Duration::from_millis(millis)),
        None => None,
    };
    Timer::new(Duration::from_millis(millis), backoff, most, longest)
}

/// Asserts when the timer expires next, and whether it runs.
fn expires_next(row: &mut Row, timer: &Timer, expected: Option<u128>) {
    let next = match timer.next_expiry() {
        Some(moment) => Some(moment.as_nanos()),
        None => None,
    };
    let found = (next, timer.is_running());
    row.same(found, (expected, expected.is_some()));
}

// One match for all: each arm is one call.
impl Takes<Step> for Timer {
    fn take(&mut self, row: &mut Row, step: Step) {
        match step {
            Step::Begins(millis, backoff, most, longest) => {
                *self = begun(millis, backoff, most, longest)
            }
            Step::Starts(millis) => self.start(at(millis)),
            Step::StartsLast => self.start(SocketTime::infinite_future()),
            Step::Lasts(millis) => self.set_duration(Duration::from_millis(millis)),
            Step::Stops => self.stop(),
            Step::Expires(millis, expires) => row.same(self.expire(at(millis)), expires),
            Step::Next(nanos) => expires_next(row, self, nanos),
        }
    }
}

static STEPS: [(&str, Step); 40] = [
    // A timer runs from its start to its stop.
    ("new", Step::Begins(1000, Exponential, Some(8), None)),
    ("new", Step::Next(None)),
    ("the first moment", Step::Starts(0)),
    ("the first moment", Step::Next(Some(1_000_000_000))),
    ("later", Step::Starts(2000)),
    ("later", Step::Next(Some(3_000_000_000))),
    ("the last moment", Step::StartsLast),
    (
        "the last moment",
        Step::Next(Some(18_446_744_073_709_551_615_999_999_999)),
    ),
    ("stopped", Step::Stops),
    ("stopped", Step::Next(None)),
    // It backs off, and stops.
    (
        "two restarts",
        Step::Begins(1000, Exponential, Some(2), None),
    ),
    ("not started", Step::Expires(5000, false)),
    ("not started", Step::Next(None)),
    ("early", Step::Starts(0)),
    ("early", Step::Expires(999, false)),
    ("early", Step::Next(Some(1_000_000_000))),
    ("first", Step::Lasts(2000)),
    ("first", Step::Expires(1000, true)),
    ("first", Step::Next(Some(3_000_000_000))),
    ("second, late", Step::Expires(3500, true)),
    ("second, late", Step::Next(Some(7_500_000_000))),
    ("third, early", Step::Expires(7499, false)),
    ("third, early", Step::Next(Some(7_500_000_000))),
    ("third", Step::Expires(7500, true)),
    ("third", Step::Next(None)),
    ("started again", Step::Starts(0)),
    ("started again", Step::Expires(1999, false)),
    ("started again", Step::Next(Some(2_000_000_000))),
    // A bound cuts each wait but the first.
    ("bounded", Step::Begins(1000, Exponential, None, Some(700))),
    ("bounded", Step::Starts(0)),
    ("bounded, first", Step::Expires(1000, true)),
    ("bounded, first", Step::Next(Some(1_700_000_000))),
    ("bounded, second", Step::Expires(1700, true)),
    ("bounded, second", Step::Next(Some(2_400_000_000))),
    // A fixed wait is unchanged.
    ("fixed", Step::Begins(1000, Fixed, Some(1), None)),
    ("fixed", Step::Starts(0)),
    ("fixed, first", Step::Expires(1000, true)),
    ("fixed, first", Step::Next(Some(2_000_000_000))),
    ("fixed, second", Step::Expires(2000, true)),
    ("fixed, second", Step::Next(None)),
];

#[test]
fn timers_run_back_off_and_stop(rt: HostRuntime) {
    let mut timer = Timer::new(Duration::ZERO, Fixed, None, None);
    if let Err(fault) = run_steps(rt.alloc(), &mut timer, &STEPS) {
        rt.panic(fault);
    }
}

/// A name, and whether a new timeout is used. Then the next round trip, and the smoothed one and the timeout
/// after it, all in microseconds.
type Measurement = (&'static str, bool, u64, u64, u64);

/// Goes through the measurements with timeouts of these options.
fn are_measured(rt: &impl Abort, options: &Options, rows: &[Measurement]) {
    let mut timeout = RetransmissionTimeout::new(options);
    for (name, is_new, rtt, srtt, rto) in rows {
        if *is_new {
            timeout = RetransmissionTimeout::new(options);
        }
        timeout.observe_rto(Duration::from_micros(*rtt));
        let expected = (Duration::from_micros(*srtt), Duration::from_micros(*rto));
        same(rt, name, (timeout.srtt(), timeout.rto()), expected);
    }
}

#[rattlefmt::skip]
static MEASUREMENTS: [Measurement; 11] = [
    // RFC 9260, section 6.3.1, by hand. The variances are 50 ms, 87.5 ms, 87.5 ms and 15,034.375 ms.
    ("100 ms", true, 100_000, 100_000, 400_000),
    ("300 ms", false, 300_000, 125_000, 475_000),
    ("above the greatest, which is not counted", false, 60_000_001, 125_000, 475_000),
    ("the greatest", false, 60_000_000, 7_609_375, 60_000_000),
    ("steady, first", true, 1_000_000, 1_000_000, 3_000_000),
    ("steady, second", false, 1_000_000, 1_000_000, 2_500_000),
    // Variances of 150, 112.5, 84.375, 63.28125 and 47.4609375 ms: four of the last would be less than 220 ms.
    ("four variances, first", true, 300_000, 300_000, 900_000),
    ("four variances, second", false, 300_000, 300_000, 750_000),
    ("four variances, third", false, 300_000, 300_000, 637_500),
    ("four variances, fourth", false, 300_000, 300_000, 553_125),
    ("four variances are never short", false, 300_000, 300_000, 520_000),
];

#[test]
fn a_timeout_follows_its_round_trips(rt: HostRuntime) {
    let options = Options::default();
    let timeout = RetransmissionTimeout::new(&options);
    let half = Duration::from_millis(500);
    same(
        &rt,
        "at first",
        (timeout.rto(), timeout.srtt()),
        (half, half),
    );
    are_measured(&rt, &options, &MEASUREMENTS);
}

// The least is above the greatest.
static CUT: [Measurement; 1] = [("a millisecond", true, 1_000, 1_000, 2_000_000)];

// Raised to the least, and then cut to the greatest. A fraction of a nanosecond is dropped.
#[test]
fn a_timeout_has_bounds(rt: HostRuntime) {
    let mut options = Options::default();
    options.rto_min = Duration::from_secs(3);
    options.rto_max = Duration::from_secs(2);
    are_measured(&rt, &options, &CUT);
    let mut small = RetransmissionTimeout::new(&Options::default());
    small.observe_rto(Duration::from_nanos(3));
    small.observe_rto(Duration::from_nanos(10));
    same(&rt, "31 by 8", small.srtt(), Duration::from_nanos(3));
}
