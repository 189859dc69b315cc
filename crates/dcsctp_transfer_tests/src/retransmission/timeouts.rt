//! The retransmission timeout, sample by sample.

use dcsctp_send_retransmission::send_timer::RetransmissionTimeout;
use dcsctp_send_retransmission::types::Options;
use std::process::Abort;
use std::time::Duration;

// A sample, and the timeout and the smoothed round trip after it, in nanoseconds.
type Sample = (u64, u128, u128);

// Asserts what the timeout and the smoothed round trip are after each sample.
fn follows(rt: &impl Abort, options: &Options, samples: &[Sample]) {
    let mut timeout = RetransmissionTimeout::new(options);
    for (sample, rto, srtt) in samples {
        timeout.observe_rto(Duration::from_nanos(*sample));
        let is_so = timeout.rto().as_nanos() == *rto && timeout.srtt().as_nanos() == *srtt;
        assert!(rt; is_so, "sample {sample}: no timeout of {rto}");
    }
}

// RTTVAR: 500, (1500 + 801) / 4 = 575, (1725 + 1000) / 4 = 681, (2043 + 975) / 4 = 754.
static PLAIN: &[Sample] = &[
    (1000, 3000, 1000),
    (1801, 3400, 1100),
    (100, 3699, 975),
    (0, 3869, 853),
];

// Four variances count as 10,000 at least.
static LEAST_VARIANCE: &[Sample] = &[(1000, 11_000, 1000), (1801, 11_100, 1100)];

#[test]
fn samples_are_smoothed(rt: HostRuntime) {
    let mut options = Options::default();
    options.rto_min = Duration::ZERO;
    options.min_rtt_variance = Duration::ZERO;
    follows(&rt, &options, PLAIN);
    options.min_rtt_variance = Duration::from_nanos(10_000);
    follows(&rt, &options, LEAST_VARIANCE);
    // Raised to the least and then cut to the greatest, also if that is smaller.
    options.rto_min = Duration::from_nanos(12_000);
    follows(&rt, &options, &[(1000, 12_000, 1000)]);
    options.rto_max = Duration::from_nanos(9_000);
    follows(&rt, &options, &[(1000, 9_000, 1000)]);
}

#[test]
fn samples_are_bounded(rt: HostRuntime) {
    // 100 ms + 220 ms is less than 400 ms.
    static SHORT: &[Sample] = &[(100_000_000, 400_000_000, 100_000_000)];
    // 2 s + 4 * 1 s; one above 60 s is dropped; 9.25 s + 4 * 15.25 s is cut to 60 s.
    static LONG: &[Sample] = &[
        (2_000_000_000, 6_000_000_000, 2_000_000_000),
        (60_000_000_001, 6_000_000_000, 2_000_000_000),
        (60_000_000_000, 60_000_000_000, 9_250_000_000),
    ];
    let options = Options::default();
    follows(&rt, &options, SHORT);
    follows(&rt, &options, LONG);
    let first = RetransmissionTimeout::new(&options);
    let is_so = first.rto().as_nanos() == 500_000_000 && first.srtt().as_nanos() == 500_000_000;
    assert!(&rt; is_so, "before any sample");
}
