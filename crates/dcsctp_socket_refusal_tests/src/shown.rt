//! What sockets answer to their queries at five moments, computed by hand for the default options.

use crate::answers::Answers;
use dcsctp_socket::{
    HandoverReadiness, Metrics, Pair, Phase, SctpImplementation, SocketState, SocketTime, Word,
};
use std::time::Duration;

/// The moments.
#[derive(Clone, Copy)]
pub enum Shown {
    /// A is new.
    New,

    /// A has sent its INIT. A message may have 5,000 bytes; stream 2 has the priority 300 and the threshold 20.
    Connecting,

    /// A message of 40 bytes waits on stream 2.
    Waiting,

    /// The message is in flight, with the COOKIE ECHO.
    Sending,

    /// B has connected, and has received the message.
    Receiving,
}

// The pair of A: it draws 100 for the TSN, and 101 for the tag, which is one more (RFC 9260, section 5.3.1).
const PAIR_OF_A: Pair = Pair {
    tag: 102,
    first_tsn: 100,
};

// The same of B, which draws 200 and 201.
const PAIR_OF_B: Pair = Pair {
    tag: 202,
    first_tsn: 200,
};

/// What the side of a moment answers then.
pub fn answers_at(moment: Shown) -> Answers {
    match moment {
        Shown::New => new(),
        Shown::Connecting => connecting(),
        Shown::Waiting => waiting(),
        Shown::Sending => sending(),
        Shown::Receiving => receiving(),
    }
}

fn new() -> Answers {
    Answers {
        has_failed: false,
        state: SocketState::Closed,
        association: None,
        verification_tag: 0,
        pairs: (0, None),
        words: (0, None),
        next_word: 100,
        timeout: SocketTime::infinite_future(),
        ready: 0,
        longest_message: 262_144,
        priority: 256,
        buffered: 0,
        threshold: 0,
        metrics: None,
        readiness: HandoverReadiness::READY,
    }
}

// T1 runs for a second.
fn connecting() -> Answers {
    Answers {
        has_failed: false,
        state: SocketState::Connecting,
        association: Some((Phase::CookieWait, PAIR_OF_A)),
        verification_tag: 102,
        pairs: (1, Some(PAIR_OF_A)),
        words: (2, Some(Word::U32(100))),
        next_word: 102,
        timeout: SocketTime::zero() + Duration::from_secs(1),
        ready: 0,
        longest_message: 5000,
        priority: 300,
        buffered: 0,
        threshold: 20,
        metrics: None,
        readiness: HandoverReadiness::WRONG_CONNECTION_STATE,
    }
}

// Sending draws no word.
fn waiting() -> Answers {
    let mut answers = connecting();
    answers.pairs = (0, None);
    answers.words = (0, None);
    answers.buffered = 40;
    answers
}

// The tie tag was drawn. No window but the peer's is less: its 5 MiB less the 40 bytes and a header of 16.
fn sending() -> Answers {
    Answers {
        has_failed: false,
        state: SocketState::Connecting,
        association: Some((Phase::CookieEchoed, PAIR_OF_A)),
        verification_tag: 102,
        pairs: (0, None),
        words: (1, Some(Word::U64(102))),
        next_word: 103,
        timeout: SocketTime::zero() + Duration::from_secs(1),
        ready: 0,
        longest_message: 5000,
        priority: 300,
        buffered: 0,
        threshold: 20,
        metrics: Some(Metrics {
            tx_packets_count: 2,
            tx_messages_count: 1,
            unack_data_count: 1,
            rx_packets_count: 1,
            peer_rwnd_bytes: 5_242_824,
            peer_implementation: SctpImplementation::DcsctpRs,
            ..idle()
        }),
        readiness: HandoverReadiness::WRONG_CONNECTION_STATE,
    }
}

// INIT ACK, COOKIE ACK and SACK were sent. The next heartbeat is due after 30 seconds.
fn receiving() -> Answers {
    Answers {
        has_failed: false,
        state: SocketState::Connected,
        association: Some((Phase::Established, PAIR_OF_B)),
        verification_tag: 202,
        pairs: (0, None),
        words: (1, Some(Word::U64(202))),
        next_word: 203,
        timeout: SocketTime::zero() + Duration::from_secs(30),
        ready: 1,
        longest_message: 262_144,
        priority: 256,
        buffered: 0,
        threshold: 0,
        metrics: Some(Metrics {
            tx_packets_count: 3,
            rx_packets_count: 2,
            rx_messages_count: 1,
            peer_rwnd_bytes: 2_000_000,
            peer_implementation: SctpImplementation::Unknown,
            ..idle()
        }),
        readiness: HandoverReadiness::READY,
    }
}

// Nothing was sent or received. The congestion window is 10 packets of 1,191 bytes. A round trip that wasn't measured
// yet counts as the first retransmission timeout.
fn idle() -> Metrics {
    Metrics {
        tx_packets_count: 0,
        tx_messages_count: 0,
        rtx_packets_count: 0,
        rtx_bytes_count: 0,
        cwnd_bytes: 11_910,
        srtt: Duration::from_millis(500),
        unack_data_count: 0,
        rx_packets_count: 0,
        rx_messages_count: 0,
        peer_rwnd_bytes: 0,
        peer_implementation: SctpImplementation::Unknown,
        uses_message_interleaving: false,
        uses_zero_checksum: false,
        negotiated_maximum_incoming_streams: 65535,
        negotiated_maximum_outgoing_streams: 65535,
    }
}
