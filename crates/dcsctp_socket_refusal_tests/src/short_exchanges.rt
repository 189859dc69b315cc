//! Exchanges of one subject each, computed by hand for the default options.
//!
//! Bytes that are no packet come where the next event is to need new room: there is room for 4 events, and for twice
//! as many each time.

use crate::exchange::Act::{
    Closes, Connects, Expires, HandsOver, Loses, Passes, Reads, Resets, Restores, Sends, Takes,
    TakesAgain, TakesNoPackets, WithoutMemory,
};
use crate::exchange::Exchange;
use crate::exchange::Memoryless::{RefusesHandover, RefusesReset, RefusesRestore};
use crate::exchange::Name::{A, B};
use dcsctp_socket::{HandoverReadiness, ResetStreamsError, StreamId};
use dcsctp_testing::ExpectedEvent::{Event, Packet};
use dcsctp_testing::How::{Plain, Unordered};
use dcsctp_testing::{ABORT, COOKIE_ACK, COOKIE_ECHO, DATA, INIT, INIT_ACK, RE_CONFIG, SACK};

/// Both connect at once: each answers the other's INIT, and each takes the other's cookie (RFC 9260, section 5.2.1).
pub static COLLISION: Exchange = Exchange {
    hands_over_data: false,
    messages_to_a: &[],
    messages_to_b: &[],
    steps: &[
        (A, Connects, &[Packet(&[INIT])]),
        (B, Connects, &[Packet(&[INIT])]),
        (B, Takes, &[Packet(&[INIT_ACK])]),
        (A, Takes, &[Packet(&[INIT_ACK])]),
        (A, Takes, &[Packet(&[COOKIE_ECHO])]),
        (B, Takes, &[Packet(&[COOKIE_ECHO])]),
        (B, TakesNoPackets(3), &[Event("unreadable", 0); 3]),
        (B, Takes, &[Event("connected", 0), Packet(&[COOKIE_ACK])]),
        (A, TakesNoPackets(3), &[Event("unreadable", 0); 3]),
        (A, Takes, &[Event("connected", 0), Packet(&[COOKIE_ACK])]),
        // Each COOKIE ACK comes too late to say anything new.
        (A, Takes, &[]),
        (B, Takes, &[]),
        (A, Closes, &[Packet(&[ABORT]), Event("closed", 0)]),
        (B, Takes, &[Event("aborted by the peer", 0)]),
    ],
};

/// A ends the association and connects again. B loses the ABORT, so to B the association restarts (RFC 9260, section
/// 5.2.4.1).
pub static RESTART: Exchange = Exchange {
    hands_over_data: false,
    messages_to_a: &[],
    messages_to_b: &[],
    steps: &[
        (A, Connects, &[Packet(&[INIT])]),
        (B, Takes, &[Packet(&[INIT_ACK])]),
        (A, Takes, &[Packet(&[COOKIE_ECHO])]),
        (B, TakesNoPackets(4), &[Event("unreadable", 0); 4]),
        (B, Takes, &[Event("connected", 0), Packet(&[COOKIE_ACK])]),
        (A, Takes, &[Event("connected", 0)]),
        (A, Closes, &[Packet(&[ABORT]), Event("closed", 0)]),
        (A, Connects, &[Packet(&[INIT])]),
        (B, Loses, &[]),
        (B, Takes, &[Packet(&[INIT_ACK])]),
        (A, Takes, &[Packet(&[COOKIE_ECHO])]),
        (B, TakesNoPackets(8), &[Event("unreadable", 0); 8]),
        (
            B,
            Takes,
            &[
                Event("restarted", 0),
                Event("connected", 0),
                Packet(&[COOKIE_ACK]),
            ],
        ),
        (A, Takes, &[Event("connected", 0)]),
        (A, Closes, &[Packet(&[ABORT]), Event("closed", 0)]),
        (B, Takes, &[Event("aborted by the peer", 0)]),
    ],
};

/// A request to reset a stream comes twice. It is performed once and answered twice, and the second answer says nothing
/// new (RFC 6525, section 5.2.1).
pub static REPEATED_REQUEST: Exchange = Exchange {
    hands_over_data: false,
    messages_to_a: &[],
    messages_to_b: &[],
    steps: &[
        (A, Connects, &[Packet(&[INIT])]),
        (B, Takes, &[Packet(&[INIT_ACK])]),
        (A, Takes, &[Packet(&[COOKIE_ECHO])]),
        (B, Takes, &[Event("connected", 0), Packet(&[COOKIE_ACK])]),
        (A, TakesNoPackets(4), &[Event("unreadable", 0); 4]),
        (A, Takes, &[Event("connected", 0)]),
        (A, Resets(&[StreamId(1)]), &[Packet(&[RE_CONFIG])]),
        (B, TakesNoPackets(4), &[Event("unreadable", 0); 4]),
        (
            B,
            Takes,
            &[Event("incoming reset", 1), Packet(&[RE_CONFIG])],
        ),
        (B, TakesAgain, &[Packet(&[RE_CONFIG])]),
        (A, TakesNoPackets(8), &[Event("unreadable", 0); 8]),
        (A, Takes, &[Event("reset performed", 1)]),
        (A, Takes, &[]),
        (A, Closes, &[Packet(&[ABORT]), Event("closed", 0)]),
        (B, Takes, &[Event("aborted by the peer", 0)]),
    ],
};

/// B is handed over and continues, with streams that were used and a message in flight. Before that each call is
/// refused that isn't for such a state.
pub static HANDOVER: Exchange = Exchange {
    hands_over_data: true,
    messages_to_a: &[(2, 30), (2, 40), (2, 50)],
    messages_to_b: &[(1, 10), (3, 20), (1, 15)],
    steps: &[
        (
            A,
            WithoutMemory(RefusesReset(ResetStreamsError::NotConnected)),
            &[],
        ),
        (A, Connects, &[Packet(&[INIT])]),
        (
            A,
            WithoutMemory(RefusesReset(ResetStreamsError::NotConnected)),
            &[],
        ),
        (
            A,
            WithoutMemory(RefusesHandover(HandoverReadiness::WRONG_CONNECTION_STATE)),
            &[],
        ),
        (A, WithoutMemory(RefusesRestore), &[]),
        (B, Takes, &[Packet(&[INIT_ACK])]),
        (A, Takes, &[Packet(&[COOKIE_ECHO])]),
        (B, Takes, &[Event("connected", 0), Packet(&[COOKIE_ACK])]),
        (A, Takes, &[Event("connected", 0)]),
        // The second packet with data is acknowledged along with the data of B.
        (A, Sends(1, 10, Plain), &[Event("low", 1), Packet(&[DATA])]),
        (
            A,
            Sends(3, 20, Unordered),
            &[Event("low", 3), Packet(&[DATA])],
        ),
        (B, Takes, &[Packet(&[SACK])]),
        (B, Takes, &[]),
        (B, Reads(2), &[]),
        (
            B,
            Sends(2, 30, Plain),
            &[Event("low", 2), Packet(&[SACK, DATA])],
        ),
        (A, Takes, &[]),
        (A, Takes, &[Packet(&[SACK])]),
        (B, Takes, &[]),
        (B, Sends(2, 40, Plain), &[Event("low", 2), Packet(&[DATA])]),
        (A, Takes, &[]),
        (B, WithoutMemory(RefusesRestore), &[]),
        // B is handed over: 4 events wait before that, and 8 before it continues.
        (B, TakesNoPackets(4), &[Event("unreadable", 0); 4]),
        (B, HandsOver, &[Event("closed", 0)]),
        (B, TakesNoPackets(3), &[Event("unreadable", 0); 3]),
        (B, Restores, &[Event("connected", 0)]),
        (B, WithoutMemory(RefusesRestore), &[]),
        // The acknowledgement of what was in flight comes to the socket that continues.
        (A, Expires(200), &[Packet(&[SACK])]),
        (B, Passes(200), &[]),
        (B, Takes, &[]),
        // Both streams continue, too.
        (B, Sends(2, 50, Plain), &[Event("low", 2), Packet(&[DATA])]),
        (A, Takes, &[]),
        (A, Reads(3), &[]),
        (
            A,
            Sends(1, 15, Plain),
            &[Event("low", 1), Packet(&[SACK, DATA])],
        ),
        (B, Takes, &[]),
        (B, Reads(1), &[]),
        (A, Closes, &[Packet(&[ABORT]), Event("closed", 0)]),
        (B, Takes, &[Event("aborted by the peer", 0)]),
    ],
};
