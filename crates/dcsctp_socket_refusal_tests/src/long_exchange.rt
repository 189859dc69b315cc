//! The longest exchange: messages in each way that they can be sent, losses, resets, an end by an ABORT, and one by
//! a SHUTDOWN.
//!
//! All was computed by hand for the default options. A packet has 1,188 bytes at most, and so a chunk 1,160
//! of a message. Packets are under way for no time, and acknowledgements come after 200 milliseconds at most.
//! So the retransmission timeout is the least that is allowed, 400 milliseconds, and the delay of an
//! acknowledgement is half of it.

use crate::exchange::Act::{
    Closes, Connects, Expires, Loses, Passes, Reads, Resets, Sends, SendsMany, SetsPriority,
    SetsThreshold, ShutsDown, Takes, TakesNoPackets,
};
use crate::exchange::Exchange;
use crate::exchange::Name::{A, B};
use dcsctp_socket::StreamId;
use dcsctp_testing::ExpectedEvent::{Event, Packet};
use dcsctp_testing::How::{Lives, Named, Plain, SentOnce, Unordered};
use dcsctp_testing::{
    ABORT, COOKIE_ACK, COOKIE_ECHO, DATA, FORWARD_TSN, HEARTBEAT, HEARTBEAT_ACK, INIT, INIT_ACK,
    RE_CONFIG, SACK, SHUTDOWN, SHUTDOWN_ACK, SHUTDOWN_COMPLETE,
};

/// The exchange.
pub static LONG_EXCHANGE: Exchange = Exchange {
    hands_over_data: false,
    messages_to_a: &[(1, 30), (2, 40), (4, 50)],
    messages_to_b: &[(1, 10), (2, 3000), (3, 20), (1, 25), (1, 27), (1, 15)],
    steps: &[
        // The handshake (RFC 9260, section 5.1).
        (A, Connects, &[Packet(&[INIT])]),
        (B, Takes, &[Packet(&[INIT_ACK])]),
        (A, Takes, &[Packet(&[COOKIE_ECHO])]),
        (B, Takes, &[Event("connected", 0), Packet(&[COOKIE_ACK])]),
        (A, Takes, &[Event("connected", 0)]),
        // Settings are reported to nobody.
        (A, SetsPriority(2, 300), &[]),
        (B, SetsThreshold(1, 500), &[]),
        // A short message, a long one of 1,160, 1,160 and 680 bytes, and an unordered one. A stream whose last byte
        // leaves has fallen to its threshold, which is 0.
        (A, Sends(1, 10, Plain), &[Event("low", 1), Packet(&[DATA])]),
        (
            A,
            Sends(2, 3000, Named(5)),
            &[
                Packet(&[DATA]),
                Packet(&[DATA]),
                Event("low", 2),
                Event("fully sent", 5),
                Packet(&[DATA]),
            ],
        ),
        (
            A,
            Sends(3, 20, Unordered),
            &[Event("low", 3), Packet(&[DATA])],
        ),
        // The first packet with data is acknowledged at once, and after it every second one (RFC 9260, section 6.2).
        (B, Takes, &[Packet(&[SACK])]),
        (B, Takes, &[]),
        (B, Takes, &[Packet(&[SACK])]),
        (B, Takes, &[]),
        (B, Takes, &[Packet(&[SACK])]),
        (A, Takes, &[]),
        (A, Takes, &[]),
        (A, Takes, &[Event("delivered", 5), Event("end", 5)]),
        // Three messages in one packet. The 30 bytes of stream 1 were never above its threshold of 500.
        (
            B,
            SendsMany(&[(1, 30), (2, 40), (4, 50)]),
            &[
                Event("low", 2),
                Event("low", 4),
                Packet(&[DATA, DATA, DATA]),
            ],
        ),
        (A, Takes, &[Packet(&[SACK])]),
        (B, Takes, &[]),
        // A lost packet. The message after it leaves a gap, which is reported at once, and waits for its turn.
        // What was lost is sent again by the retransmission timer, and is acknowledged after the delay (RFC 9260,
        // sections 6.3.3 and 6.7).
        (A, Sends(1, 25, Plain), &[Event("low", 1), Packet(&[DATA])]),
        (B, Loses, &[]),
        (A, Sends(1, 27, Plain), &[Event("low", 1), Packet(&[DATA])]),
        (B, Takes, &[Packet(&[SACK])]),
        (A, Takes, &[]),
        (A, Expires(400), &[Packet(&[DATA])]),
        (B, Passes(400), &[]),
        (B, Takes, &[]),
        (B, Expires(600), &[Packet(&[SACK])]),
        (A, Passes(600), &[]),
        (A, Takes, &[]),
        // A lost message that isn't sent again. The peer learns not to wait for it, and acknowledges that as it does
        // data, here along with data of its own (RFC 3758, sections 3.5 and 3.6).
        (
            B,
            Sends(2, 35, SentOnce(6)),
            &[Event("low", 2), Event("fully sent", 6), Packet(&[DATA])],
        ),
        (A, Loses, &[]),
        (
            B,
            Expires(1000),
            &[
                Event("maybe expired", 6),
                Event("end", 6),
                Packet(&[FORWARD_TSN]),
            ],
        ),
        (A, Passes(1000), &[]),
        (A, Takes, &[]),
        (
            A,
            Sends(1, 15, Plain),
            &[Event("low", 1), Packet(&[SACK, DATA])],
        ),
        (B, Takes, &[]),
        (B, Expires(1200), &[Packet(&[SACK])]),
        (A, Passes(1200), &[]),
        (A, Takes, &[]),
        // A lost message whose lifetime is over.
        (
            A,
            Sends(3, 45, Lives(100, 7)),
            &[Event("low", 3), Event("fully sent", 7), Packet(&[DATA])],
        ),
        (B, Loses, &[]),
        (
            A,
            Expires(1600),
            &[
                Event("maybe expired", 7),
                Event("end", 7),
                Packet(&[FORWARD_TSN]),
            ],
        ),
        (B, Passes(1600), &[]),
        (B, Takes, &[]),
        (B, Expires(1800), &[Packet(&[SACK])]),
        (A, Passes(1800), &[]),
        (A, Takes, &[]),
        // B sent its last data at 600 milliseconds: 30 seconds later a heartbeat is sent (RFC 9260, section 8.3).
        (B, Expires(30_600), &[Packet(&[HEARTBEAT])]),
        (A, Passes(30_600), &[]),
        (A, Takes, &[Packet(&[HEARTBEAT_ACK])]),
        (B, Takes, &[]),
        // Streams are reset; the second request is lost, and is sent again after the retransmission timeout (RFC
        // 6525, sections 5.1 and 5.2).
        (
            A,
            Resets(&[StreamId(2), StreamId(1)]),
            &[Packet(&[RE_CONFIG])],
        ),
        (
            B,
            Takes,
            &[Event("incoming reset", 2), Packet(&[RE_CONFIG])],
        ),
        (A, Takes, &[Event("reset performed", 2)]),
        (A, Resets(&[StreamId(3)]), &[Packet(&[RE_CONFIG])]),
        (B, Loses, &[]),
        (A, Expires(31_000), &[Packet(&[RE_CONFIG])]),
        (B, Passes(31_000), &[]),
        (
            B,
            Takes,
            &[Event("incoming reset", 1), Packet(&[RE_CONFIG])],
        ),
        (A, Takes, &[Event("reset performed", 1)]),
        // Some messages are taken, and the others are lost with the association (RFC 9260, section 9.1). So many
        // events wait then that the last one of each side needs new room. The room was doubled as it grew, to 16
        // at A and 4 at B.
        (A, Reads(2), &[]),
        (B, Reads(3), &[]),
        (A, TakesNoPackets(15), &[Event("unreadable", 0); 15]),
        (B, TakesNoPackets(4), &[Event("unreadable", 0); 4]),
        (A, Closes, &[Packet(&[ABORT]), Event("closed", 0)]),
        (B, Takes, &[Event("aborted by the peer", 0)]),
        // They connect again, and A shuts the association down: its SHUTDOWN is lost, and is sent again by T2
        // (RFC 9260, section 9.2).
        (A, Connects, &[Packet(&[INIT])]),
        (B, Takes, &[Packet(&[INIT_ACK])]),
        (A, Takes, &[Packet(&[COOKIE_ECHO])]),
        (B, Takes, &[Event("connected", 0), Packet(&[COOKIE_ACK])]),
        (A, Takes, &[Event("connected", 0)]),
        (A, ShutsDown, &[Packet(&[SHUTDOWN])]),
        (B, Loses, &[]),
        (A, Expires(31_500), &[Packet(&[SHUTDOWN])]),
        (B, Takes, &[Packet(&[SHUTDOWN_ACK])]),
        (
            A,
            Takes,
            &[Packet(&[SHUTDOWN_COMPLETE]), Event("closed", 0)],
        ),
        (B, Takes, &[Event("closed", 0)]),
    ],
};
