//! Exchanges in which a side does things that take no memory, computed by hand for the default options.

use crate::exchange::Act::{
    Closes, Connects, Passes, RestoresPlain, Sends, SetsPriority, SetsThreshold, ShutsDown, Takes,
    WithoutMemory,
};
use crate::exchange::Exchange;
use crate::exchange::Memoryless::{
    self, Reads, RefusesHandover, RefusesReset, RefusesRestore, RestoresNothing, SetsMessageSize,
    Shows, Tells, WaitsFor,
};
use crate::exchange::Name::{A, B};
use crate::shown::Shown;
use dcsctp_socket::{HandoverReadiness, ResetStreamsError};
use dcsctp_testing::ExpectedEvent::{Event, Packet};
use dcsctp_testing::How::{Named, Plain};
use dcsctp_testing::{
    ABORT, COOKIE_ACK, COOKIE_ECHO, DATA, INIT, INIT_ACK, SACK, SHUTDOWN, SHUTDOWN_ACK,
    SHUTDOWN_COMPLETE,
};

/// Calls that change nothing, in each phase (RFC 9260, section 4). No clock goes back: T1 runs from the moment 30 on,
/// and the heartbeat interval from 40 on.
pub static EACH_PHASE: Exchange = Exchange {
    hands_over_data: false,
    messages_to_a: &[(1, 20)],
    messages_to_b: &[(1, 10)],
    steps: &[
        // Closed.
        (A, WithoutMemory(Memoryless::Closes), &[]),
        (A, WithoutMemory(Memoryless::ShutsDown), &[]),
        (A, WithoutMemory(RestoresNothing), &[]),
        (
            A,
            WithoutMemory(RefusesReset(ResetStreamsError::NotConnected)),
            &[],
        ),
        (A, WithoutMemory(Memoryless::Passes(30)), &[]),
        (A, WithoutMemory(Memoryless::Passes(20)), &[]),
        (B, Passes(30), &[]),
        // The INIT ACK is awaited.
        (A, Connects, &[Packet(&[INIT])]),
        (A, WithoutMemory(Memoryless::Connects), &[]),
        (
            A,
            WithoutMemory(RefusesReset(ResetStreamsError::NotConnected)),
            &[],
        ),
        (
            A,
            WithoutMemory(RefusesHandover(HandoverReadiness::WRONG_CONNECTION_STATE)),
            &[],
        ),
        (A, WithoutMemory(RefusesRestore), &[]),
        (A, WithoutMemory(Memoryless::Passes(20)), &[]),
        (A, WithoutMemory(Memoryless::Passes(40)), &[]),
        (A, WithoutMemory(WaitsFor(1030)), &[]),
        (B, Passes(40), &[]),
        (B, Takes, &[Packet(&[INIT_ACK])]),
        // The COOKIE ACK is awaited.
        (A, Takes, &[Packet(&[COOKIE_ECHO])]),
        (A, WithoutMemory(Memoryless::Connects), &[]),
        (
            A,
            WithoutMemory(RefusesHandover(HandoverReadiness::WRONG_CONNECTION_STATE)),
            &[],
        ),
        (A, WithoutMemory(RefusesRestore), &[]),
        (A, WithoutMemory(Memoryless::Passes(20)), &[]),
        // The association is open. The data of A is in flight.
        (B, Takes, &[Event("connected", 0), Packet(&[COOKIE_ACK])]),
        (A, Takes, &[Event("connected", 0)]),
        (A, WithoutMemory(Memoryless::Connects), &[]),
        (A, WithoutMemory(RefusesRestore), &[]),
        (A, WithoutMemory(Memoryless::Passes(20)), &[]),
        (A, WithoutMemory(Memoryless::Passes(50)), &[]),
        (A, WithoutMemory(WaitsFor(30_040)), &[]),
        (B, Passes(50), &[]),
        (A, Sends(1, 10, Plain), &[Event("low", 1), Packet(&[DATA])]),
        (
            A,
            WithoutMemory(RefusesHandover(
                HandoverReadiness::RETRANSMISSION_QUEUE_OUTSTANDING_DATA,
            )),
            &[],
        ),
        // A waits for its acknowledgement.
        (A, ShutsDown, &[]),
        (A, WithoutMemory(Memoryless::ShutsDown), &[]),
        (A, WithoutMemory(Memoryless::Connects), &[]),
        (
            A,
            WithoutMemory(RefusesHandover(HandoverReadiness::WRONG_CONNECTION_STATE)),
            &[],
        ),
        (A, WithoutMemory(RefusesRestore), &[]),
        (B, Takes, &[Packet(&[SACK])]),
        (B, WithoutMemory(Reads(1)), &[]),
        (B, Sends(1, 20, Plain), &[Event("low", 1), Packet(&[DATA])]),
        // A has sent its SHUTDOWN.
        (A, Takes, &[Packet(&[SHUTDOWN])]),
        (A, WithoutMemory(Memoryless::ShutsDown), &[]),
        (A, WithoutMemory(Memoryless::Connects), &[]),
        (
            A,
            WithoutMemory(RefusesHandover(HandoverReadiness::WRONG_CONNECTION_STATE)),
            &[],
        ),
        (A, WithoutMemory(RefusesRestore), &[]),
        // B waits for the acknowledgement of its data. A answers data by SHUTDOWN (RFC 9260, section 9.2).
        (B, Takes, &[]),
        (B, WithoutMemory(Memoryless::ShutsDown), &[]),
        (B, WithoutMemory(Memoryless::Connects), &[]),
        (
            B,
            WithoutMemory(RefusesHandover(HandoverReadiness::WRONG_CONNECTION_STATE)),
            &[],
        ),
        (B, WithoutMemory(RefusesRestore), &[]),
        (A, Takes, &[Packet(&[SHUTDOWN]), Packet(&[SACK])]),
        (A, WithoutMemory(Reads(1)), &[]),
        (B, Takes, &[]),
        // B has sent its SHUTDOWN ACK.
        (B, Takes, &[Packet(&[SHUTDOWN_ACK])]),
        (B, WithoutMemory(Memoryless::ShutsDown), &[]),
        (B, WithoutMemory(Memoryless::Connects), &[]),
        (
            B,
            WithoutMemory(RefusesHandover(HandoverReadiness::WRONG_CONNECTION_STATE)),
            &[],
        ),
        (B, WithoutMemory(RefusesRestore), &[]),
        (
            A,
            Takes,
            &[Packet(&[SHUTDOWN_COMPLETE]), Event("closed", 0)],
        ),
        (B, Takes, &[Event("closed", 0)]),
        (A, WithoutMemory(Memoryless::ShutsDown), &[]),
        (B, WithoutMemory(Memoryless::Closes), &[]),
    ],
};

/// Queries at five moments, and polls. The message waits for the handshake, and goes with the COOKIE ECHO.
pub static QUERIES: Exchange = Exchange {
    hands_over_data: false,
    messages_to_a: &[],
    messages_to_b: &[(2, 40)],
    steps: &[
        (A, WithoutMemory(Shows(Shown::New)), &[]),
        (A, SetsPriority(2, 300), &[]),
        (A, SetsThreshold(2, 20), &[]),
        (A, WithoutMemory(SetsMessageSize(5000)), &[]),
        (A, Connects, &[Packet(&[INIT])]),
        (A, WithoutMemory(Shows(Shown::Connecting)), &[]),
        (A, Sends(2, 40, Named(5)), &[]),
        (A, WithoutMemory(Shows(Shown::Waiting)), &[]),
        (B, Takes, &[Packet(&[INIT_ACK])]),
        (
            A,
            Takes,
            &[
                Event("low", 2),
                Event("fully sent", 5),
                Packet(&[COOKIE_ECHO, DATA]),
            ],
        ),
        (A, WithoutMemory(Shows(Shown::Sending)), &[]),
        (A, WithoutMemory(Tells), &[]),
        (
            B,
            Takes,
            &[
                Event("connected", 0),
                Packet(&[COOKIE_ACK]),
                Packet(&[SACK]),
            ],
        ),
        (B, WithoutMemory(Shows(Shown::Receiving)), &[]),
        (B, WithoutMemory(Tells), &[]),
        (B, WithoutMemory(Reads(1)), &[]),
        (A, Takes, &[Event("connected", 0)]),
        (A, Takes, &[Event("delivered", 5), Event("end", 5)]),
        (A, Closes, &[Packet(&[ABORT]), Event("closed", 0)]),
        (B, Takes, &[Event("aborted by the peer", 0)]),
    ],
};

/// A reset that the peer doesn't support. B continues from a snapshot that says so.
pub static UNSUPPORTED_RESET: Exchange = Exchange {
    hands_over_data: false,
    messages_to_a: &[],
    messages_to_b: &[],
    steps: &[
        (B, RestoresPlain, &[Event("connected", 0)]),
        (
            B,
            WithoutMemory(RefusesReset(ResetStreamsError::NotSupported)),
            &[],
        ),
        (B, Closes, &[Packet(&[ABORT]), Event("closed", 0)]),
        (
            B,
            WithoutMemory(RefusesReset(ResetStreamsError::NotConnected)),
            &[],
        ),
    ],
};
