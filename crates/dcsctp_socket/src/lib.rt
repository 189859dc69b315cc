//! An SCTP socket (RFC 9260) that makes no system call: packets go in, events come out.
//!
//! There are four kinds of call. Queries (`state`, `association`, `messages_ready_count`, `has_failed`, ..)
//! answer and change nothing. Inputs (`handle_input`, `advance_time`) bring what the peer sent, and the
//! time. Commands (`connect`, `close`, `send`, `reset_streams`, ..) say what the user wants. Polls
//! (`poll_event`, `get_next_message`, `poll_timeout`) take events and messages, and say when to call again.
//!
//! A user drives it by a loop. This is one round (the crate `dcsctp_example` has it whole, with its contract):
//!
//! ```text
//! socket.advance_time(now)?;
//! if let Some(packet) = packet {
//!     socket.handle_input(packet)?;
//! }
//! for _ in 0..socket.messages_ready_count() {
//!     if let Some(message) = socket.get_next_message() {
//!         told.messages.push(message)?;
//!     }
//! }
//! while let Some(event) = socket.poll_event() {
//!     match event {
//!         SocketEvent::SendPacket(packet) => told.packets.push(packet)?,
//!         other => told.events.push(other)?,
//!     }
//! }
//! Ok(socket.poll_timeout())
//! ```
//!
//! Packets go to the peer, other events to the application. Events come in the order in which they
//! happened. A later call invalidates none of them. A user who makes checksums takes events by
//! `Socket::poll_event_without_checksum`. Messages that are ready are dropped when their association ends, so take
//! them before the next call; with `Options::follow_rfc` they can be taken until the next association begins.
//!
//! The socket reads no clock. After each call ask `poll_timeout`, and call `advance_time` at that moment or
//! earlier. A packet that the peer never answered is sent again then. Each call may move that moment.
//!
//! A socket moves to another process by a snapshot: `get_handover_state_and_close` gives it, and a new socket
//! with the same options continues from it by `restore_from_state`. The snapshot's types are in `api::handover`.
#![tactic(auto)]

mod socket;

pub use dcsctp_core::api::{
    Association, BatchSendError, Capabilities, Counts, DcSctpSocket, ErrorKind, Events,
    HandoverError, HandoverReadiness, Held, LifecycleId, Message, Metrics, Options, Pair, Phase,
    PpId, ReconfigurationResponseResult, ResetStreamsError, RestoreError, SctpImplementation,
    SendError, SendOptions, SocketEvent, SocketFault, SocketState, SocketTime, StateCookie,
    StreamId, Word, ZERO_CHECKSUM_ALTERNATE_ERROR_DETECTION_METHOD_LOWER_LAYER_DTLS,
    ZERO_CHECKSUM_ALTERNATE_ERROR_DETECTION_METHOD_NONE, ZeroChecksumAlternateErrorDetectionMethod,
};
pub use dcsctp_core::{Context, State, TransmissionControlBlock, TxErrorCounter, api};
pub use socket::Socket;
