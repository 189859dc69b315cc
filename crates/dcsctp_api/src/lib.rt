//! The public types of an SCTP socket: moments, identifiers, messages, events and errors.
//!
//! `laws` holds what a user may rely on of the comparisons and hashes of these types.
#![tactic(auto)]

/// A snapshot of a socket, by which it is handed over to another process.
pub mod handover {
    pub use dcsctp_spec_lemmas::types::{
        HandoverCapabilities, HandoverOrderedStream, HandoverOutgoingStream,
        HandoverOutstandingData, HandoverReadiness, HandoverReceive, HandoverSocketState,
        HandoverStreamMessage, HandoverTransmission, HandoverUnorderedStream, SocketHandoverState,
    };
}

mod calls;
mod errors;
mod events;
mod laws;
mod metrics;
mod spares;
mod state;
mod state_cookie;

pub use calls::DcSctpSocket;
pub use dcsctp_spec_lemmas::types::{
    Association, Capabilities, ErrorKind, HandoverReadiness, Held, LifecycleId, Message, Options,
    Pair, Phase, PpId, ReconfigurationResponseResult, SctpImplementation, SendOptions, SocketTime,
    StreamId, Word, ZERO_CHECKSUM_ALTERNATE_ERROR_DETECTION_METHOD_LOWER_LAYER_DTLS,
    ZERO_CHECKSUM_ALTERNATE_ERROR_DETECTION_METHOD_NONE, ZeroChecksumAlternateErrorDetectionMethod,
};
pub use errors::{
    BatchSendError, HandoverError, ResetStreamsError, RestoreError, SendError, SocketFault,
};
pub use events::{Events, SocketEvent};
pub use laws::{
    lifecycle_id_hash, lifecycle_id_order, pp_id_hash, send_options_default, socket_time_order,
    state_cookie_reads_back, stream_id_hash, stream_id_order,
};
pub use metrics::{Counts, Metrics};
pub use spares::Spares;
pub use state::SocketState;
pub use state_cookie::StateCookie;

// Lower crates, re-exported for those above.
pub use dcsctp_spec_lemmas::{types, wire};
