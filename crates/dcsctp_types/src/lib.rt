//! What users see, and the types that definitions are over: options, time, identifiers, messages, snapshots, and what
//! code and definitions share.
#![tactic(auto)]

mod arrivals;
mod association;
mod capabilities;
mod congestion;
mod ends;
mod handover;
mod ids;
mod kinds;
mod lifetimes;
mod message;
mod options;
mod progress;
mod schedule;
mod sending;
mod snapshot;
mod stream_table;
mod time;
mod tracking;
mod validity;
mod word;

pub use arrivals::{Numbering, SkippedTo, Taken};
pub use association::{Association, Held, Pair, Phase};
pub use capabilities::Capabilities;
pub use congestion::{Acknowledged, CongestionControl};
pub use dcsctp_wire::ReconfigurationResponseResult;
pub use ends::{AbortReason, Violation};
pub use handover::HandoverReadiness;
pub use ids::{LifecycleId, PpId, StreamId};
pub use kinds::{
    BackoffAlgorithm, ErrorKind, SctpImplementation,
    ZERO_CHECKSUM_ALTERNATE_ERROR_DETECTION_METHOD_LOWER_LAYER_DTLS,
    ZERO_CHECKSUM_ALTERNATE_ERROR_DETECTION_METHOD_NONE, ZeroChecksumAlternateErrorDetectionMethod,
};
pub use lifetimes::{millis_ahead, millis_since, moment_at, moment_before};
pub use message::{Message, SendOptions, copied_messages};
pub use options::Options;
pub use progress::{Change, ItemState, Progress};
pub use schedule::{Act, Call, Outside, Side, Step};
pub use sending::{Pause, Turn, UnderWay};
pub use snapshot::{
    HandoverCapabilities, HandoverOrderedStream, HandoverOutgoingStream, HandoverOutstandingData,
    HandoverReceive, HandoverSocketState, HandoverStreamMessage, HandoverTransmission,
    HandoverUnorderedStream, SocketHandoverState,
};
pub use stream_table::StreamTable;
pub use time::{SocketTime, duration_of};
pub use tracking::{AckState, TsnRange};
pub use word::Word;

// The crate below, for those above.
pub use dcsctp_wire as wire;
