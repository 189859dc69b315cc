//! SCTP packets on the wire (RFC 9260, section 3): their contents, and their bytes.
//!
//! `SctpPacket::from_bytes` reads a packet, whose chunks borrow its bytes. `dcsctp_wire_build` writes one.
#![tactic(auto)]

mod bytes;
mod cause;
mod chunk;
mod packet;
mod parameter;
mod reconfiguration;
mod size;
mod types;

pub use bytes::{padding_of, u16_at, u32_at};
pub use cause::{ErrorCause, causes_text};
pub use chunk::{
    AbortChunk, Chunk, CookieEchoChunk, DataChunk, DataFlags, ErrorChunk, ForwardTsnChunk,
    GapAckBlock, HeartbeatAckChunk, HeartbeatRequestChunk, IDataChunk, IForwardTsnChunk, InitChunk,
    ReConfigChunk, SackChunk, ShutdownChunk, ShutdownCompleteChunk, SkippedMessages, SkippedStream,
    UnknownChunk, clean_sack,
};
pub use packet::{CommonHeader, PacketError, SctpPacket, WireOptions, one_reading};
pub use parameter::Parameter;
pub use reconfiguration::{
    IncomingSsnResetRequestParameter, NextTsns, OutgoingSsnResetRequestParameter,
    ReconfigurationResponseParameter, ReconfigurationResponseResult,
};
pub use size::{causes_len, parameters_len, parameters_serialized_size, sizes};
pub use types::{cause_code, chunk_type, parameter_type};
