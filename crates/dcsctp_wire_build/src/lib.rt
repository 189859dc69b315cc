//! Writing SCTP packets (RFC 9260, section 3): the bytes that say what a packet says.
//!
//! `SctpPacketBuilder` writes one, never longer than its size. What it writes, `SctpPacket::from_bytes` of
//! `dcsctp_wire` reads.
#![tactic(auto)]

mod builder;
mod checksum;
mod chunks;
mod fixed;
mod parameters;
mod putting;

pub use builder::SctpPacketBuilder;
pub use checksum::{clear_checksum, fill_checksum};
