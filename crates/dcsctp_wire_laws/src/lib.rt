//! Laws of packets on the wire: what is built reads back, and what is read fits its fields. Each is the
//! contract of a function that does nothing.
//!
//! Outside examples of the definitions of `dcsctp_wire` are in `proofs/`.
#![tactic(auto)]

mod laws;

pub use laws::{built_packet_reads_as_itself, built_packet_reads_back, read_packet_fits};
