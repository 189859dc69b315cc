//! A snapshot of a socket and its channels as bytes, by which both are handed over to another process. `dcsctp_snapshot_bytes`
//! seals them, as those of a socket alone.
#![tactic(auto)]

mod both;
mod channel;
mod channels;
mod reader;
mod writer;

pub use both::{from_bytes_with_channels, to_bytes_with_channels};
