//! A snapshot of a socket as bytes, by which it is handed over to another process.
//!
//! `to_bytes` writes a snapshot, `from_bytes` reads one, and `snapshot_bytes_read_back` says that what is
//! written is read back. `seal` adds the options of the socket and a check value, which `unseal` compares. All
//! numbers are big-endian.
#![tactic(auto)]

mod element;
mod laws;
mod outstanding;
mod queued;
mod reader;
mod receive;
mod sealing;
mod state;
mod streams;
mod transmission;
mod writer;

pub use laws::{sealed_bytes_open, snapshot_bytes_read_back};
pub use sealing::{SealError, seal, unseal};
pub use state::{from_bytes, to_bytes};
