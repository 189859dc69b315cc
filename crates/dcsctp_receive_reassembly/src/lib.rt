//! The reassembly queue of the transfer layer: what of the data that was received waits to be taken (RFC
//! 9260, sections 6.5, 6.6 and 6.9).
#![tactic(auto)]

mod arrivals;
mod counting;
mod deferral;
mod fragments;
mod handover;
mod incoming;
mod joining;
mod joins;
mod linking;
mod named;
mod numbers;
mod reassembly_queue;
mod runs;
mod skipping;
mod stream;
mod unordered;

pub use arrivals::Data;
pub use dcsctp_api::types::{Numbering, SkippedTo};
pub use reassembly_queue::ReassemblyQueue;
