//! The data tracker of the transfer layer: which TSNs were received, and when that is acknowledged (RFC 9260,
//! sections 6.2 and 6.7).
#![tactic(auto)]

mod data_tracker;
mod handover;
mod received;

pub use data_tracker::{DataTracker, SelectiveAck};
