//! Lemmas about the definitions of `dcsctp_spec` that the queues and the chapters use.
#![tactic(auto)]

// The crates below, for those above.
pub use dcsctp_spec::{types, wire};
