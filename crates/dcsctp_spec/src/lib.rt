//! What an endpoint is, and what each input does to it: the definitions in `specs/`, and outside facts about them
//! in `proofs/`.
#![tactic(auto)]

// The crates below, for those above.
pub use dcsctp_types as types;
pub use dcsctp_types::wire;
