//! Tests of `dcsctp_send_queue` by its public calls. Their values were computed by hand from the standards'
//! rules.
//!
//! A test is a text with a line for each step, which one runner goes through (`script`). A table in the code
//! would need a proof, and so would a function for each test.
mod amounts;
mod handover;
mod interleaving;
mod order;
mod resets;
mod restoring;
mod script;
mod sender;
mod snapshot;
