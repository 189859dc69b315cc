//! What tests share: a runner for tables and texts of steps, two generators whose words are known, messages whose bytes
//! are known, short names of events, moments, and marks between which every allocation fails.
//!
//! A library may end no process: what isn't as a row says is an `Err` of the runner, by which a test ends.
#![tactic(auto)]

mod counting;
#[cfg(test)]
mod failing;
mod memory;
mod messages;
mod moments;
mod row;
mod steps;
mod told;
mod two_words;

pub use counting::Counting;
pub use memory::{begin_span, end_span, is_gone};
pub use messages::{How, is_message, message, options};
pub use moments::at;
pub use row::Row;
pub use steps::{Takes, run_steps, run_text};
pub use told::{
    ABORT, COOKIE_ACK, COOKIE_ECHO, DATA, ExpectedEvent, FORWARD_TSN, HEARTBEAT, HEARTBEAT_ACK,
    INIT, INIT_ACK, RE_CONFIG, SACK, SHUTDOWN, SHUTDOWN_ACK, SHUTDOWN_COMPLETE, is_told,
};
pub use two_words::TwoWords;
