//! Timers, and the retransmission timeout (RFC 9260, section 6.3).
#![tactic(auto)]

mod retransmission_timeout;
mod timer;

pub use dcsctp_spec::types::BackoffAlgorithm;
pub use retransmission_timeout::RetransmissionTimeout;
pub use timer::{Timer, longest_backoff, longest_wait};
