//! Streams that are reset (RFC 6525): the handlers of RE-CONFIG and of the timer of our own request. What
//! becomes of the peer's requests, and how they are answered, is decided first. Then streams are reset, and
//! the answers are sent, with what waits after them. They work on the parts that `dcsctp_core` shares.
#![tactic(auto)]

mod handling;
mod reading;
mod reconfiguration;
mod requests;

pub use handling::handle_re_config;
pub use reconfiguration::handle_reconfiguration;
