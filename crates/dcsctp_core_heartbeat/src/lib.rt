//! Whether the peer is still there (RFC 9260, section 8.3): the handlers of HEARTBEAT and HEARTBEAT ACK, and
//! what their timers bring. They work on the parts that `dcsctp_core` shares.
#![tactic(auto)]

mod ack;
mod request;
mod timers;

pub use ack::handle_heartbeat_ack;
pub use request::handle_heartbeat_request;
pub use timers::{handle_heartbeat_interval, handle_heartbeat_timeout};
