//! The handshake (RFC 9260, section 5): connect, the handlers of INIT, INIT ACK, COOKIE ECHO and COOKIE ACK,
//! and T1. They work on the parts that `dcsctp_core` shares, and the calls of a socket call them.
#![tactic(auto)]

mod connect;
mod cookie_echo;
mod cookie_resolution;
mod init;
mod parameters;
mod t1;
mod texts;

pub use connect::{do_connect, handle_cookie_ack, handle_init_ack};
pub use cookie_echo::handle_cookie_echo;
pub use init::handle_init;
pub use t1::handle_t1;
