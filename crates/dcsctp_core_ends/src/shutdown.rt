//! How an association is shut down, from either end (RFC 9260, section 9.2): the user's call, the handlers of
//! SHUTDOWN, SHUTDOWN ACK and SHUTDOWN COMPLETE, and T2. Each step waits until what was sent is acknowledged.
//! They work on the parts that `dcsctp_core` shares; the calls and the handlers of SACK, INIT and COOKIE ECHO
//! call them.

mod call;
mod chunks;
mod sending;
mod stepping;
mod t2;

pub use call::do_shutdown;
pub use chunks::{
    handle_shutdown_ack, handle_shutdown_complete, receive_shutdown, reflect_shutdown_ack,
};
pub use sending::send_shutdown_ack;
pub use stepping::step_shutdown;
pub use t2::{answer_data, handle_t2};
