//! How an association ends (RFC 9260, section 9): the handler of ABORT, our own abort, for a reason of the user
//! or of the socket, and the shutdown, from either end. Also what breaks the negotiated protocol, and the
//! handler of ERROR, which may end a handshake. They work on the parts that `dcsctp_core` shares.
#![tactic(auto)]

mod abort;
mod aborting;
mod error;
mod shutdown;
mod violation;

pub use abort::handle_abort;
pub use aborting::abort_association;
pub use error::{STALE_COOKIE, handle_error};
pub use shutdown::{
    answer_data, do_shutdown, handle_shutdown_ack, handle_shutdown_complete, handle_t2,
    receive_shutdown, reflect_shutdown_ack, send_shutdown_ack, step_shutdown,
};
pub use violation::violation_of;
