//! Messages of the user: those that are sent, those that are taken, and resets of the streams that they go by.
#![tactic(auto)]

mod queueing;
mod refusal;
mod resetting;
mod sending;
mod taking;

pub use resetting::do_reset_streams;
pub use sending::{do_send, do_send_many};
pub use taking::get_next_message;
