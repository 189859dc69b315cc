//! The control messages of data channels as bytes: DATA_CHANNEL_OPEN and DATA_CHANNEL_ACK (RFC 8832, section 5).
#![tactic(auto)]

mod control;
mod delivery;
mod laws;

pub use control::{Control, ControlError, OpenMessage, read_control, write_ack, write_open};
pub use laws::{acks_are_read, opens_read_back};

// The crate below, for those above.
pub use dcsctp_channel_spec as channel_spec;
