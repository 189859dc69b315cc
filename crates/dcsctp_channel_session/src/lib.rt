//! A socket with data channels for callers in other languages: numbers and bytes come in and go out, and buffers are
//! the caller's.
//!
//! It is a session's neighbour: `begin` makes it of a session whose socket is new. `dcsctp_handle` puts either into the
//! hands of a caller, and `dcsctp_c` exports their calls.
#![tactic(auto)]

mod association;
mod channels;
mod handover;
mod held;
mod options;
mod records;
mod session;
mod taking;

pub use held::Held;
pub use options::{ChannelOptionsRecord, LimitsRecord};
pub use records::{ChannelEventRecord, ShownOptions, TrafficRecord};
pub use session::ChannelSession;

// The crate below, for those above.
pub use dcsctp_session as session_below;
