//! A socket for callers in other languages: numbers and bytes come in and go out, and buffers are the
//! caller's.
//!
//! A session is a socket and what was taken from it last. `dcsctp_handle` puts it into the hands of such a
//! caller, and `dcsctp_c` exports its calls.
#![tactic(auto)]

mod copying;
mod handover;
mod laws;
mod many;
mod options;
mod records;
mod session;
mod status;
mod taking;

pub use copying::{copy_bytes, show_place};
pub use dcsctp_socket::{Socket, SocketState};
pub use laws::packets_are_read_as_checked;
pub use many::OutgoingRecord;
pub use options::{OptionsRecord, SendOptionsRecord};
pub use records::{CountsRecord, EventRecord, MessageRecord, MetricsRecord};
pub use session::{Session, Taken, moment};
pub use status::Status;
