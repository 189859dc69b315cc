//! The transfer layer, as the rest of a socket sees it: what an association has in flight and has received.
//! What waits to be sent outlives an association, and is the socket's `SendQueue`. Contracts speak of the values
//! that the definitions name, and not of how the crates below represent them.
#![tactic(auto)]

mod forwarding;
mod handover;
mod receiving;
mod resets;
mod sacks;
mod sending;
mod showing;
mod transfer;
mod windows;

pub use dcsctp_receive_reassembly::{Data, Numbering, SkippedTo};
pub use dcsctp_send_retransmission::send_queue::{DataToSend, SendQueue};
pub use sacks::HandledSack;
pub use sending::make_data_chunk;
pub use transfer::Transfer;
pub use windows::packet_size_limit;

// Lower crates, re-exported for those above.
pub use dcsctp_send_retransmission::{api, send_timer, types, wire};
pub use dcsctp_wire_build as wire_build;
