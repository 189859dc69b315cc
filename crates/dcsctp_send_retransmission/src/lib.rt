//! What was sent and isn't acknowledged, and how much more may be sent: items by TSN, what becomes of them, and their
//! sums.
#![tactic(auto)]

mod forward_tsn;
mod handle_sack_result;
mod handover;
mod item;
mod named_places;
mod outstanding;
mod packet;
mod retransmission_queue;
mod settled;
mod totals;

pub use dcsctp_api::types::{Acknowledged, Change, CongestionControl, ItemState, Progress};
pub use forward_tsn::{ForwardTsn, Skipped};
pub use handle_sack_result::HandleSackResult;
pub use item::Item;
pub use outstanding::Outstanding;
pub use packet::Packet;
pub use retransmission_queue::RetransmissionQueue;
pub use totals::Totals;

// Lower crates, re-exported for those above.
pub use dcsctp_api as api;
pub use dcsctp_api::{types, wire};
pub use dcsctp_send_queue as send_queue;
pub use dcsctp_send_timer as send_timer;
