//! The core of a socket: its state, and what all handlers share.
#![tactic(auto)]

mod acknowledging;
mod answering;
mod context;
mod deadlines;
mod ending;
mod expiry;
mod flush;
mod following;
mod phases;
mod reconfiguration;
mod resetting;
mod showing;
mod spares;
mod state;
mod timeout;
mod transmission_control_block;
mod tx_error_counter;

pub use context::Context;
pub use deadlines::{DeadlineKind, Deadlines, Entry, relist_tells};
pub use expiry::Expiry;
pub use following::Following;
pub use resetting::{RequestStart, number_answered, stream_bytes};
pub use spares::{free_spares, keep_spare, take_spare};
pub use state::{CookieEchoState, CookieWaitState, OpenPhase, OpenState, ShutdownState, State};
pub use timeout::{is_quiet, list_deadlines, poll_timeout};
pub use transmission_control_block::{
    Peer, PerformedReset, ResetRequest, TransmissionControlBlock,
};
pub use tx_error_counter::TxErrorCounter;

// Lower crates, re-exported for those above.
pub use dcsctp_transfer as transfer;
pub use dcsctp_transfer::{api, send_timer, types, wire};
