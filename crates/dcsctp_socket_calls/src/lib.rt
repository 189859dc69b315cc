//! The calls of a socket, over its parts. Each is a list of turns, and fails only if an allocation failed. A
//! packet is counted, read and admitted, and its chunks are handled. When the clock moves, timers that are
//! due expire. Messages are sent and taken, streams are reset, settings are kept, and a socket is handed over
//! and restored. `dcsctp_socket` calls them, and keeps a socket that has failed from calling any.
#![tactic(auto)]

mod admission;
mod admission_texts;
mod calls;
mod dispatch;
mod handover;
mod messages;
mod settings;
mod texts;
mod timers;
mod unknown;

pub use calls::{advance_time, close, connect, handle_input, shutdown};
pub use handover::{get_handover_state_and_close, restore_from_state};
pub use messages::{get_next_message, reset_streams, send, send_many};
pub use settings::{set_buffered_amount_low_threshold, set_max_message_size, set_stream_priority};
pub use timers::move_clock;
