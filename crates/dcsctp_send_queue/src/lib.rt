//! What waits to be sent: the messages of a user by stream, which leave as fragments. It outlasts an
//! association.
#![tactic(auto)]

mod backlog;
mod data;
mod message;
mod paused;
mod send_queue;
mod stream;
mod stream_list;
mod streams;
mod turns;

pub use data::DataToSend;
pub use dcsctp_api::types::{Pause, Turn, UnderWay};
pub use message::{NO_LIMIT, QueuedMessage, limit_of, name_of};
pub use send_queue::SendQueue;
pub use stream::OutgoingStream;
pub use streams::Streams;
