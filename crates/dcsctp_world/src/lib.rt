//! Two sockets in one place: what happens to them, and what they show.
//!
//! A `World` applies steps one after another. A step is a call of one socket's user, or the delivery of a
//! packet that the other socket emitted. Any packet may be delivered, at any moment, as often as the schedule
//! says. So a list of steps says what a network between two sockets may do: lose, repeat, delay and reorder.
//! What no such network does is an act from outside: handing in bytes that no socket emitted, or restoring a
//! socket from a snapshot.
//!
//! Each socket draws its random words from a `Recorded`, which is over the generator that the world is made with.
#![tactic(auto)]

mod act;
mod fits;
mod recorded;
mod rounds;
mod user_messages;
mod watched_socket;
mod world;

pub use act::Reply;
pub use dcsctp_core::types::{Act, Call, Outside, Side, Step};
pub use dcsctp_socket as socket;
pub use recorded::Recorded;
pub use world::World;
