//! Two ends with channels in one place: what happens to them, and what they show.
//!
//! A `ChannelWorld` applies steps one after another. A step is a call of one end's user, a poll, or the delivery of a
//! packet that a poll of the other end gave. Any packet may be delivered, at any moment, as often as the schedule says.
//! So a list of steps says what a network between two ends may do: lose, repeat, delay and reorder.
#![tactic(auto)]

mod fits;
mod step;
mod watched_end;
mod world;

pub use step::{ChannelStep, EndCall, EndReply};
pub use watched_end::{ChannelMessage, EndedChannel, NamedChannel};
pub use world::ChannelWorld;
