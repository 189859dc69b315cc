//! The calls of a socket, exported to C. `include/dcsctp.h` declares and describes them.
//!
//! A C or Rust caller has a `Handle`: two words in memory of its own, which it hands to each call. A handle owns
//! a session, in a box, or none. A call is made on the session where it lies, by `slot.held()`.
#![tactic(auto)]

mod answers;
mod association;
mod channels;
mod handle;
mod handover;
mod lending;
mod lifetime;
mod queries;
mod slot;
mod taking;
mod version;
mod words;
