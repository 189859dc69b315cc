//! Tests of formats and small types by their public calls: packets, control messages of channels, snapshots, and what
//! a socket is made of. Their values come from outside, or were computed by hand.
#![tactic(auto)]

#[cfg(test)]
mod api;
#[cfg(test)]
mod channel_messages;
#[cfg(test)]
mod snapshot_bytes;
#[cfg(test)]
mod wire;
