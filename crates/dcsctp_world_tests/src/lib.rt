//! Tests of `dcsctp_world` by its public calls, where no script can say them: what a world keeps of acts, associations,
//! words and messages, what a step answers, and whether all acts were honest; sockets that are handed over, and restored
//! from snapshots; and bytes that no socket emitted, a forged cookie and packets that were damaged on their way.
//!
//! A helper asserts and returns no error, and a world is dropped by a call. Otherwise each early end of a
//! function that owns a world, and each end of a block, would be proved to drop all of it.
#![tactic(auto)]

#[cfg(test)]
mod checks;
#[cfg(test)]
mod damaged;
#[cfg(test)]
mod exchanges;
#[cfg(test)]
mod forged;
#[cfg(test)]
mod handovers;
#[cfg(test)]
mod invalid_snapshots;
#[cfg(test)]
mod outside;
#[cfg(test)]
mod snapshots;
#[cfg(test)]
mod stages;
#[cfg(test)]
mod user_messages;
#[cfg(test)]
mod words;
#[cfg(test)]
mod worlds;
