//! Two sockets under long schedules that a seed gives: packets are lost, repeated, delayed and reordered, and users
//! call at any moment. What `World::run` promises of both sides is looked for in what the world shows, act by act.
//!
//! A helper asserts and returns no error, and a world is dropped by a call. Otherwise each early end of a
//! function that owns a world, and each end of a block, would be proved to drop all of it.
#![tactic(auto)]

mod counter;

pub use counter::Counter;

#[cfg(test)]
mod agreed;
#[cfg(test)]
mod counts;
#[cfg(test)]
mod delivered;
#[cfg(test)]
mod drawing;
#[cfg(test)]
mod pairs;
#[cfg(test)]
mod schedules;
#[cfg(test)]
mod seen;
#[cfg(test)]
mod settling;
#[cfg(test)]
mod steps;
#[cfg(test)]
mod view;
