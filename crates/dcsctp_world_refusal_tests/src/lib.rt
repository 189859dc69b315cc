//! What a world promises when an allocation fails, by its public calls. It is compared with a twin that had enough
//! memory: view by view, step by step, in one run, and in acts from outside. A generator that keeps its words is tried
//! by itself.
//!
//! `scripts/refusals.sh` runs each test once more for each of its allocations, which fails in that run; and so again
//! with all after it.
//!
//! A helper asserts and returns no error of a world, and a world is dropped by a call. Otherwise each early end of a
//! function that owns a world would be proved to drop all of it.
#![tactic(auto)]

#[cfg(test)]
mod deeds;
#[cfg(test)]
mod handovers;
#[cfg(test)]
mod recorded;
#[cfg(test)]
mod snapshot;
#[cfg(test)]
mod taking;
#[cfg(test)]
mod twins;
#[cfg(test)]
mod views;
#[cfg(test)]
mod worlds;
