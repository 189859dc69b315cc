//! What a socket promises when an allocation fails, by its public calls. Two sockets go through exchanges of packets,
//! and tables have all their events: with enough memory the whole of each is compared. Between marks a side does what
//! takes no memory, and values that need no socket do so, too.
//!
//! `scripts/refusals.sh` runs each test once more for each of its allocations, which fails in that run; so again with
//! all after it; and once with all between the marks.
//!
//! A helper asserts and returns no error of a socket, and a socket is dropped by a call. Otherwise each early
//! end of a function that owns a socket would be proved to drop all of it.
#![tactic(auto)]

#[cfg(test)]
mod answers;
#[cfg(test)]
mod exchange;
#[cfg(test)]
mod handing_over;
#[cfg(test)]
mod long_exchange;
#[cfg(test)]
mod memoryless;
#[cfg(test)]
mod memoryless_exchanges;
#[cfg(test)]
mod refusal;
#[cfg(test)]
mod room;
#[cfg(test)]
mod run;
#[cfg(test)]
mod short_exchanges;
#[cfg(test)]
mod shown;
#[cfg(test)]
mod side;
#[cfg(test)]
mod values;
#[cfg(test)]
mod without_memory;
