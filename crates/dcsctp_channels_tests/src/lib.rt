//! Two ends with channels over a link that loses packets, by their public calls; and one end whose peer sends anything.
//!
//! A helper asserts and returns no error, and an end is dropped by a call. Otherwise each early end of a function that
//! owns a socket, and each end of a block, would be proved to drop all of it.
#![tactic(auto)]

#[cfg(test)]
mod closing;
#[cfg(test)]
mod end;
#[cfg(test)]
mod hostile;
#[cfg(test)]
mod link;
#[cfg(test)]
mod opening;
#[cfg(test)]
mod pair;
#[cfg(test)]
mod random;
