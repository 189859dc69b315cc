//! Two sockets over a link that loses, doubles and reorders, by their public calls. Time advances to their
//! deadlines, and whole messages arrive, ordered ones in order.
//!
//! A helper asserts and returns no error, and an end is dropped by a call. Otherwise each early end of a
//! function that owns a socket, and each end of a block, would be proved to drop all of it.
#![tactic(auto)]

#[cfg(test)]
mod closing;
#[cfg(test)]
mod end;
#[cfg(test)]
mod far_ahead;
#[cfg(test)]
mod handing_over;
#[cfg(test)]
mod handovers;
#[cfg(test)]
mod link;
#[cfg(test)]
mod messages;
#[cfg(test)]
mod partial;
#[cfg(test)]
mod reliable;
#[cfg(test)]
mod resets;
#[cfg(test)]
mod resetting;
#[cfg(test)]
mod run;
#[cfg(test)]
mod seen;
#[cfg(test)]
mod simulation;
