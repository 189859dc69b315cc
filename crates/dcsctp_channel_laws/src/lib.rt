//! Laws of the calls of a socket with channels, and of its handover. Each law is the contract of a function without a body.
#![tactic(auto)]

mod handover_laws;
mod laws;

pub use handover_laws::{channels_go_on, restored_channels_are_orderly};
pub use laws::names_are_new;
