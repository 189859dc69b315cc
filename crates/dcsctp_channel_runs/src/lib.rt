//! Runs of two ends with channels, and the run of two sockets that each is.
#![tactic(auto)]

mod laws;

pub use laws::channels_run_sockets;
