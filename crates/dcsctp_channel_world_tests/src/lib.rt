//! Random schedules of two ends with channels, by the public calls of `ChannelWorld`.
#![tactic(auto)]

#[cfg(test)]
mod checks;
#[cfg(test)]
mod play;
#[cfg(test)]
mod schedules;
#[cfg(test)]
mod sockets;
