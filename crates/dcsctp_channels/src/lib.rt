//! Data channels over a socket (RFC 8831, RFC 8832). `Channels` owns the socket and serves one association. A channel
//! has a name that is never given twice; its stream is inside.
#![tactic(auto)]

mod arrivals;
mod below;
mod channels;
mod closing;
mod handover;
mod layer;
mod naming;
mod notices;
mod opening;
mod polling;
mod queries;
mod rows;
mod sending;
mod table;

pub use channels::Channels;

// The crates below, for those above.
pub use dcsctp_channel_calls as channel_calls;
