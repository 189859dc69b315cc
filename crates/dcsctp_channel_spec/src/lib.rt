//! Data channels over the streams of an association: the table of what each input makes of a stream (RFC 8831,
//! RFC 8832) in `specs/`, the types that it is over, and its laws.
#![tactic(auto)]

mod laws;
mod types;

pub use laws::{
    contents_read_back, reports_are_in_turn, reports_are_true, requests_are_apart,
    streams_are_freed_by_both_resets, streams_are_shared, uses_advance,
};
pub use types::{ChannelEnd, Delivery, OwnReset, Reliability, Role, StreamUse};
