//! Tests of `dcsctp_receive_tracker` and `dcsctp_receive_reassembly` by their public calls. Their values were
//! computed by hand from the rules.
mod arrivals;
mod handover;
mod messages;
mod packets;
mod receiver;
mod resets;
mod tracker;
mod tracking;
