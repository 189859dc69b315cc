//! Tests of `dcsctp_api` and `dcsctp_send_timer` by their public calls: what a socket is made of. Their
//! values come from outside, or were computed by hand.
mod checks;
mod cookies;
mod events;
mod identifiers;
mod moments;
mod options;
mod sending;
mod snapshots;
