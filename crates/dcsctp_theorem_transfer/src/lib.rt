//! What holds of an association's transfer layer over every run of two sockets, whatever bytes they are handed: its
//! timers run, and its congestion window has room for a packet. Each law is the contract of a function that only
//! calls others.
#![tactic(auto)]

mod laws;

pub use laws::{
    data_is_taken, data_leaves, lost_data_comes_behind, lost_data_comes_through,
    lost_data_is_sent_again, running_timers_count, sender_hears, sockets_acknowledge,
    sockets_fit_packets, sockets_hold_packet, sockets_owe_in_time, sockets_run_t3,
    sockets_track_received, transfer_laws,
};
