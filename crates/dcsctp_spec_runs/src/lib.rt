//! Runs of two sockets, and laws of the definitions that only theorems and the world cite. Each law is the contract of
//! a function without a body.
#![tactic(auto)]

mod laws;

pub use laws::{
    admitted_packets_may_be_worked, answer_keeps_agreement, cookie_reads_back,
    deliveries_are_controlled, flush_keeps_limits, init_brings_one_packet,
    init_packet_leaves_association, negotiation_is_mutual, offer_reads_back, options_fit,
    packets_are_controlled, readiness_contains, received_parts_read_back,
    refused_packet_adds_one_error, sockets_keep_options, sockets_stay_sound,
};
