//! Laws of the definitions over whole turns: each is one of the association's, and each call keeps an endpoint
//! sound. Laws of what is received, of SACKs and of the congestion window. Each law is the contract of a function
//! without a body.
#![tactic(auto)]

mod laws;

pub use laws::{
    acts_are_controlled, calls_keep_soundness, chunks_are_controlled, flushes_keep_window,
    init_leaves_association, last_tag_is_spent, messages_left_stay, one_is_answered,
    packets_keep_window, sacks_cover_received, sacks_fit, sets_follow_rule, snapshots_are_valid,
    time_passes_quietly, timers_are_controlled, trackers_stay_tracked, window_counts_parts,
    window_is_bounded,
};
