//! What two sockets send one another, over every list of honest acts. Turns of a socket are steps of the directions of
//! its associations, and data is handled in the association in which it was sent. Which associations there are can be
//! seen from outside, so delivery is a promise about what two sockets show.
#![tactic(auto)]

mod associations_laws;
mod shown_laws;
mod sockets_laws;
mod turns_laws;

pub use associations_laws::{
    ends_arrive, ends_begin, ends_cut_as_asked, ends_deliver, ends_deliver_in_order,
    ends_deliver_without_gaps, ends_split_as_asked, receivers_turn, senders_resets, senders_turn,
};
pub use shown_laws::{flights_are_as_negotiated, shown_tags_suffice, users_read_what_was_sent};
pub use sockets_laws::{acts_keep_ends, echoes_go_to_makers, packets_keep_ends, sockets_deliver};
pub use turns_laws::{
    actions_are_steps, data_goes_to_peer, own_requests_complete, peers_requests_turn, rules_stay,
    runs_go_on, tags_are_own, turns_are_actions, turns_report, turns_tell_resets,
    unbegun_numbers_stay,
};
