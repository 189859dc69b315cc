//! Two sockets connect, whatever is lost, once the network lets a repeat and what follows it through: progress, over
//! finite runs. Each law is the contract of a function that only calls others.
#![tactic(auto)]

mod laws;

pub use laws::{
    echoed_cookies_are_the_others, fresh_sockets_connect, lossy_rounds_connect,
    lossy_rounds_lead_on, lost_acks_are_made_good, lost_acks_connect, lost_data_acks_connect,
    lost_echoes_are_made_good, lost_inits_are_made_good, lost_inits_of_both_are_made_good,
    lost_rounds_are_made_good, older_associations_give_way, older_associations_give_way_to_data,
    older_associations_give_way_to_inits, progress_laws, rounds_connect_sockets,
};
