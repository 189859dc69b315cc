//! What holds of two sockets over every list of acts, from the bytes of their packets on. Agreement holds of
//! honest acts alone, and all else whatever bytes are handed in. Each law is the contract of a function
//! without a body. Two more say where their cookies come from, and how old one is that makes an association.
#![tactic(auto)]

mod cookies;
mod laws;

pub use cookies::{cookie_laws, cookies_age, cookies_were_given};
pub use laws::{
    fitting_sockets_connect, restored_sockets_begin_nothing, snapshots_bring_back,
    socket_effects_in_place, socket_laws, socket_requests_end_by_answers, sockets_agree,
    sockets_hold_noted, sockets_keep_bursts, sockets_keep_sizes, sockets_note_anew, sockets_run_t1,
    sockets_tell_effects, sockets_tell_ends, sockets_wait_quietly,
};
