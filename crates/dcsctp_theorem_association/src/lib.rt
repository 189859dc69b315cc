//! What holds of the machine over every run: of one side whatever it is handed, and of two sides over every
//! schedule. Each law is the contract of a function without a body.
#![tactic(auto)]

mod laws;

pub use laws::{
    answers_end_requests, effects_in_place, effects_mean, ends_once, handshake_connects,
    past_is_state, sides_agree, sides_run_alone,
};
