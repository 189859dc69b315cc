//! What two sockets recover in every honest run of them, whatever is lost: what is outstanding can be sent again, the
//! other socket has received a part of it, and what was lost comes through. Each law is the contract of a function that
//! only calls others.
#![tactic(auto)]

mod laws;

pub use laws::{
    recovery_laws, sockets_keep_flights_sound, sockets_receive_part, sockets_recover_losses,
};
