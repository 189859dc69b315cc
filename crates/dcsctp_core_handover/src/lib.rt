//! A socket that is handed over to another process: what its snapshot has, how its association leaves, and how
//! a socket there continues with it.
#![tactic(auto)]

mod leaving;
mod restoring;
mod snapshot;

pub use leaving::hand_over;
pub use restoring::restore;
pub use snapshot::handover_state;
