//! Maps from places to what begins there, and how their operations change the list of entries. An entry is
//! found, put or taken at a position. The numbers of TSNs and messages are counted without wrap, so that the
//! order of keys is the order in which the peer sent.
#![tactic(auto)]

mod entries;

pub use entries::{entry_behind, entry_up_to, put_entry};
