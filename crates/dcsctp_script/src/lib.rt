//! Scripts: one command a line, on two sockets `A` and `B` that start closed.
//!
//! First come the lines that set options (`opt S name value`), then those that list random words
//! (`words S w ..`), then the rest: `connect S`, `close S`, `shutdown S`, `send S stream hex`, `reset S ids`, `recv S`,
//! `time S ms`, `give S k`, `input S hex`, `handover S`, `settle rounds`, `show S`, `state S` and `timeout S`. After each
//! command its events are printed, a line each, those of A first. The first line that is none of these, or comes at the
//! wrong place, ends the run.
#![tactic(auto)]

mod commands;
mod failure;
mod run;
mod script;
mod setup;
mod words;

pub use dcsctp_script_lines::{print_event, set_option};
pub use failure::Status;
pub use run::run_script;
