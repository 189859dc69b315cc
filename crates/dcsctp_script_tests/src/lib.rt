//! Tests of `dcsctp_script` by its public calls, for what no text shows. These are letters that no script
//! has, failing readers and writers, events and refusals that no script causes, and options that nothing
//! printed depends on. The command `handover` is here too. All other scripts are cases of the program
//! (crates/dcsctp_run/cases).
#![tactic(auto)]

#[cfg(test)]
mod bad_lines;
#[cfg(test)]
mod checks;
#[cfg(test)]
mod faults;
#[cfg(test)]
mod handovers;
#[cfg(test)]
mod printing;
#[cfg(test)]
mod settings;
