//! Tests of `dcsctp_socket` and the crates below by their public calls, where a text of `dcsctp_socket_script` can't
//! say them: values that no socket shows, the loop of a caller, and the texts of errors.
//!
//! A helper asserts and returns no error, and a socket is lent to it.
#![tactic(auto)]

#[cfg(test)]
mod checks;
#[cfg(test)]
mod control_block;
#[cfg(test)]
mod deadlines;
#[cfg(test)]
mod driving;
#[cfg(test)]
mod refusal_texts;
