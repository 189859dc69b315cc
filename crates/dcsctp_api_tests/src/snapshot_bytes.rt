//! Tests of `dcsctp_snapshot_bytes` by its public calls. The bytes were written out by hand from the table of
//! the format.
mod bytes;
mod reading;
mod sealing;
mod states;
