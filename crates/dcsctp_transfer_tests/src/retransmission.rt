//! Tests of `RetransmissionTimeout` and `RetransmissionQueue` by their public calls. Their values were
//! computed by hand from the formulas of RFC 9260, sections 6.3.1 and 7.2, and RFC 3758.
//!
//! A test is a text with a line for each step, which one runner goes through (`script`). A table in the code
//! would need a proof, and so would a function for each test.
mod abandoning;
mod acknowledging;
mod handover;
mod line;
mod script;
mod timeouts;
mod windows;
