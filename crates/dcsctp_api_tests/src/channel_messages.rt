//! Tests of `dcsctp_channel_messages` by its public calls. The bytes were written by hand from RFC 8832, section 5.
mod reading;
mod writing;
