//! Moments, by milliseconds.

use dcsctp_api::SocketTime;
use std::time::Duration;

/// The moment that many milliseconds after the first.
pub fn at(millis: u64) -> SocketTime {
    SocketTime::zero() + Duration::from_millis(millis)
}
