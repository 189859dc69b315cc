//! The answer to a SACK.

use std::time::Duration;

/// What a SACK led to.
#[derive(Clone, Copy, Debug)]
pub enum HandleSackResult {
    /// Its cumulative TSN is old, or was never sent. Nothing has changed.
    Invalid,

    /// It was taken into account.
    Valid {
        /// The round trip of the newest item that it acknowledges and none before did. `None` if there is no
        /// such item, or it was sent again or waits for that (RFC 9260, section 6.3.1, rule C5).
        rtt: Option<Duration>,

        /// Was an item acknowledged that no SACK had acknowledged before, abandoned or not (RFC 9260, section
        /// 8.1)?
        reset_error_counter: bool,
    },
}
