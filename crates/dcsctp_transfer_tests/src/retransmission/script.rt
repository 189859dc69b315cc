//! What a test does to the two queues and what it expects of them, as a text with a line for each step.
//!
//! `# NAME` names the test that follows. An empty line is skipped. S is a stream.
//!
//!     begin N N N N               new queues: the first TSN, the peer's window, and whether partial
//!                                 reliability and interleaving were negotiated
//!     now N                       the moment from here on, in milliseconds; after `begin` it is 0
//!     name N, lifetime N, times N, unordered
//!                                 the next message has this name in events, lives this many milliseconds, is
//!                                 sent again this often at most, or is unordered
//!     add S N, add-many N N       a message of so many bytes; so many messages on stream 1
//!     send N [TSN, ..]            what goes into a packet of N bytes
//!     send-fast N [TSN, ..]       the same, as a fast retransmission
//!     sack N N valid N            a SACK of this cumulative TSN and window
//!     sack-block N N N N valid N  the same, after the offsets of the first and last TSN of a gap ack block
//!     time-out is-over N          is the retransmission timer over?
//!     begin-reset                 outgoing streams are reset
//!     forward due N               is a FORWARD-TSN due?
//!     skip CHUNK                  what it says, as `Debug` writes it
//!     skip-bytes [BYTE, ..]       how it writes what it skips
//!     chunk TSN NUMBERS           the chunk of a TSN; `size 0`: there is none
//!     state NUMBERS               what the queue answers, and what the latest SACK did
//!     tells [EVENT]               the next event, as `Debug` writes it; without one: there is none
//!     hand-over N                 a snapshot is made, and what is outstanding goes along or doesn't
//!     snapshot NUMBERS            what it says
//!     part N NUMBERS              what it has of the item at that place
//!     part-expires N TIME         the milliseconds after which that item is abandoned, as `Debug` writes it
//!     restore N N N               new queues at this moment, with the same two flags as `begin`, which
//!                                 continue from the snapshot
//!
//! NUMBERS are some of the names that `line` and `line/snapshot` list, in that order, with a number after each.
//! For a flag it is 1 for yes, 0 for no. `expires` and `ago` are in milliseconds, and `rtt` in nanoseconds.

use crate::retransmission::line::Line;
use dcsctp_testing::run_text;
use std::alloc::AllocGlobal;
use std::process::Abort;

/// Takes the lines of a text. After one that fails it continues at the next `begin`, and at the end it fails.
pub fn run<R: Abort + AllocGlobal>(rt: &R, text: &'static str) {
    let mut line = Line::new(rt.alloc(), 0, 0, (false, false));
    if let Err(fault) = run_text(rt.alloc(), &mut line, text) {
        rt.panic(fault);
    }
}
