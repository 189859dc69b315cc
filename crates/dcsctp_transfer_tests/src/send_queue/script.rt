//! What a test does to a queue and what it expects of it, as a text with a line for each step.
//!
//! `# NAME` names the test that follows. An empty line is skipped. S is a stream.
//!
//!     begin N N [RULES]           a new queue: the threshold of each stream, and that of all together; it follows
//!                                 the RFCs where RULES is `by-rfc` or `mtu N`, with packets of N bytes
//!     now N                       the moment from here on, in milliseconds; after `begin` it is 0
//!     later N                     it is this many nanoseconds later
//!     name N, lifetime N, times N, unordered
//!                                 the next message has this name in events, lives this many milliseconds, is
//!                                 sent again this often at most, or is unordered
//!     add S BYTES                 a message
//!     use-up N                    adds a message of one byte to stream 1 and takes it, this many times
//!     fragment N [NUMBERS] [BYTES]    the next fragment, of at most N bytes; `size 0`: there is none
//!     discard S N done N          is the message under way dropped, where it is this one?
//!     prepare S, commit, roll-back    a reset of streams
//!     hand-out N [S, ..]          the streams that are handed out, N at most
//!     reset                       a new association begins
//!     interleave, interleave-no-more  messages are interleaved from now on, or no longer; the peer's window is large
//!     window N                    messages are interleaved from now on, and the peer's window has N bytes
//!     priority S N, threshold S N     gives the stream a priority or a threshold of its own
//!     state S NUMBERS             what the queue answers
//!     tells [EVENT]               the next event, as `Debug` writes it; without one: there is none
//!
//! A queue is handed over by a snapshot, of which `begin` makes an empty one. I is a place in a list, from 0.
//!
//!     hand-over N                 takes a snapshot at this moment, with messages where N is 1
//!     snapshot has NUMBERS        how much it has
//!     snapshot stream I NUMBERS, snapshot message I NUMBERS [BYTES]
//!                                 what it has of a stream or of a message
//!     snapshot expires I TIME     the milliseconds after which a message is abandoned: `Some(N)` or `None`
//!     write next-message N, write stream NUMBERS, write message NUMBERS BYTES
//!                                 adds to it by hand; the numbers are all that `snapshot` reads there
//!     another N N N [RULES]       a new queue at moment 0: the thresholds, and the priority of each stream
//!     restore                     restores the snapshot at this moment
//!
//! NUMBERS are some of the names that `sender` and `snapshot` list, in that order, with a number after each. For
//! a flag it is 1 for yes, 0 for no.

use crate::send_queue::sender::Sender;
use dcsctp_api::Options;
use dcsctp_testing::run_text;
use std::alloc::AllocGlobal;
use std::process::Abort;

/// Takes the lines of a text. After one that fails it continues at the next `begin`, and at the end it fails.
pub fn run<R: Abort + AllocGlobal>(rt: &R, text: &'static str) {
    let mut sender = Sender::new(rt.alloc(), &Options::default());
    if let Err(fault) = run_text(rt.alloc(), &mut sender, text) {
        rt.panic(fault);
    }
}
