//! The program `dcsctp-bench`: two sockets in one process and a link between them, to count what they
//! cost (`scripts/measure.sh`) and to see that they carry what they are given.
//!
//! ```text
//! dcsctp_bench handshakes N
//! dcsctp_bench messages N SIZE [unordered] [streams=K] [loss=PERMILLE] [seed=SEED] [delay=MS] [queued=Q]
//!     [zero-checksum] [counts] [chunks]
//! dcsctp_bench hold N [used | idle]
//! dcsctp_bench strain fragments|interleaved|gaps|links|waiting|streams|reset|skips-repeated|skips-rising|
//!     skips-waiting|skips-interleaved|skips-deferred|skips-deferred-interleaved|resets|
//!     turns|closes|priorities|sends|reset-calls|sacks|misses|abandoned HELD MORE
//! dcsctp_bench rules readers|windows|shutdown|bulk|reconnects|closes|keeps|equals on|off [loss=PERMILLE]
//!     [seed=SEED] [window=BYTES]
//! ```
//!
//! `handshakes` makes N pairs of sockets one after another, connects each and drops it. `messages` sends N
//! messages of SIZE bytes from one socket to the other, without checksums, as over DTLS. They are sent on one
//! ordered stream, `unordered`, or on K streams in turn. PERMILLE of a thousand packets are lost after the
//! handshake, by SEED. Each is under way for half of MS milliseconds of simulated time. Q more messages are
//! sent before any packet is handed over. `counts` prints the packets, too, and `chunks` the time that
//! passed, the chunks of data that were sent, and those that the peer had when they arrived. `hold` makes N
//! pairs and keeps them, `used` after 1 MiB was sent each way, `idle` a minute later. `strain` has one socket hold
//! HELD unfinished or waiting things that its peer sent. Then it hands it MORE packets, 10 at most, whose contents
//! belong among those, or that name their stream as often as a FORWARD-TSN can, or that have as many FORWARD-TSNs
//! or requests to reset a stream as a packet has room for. From `turns` on it is a sender that is strained;
//! `burden.rt` says how. `rules` tries what the option `follow_rfc` changes, `on` or `off`, with a receive window
//! of BYTES: `rules.rt` says what the users do. The exit status is 0 if all went well and 2 at bad
//! arguments. Else it is 1, and standard error says why.
#![tactic(auto)]

mod arguments;
mod burden;
mod chunks;
mod commands;
mod failure;
mod keeping;
mod ledger;
mod pair;
mod rules;
mod strain;
mod traffic;
mod trial;

use crate::arguments::{Command, parse_command};
use std::alloc::Global;
use std::process::ExitCode;
use std::rt::Env;
use std::{env, io};

const USAGE: &str = "usage: dcsctp_bench handshakes N
       dcsctp_bench messages N SIZE [unordered] [streams=K] [loss=PERMILLE] [seed=SEED] [delay=MS] [queued=Q]
           [zero-checksum] [counts] [chunks]
       dcsctp_bench hold N [used | idle]
       dcsctp_bench strain fragments|interleaved|gaps|links|waiting|streams|reset|skips-repeated|skips-rising|
           skips-waiting|skips-interleaved|skips-deferred|skips-deferred-interleaved|resets|
           turns|closes|priorities|sends|reset-calls|sacks|misses|abandoned HELD MORE
       dcsctp_bench rules readers|windows|shutdown|bulk|reconnects|closes|keeps|equals on|off [loss=PERMILLE]
           [seed=SEED] [window=BYTES]";

// The command that the arguments say; none if they say no command.
fn command(rt: &(impl Env + Alloc<A = Global>)) -> io::Result<Option<Command>> {
    let mut words = Vec::new(rt.alloc());
    for word in env::args(rt)?.skip(1) {
        words.push(word)?;
    }
    Ok(parse_command(words.as_slice()))
}

fn main(rt: HostRuntime) -> ExitCode {
    let Ok(Some(command)) = command(&rt) else {
        let _ = eprintln!(rt; "{USAGE}");
        return ExitCode::from(2);
    };
    match commands::obey(&rt, command) {
        Ok(()) => ExitCode::from(0),
        Err(failure) => {
            let _ = eprintln!(rt; "dcsctp_bench: {failure}");
            ExitCode::from(1)
        }
    }
}
