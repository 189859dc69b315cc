//! Printing what a socket shows of itself.

ghost use Rattle.std.specs.Prelude.{◌≡◌};
ghost use Rattle.dcsctp_api.specs.wire.Spelling.{result_code};

use crate::printing::side_name;
use dcsctp_api::types::{
    Association, Capabilities, Held, Phase, ReconfigurationResponseResult, Side,
};
use dcsctp_api::{SocketState, SocketTime};
use std::io::{self, Write};

/// Prints the state of a socket, on a line.
///
/// `Err`: the writer failed, and may have taken a part of the line.
pub fn print_state<W: Write>(side: Side, state: SocketState, output: &mut W) -> io::Result<()> {
    let name = side_name(side);
    let state = match state {
        SocketState::Closed => "Closed",
        SocketState::Connecting => "Connecting",
        SocketState::Connected => "Connected",
        SocketState::ShuttingDown => "ShuttingDown",
    };
    writeln!(output, "{name} {state}")
}

/// Prints the next deadline of a socket, on a line: in nanoseconds after its making, or `never`.
///
/// `Err`: the writer failed, and may have taken a part of the line.
pub fn print_timeout<W: Write>(side: Side, moment: SocketTime, output: &mut W) -> io::Result<()> {
    let name = side_name(side);
    if moment == SocketTime::infinite_future() {
        return writeln!(output, "{name} timeout never");
    }
    let nanos = moment.as_nanos();
    writeln!(output, "{name} timeout {nanos}")
}

/// Prints an association on a line: its phase, its own pair, and the rest if the peer is known. Without an
/// association it prints `no association`.
///
/// `Err`: the writer failed, and may have taken a part of the line.
pub fn print_association<W: Write>(
    side: Side,
    association: Option<Association>,
    output: &mut W,
) -> io::Result<()> {
    let name = side_name(side);
    let Some(association) = association else {
        return writeln!(output, "{name} no association");
    };
    let phase = phase_name(association.phase);
    let tag = association.my.tag;
    let first_tsn = association.my.first_tsn;
    write!(output, "{name} {phase} my {tag:08x} {first_tsn}")?;
    if let Some(held) = association.held {
        print_held(&held, output)?;
    }
    writeln!(output)
}

// The name of a phase.
fn phase_name(phase: Phase) -> &'static str {
    match phase {
        Phase::CookieWait => "cookie-wait",
        Phase::CookieEchoed => "cookie-echoed",
        Phase::Established => "established",
        Phase::ShutdownPending => "shutdown-pending",
        Phase::ShutdownSent => "shutdown-sent",
        Phase::ShutdownReceived => "shutdown-received",
        Phase::ShutdownAckSent => "shutdown-ack-sent",
    }
}

// Prints what is known with a peer: its pair, the capabilities, and the requests to reset streams.
fn print_held<W: Write>(held: &Held, output: &mut W) -> io::Result<()> {
    let tag = held.peer.tag;
    let first_tsn = held.peer.first_tsn;
    write!(output, " peer {tag:08x} {first_tsn}")?;
    print_features(&held.capabilities, output)?;
    print_limits(&held.capabilities, output)?;
    print_requests(held, output)
}

// Prints whether both ends have partial reliability, interleaving and re-configuration.
fn print_features<W: Write>(capabilities: &Capabilities, output: &mut W) -> io::Result<()> {
    let partial_reliability = capabilities.partial_reliability as u8;
    let interleaving = capabilities.message_interleaving as u8;
    let reconfig = capabilities.reconfig as u8;
    write!(
        output,
        " caps {partial_reliability} {interleaving} {reconfig}"
    )
}

// Prints the zero checksum method and the numbers of streams of both ends.
fn print_limits<W: Write>(capabilities: &Capabilities, output: &mut W) -> io::Result<()> {
    let method = capabilities.zero_checksum_method.0;
    let incoming = capabilities.negotiated_maximum_incoming_streams;
    let outgoing = capabilities.negotiated_maximum_outgoing_streams;
    write!(output, " {method} {incoming} {outgoing}")
}

// Prints the requests to reset streams: its own ones, and the peer's last with its answer.
fn print_requests<W: Write>(held: &Held, output: &mut W) -> io::Result<()> {
    print_own_requests(held.own_next, held.own_outstanding, output)?;
    let last = held.peer_last;
    let code = code_of(held.peer_result);
    write!(output, " last {last} {code}")
}

// Prints the number of its next request, and of the one that is under way.
fn print_own_requests<W: Write>(
    next: u32,
    outstanding: Option<u32>,
    output: &mut W,
) -> io::Result<()> {
    match outstanding {
        Some(number) => write!(output, " own {next} {number}"),
        None => write!(output, " own {next} none"),
    }
}

// The code of an answer to a request (RFC 6525, section 4.4).
fn code_of(answer: ReconfigurationResponseResult) -> u8
    ensures { result ≡ result_code answer }
{
    match answer {
        ReconfigurationResponseResult::SuccessNothingToDo => 0,
        ReconfigurationResponseResult::SuccessPerformed => 1,
        ReconfigurationResponseResult::Denied => 2,
        ReconfigurationResponseResult::ErrorWrongSSN => 3,
        ReconfigurationResponseResult::ErrorRequestAlreadyInProgress => 4,
        ReconfigurationResponseResult::ErrorBadSequenceNumber => 5,
        ReconfigurationResponseResult::InProgress => 6,
    }
}
