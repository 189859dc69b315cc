//! Printing an event, on a line.

use crate::packet_text::print_packet;
use dcsctp_api::types::{ErrorKind, Side};
use dcsctp_api::{LifecycleId, SocketEvent, StreamId};
use std::io::{self, Write};

/// The name of a side.
pub fn side_name(side: Side) -> &'static str {
    match side {
        Side::A => "A",
        Side::B => "B",
    }
}

/// Prints an event of a side on a line; a packet under this number.
///
/// `Err`: the writer failed, and may have taken a part of the line.
pub fn print_event<W: Write>(
    side: Side,
    number: u64,
    event: &SocketEvent,
    output: &mut W,
) -> io::Result<()> {
    let name = side_name(side);
    match event {
        SocketEvent::SendPacket(packet) => print_packet(name, number, packet, output),
        SocketEvent::OnConnected() => print_fact(name, "connected", output),
        SocketEvent::OnClosed() => print_fact(name, "closed", output),
        SocketEvent::OnConnectionRestarted() => print_fact(name, "restarted", output),
        SocketEvent::OnAborted(kind, text) => print_error(name, "aborted", *kind, text, output),
        SocketEvent::OnError(kind, text) => print_error(name, "error", *kind, text, output),
        SocketEvent::OnBufferedAmountLow(id) => writeln!(output, "{name} buffered-low {id}"),
        SocketEvent::OnTotalBufferedAmountLow() => print_fact(name, "total-buffered-low", output),
        SocketEvent::OnStreamsResetFailed(ids) => print_streams(name, "reset-failed", ids, output),
        SocketEvent::OnStreamsResetPerformed(ids) => {
            print_streams(name, "reset-performed", ids, output)
        }
        SocketEvent::OnIncomingStreamReset(ids) => {
            print_streams(name, "incoming-reset", ids, output)
        }
        SocketEvent::OnLifecycleMessageFullySent(id) => {
            print_message(name, "fully-sent", *id, output)
        }
        SocketEvent::OnLifecycleMessageMaybeExpired(id) => {
            print_message(name, "maybe-expired", *id, output)
        }
        SocketEvent::OnLifecycleMessageExpired(id) => print_message(name, "expired", *id, output),
        SocketEvent::OnLifecycleMessageDelivered(id) => {
            print_message(name, "delivered", *id, output)
        }
        SocketEvent::OnLifecycleEnd(id) => print_message(name, "lifecycle-end", *id, output),
    }
}

// Prints what happened to a side.
fn print_fact<W: Write>(side: &str, what: &str, output: &mut W) -> io::Result<()> {
    writeln!(output, "{side} {what}")
}

// Prints what happened to a message of a side.
fn print_message<W: Write>(
    side: &str,
    what: &str,
    id: LifecycleId,
    output: &mut W,
) -> io::Result<()> {
    writeln!(output, "{side} {what} {id}")
}

// Prints a kind of error, and its text if it isn't empty. A character below 32 is printed as a dot.
fn print_error<W: Write>(
    side: &str,
    what: &str,
    kind: ErrorKind,
    text: &str,
    output: &mut W,
) -> io::Result<()> {
    let kind = kind_name(kind);
    write!(output, "{side} {what} {kind}")?;
    if !text.is_empty() {
        write!(output, " ")?;
    }
    for character in text.chars() {
        let shown = if character < ' ' { '.' } else { character };
        write!(output, "{shown}")?;
    }
    writeln!(output)
}

// The name of a kind of error.
fn kind_name(kind: ErrorKind) -> &'static str {
    match kind {
        ErrorKind::NoError => "NoError",
        ErrorKind::TooManyRetries => "TooManyRetries",
        ErrorKind::NotConnected => "NotConnected",
        ErrorKind::ParseFailed => "ParseFailed",
        ErrorKind::WrongSequence => "WrongSequence",
        ErrorKind::PeerReported => "PeerReported",
        ErrorKind::ProtocolViolation => "ProtocolViolation",
        ErrorKind::ResourceExhaustion => "ResourceExhaustion",
        ErrorKind::UnsupportedOperation => "UnsupportedOperation",
    }
}

// Prints a list of streams, joined by commas; an empty one means all of them.
fn print_streams<W: Write>(
    side: &str,
    what: &str,
    ids: &[StreamId],
    output: &mut W,
) -> io::Result<()> {
    write!(output, "{side} {what} ")?;
    if ids.is_empty() {
        write!(output, "all")?;
    }
    for (index, id) in ids.iter().enumerate() {
        if index != 0 {
            write!(output, ",")?;
        }
        write!(output, "{id}")?;
    }
    writeln!(output)
}
