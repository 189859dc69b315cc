//! Printing messages that are taken, and why a message, a reset or a handover is refused, on a line.

use crate::printing::side_name;
use dcsctp_api::types::Side;
use dcsctp_api::{HandoverError, Message, ResetStreamsError, SendError};
use std::io::{self, Write};

/// Prints the message that a side took, or that there was none: its stream, its protocol and its bytes in
/// hexadecimal digits.
///
/// `Err`: the writer failed, and may have taken a part of the line.
pub fn print_taken<W: Write>(
    side: Side,
    message: Option<&Message>,
    output: &mut W,
) -> io::Result<()> {
    let name = side_name(side);
    let Some(message) = message else {
        return writeln!(output, "{name} no-message");
    };
    let (stream, protocol) = (message.stream_id, message.ppid);
    write!(output, "{name} message {stream} {protocol} ")?;
    print_bytes(&message.payload, output)?;
    writeln!(output)
}

// Prints bytes as two digits each.
fn print_bytes<W: Write>(bytes: &[u8], output: &mut W) -> io::Result<()> {
    for byte in bytes {
        write!(output, "{byte:02x}")?;
    }
    Ok(())
}

/// Prints why a side refused a message, by the number of the reason.
///
/// `Err`: the writer failed, and may have taken a part of the line.
pub fn print_refusal<W: Write>(side: Side, error: &SendError, output: &mut W) -> io::Result<()> {
    let name = side_name(side);
    let number = match error {
        SendError::EmptyPayload => 1,
        SendError::MessageTooLarge { len: _, limit: _ } => 2,
        SendError::ResourceExhaustion => 3,
        SendError::ShuttingDown => 4,
    };
    writeln!(output, "{name} refused E{number}")
}

/// Prints why a side reset no stream, by the number of the reason.
///
/// `Err`: the writer failed, and may have taken a part of the line.
pub fn print_reset_refusal<W: Write>(
    side: Side,
    error: &ResetStreamsError,
    output: &mut W,
) -> io::Result<()> {
    let name = side_name(side);
    let number = match error {
        ResetStreamsError::NotConnected => 6,
        ResetStreamsError::NotSupported => 7,
    };
    writeln!(output, "{name} refused E{number}")
}

/// Prints why a side wasn't handed over, by the number of the refusal and the names of the reasons.
///
/// `Err`: the writer failed, and may have taken a part of the line.
pub fn print_handover_refusal<W: Write>(
    side: Side,
    error: &HandoverError,
    output: &mut W,
) -> io::Result<()> {
    let name = side_name(side);
    let HandoverError::NotReady(readiness) = error;
    writeln!(output, "{name} refused E8 {readiness}")
}
