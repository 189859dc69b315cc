//! The texts of error causes (RFC 9260, section 3.3.10), as the user sees them.

ghost use Rattle.std.specs.Prelude.{◌≡◌, ◌++◌, ◌<◌, map, string_bytes, OnOk, IfOk};
ghost use Rattle.dcsctp_wire.specs.Content.{cause_content};
ghost use Rattle.dcsctp_wire.specs.Texts.{shown_byte, code_and_value_text, cause_text, causes_text};

use super::ErrorCause;
use crate::types::cause_code;
use std::alloc::{AllocError, Global};

// A byte as it is shown.
fn shown(byte: u8) -> char
    ensures value { result ≡ shown_byte byte }
    ensures ascii { result < 128 }
{
    if byte < 32 || byte > 126 {
        '.'
    } else {
        byte as char
    }
}

fn push_shown(text: &mut String, value: &[u8]) -> Result<(), AllocError>
    ensures { OnOk result (string_bytes text.new ≡ string_bytes text.old ++ map shown_byte
        value.now) }
{
    for byte in value {
        text.push(shown(*byte))?;
    }
    Ok(())
}

fn push_code_and_value(text: &mut String, code: u16, value: &[u8]) -> Result<(), AllocError>
    ensures { OnOk result (string_bytes text.new ≡ string_bytes text.old ++ code_and_value_text code
        value.now) }
{
    write!(text, "cause {code}")?;
    if code != cause_code::USER_INITIATED_ABORT && code != cause_code::PROTOCOL_VIOLATION {
        return Ok(());
    }
    text.push_str(": ")?;
    push_shown(text, value)?;
    Ok(())
}

fn push_cause(text: &mut String, cause: &ErrorCause<'_>) -> Result<(), AllocError>
    ensures { OnOk result (string_bytes text.new ≡ string_bytes text.old ++ cause_text
        (cause_content cause.now)) }
{
    match cause {
        ErrorCause::MissingMandatoryParameter { .. } => {
            push_code_and_value(text, cause_code::MISSING_MANDATORY_PARAMETER, &[])
        }
        ErrorCause::UnrecognizedChunkType { .. } => {
            push_code_and_value(text, cause_code::UNRECOGNIZED_CHUNK_TYPE, &[])
        }
        ErrorCause::NoUserData { .. } => {
            push_code_and_value(text, cause_code::NO_USER_DATA, &[])
        }
        ErrorCause::CookieReceivedWhileShuttingDown => {
            push_code_and_value(text, cause_code::COOKIE_RECEIVED_WHILE_SHUTTING_DOWN, &[])
        }
        ErrorCause::UserInitiatedAbort { text: reason } => {
            push_code_and_value(text, cause_code::USER_INITIATED_ABORT, reason)
        }
        ErrorCause::ProtocolViolation { text: reason } => {
            push_code_and_value(text, cause_code::PROTOCOL_VIOLATION, reason)
        }
        ErrorCause::Unknown { code, value } => push_code_and_value(text, *code, value),
    }
}

/// The texts of the causes, joined by commas: `cause ` and the code in decimal. User-Initiated Abort and
/// Protocol Violation also have `: ` and their value, each byte outside 32 to 126 as `.`.
///
/// # Errors
///
/// Where the text can't grow.
pub fn causes_text(alloc: Global, causes: &[ErrorCause<'_>]) -> Result<String, AllocError>
    ensures { IfOk result (λ text. string_bytes text ≡ causes_text (map cause_content causes.now)) }
{
    let mut text = String::new(alloc);
    let Some((first, others)) = causes.split_first() else {
        return Ok(text);
    };
    push_cause(&mut text, first)?;
    for cause in others {
        text.push(',')?;
        push_cause(&mut text, cause)?;
    }
    Ok(text)
}
