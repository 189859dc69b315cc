//! Error causes (RFC 9260, section 3.3.10), which have the form of parameters.

ghost use Rattle.std.specs.Prelude.{◌≡◌, ◌<◌, ℕ, List, length, map, MatchOption, IfSome, IfOk, IsErrOf};
ghost use Rattle.std.specs.Option.{option_map};
ghost use Rattle.dcsctp_wire.specs.Content.{CauseContent, missing_mandatory_parameter, cause_content};
ghost use Rattle.dcsctp_wire.specs.Fields.{missing_types, no_user_data_of_value, cause_of};
ghost use Rattle.dcsctp_wire.specs.Format.{BeginsWithCause, AreCauses};

mod text;

use crate::bytes::{read_frame, u16_at, u32_at};
use crate::packet::PacketError;
use crate::types::cause_code;
use std::alloc::Global;
pub use text::causes_text;

/// An error cause. What it holds is borrowed: from the packet that is read, or from the caller that writes
/// one.
///
/// Each is a code (2 bytes), a length (2 bytes, header included, padding not), a value, and zero bytes to a
/// multiple of 4.
#[derive(Clone, Copy, Debug)]
pub enum ErrorCause<'a> {
    /// Missing Mandatory Parameter, code 2 (RFC 9260, section 3.3.10.2): the types of the parameters, two
    /// bytes each, highest first. Before them is their number, in four bytes. An odd last byte is part of no
    /// type.
    MissingMandatoryParameter { types: &'a [u8] },

    /// Unrecognized Chunk Type, code 6 (RFC 9260, section 3.3.10.6): the bytes of the chunk.
    UnrecognizedChunkType { chunk: &'a [u8] },

    /// No User Data, code 9 (RFC 9260, section 3.3.10.9): the TSN of the DATA chunk.
    NoUserData { tsn: u32 },

    /// Cookie Received While Shutting Down, code 10 (RFC 9260, section 3.3.10.10).
    CookieReceivedWhileShuttingDown,

    /// User-Initiated Abort, code 12 (RFC 9260, section 3.3.10.12): a text.
    UserInitiatedAbort { text: &'a [u8] },

    /// Protocol Violation, code 13 (RFC 9260, section 3.3.10.13): a text.
    ProtocolViolation { text: &'a [u8] },

    /// Any other cause, by its code and value.
    Unknown { code: u16, value: &'a [u8] },
}

/// The types of the missing parameters, if the value is long enough for its number of them.
#[tactic(auto, unfolding(crate::specs::Fields::missing_types))]
fn types_in(value: &[u8]) -> Option<&[u8]>
    ensures { option_map (λ types. types.now) result ≡ missing_types value.now }
{
    if value.len() < 4 {
        return None;
    }
    let end = 4 + 2 * (u32_at(value, 0) as usize);
    if value.len() < end {
        return None;
    }
    Some(&value[4..end])
}

/// A Missing Mandatory Parameter of this value.
fn missing_from(value: &[u8]) -> Option<ErrorCause<'_>>
    ensures { option_map cause_content result
        ≡ option_map missing_mandatory_parameter (missing_types value.now) }
{
    let types = types_in(value)?;
    Some(ErrorCause::MissingMandatoryParameter { types })
}

/// A No User Data of this value, if it is long enough for a TSN.
#[tactic(auto, unfolding(crate::specs::Fields::no_user_data_of_value))]
fn no_user_data_from(value: &[u8]) -> Option<ErrorCause<'_>>
    ensures { option_map cause_content result ≡ no_user_data_of_value value.now }
{
    if value.len() < 4 {
        return None;
    }
    Some(ErrorCause::NoUserData {
        tsn: u32_at(value, 0),
    })
}

/// What a cause of this code and value says (RFC 9260, section 3.3.10).
#[tactic(auto, unfolding(crate::specs::Fields::cause_of))]
fn cause_from(code: u16, value: &[u8]) -> Option<ErrorCause<'_>>
    ensures { option_map cause_content result ≡ cause_of code value.now }
{
    match code {
        cause_code::MISSING_MANDATORY_PARAMETER => missing_from(value),
        cause_code::UNRECOGNIZED_CHUNK_TYPE => {
            Some(ErrorCause::UnrecognizedChunkType { chunk: value })
        }
        cause_code::NO_USER_DATA => no_user_data_from(value),
        cause_code::COOKIE_RECEIVED_WHILE_SHUTTING_DOWN => {
            Some(ErrorCause::CookieReceivedWhileShuttingDown)
        }
        cause_code::USER_INITIATED_ABORT => Some(ErrorCause::UserInitiatedAbort { text: value }),
        cause_code::PROTOCOL_VIOLATION => Some(ErrorCause::ProtocolViolation { text: value }),
        _ => Some(ErrorCause::Unknown { code, value }),
    }
}

/// The cause in front of the bytes, and what follows its padding.
fn read_cause(bytes: &[u8]) -> Option<(ErrorCause<'_>, &[u8])>
    ensures gives { MatchOption result
        ((cause : CauseContent) (rest : List ℕ) → BeginsWithCause cause rest bytes.now → ⊥)
        (λ read. BeginsWithCause (cause_content read.0) read.1.now bytes.now) }
    ensures shorter { IfSome result (λ read. length read.1.now < length bytes.now) }
{
    let frame = read_frame(bytes)?;
    let cause = cause_from(u16_at(bytes, 0), frame.value)?;
    Some((cause, frame.rest))
}

/// The causes that the bytes are, in their order.
///
/// # Errors
///
/// `Malformed` if the bytes are no causes, and `OutOfMemory` if the list can't grow.
pub(crate) fn read_causes(alloc: Global, bytes: &[u8]) -> Result<Vec<ErrorCause<'_>>, PacketError>
    ensures found { IfOk result (λ causes. AreCauses (map cause_content causes.items) bytes.now) }
    ensures malformed { IsErrOf result PacketError.Malformed
        → (causes : List CauseContent) → AreCauses causes bytes.now → ⊥ }
{
    let mut causes = Vec::new(alloc);
    let mut rest = bytes;
    while !rest.is_empty() {
        let Some((cause, after)) = read_cause(rest) else {
            return Err(PacketError::Malformed);
        };
        causes.push(cause)?;
        rest = after;
    }
    Ok(causes)
}
