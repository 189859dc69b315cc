//! The parameters of chunks (RFC 9260, section 3.2.1).

ghost use Rattle.std.specs.Prelude.{◌≡◌, ◌<◌, ℕ, List, length, map, MatchOption, IfSome, IfOk, IsErrOf};
ghost use Rattle.std.specs.Option.{option_map};
ghost use Rattle.dcsctp_wire.specs.Content.{ParameterContent, parameter_content};
ghost use Rattle.dcsctp_wire.specs.Fields.{method_of_value, parameter_of};
ghost use Rattle.dcsctp_wire.specs.Format.{BeginsWithParameter, AreParameters};

use crate::bytes::{read_frame, u16_at, u32_at};
use crate::packet::PacketError;
use crate::reconfiguration::{
    IncomingSsnResetRequestParameter, OutgoingSsnResetRequestParameter,
    ReconfigurationResponseParameter, incoming_request_from, outgoing_request_from, response_from,
};
use crate::types::parameter_type as types;
use std::alloc::Global;

/// An optional parameter. What it holds is borrowed: from the packet that is read, or from the caller
/// that writes one.
///
/// Each is a type (2 bytes), a length (2 bytes, header included, padding not), a value, and zero bytes
/// to a multiple of 4.
#[derive(Clone, Copy, Debug)]
pub enum Parameter<'a> {
    /// Heartbeat Info, type 1 (RFC 9260, section 3.3.5): bytes that come back in the HEARTBEAT ACK.
    HeartbeatInfo {
        info: &'a [u8],
    },

    /// State Cookie, type 7 (RFC 9260, section 3.3.3.1): the cookie's bytes.
    StateCookie {
        cookie: &'a [u8],
    },

    /// Outgoing SSN Reset Request, type 13 (RFC 6525, section 4.1).
    OutgoingSsnResetRequest(OutgoingSsnResetRequestParameter<'a>),

    /// Incoming SSN Reset Request, type 14 (RFC 6525, section 4.2).
    IncomingSsnResetRequest(IncomingSsnResetRequestParameter<'a>),

    /// Re-configuration Response, type 16 (RFC 6525, section 4.4), whose result has a name.
    ReconfigurationResponse(ReconfigurationResponseParameter),

    /// Supported Extensions, type 0x8008: the chunk types that the sender understands.
    SupportedExtensions {
        chunk_types: &'a [u8],
    },

    /// Zero Checksum Acceptable, type 0x8001 (RFC 9653, section 4): the number of the alternate error
    /// detection method.
    ZeroChecksumAcceptable {
        method: u32,
    },

    /// Forward-TSN-Supported, type 0xC000 (RFC 3758, section 3.1).
    ForwardTsnSupported,

    /// Any other parameter, by its type and value.
    Unknown {
        parameter_type: u16,
        value: &'a [u8],
    },
}

/// The method whose value this is. There is none if it has less than four bytes (RFC 9653, section 4).
#[tactic(auto, unfolding(crate::specs::Fields::method_of_value))]
fn method_from(value: &[u8]) -> Option<Parameter<'_>>
    ensures { option_map parameter_content result ≡ method_of_value value.now }
{
    if value.len() < 4 {
        return None;
    }
    Some(Parameter::ZeroChecksumAcceptable {
        method: u32_at(value, 0),
    })
}

/// What a parameter of this type and value says (RFC 9260, section 3.3.2.1). There is none if the value is
/// too short for the fields of its type, or ends within an entry.
#[tactic(auto, unfolding(crate::specs::Fields::parameter_of))]
fn parameter_from(parameter_type: u16, value: &[u8]) -> Option<Parameter<'_>>
    ensures { option_map parameter_content result ≡ parameter_of parameter_type value.now }
{
    match parameter_type {
        types::HEARTBEAT_INFO => Some(Parameter::HeartbeatInfo { info: value }),
        types::STATE_COOKIE => Some(Parameter::StateCookie { cookie: value }),
        types::OUTGOING_SSN_RESET_REQUEST => outgoing_request_from(value),
        types::INCOMING_SSN_RESET_REQUEST => incoming_request_from(value),
        types::RECONFIGURATION_RESPONSE => response_from(value),
        types::SUPPORTED_EXTENSIONS => Some(Parameter::SupportedExtensions { chunk_types: value }),
        types::ZERO_CHECKSUM_ACCEPTABLE => method_from(value),
        types::FORWARD_TSN_SUPPORTED => Some(Parameter::ForwardTsnSupported),
        _ => Some(Parameter::Unknown {
            parameter_type,
            value,
        }),
    }
}

/// The parameter in front of the bytes, and what follows its padding (RFC 9260, section 3.2.1).
fn read_parameter(bytes: &[u8]) -> Option<(Parameter<'_>, &[u8])>
    ensures gives { MatchOption result
        ((parameter : ParameterContent) (rest : List ℕ)
        → BeginsWithParameter parameter rest bytes.now → ⊥)
        (λ read. BeginsWithParameter (parameter_content read.0) read.1.now bytes.now) }
    ensures shorter { IfSome result (λ read. length read.1.now < length bytes.now) }
{
    let frame = read_frame(bytes)?;
    let parameter = parameter_from(u16_at(bytes, 0), frame.value)?;
    Some((parameter, frame.rest))
}

/// The parameters that the bytes are, in their order.
///
/// # Errors
///
/// `Malformed` if the bytes are no parameters, and `OutOfMemory` if the list can't grow.
pub(crate) fn read_parameters(
    alloc: Global,
    bytes: &[u8],
) -> Result<Vec<Parameter<'_>>, PacketError>
    ensures found { IfOk result
        (λ parameters. AreParameters (map parameter_content parameters.items) bytes.now) }
    ensures malformed { IsErrOf result PacketError.Malformed
        → (parameters : List ParameterContent) → AreParameters parameters bytes.now → ⊥ }
{
    let mut parameters = Vec::new(alloc);
    let mut rest = bytes;
    while !rest.is_empty() {
        let Some((parameter, after)) = read_parameter(rest) else {
            return Err(PacketError::Malformed);
        };
        parameters.push(parameter)?;
        rest = after;
    }
    Ok(parameters)
}
