//! Writing parameters and error causes if there is room (RFC 9260, section 3.2.1).

ghost use Rattle.std.specs.Prelude.{◌≡◌, ◌≤◌, ◌<◌, ◌+◌, ◌^◌, ◌++◌, length, map};
ghost use Rattle.std.specs.List.{flat_map};
ghost use Rattle.std.specs.Vec.{vec_len, vec_capacity};
ghost use Rattle.dcsctp_wire.specs.Content.{unknown_parameter, parameter_content, cause_content};
ghost use Rattle.dcsctp_wire.specs.Spelling.{parameter_len, parameter_bytes, as_parameter};

use crate::fixed::{outgoing_fields, parameter_head, two_numbers};
use crate::putting::{put, put_padded};
use dcsctp_wire::{
    ErrorCause, Parameter, ReconfigurationResponseParameter, cause_code, parameter_type as types,
};

// A parameter of this type and value.
#[tactic(auto, unfolding(dcsctp_wire::specs::Spelling::parameter_bytes))]
fn put_typed(out: &mut Vec<u8>, parameter_type: u16, value: &[u8])
    requires fits { 4 + length value.now < 2 ^ 16 }
    requires room { vec_len out.old + length (parameter_bytes
        (unknown_parameter parameter_type value.now)) ≤ vec_capacity out.old }
    ensures items { out.new.items ≡ out.old.items ++ parameter_bytes
        (unknown_parameter parameter_type value.now) }
    ensures capacity { vec_capacity out.old ≤ vec_capacity out.new }
{
    let head = parameter_head(parameter_type, (4 + value.len()) as u16);
    put_padded(out, &head, value);
}

// A parameter of this type, whose value is fields and what follows them.
#[tactic(auto, unfolding(dcsctp_wire::specs::Spelling::parameter_bytes))]
fn put_with_fields(out: &mut Vec<u8>, parameter_type: u16, fields: &[u8], value: &[u8])
    requires fits { 4 + length (fields.now ++ value.now) < 2 ^ 16 }
    requires room { vec_len out.old + length (parameter_bytes
        (unknown_parameter parameter_type (fields.now ++ value.now))) ≤ vec_capacity out.old }
    ensures items { out.new.items ≡ out.old.items ++ parameter_bytes
        (unknown_parameter parameter_type (fields.now ++ value.now)) }
    ensures capacity { vec_capacity out.old ≤ vec_capacity out.new }
{
    let head = parameter_head(parameter_type, (4 + fields.len() + value.len()) as u16);
    put(out, &head);
    put_padded(out, fields, value);
}

fn put_response(out: &mut Vec<u8>, response: &ReconfigurationResponseParameter)
    requires room { vec_len out.old + length (parameter_bytes (parameter_content
        (Parameter.ReconfigurationResponse response.now))) ≤ vec_capacity out.old }
    ensures items { out.new.items ≡ out.old.items ++ parameter_bytes (parameter_content
        (Parameter.ReconfigurationResponse response.now)) }
    ensures capacity { vec_capacity out.old ≤ vec_capacity out.new }
{
    let fields = two_numbers(response.response_seq_nbr, response.result.code());
    match response.next_tsns {
        None => put_with_fields(out, types::RECONFIGURATION_RESPONSE, &fields, &[]),
        Some(next) => {
            let next = two_numbers(next.sender, next.receiver);
            put_with_fields(out, types::RECONFIGURATION_RESPONSE, &fields, &next);
        }
    }
}

#[tactic(auto, unfolding(dcsctp_wire::specs::Spelling::parameter_bytes))]
fn put_parameter(out: &mut Vec<u8>, parameter: &Parameter<'_>)
    requires fits { parameter_len (parameter_content parameter.now) < 2 ^ 16 }
    requires room { vec_len out.old + length (parameter_bytes (parameter_content parameter.now))
        ≤ vec_capacity out.old }
    ensures items { out.new.items ≡ out.old.items ++ parameter_bytes
        (parameter_content parameter.now) }
    ensures capacity { vec_capacity out.old ≤ vec_capacity out.new }
{
    match parameter {
        Parameter::HeartbeatInfo { info } => put_typed(out, types::HEARTBEAT_INFO, info),
        Parameter::StateCookie { cookie } => put_typed(out, types::STATE_COOKIE, cookie),
        Parameter::OutgoingSsnResetRequest(request) => put_with_fields(
            out,
            types::OUTGOING_SSN_RESET_REQUEST,
            &outgoing_fields(request),
            request.streams,
        ),
        Parameter::IncomingSsnResetRequest(request) => put_with_fields(
            out,
            types::INCOMING_SSN_RESET_REQUEST,
            &request.request_seq_nbr.to_be_bytes(),
            request.streams,
        ),
        Parameter::ReconfigurationResponse(response) => put_response(out, response),
        Parameter::SupportedExtensions { chunk_types } => put_typed(
            out,
            types::SUPPORTED_EXTENSIONS,
            chunk_types,
        ),
        Parameter::ZeroChecksumAcceptable { method } => {
            put_typed(out, types::ZERO_CHECKSUM_ACCEPTABLE, &method.to_be_bytes())
        }
        Parameter::ForwardTsnSupported => put_typed(out, types::FORWARD_TSN_SUPPORTED, &[]),
        Parameter::Unknown {
            parameter_type,
            value,
        } => put_typed(out, *parameter_type, value),
    }
}

/// Adds the parameters, each with its padding. Allocates nothing.
pub(crate) fn put_parameters(out: &mut Vec<u8>, parameters: &[Parameter<'_>])
    requires fits { length (flat_map parameter_bytes (map parameter_content parameters.now))
        < 2 ^ 16 }
    requires room { vec_len out.old + length (flat_map parameter_bytes
        (map parameter_content parameters.now)) ≤ vec_capacity out.old }
    ensures items { out.new.items ≡ out.old.items ++ flat_map parameter_bytes
        (map parameter_content parameters.now) }
    ensures capacity { vec_capacity out.old ≤ vec_capacity out.new }
{
    for parameter in parameters {
        put_parameter(out, parameter);
    }
}

fn put_cause(out: &mut Vec<u8>, cause: &ErrorCause<'_>)
    requires fits { parameter_len (as_parameter (cause_content cause.now)) < 2 ^ 16 }
    requires room { vec_len out.old + length (parameter_bytes (as_parameter
        (cause_content cause.now))) ≤ vec_capacity out.old }
    ensures items { out.new.items ≡ out.old.items ++ parameter_bytes (as_parameter
        (cause_content cause.now)) }
    ensures capacity { vec_capacity out.old ≤ vec_capacity out.new }
{
    match cause {
        ErrorCause::MissingMandatoryParameter { types } => put_with_fields(
            out,
            cause_code::MISSING_MANDATORY_PARAMETER,
            &((types.len() / 2) as u32).to_be_bytes(),
            types,
        ),
        ErrorCause::UnrecognizedChunkType { chunk } => {
            put_typed(out, cause_code::UNRECOGNIZED_CHUNK_TYPE, chunk)
        }
        ErrorCause::NoUserData { tsn } => {
            put_typed(out, cause_code::NO_USER_DATA, &tsn.to_be_bytes())
        }
        ErrorCause::CookieReceivedWhileShuttingDown => {
            put_typed(out, cause_code::COOKIE_RECEIVED_WHILE_SHUTTING_DOWN, &[])
        }
        ErrorCause::UserInitiatedAbort { text } => {
            put_typed(out, cause_code::USER_INITIATED_ABORT, text)
        }
        ErrorCause::ProtocolViolation { text } => {
            put_typed(out, cause_code::PROTOCOL_VIOLATION, text)
        }
        ErrorCause::Unknown { code, value } => put_typed(out, *code, value),
    }
}

/// Adds the causes, each with its padding. Allocates nothing.
pub(crate) fn put_causes(out: &mut Vec<u8>, causes: &[ErrorCause<'_>])
    requires fits { length (flat_map parameter_bytes (map as_parameter
        (map cause_content causes.now))) < 2 ^ 16 }
    requires room { vec_len out.old + length (flat_map parameter_bytes (map as_parameter
        (map cause_content causes.now))) ≤ vec_capacity out.old }
    ensures items { out.new.items ≡ out.old.items ++ flat_map parameter_bytes
        (map as_parameter (map cause_content causes.now)) }
    ensures capacity { vec_capacity out.old ≤ vec_capacity out.new }
{
    for cause in causes {
        put_cause(out, cause);
    }
}
