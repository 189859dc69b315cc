//! How long chunks and parameters are (RFC 9260, section 3.2).

ghost use Rattle.std.specs.Prelude.{◌≡◌, ℕ, ◌+◌, ◌%◌, List, length, map, min};
ghost use Rattle.std.specs.List.{sum_by, flat_map};
ghost use Rattle.dcsctp_wire.specs.Content.{ParameterContent, ChunkContent, parameter_content, cause_content, chunk_content};
ghost use Rattle.dcsctp_wire.specs.Format.{padding_of};
ghost use Rattle.dcsctp_wire.specs.Spelling.{parameter_value, parameter_len, parameter_bytes, parameters_len, cause_value, as_parameter, parameter_chunk_bytes, other_bytes, chunk_len, chunk_bytes};

use crate::bytes::padding_of;
use crate::cause::ErrorCause;
use crate::chunk::Chunk;
use crate::parameter::Parameter;

fn padded(len: usize) -> usize
    ensures { result ≡ min (len + padding_of len) usize.MAX }
{
    len.saturating_add(padding_of(len))
}

fn value_len(parameter: &Parameter<'_>) -> usize
    ensures { result ≡ min (length (parameter_value (parameter_content parameter.now))) usize.MAX }
{
    match parameter {
        Parameter::HeartbeatInfo { info } => info.len(),
        Parameter::StateCookie { cookie } => cookie.len(),
        Parameter::OutgoingSsnResetRequest(request) => request.streams.len().saturating_add(12),
        Parameter::IncomingSsnResetRequest(request) => request.streams.len().saturating_add(4),
        Parameter::ReconfigurationResponse(response) => match response.next_tsns {
            None => 8,
            Some(_) => 16,
        },
        Parameter::SupportedExtensions { chunk_types } => chunk_types.len(),
        Parameter::ZeroChecksumAcceptable { .. } => 4,
        Parameter::ForwardTsnSupported => 0,
        Parameter::Unknown { value, .. } => value.len(),
    }
}

/// The length of parameters, without the padding of the last, or `usize::MAX` if it is larger.
pub fn parameters_len(parameters: &[Parameter<'_>]) -> usize
    ensures { result ≡ min (parameters_len (map parameter_content parameters.now)) usize.MAX }
{
    let mut len: usize = 0;
    for parameter in parameters {
        len = padded(len)
            .saturating_add(4)
            .saturating_add(value_len(parameter));
    }
    len
}

/// How many bytes the parameters have in a chunk, each with its padding (RFC 9260, section 3.2.1), or
/// `usize::MAX` if that is more.
pub fn parameters_serialized_size(parameters: &[Parameter<'_>]) -> usize
    ensures { result
        ≡ min (length (flat_map parameter_bytes (map parameter_content parameters.now))) usize.MAX }
{
    padded(parameters_len(parameters))
}

fn cause_value_len(cause: &ErrorCause<'_>) -> usize
    ensures { result ≡ min (length (cause_value (cause_content cause.now))) usize.MAX }
{
    match cause {
        ErrorCause::MissingMandatoryParameter { types } => types.len().saturating_add(4),
        ErrorCause::UnrecognizedChunkType { chunk } => chunk.len(),
        ErrorCause::NoUserData { .. } => 4,
        ErrorCause::CookieReceivedWhileShuttingDown => 0,
        ErrorCause::UserInitiatedAbort { text } => text.len(),
        ErrorCause::ProtocolViolation { text } => text.len(),
        ErrorCause::Unknown { value, .. } => value.len(),
    }
}

/// The length of causes, without the padding of the last, or `usize::MAX` if it is larger.
pub fn causes_len(causes: &[ErrorCause<'_>]) -> usize
    ensures { result ≡ min (parameters_len (map as_parameter (map cause_content causes.now)))
        usize.MAX }
{
    let mut len: usize = 0;
    for cause in causes {
        len = padded(len)
            .saturating_add(4)
            .saturating_add(cause_value_len(cause));
    }
    len
}

/// The length field of a chunk, which leaves out its padding and that of its last parameter or cause, or
/// `usize::MAX` if it is larger.
#[tactic(auto, unfolding(crate::specs::Spelling::data_fields, crate::specs::Spelling::i_data_fields, crate::specs::Spelling::sack_fields, crate::specs::Spelling::init_fields))]
fn chunk_len(chunk: &Chunk<'_>) -> usize
    ensures { result ≡ min (chunk_len (chunk_content chunk.now)) usize.MAX }
{
    match chunk {
        Chunk::Data(chunk) => chunk.payload.len().saturating_add(16),
        Chunk::Init(init) => parameters_len(&init.parameters).saturating_add(20),
        Chunk::InitAck(init) => parameters_len(&init.parameters).saturating_add(20),
        Chunk::Sack(sack) => sack
            .gap_ack_blocks
            .len()
            .saturating_add(sack.duplicate_tsns.len())
            .saturating_add(16),
        Chunk::HeartbeatRequest(heartbeat) => {
            parameters_len(&heartbeat.parameters).saturating_add(4)
        }
        Chunk::HeartbeatAck(heartbeat) => parameters_len(&heartbeat.parameters).saturating_add(4),
        Chunk::Abort(abort) => causes_len(&abort.error_causes).saturating_add(4),
        Chunk::Shutdown(_) => 8,
        Chunk::ShutdownAck => 4,
        Chunk::Error(error) => causes_len(&error.error_causes).saturating_add(4),
        Chunk::CookieEcho(echo) => echo.cookie.len().saturating_add(4),
        Chunk::CookieAck => 4,
        Chunk::ShutdownComplete(_) => 4,
        Chunk::IData(chunk) => chunk.payload.len().saturating_add(20),
        Chunk::ReConfig(re_config) => parameters_len(&re_config.parameters).saturating_add(4),
        Chunk::ForwardTsn(forward) => forward.skipped_streams.len().saturating_add(8),
        Chunk::IForwardTsn(forward) => forward.skipped_streams.len().saturating_add(8),
        Chunk::Unknown(other) => other.value.len().saturating_add(4),
    }
}

impl<'a> Chunk<'a> {
    /// How many bytes the chunk has in a packet, with its padding. A chunk that would have more than
    /// `usize::MAX` has that many.
    pub fn serialized_size(&self) -> usize
        ensures { result ≡ min (length (chunk_bytes (chunk_content self.now))) usize.MAX }
    {
        padded(chunk_len(self))
    }
}

/// A law: how long chunks and parameters are, in bytes.
pub fn sizes()
    // Each chunk ends at a multiple of 4.
    ensures multiple_of_4 { (chunk : ChunkContent) → length (chunk_bytes chunk) % 4 ≡ 0 }
    ensures parameter { (parameter : ParameterContent) → length (parameter_bytes parameter)
        ≡ parameter_len parameter + padding_of (parameter_len parameter) }
    ensures list { (chunk_type flags : ℕ) (fields : List ℕ) (parameters : List ParameterContent)
        → length (parameter_chunk_bytes chunk_type flags fields parameters)
        ≡ 4 + length fields + sum_by
        (λ parameter. length (parameter_bytes parameter)) parameters }
    ensures other { (chunk_type flags : ℕ) (value : List ℕ) → length
        (other_bytes chunk_type flags value) ≡ 4 + length value + padding_of (length value) }
{}
