//! Writing chunks if there is room (RFC 9260, section 3.2).

ghost use Rattle.std.specs.Prelude.{◌≡◌, ◌≤◌, ◌<◌, ◌+◌, ◌^◌, ◌++◌, length, map, []};
ghost use Rattle.std.specs.Vec.{vec_len, vec_capacity};
ghost use Rattle.std.specs.Int.{w32, to_be_bytes};
ghost use Rattle.dcsctp_wire.specs.Content.{parameter_content, cause_content, init_content, data_content, i_data_content, sack_content, chunk_content};
ghost use Rattle.dcsctp_wire.specs.Spelling.{as_parameter, t_bit, data_flags, data_fields, i_data_fields, sack_fields, init_fields, other_bytes, parameter_chunk_bytes, chunk_bytes};

use crate::fixed::{chunk_head, data_front, forward_front, i_data_front, init_fields, sack_front};
use crate::parameters::{put_causes, put_parameters};
use crate::putting::{put, put_padded};
use dcsctp_wire::{
    Chunk, DataChunk, ErrorCause, IDataChunk, InitChunk, Parameter, SackChunk, causes_len,
    chunk_type, parameters_len,
};

// An INIT, type 1, or an INIT ACK, type 2.
fn put_init(out: &mut Vec<u8>, chunk_type: u8, init: &InitChunk<'_>)
    requires fits { length (parameter_chunk_bytes chunk_type 0 (init_fields (init_content init.now))
        (map parameter_content init.now.parameters.items)) < 2 ^ 16 }
    requires room { vec_len out.old + length (parameter_chunk_bytes chunk_type 0 (init_fields
        (init_content init.now)) (map parameter_content init.now.parameters.items))
        ≤ vec_capacity out.old }
    ensures items { out.new.items ≡ out.old.items ++ parameter_chunk_bytes chunk_type 0 (init_fields
        (init_content init.now)) (map parameter_content init.now.parameters.items) }
    ensures capacity { vec_capacity out.old ≤ vec_capacity out.new }
{
    let len = parameters_len(&init.parameters).saturating_add(20);
    let head = chunk_head(chunk_type, 0, len as u16);
    put(out, &head);
    put(out, &init_fields(init));
    put_parameters(out, &init.parameters);
}

// A chunk of parameters alone.
fn put_parameter_list(out: &mut Vec<u8>, chunk_type: u8, parameters: &[Parameter<'_>])
    requires fits { length
        (parameter_chunk_bytes chunk_type 0 [] (map parameter_content parameters.now))
        < 2 ^ 16 }
    requires room { vec_len out.old + length (parameter_chunk_bytes chunk_type 0 []
        (map parameter_content parameters.now)) ≤ vec_capacity out.old }
    ensures items { out.new.items ≡ out.old.items ++ parameter_chunk_bytes chunk_type 0 []
        (map parameter_content parameters.now) }
    ensures capacity { vec_capacity out.old ≤ vec_capacity out.new }
{
    let len = parameters_len(parameters).saturating_add(4);
    let head = chunk_head(chunk_type, 0, len as u16);
    put(out, &head);
    put_parameters(out, parameters);
}

// An ABORT or ERROR.
fn put_cause_list(out: &mut Vec<u8>, chunk_type: u8, flags: u8, causes: &[ErrorCause<'_>])
    requires fits { length (parameter_chunk_bytes chunk_type flags [] (map as_parameter
        (map cause_content causes.now))) < 2 ^ 16 }
    requires room { vec_len out.old + length (parameter_chunk_bytes chunk_type flags []
        (map as_parameter (map cause_content causes.now))) ≤ vec_capacity out.old }
    ensures items { out.new.items ≡ out.old.items ++ parameter_chunk_bytes chunk_type flags []
        (map as_parameter (map cause_content causes.now)) }
    ensures capacity { vec_capacity out.old ≤ vec_capacity out.new }
{
    let len = causes_len(causes).saturating_add(4);
    let head = chunk_head(chunk_type, flags, len as u16);
    put(out, &head);
    put_causes(out, causes);
}

fn t_bit(reflected: bool) -> u8
    ensures { result ≡ t_bit reflected }
{
    if reflected { 1 } else { 0 }
}

// A chunk of this type, flags and value.
fn put_value(out: &mut Vec<u8>, chunk_type: u8, flags: u8, value: &[u8])
    requires fits { length (other_bytes chunk_type flags value.now) < 2 ^ 16 }
    requires room { vec_len out.old + length (other_bytes chunk_type flags value.now)
        ≤ vec_capacity out.old }
    ensures items { out.new.items ≡ out.old.items ++ other_bytes chunk_type flags value.now }
    ensures capacity { vec_capacity out.old ≤ vec_capacity out.new }
{
    let len = 4 + value.len();
    let head = chunk_head(chunk_type, flags, len as u16);
    put_padded(out, &head, value);
}

#[inline(always)]
fn put_data(out: &mut Vec<u8>, chunk: &DataChunk<'_>)
    requires fits { length (chunk_bytes (chunk_content (Chunk.Data chunk.now))) < 2 ^ 16 }
    requires room { vec_len out.old + length (chunk_bytes (chunk_content (Chunk.Data chunk.now)))
        ≤ vec_capacity out.old }
    ensures items { out.new.items ≡ out.old.items ++ chunk_bytes (chunk_content
        (Chunk.Data chunk.now)) }
    ensures capacity { vec_capacity out.old ≤ vec_capacity out.new }
{
    let front = data_front(chunk, (16 + chunk.payload.len()) as u16);
    put_padded(out, &front, chunk.payload);
}

fn put_i_data(out: &mut Vec<u8>, chunk: &IDataChunk<'_>)
    requires fits { length (chunk_bytes (chunk_content (Chunk.IData chunk.now))) < 2 ^ 16 }
    requires room { vec_len out.old + length (chunk_bytes (chunk_content (Chunk.IData chunk.now)))
        ≤ vec_capacity out.old }
    ensures items { out.new.items ≡ out.old.items ++ chunk_bytes (chunk_content
        (Chunk.IData chunk.now)) }
    ensures capacity { vec_capacity out.old ≤ vec_capacity out.new }
{
    let front = i_data_front(chunk, (20 + chunk.payload.len()) as u16);
    put_padded(out, &front, chunk.payload);
}

fn put_sack(out: &mut Vec<u8>, chunk: &SackChunk<'_>)
    requires fits { length (chunk_bytes (chunk_content (Chunk.Sack chunk.now))) < 2 ^ 16 }
    requires room { vec_len out.old + length (chunk_bytes (chunk_content (Chunk.Sack chunk.now)))
        ≤ vec_capacity out.old }
    ensures items { out.new.items ≡ out.old.items ++ chunk_bytes (chunk_content
        (Chunk.Sack chunk.now)) }
    ensures capacity { vec_capacity out.old ≤ vec_capacity out.new }
{
    let len = 16 + chunk.gap_ack_blocks.len() + chunk.duplicate_tsns.len();
    let blocks = (chunk.gap_ack_blocks.len() / 4) as u16;
    let duplicates = (chunk.duplicate_tsns.len() / 4) as u16;
    put(out, &sack_front(chunk, len as u16, blocks, duplicates));
    put_padded(out, chunk.gap_ack_blocks, chunk.duplicate_tsns);
}

// A FORWARD-TSN, type 192, or an I-FORWARD-TSN, type 194.
fn put_forward(out: &mut Vec<u8>, chunk_type: u8, tsn: u32, streams: &[u8])
    requires fits { length (other_bytes chunk_type 0 (to_be_bytes w32 tsn ++ streams.now))
        < 2 ^ 16 }
    requires room { vec_len out.old + length (other_bytes chunk_type 0
        (to_be_bytes w32 tsn ++ streams.now)) ≤ vec_capacity out.old }
    ensures items { out.new.items ≡ out.old.items ++ other_bytes chunk_type 0
        (to_be_bytes w32 tsn ++ streams.now) }
    ensures capacity { vec_capacity out.old ≤ vec_capacity out.new }
{
    let front = forward_front(chunk_type, (8 + streams.len()) as u16, tsn);
    put_padded(out, &front, streams);
}

/// Adds the chunk with its padding. Allocates nothing.
#[inline(always)]
pub(crate) fn put_chunk(out: &mut Vec<u8>, chunk: &Chunk<'_>)
    requires fits { length (chunk_bytes (chunk_content chunk.now)) < 2 ^ 16 }
    requires room { vec_len out.old + length (chunk_bytes (chunk_content chunk.now))
        ≤ vec_capacity out.old }
    ensures items { out.new.items ≡ out.old.items ++ chunk_bytes (chunk_content chunk.now) }
    ensures capacity { vec_capacity out.old ≤ vec_capacity out.new }
{
    match chunk {
        Chunk::Data(chunk) => put_data(out, chunk),
        Chunk::Init(init) => put_init(out, chunk_type::INIT, init),
        Chunk::InitAck(init) => put_init(out, chunk_type::INIT_ACK, init),
        Chunk::Sack(sack) => put_sack(out, sack),
        Chunk::HeartbeatRequest(heartbeat) => {
            put_parameter_list(out, chunk_type::HEARTBEAT, &heartbeat.parameters)
        }
        Chunk::HeartbeatAck(heartbeat) => {
            put_parameter_list(out, chunk_type::HEARTBEAT_ACK, &heartbeat.parameters)
        }
        Chunk::Abort(abort) => put_cause_list(
            out,
            chunk_type::ABORT,
            t_bit(abort.tag_reflected),
            &abort.error_causes,
        ),
        Chunk::Shutdown(shutdown) => put_value(
            out,
            chunk_type::SHUTDOWN,
            0,
            &shutdown.cumulative_tsn_ack.to_be_bytes(),
        ),
        Chunk::ShutdownAck => put_value(out, chunk_type::SHUTDOWN_ACK, 0, &[]),
        Chunk::Error(error) => put_cause_list(out, chunk_type::ERROR, 0, &error.error_causes),
        Chunk::CookieEcho(echo) => put_value(out, chunk_type::COOKIE_ECHO, 0, echo.cookie),
        Chunk::CookieAck => put_value(out, chunk_type::COOKIE_ACK, 0, &[]),
        Chunk::ShutdownComplete(complete) => {
            let flags = t_bit(complete.tag_reflected);
            put_value(out, chunk_type::SHUTDOWN_COMPLETE, flags, &[])
        }
        Chunk::IData(chunk) => put_i_data(out, chunk),
        Chunk::ReConfig(re_config) => {
            put_parameter_list(out, chunk_type::RE_CONFIG, &re_config.parameters)
        }
        Chunk::ForwardTsn(forward) => put_forward(
            out,
            chunk_type::FORWARD_TSN,
            forward.new_cumulative_tsn,
            forward.skipped_streams,
        ),
        Chunk::IForwardTsn(forward) => put_forward(
            out,
            chunk_type::I_FORWARD_TSN,
            forward.new_cumulative_tsn,
            forward.skipped_streams,
        ),
        Chunk::Unknown(other) => put_value(out, other.chunk_type, other.flags, other.value),
    }
}
