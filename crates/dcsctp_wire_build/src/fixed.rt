//! The fixed parts of chunks and parameters, as arrays (RFC 9260, section 3.2).

ghost use Rattle.std.specs.Prelude.{◌≡◌, ◌++◌, ◌∷◌};
ghost use Rattle.std.specs.Int.{w16, w32, to_be_bytes};
ghost use Rattle.dcsctp_wire.specs.Content.{data_content, i_data_content, init_content};
ghost use Rattle.dcsctp_wire.specs.Spelling.{data_flags, data_fields, i_data_fields, init_fields};

use dcsctp_wire::{
    DataChunk, IDataChunk, InitChunk, OutgoingSsnResetRequestParameter, SackChunk, chunk_type,
};

/// A chunk's header.
pub(crate) fn chunk_head(chunk_type: u8, flags: u8, len: u16) -> [u8; 4]
    ensures { result ≡ chunk_type ∷ flags ∷ to_be_bytes w16 len }
{
    let len = len.to_be_bytes();
    [chunk_type, flags, len[0], len[1]]
}

/// The header of a parameter or cause.
pub(crate) fn parameter_head(parameter_type: u16, len: u16) -> [u8; 4]
    ensures { result ≡ to_be_bytes w16 parameter_type ++ to_be_bytes w16 len }
{
    let parameter_type = parameter_type.to_be_bytes();
    let len = len.to_be_bytes();
    [parameter_type[0], parameter_type[1], len[0], len[1]]
}

/// The fields of an INIT or INIT ACK.
#[tactic(auto, unfolding(dcsctp_wire::specs::Spelling::init_fields))]
#[rattlefmt::skip]
pub(crate) fn init_fields(init: &InitChunk<'_>) -> [u8; 16]
    ensures { result ≡ init_fields (init_content init.now) }
{
    let tag = init.initiate_tag.to_be_bytes();
    let window = init.a_rwnd.to_be_bytes();
    let outbound = init.nbr_outbound_streams.to_be_bytes();
    let inbound = init.nbr_inbound_streams.to_be_bytes();
    let tsn = init.initial_tsn.to_be_bytes();
    [
        tag[0], tag[1], tag[2], tag[3],
        window[0], window[1], window[2], window[3],
        outbound[0], outbound[1], inbound[0], inbound[1],
        tsn[0], tsn[1], tsn[2], tsn[3],
    ]
}

/// The header and the fields of a DATA chunk.
#[tactic(auto, unfolding(dcsctp_wire::specs::Spelling::data_fields))]
#[rattlefmt::skip]
pub(crate) fn data_front(chunk: &DataChunk<'_>, len: u16) -> [u8; 16]
    ensures { result ≡ (0 ∷ data_flags chunk.now.flags ∷ to_be_bytes w16 len) ++ data_fields
        (data_content chunk.now) }
{
    let len = len.to_be_bytes();
    let tsn = chunk.tsn.to_be_bytes();
    let stream = chunk.stream_id.to_be_bytes();
    let ssn = chunk.ssn.to_be_bytes();
    let ppid = chunk.ppid.to_be_bytes();
    [
        chunk_type::DATA, chunk.flags.byte(), len[0], len[1],
        tsn[0], tsn[1], tsn[2], tsn[3],
        stream[0], stream[1], ssn[0], ssn[1],
        ppid[0], ppid[1], ppid[2], ppid[3],
    ]
}

/// The header and the fields of an I-DATA chunk.
#[tactic(auto, unfolding(dcsctp_wire::specs::Spelling::i_data_fields))]
#[rattlefmt::skip]
pub(crate) fn i_data_front(chunk: &IDataChunk<'_>, len: u16) -> [u8; 20]
    ensures { result ≡ (64 ∷ data_flags chunk.now.flags ∷ to_be_bytes w16 len) ++ i_data_fields
        (i_data_content chunk.now) }
{
    let len = len.to_be_bytes();
    let tsn = chunk.tsn.to_be_bytes();
    let stream = chunk.stream_id.to_be_bytes();
    let mid = chunk.mid.to_be_bytes();
    let number = chunk.ppid_or_fsn.to_be_bytes();
    [
        chunk_type::I_DATA, chunk.flags.byte(), len[0], len[1],
        tsn[0], tsn[1], tsn[2], tsn[3],
        stream[0], stream[1], 0, 0,
        mid[0], mid[1], mid[2], mid[3],
        number[0], number[1], number[2], number[3],
    ]
}

/// The header and the fields of a SACK with that many blocks and duplicates.
#[rattlefmt::skip]
pub(crate) fn sack_front(chunk: &SackChunk<'_>, len: u16, blocks: u16, duplicates: u16) -> [u8; 16]
    ensures { result
        ≡ (3 ∷ 0 ∷ to_be_bytes w16 len) ++ (to_be_bytes w32 chunk.now.cumulative_tsn_ack
        ++ to_be_bytes w32 chunk.now.a_rwnd ++ to_be_bytes w16 blocks
        ++ to_be_bytes w16 duplicates) }
{
    let len = len.to_be_bytes();
    let tsn = chunk.cumulative_tsn_ack.to_be_bytes();
    let window = chunk.a_rwnd.to_be_bytes();
    let blocks = blocks.to_be_bytes();
    let duplicates = duplicates.to_be_bytes();
    [
        chunk_type::SACK, 0, len[0], len[1],
        tsn[0], tsn[1], tsn[2], tsn[3],
        window[0], window[1], window[2], window[3],
        blocks[0], blocks[1], duplicates[0], duplicates[1],
    ]
}

/// The header of a FORWARD-TSN or I-FORWARD-TSN, and the new cumulative TSN.
pub(crate) fn forward_front(chunk_type: u8, len: u16, tsn: u32) -> [u8; 8]
    ensures { result ≡ (chunk_type ∷ 0 ∷ to_be_bytes w16 len) ++ to_be_bytes w32 tsn }
{
    let len = len.to_be_bytes();
    let tsn = tsn.to_be_bytes();
    [
        chunk_type, 0, len[0], len[1], tsn[0], tsn[1], tsn[2], tsn[3],
    ]
}

/// The fields of an Outgoing SSN Reset Request.
#[rattlefmt::skip]
pub(crate) fn outgoing_fields(request: &OutgoingSsnResetRequestParameter<'_>) -> [u8; 12]
    ensures { result ≡ to_be_bytes w32 request.now.request_seq_nbr ++ to_be_bytes w32
        request.now.response_seq_nbr ++ to_be_bytes w32 request.now.sender_last_assigned_tsn }
{
    let number = request.request_seq_nbr.to_be_bytes();
    let answered = request.response_seq_nbr.to_be_bytes();
    let last = request.sender_last_assigned_tsn.to_be_bytes();
    [
        number[0], number[1], number[2], number[3],
        answered[0], answered[1], answered[2], answered[3],
        last[0], last[1], last[2], last[3],
    ]
}

/// Two numbers of four bytes.
#[rattlefmt::skip]
pub(crate) fn two_numbers(first: u32, second: u32) -> [u8; 8]
    ensures { result ≡ to_be_bytes w32 first ++ to_be_bytes w32 second }
{
    let first = first.to_be_bytes();
    let second = second.to_be_bytes();
    [
        first[0], first[1], first[2], first[3],
        second[0], second[1], second[2], second[3],
    ]
}
