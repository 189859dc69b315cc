//! All that concerns receiving, as bytes.

ghost use Rattle.std.specs.Prelude.{◌≡◌, ◌++◌, OnOk};
ghost use Rattle.dcsctp_types.specs.Snapshot.{received_part};
ghost use Rattle.dcsctp_snapshot_bytes.specs.Spelling.{received_bytes};
ghost use Rattle.dcsctp_snapshot_bytes.specs.Reading.{leading_receive_numbers, leading_receive_part};
ghost use Rattle.dcsctp_snapshot_bytes.specs.Fits.{FitsReceived};
ghost use Rattle.dcsctp_snapshot_bytes.specs.Gives.{ReadsValue};

use crate::element::{read_list, write_list};
use crate::reader::{ReadError, Reader};
use crate::writer::{write_flag, write_u32};
use dcsctp_types::HandoverReceive;
use std::alloc::{AllocError, Global};

// How far receiving is.
#[derive(Clone, Copy)]
struct ReceiveNumbers {
    seen_packet: bool,
    last_cumulative_acked_tsn: u32,
    last_assembled_tsn: u32,
    last_completed_deferred_reset_req_sn: u32,
    last_completed_reset_req_sn: u32,
}

#[tactic(auto, unfolding(crate::specs::Reading::leading_receive_numbers))]
fn read_numbers(reader: &mut Reader) -> Result<ReceiveNumbers, ReadError>
    ensures { ReadsValue (λ numbers. numbers) leading_receive_numbers reader.old.rest.now result
        reader.new.rest.now }
{
    Ok(ReceiveNumbers {
        seen_packet: reader.flag()?,
        last_cumulative_acked_tsn: reader.u32()?,
        last_assembled_tsn: reader.u32()?,
        last_completed_deferred_reset_req_sn: reader.u32()?,
        last_completed_reset_req_sn: reader.u32()?,
    })
}

/// Writes all that concerns receiving at the end of bytes.
#[tactic(auto, unfolding(crate::specs::Spelling::received_bytes))]
pub(crate) fn write_receive(out: &mut Vec<u8>, rx: &HandoverReceive) -> Result<(), AllocError>
    ensures bytes { OnOk result
        (out.new.items ≡ out.old.items ++ received_bytes (received_part rx.now)) }
    ensures fits { OnOk result (FitsReceived (received_part rx.now)) }
{
    write_flag(out, rx.seen_packet)?;
    write_u32(out, rx.last_cumulative_acked_tsn)?;
    write_u32(out, rx.last_assembled_tsn)?;
    write_u32(out, rx.last_completed_deferred_reset_req_sn)?;
    write_u32(out, rx.last_completed_reset_req_sn)?;
    write_list(out, &rx.ordered_streams)?;
    write_list(out, &rx.unordered_streams)
}

/// Reads all that concerns receiving from the front of bytes.
#[tactic(auto, unfolding(crate::specs::Reading::leading_receive_part))]
pub(crate) fn read_receive(alloc: Global, reader: &mut Reader) -> Result<HandoverReceive, ReadError>
    ensures { ReadsValue received_part leading_receive_part reader.old.rest.now result
        reader.new.rest.now }
{
    let numbers = read_numbers(reader)?;
    let ordered_streams = read_list(alloc, reader)?;
    let unordered_streams = read_list(alloc, reader)?;
    Ok(HandoverReceive {
        seen_packet: numbers.seen_packet,
        last_cumulative_acked_tsn: numbers.last_cumulative_acked_tsn,
        last_assembled_tsn: numbers.last_assembled_tsn,
        last_completed_deferred_reset_req_sn: numbers.last_completed_deferred_reset_req_sn,
        last_completed_reset_req_sn: numbers.last_completed_reset_req_sn,
        ordered_streams,
        unordered_streams,
    })
}
