//! All that concerns sending, as bytes.

ghost use Rattle.std.specs.Prelude.{◌≡◌, ◌++◌, OnOk};
ghost use Rattle.dcsctp_types.specs.Snapshot.{send_part};
ghost use Rattle.dcsctp_snapshot_bytes.specs.Spelling.{send_bytes};
ghost use Rattle.dcsctp_snapshot_bytes.specs.Reading.{leading_windows, leading_send_progress, leading_send_part};
ghost use Rattle.dcsctp_snapshot_bytes.specs.Fits.{FitsSend};
ghost use Rattle.dcsctp_snapshot_bytes.specs.Gives.{ReadsValue};

use crate::element::{read_list, write_list};
use crate::reader::{ReadError, Reader};
use crate::writer::{write_u32, write_u64};
use dcsctp_types::HandoverTransmission;
use std::alloc::{AllocError, Global};

// The next numbers, and the windows.
#[derive(Clone, Copy)]
struct SendWindows {
    next_tsn: u32,
    next_reset_req_sn: u32,
    cwnd: u32,
    rwnd: u32,
}

// How far congestion avoidance, the peer and the queue are.
#[derive(Clone, Copy)]
struct SendProgress {
    ssthresh: u32,
    partial_bytes_acked: u32,
    last_cumulative_tsn_ack: u32,
    next_outgoing_message_id: u64,
}

#[tactic(auto, unfolding(crate::specs::Reading::leading_windows))]
fn read_windows(reader: &mut Reader) -> Result<SendWindows, ReadError>
    ensures { ReadsValue (λ windows. windows) leading_windows reader.old.rest.now result
        reader.new.rest.now }
{
    Ok(SendWindows {
        next_tsn: reader.u32()?,
        next_reset_req_sn: reader.u32()?,
        cwnd: reader.u32()?,
        rwnd: reader.u32()?,
    })
}

#[tactic(auto, unfolding(crate::specs::Reading::leading_send_progress))]
fn read_progress(reader: &mut Reader) -> Result<SendProgress, ReadError>
    ensures { ReadsValue (λ progress. progress) leading_send_progress reader.old.rest.now result
        reader.new.rest.now }
{
    Ok(SendProgress {
        ssthresh: reader.u32()?,
        partial_bytes_acked: reader.u32()?,
        last_cumulative_tsn_ack: reader.u32()?,
        next_outgoing_message_id: reader.u64()?,
    })
}

/// Writes all that concerns sending at the end of bytes.
#[tactic(auto, unfolding(crate::specs::Spelling::send_bytes))]
pub(crate) fn write_transmission(
    out: &mut Vec<u8>,
    tx: &HandoverTransmission,
) -> Result<(), AllocError>
    ensures bytes { OnOk result (out.new.items ≡ out.old.items ++ send_bytes (send_part tx.now)) }
    ensures fits { OnOk result (FitsSend (send_part tx.now)) }
{
    write_u32(out, tx.next_tsn)?;
    write_u32(out, tx.next_reset_req_sn)?;
    write_u32(out, tx.cwnd)?;
    write_u32(out, tx.rwnd)?;
    write_u32(out, tx.ssthresh)?;
    write_u32(out, tx.partial_bytes_acked)?;
    write_u32(out, tx.last_cumulative_tsn_ack)?;
    write_u64(out, tx.next_outgoing_message_id)?;
    write_list(out, &tx.streams)?;
    write_list(out, &tx.queued_messages)?;
    write_list(out, &tx.outstanding_data)
}

/// Reads all that concerns sending from the front of bytes.
#[tactic(auto, unfolding(crate::specs::Reading::leading_send_part))]
pub(crate) fn read_transmission(
    alloc: Global,
    reader: &mut Reader,
) -> Result<HandoverTransmission, ReadError>
    ensures { ReadsValue send_part leading_send_part reader.old.rest.now result
        reader.new.rest.now }
{
    let windows = read_windows(reader)?;
    let progress = read_progress(reader)?;
    let streams = read_list(alloc, reader)?;
    let queued_messages = read_list(alloc, reader)?;
    let outstanding_data = read_list(alloc, reader)?;
    Ok(HandoverTransmission {
        next_tsn: windows.next_tsn,
        next_reset_req_sn: windows.next_reset_req_sn,
        cwnd: windows.cwnd,
        rwnd: windows.rwnd,
        ssthresh: progress.ssthresh,
        partial_bytes_acked: progress.partial_bytes_acked,
        last_cumulative_tsn_ack: progress.last_cumulative_tsn_ack,
        next_outgoing_message_id: progress.next_outgoing_message_id,
        streams,
        queued_messages,
        outstanding_data,
    })
}
