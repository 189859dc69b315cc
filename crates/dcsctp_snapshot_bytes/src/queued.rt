//! A message that waits, or of which a part was sent, as bytes.

ghost use Rattle.std.specs.Prelude.{◌≡◌, ◌++◌, OnOk};
ghost use Rattle.dcsctp_types.specs.SnapshotItems.{QueuedPart, queued_part};
ghost use Rattle.dcsctp_snapshot_bytes.specs.Spelling.{queued_part_bytes};
ghost use Rattle.dcsctp_snapshot_bytes.specs.ReadingItems.{leading_limits, leading_progress, leading_queued_part};
ghost use Rattle.dcsctp_snapshot_bytes.specs.Fits.{FitsQueued};
ghost use Rattle.dcsctp_snapshot_bytes.specs.Gives.{ReadsValue};

use crate::element::Element;
use crate::reader::{ReadError, Reader};
use crate::writer::{
    write_flag, write_optional_i32, write_optional_u16, write_optional_u32, write_payload,
    write_u16, write_u32, write_u64,
};
use dcsctp_types::HandoverStreamMessage;
use std::alloc::{AllocError, Global};

// How long a message is tried, and its names.
#[derive(Clone, Copy)]
struct QueuedLimits {
    expires_in_ms: Option<i32>,
    max_retransmissions: u16,
    lifecycle_id: u64,
    message_id: u64,
}

// How much of a message was sent, and the numbers of its next fragment.
#[derive(Clone, Copy)]
struct QueuedProgress {
    remaining_offset: usize,
    mid: Option<u32>,
    ssn: Option<u16>,
    fsn: u32,
}

#[tactic(auto, unfolding(crate::specs::ReadingItems::leading_limits))]
fn read_limits(reader: &mut Reader) -> Result<QueuedLimits, ReadError>
    ensures { ReadsValue (λ limits. limits) leading_limits reader.old.rest.now result
        reader.new.rest.now }
{
    Ok(QueuedLimits {
        expires_in_ms: reader.optional_i32()?,
        max_retransmissions: reader.u16()?,
        lifecycle_id: reader.u64()?,
        message_id: reader.u64()?,
    })
}

#[tactic(auto, unfolding(crate::specs::ReadingItems::leading_progress))]
fn read_progress(reader: &mut Reader) -> Result<QueuedProgress, ReadError>
    ensures { ReadsValue (λ progress. progress) leading_progress reader.old.rest.now result
        reader.new.rest.now }
{
    Ok(QueuedProgress {
        remaining_offset: reader.u64()? as usize,
        mid: reader.optional_u32()?,
        ssn: reader.optional_u16()?,
        fsn: reader.u32()?,
    })
}

impl Element for HandoverStreamMessage {
    ghost part = { QueuedPart };

    ghost part_of = { queued_part };

    ghost bytes_of = { queued_part_bytes };

    ghost part_at = { leading_queued_part };

    ghost fits = { FitsQueued };

    #[tactic(auto, unfolding(crate::specs::Spelling::queued_part_bytes))]
    fn write(&self, out: &mut Vec<u8>) -> Result<(), AllocError> {
        write_u16(out, self.stream_id)?;
        write_u32(out, self.ppid)?;
        write_payload(out, &self.payload)?;
        write_flag(out, self.unordered)?;
        write_optional_i32(out, self.expires_in_ms)?;
        write_u16(out, self.max_retransmissions)?;
        write_u64(out, self.lifecycle_id)?;
        write_u64(out, self.message_id)?;
        write_u64(out, self.remaining_offset as u64)?;
        write_optional_u32(out, self.mid)?;
        write_optional_u16(out, self.ssn)?;
        write_u32(out, self.fsn)
    }

    #[tactic(auto, unfolding(crate::specs::ReadingItems::leading_queued_part))]
    fn read(alloc: Global, reader: &mut Reader) -> Result<HandoverStreamMessage, ReadError> {
        let stream_id = reader.u16()?;
        let ppid = reader.u32()?;
        let payload = reader.payload()?;
        let unordered = reader.flag()?;
        let limits = read_limits(reader)?;
        let progress = read_progress(reader)?;
        Ok(HandoverStreamMessage {
            stream_id,
            ppid,
            payload: Vec::from_slice(alloc, payload)?,
            unordered,
            expires_in_ms: limits.expires_in_ms,
            max_retransmissions: limits.max_retransmissions,
            lifecycle_id: limits.lifecycle_id,
            message_id: limits.message_id,
            remaining_offset: progress.remaining_offset,
            mid: progress.mid,
            ssn: progress.ssn,
            fsn: progress.fsn,
        })
    }
}
