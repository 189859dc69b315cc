//! What was sent under one TSN, as bytes.

ghost use Rattle.std.specs.Prelude.{◌≡◌, ◌++◌, OnOk};
ghost use Rattle.dcsctp_types.specs.SnapshotItems.{OutstandingPart, outstanding_part};
ghost use Rattle.dcsctp_snapshot_bytes.specs.Spelling.{fragment_bytes, sending_bytes, outstanding_bytes};
ghost use Rattle.dcsctp_snapshot_bytes.specs.ReadingItems.{leading_fragment_numbers, leading_fragment_flags, leading_fragment_limits, leading_fragment_fate, leading_outstanding_part};
ghost use Rattle.dcsctp_snapshot_bytes.specs.Fits.{FitsFragment, FitsSending, FitsOutstanding};
ghost use Rattle.dcsctp_snapshot_bytes.specs.Gives.{ReadsValue};

use crate::element::Element;
use crate::reader::{ReadError, Reader};
use crate::writer::{
    write_flag, write_i32, write_optional_i32, write_payload, write_u16, write_u32, write_u64,
};
use dcsctp_types::HandoverOutstandingData;
use std::alloc::{AllocError, Global};

// Which fragment it is.
#[derive(Clone, Copy)]
struct FragmentNumbers {
    stream_id: u16,
    ssn: u16,
    mid: u32,
    fsn: u32,
    ppid: u32,
}

// The place of a fragment in its message.
#[derive(Clone, Copy)]
struct FragmentFlags {
    is_beginning: bool,
    is_end: bool,
    is_unordered: bool,
}

// The names of its message, and how long it is tried.
#[derive(Clone, Copy)]
struct FragmentLimits {
    message_id: u64,
    lifecycle_id: u64,
    expires_in_ms: Option<i32>,
    max_retransmissions: u16,
}

// What became of a fragment.
#[derive(Clone, Copy)]
struct FragmentFate {
    acked: bool,
    is_abandoned: bool,
    is_nacked: bool,
    is_to_be_retransmitted: bool,
}

#[tactic(auto, unfolding(crate::specs::ReadingItems::leading_fragment_numbers))]
fn read_numbers(reader: &mut Reader) -> Result<FragmentNumbers, ReadError>
    ensures { ReadsValue (λ numbers. numbers) leading_fragment_numbers reader.old.rest.now result
        reader.new.rest.now }
{
    Ok(FragmentNumbers {
        stream_id: reader.u16()?,
        ssn: reader.u16()?,
        mid: reader.u32()?,
        fsn: reader.u32()?,
        ppid: reader.u32()?,
    })
}

#[tactic(auto, unfolding(crate::specs::ReadingItems::leading_fragment_flags))]
fn read_flags(reader: &mut Reader) -> Result<FragmentFlags, ReadError>
    ensures { ReadsValue (λ flags. flags) leading_fragment_flags reader.old.rest.now result
        reader.new.rest.now }
{
    Ok(FragmentFlags {
        is_beginning: reader.flag()?,
        is_end: reader.flag()?,
        is_unordered: reader.flag()?,
    })
}

#[tactic(auto, unfolding(crate::specs::ReadingItems::leading_fragment_limits))]
fn read_limits(reader: &mut Reader) -> Result<FragmentLimits, ReadError>
    ensures { ReadsValue (λ limits. limits) leading_fragment_limits reader.old.rest.now result
        reader.new.rest.now }
{
    Ok(FragmentLimits {
        message_id: reader.u64()?,
        lifecycle_id: reader.u64()?,
        expires_in_ms: reader.optional_i32()?,
        max_retransmissions: reader.u16()?,
    })
}

#[tactic(auto, unfolding(crate::specs::ReadingItems::leading_fragment_fate))]
fn read_fate(reader: &mut Reader) -> Result<FragmentFate, ReadError>
    ensures { ReadsValue (λ fate. fate) leading_fragment_fate reader.old.rest.now result
        reader.new.rest.now }
{
    Ok(FragmentFate {
        acked: reader.flag()?,
        is_abandoned: reader.flag()?,
        is_nacked: reader.flag()?,
        is_to_be_retransmitted: reader.flag()?,
    })
}

// Which fragment it is.
#[tactic(auto, unfolding(crate::specs::Spelling::fragment_bytes))]
fn write_fragment(out: &mut Vec<u8>, sent: &HandoverOutstandingData) -> Result<(), AllocError>
    ensures bytes { OnOk result
        (out.new.items ≡ out.old.items ++ fragment_bytes (outstanding_part sent.now)) }
    ensures fits { OnOk result (FitsFragment (outstanding_part sent.now)) }
{
    write_u16(out, sent.stream_id)?;
    write_u16(out, sent.ssn)?;
    write_u32(out, sent.mid)?;
    write_u32(out, sent.fsn)?;
    write_u32(out, sent.ppid)?;
    write_payload(out, &sent.payload)?;
    write_flag(out, sent.is_beginning)?;
    write_flag(out, sent.is_end)?;
    write_flag(out, sent.is_unordered)
}

// How long it is tried, and what became of it.
#[tactic(auto, unfolding(crate::specs::Spelling::sending_bytes))]
fn write_sending(out: &mut Vec<u8>, sent: &HandoverOutstandingData) -> Result<(), AllocError>
    ensures bytes { OnOk result
        (out.new.items ≡ out.old.items ++ sending_bytes (outstanding_part sent.now)) }
    ensures fits { OnOk result (FitsSending (outstanding_part sent.now)) }
{
    write_u64(out, sent.message_id)?;
    write_u64(out, sent.lifecycle_id)?;
    write_optional_i32(out, sent.expires_in_ms)?;
    write_u16(out, sent.max_retransmissions)?;
    write_u16(out, sent.retransmission_count)?;
    write_i32(out, sent.time_since_sent_ms)?;
    write_flag(out, sent.acked)?;
    write_flag(out, sent.is_abandoned)?;
    write_flag(out, sent.is_nacked)?;
    write_flag(out, sent.is_to_be_retransmitted)
}

impl Element for HandoverOutstandingData {
    ghost part = { OutstandingPart };

    ghost part_of = { outstanding_part };

    ghost bytes_of = { outstanding_bytes };

    ghost part_at = { leading_outstanding_part };

    ghost fits = { FitsOutstanding };

    #[tactic(auto, unfolding(crate::specs::Spelling::outstanding_bytes))]
    fn write(&self, out: &mut Vec<u8>) -> Result<(), AllocError> {
        write_fragment(out, self)?;
        write_sending(out, self)
    }

    #[tactic(auto, unfolding(crate::specs::ReadingItems::leading_outstanding_part))]
    fn read(alloc: Global, reader: &mut Reader) -> Result<HandoverOutstandingData, ReadError> {
        let numbers = read_numbers(reader)?;
        let payload = reader.payload()?;
        let flags = read_flags(reader)?;
        let limits = read_limits(reader)?;
        let retransmission_count = reader.u16()?;
        let time_since_sent_ms = reader.i32()?;
        let fate = read_fate(reader)?;
        Ok(HandoverOutstandingData {
            stream_id: numbers.stream_id,
            ssn: numbers.ssn,
            mid: numbers.mid,
            fsn: numbers.fsn,
            ppid: numbers.ppid,
            payload: Vec::from_slice(alloc, payload)?,
            is_beginning: flags.is_beginning,
            is_end: flags.is_end,
            is_unordered: flags.is_unordered,
            message_id: limits.message_id,
            lifecycle_id: limits.lifecycle_id,
            expires_in_ms: limits.expires_in_ms,
            max_retransmissions: limits.max_retransmissions,
            retransmission_count,
            time_since_sent_ms,
            acked: fate.acked,
            is_abandoned: fate.is_abandoned,
            is_nacked: fate.is_nacked,
            is_to_be_retransmitted: fate.is_to_be_retransmitted,
        })
    }
}
