//! FORWARD-TSN (RFC 3758, section 3.6) and I-FORWARD-TSN (RFC 8260, section 2.3.1) that are received.

ghost use Rattle.std.specs.Prelude.{◌≡◌, IfOk};
ghost use Rattle.dcsctp_core.specs.spec.queues.Arrivals.{named_skips, skipped_messages};
ghost use Rattle.dcsctp_core.specs.Handling.{TakesOne};
ghost use Rattle.dcsctp_core_data.specs.Data.{ReceivesForwardTsn};

use dcsctp_core::Context;
use dcsctp_core::api::StreamId;
use dcsctp_core::transfer::SkippedTo;
use dcsctp_core::wire::{ForwardTsnChunk, IForwardTsnChunk};
use rand_core::Rng;
use std::alloc::{AllocError, Global};

// What a FORWARD-TSN skips.
fn skipped_in(alloc: Global, chunk: &ForwardTsnChunk<'_>) -> Result<Vec<SkippedTo>, AllocError>
    ensures { IfOk result (λ skipped. skipped.items ≡ named_skips chunk.now.skipped_streams.now) }
{
    let mut skipped = Vec::new(alloc);
    for index in 0..chunk.skipped_stream_count() {
        let entry = chunk.skipped_stream(index);
        skipped.push(SkippedTo::Ssn {
            stream_id: StreamId(entry.stream_id),
            ssn: entry.ssn,
        })?;
    }
    Ok(skipped)
}

// What an I-FORWARD-TSN skips.
fn skipped_messages_in(
    alloc: Global,
    chunk: &IForwardTsnChunk<'_>,
) -> Result<Vec<SkippedTo>, AllocError>
    ensures { IfOk result
        (λ skipped. skipped.items ≡ skipped_messages chunk.now.skipped_streams.now) }
{
    let mut skipped = Vec::new(alloc);
    for index in 0..chunk.skipped_stream_count() {
        let entry = chunk.skipped_stream(index);
        skipped.push(SkippedTo::Mid {
            stream_id: StreamId(entry.stream_id),
            is_unordered: entry.is_unordered,
            mid: entry.mid,
        })?;
    }
    Ok(skipped)
}

/// Handles a FORWARD-TSN: what the peer abandoned is waited for no longer. Without an association it changes
/// nothing.
///
/// `Err`: an allocation failed, and no event was added.
pub fn handle_forward_tsn<R: Rng>(
    context: &mut Context<R>,
    chunk: &ForwardTsnChunk<'_>,
) -> Result<(), AllocError>
    ensures { TakesOne R.stream (ReceivesForwardTsn chunk.now.new_cumulative_tsn
        (named_skips chunk.now.skipped_streams.now)) context.old result context.new }
{
    let Some(tcb) = context.state.tcb_mut() else {
        return Ok(());
    };
    let skipped = skipped_in(context.alloc, chunk)?;
    tcb.transfer
        .handle_forward_tsn(chunk.new_cumulative_tsn, &skipped)
}

/// Handles an I-FORWARD-TSN, as `handle_forward_tsn` does a FORWARD-TSN.
///
/// `Err`: an allocation failed, and no event was added.
pub fn handle_i_forward_tsn<R: Rng>(
    context: &mut Context<R>,
    chunk: &IForwardTsnChunk<'_>,
) -> Result<(), AllocError>
    ensures { TakesOne R.stream
        (ReceivesForwardTsn chunk.now.new_cumulative_tsn
        (skipped_messages chunk.now.skipped_streams.now)) context.old result context.new }
{
    let Some(tcb) = context.state.tcb_mut() else {
        return Ok(());
    };
    let skipped = skipped_messages_in(context.alloc, chunk)?;
    tcb.transfer
        .handle_forward_tsn(chunk.new_cumulative_tsn, &skipped)
}
