//! SACK (RFC 9260, sections 3.3.4 and 6.2.1) that is received.

ghost use Rattle.std.specs.Prelude.{◌≡◌, ◌||◌, if◌then◌else◌};
ghost use Rattle.dcsctp_core.specs.wire.Content.{sack_content};
ghost use Rattle.dcsctp_core.specs.spec.endpoint.DataOutcomes.{no_tcb_text, counts_as_probe_answer};
ghost use Rattle.dcsctp_core.specs.View.{view_of, endpoint_of};
ghost use Rattle.dcsctp_core.specs.Handling.{TakesOne, Tries, report_turn};
ghost use Rattle.dcsctp_core_data.specs.Sacks.{ReceivesSack, ProceedsWhereHeld, ResendsWhereHeld};

use dcsctp_core::Context;
use dcsctp_core::api::ErrorKind;
use dcsctp_core::transfer::{HandledSack, packet_size_limit};
use dcsctp_core::types::Options;
use dcsctp_core::wire::SackChunk;
use dcsctp_core_ends::step_shutdown;
use rand_core::Rng;
use std::alloc::AllocError;

const NO_TCB: &str = "No TCB";

// Reports a SACK without an association. `Err`: an allocation failed, and nothing has changed.
fn report_no_tcb<R: Rng>(context: &mut Context<R>) -> Result<(), AllocError>
    ensures { Tries R.stream (report_turn ErrorKind.NotConnected no_tcb_text) context.old result
        context.new }
{
    let text = String::from_str(context.alloc, NO_TCB)?;
    context.report(ErrorKind::NotConnected, text)?;
    Ok(())
}

// Does a SACK show that the peer is there? It does if it acknowledges something that none did before (RFC
// 9260, section 8.1). With `Options::follow_rfc` it also does if it answers a probe of a closed window
// (section 6.1, rule A): one that is smaller than a packet.
fn shows_peer(options: &Options, acknowledges: bool, window: u32) -> bool
    ensures { result ≡ (acknowledges || counts_as_probe_answer options.now window) }
{
    acknowledges || (options.follow_rfc && (window as usize) < packet_size_limit(options))
}

// If the peer is there, no error counts.
fn heed_answer<R: Rng>(context: &mut Context<R>, shows_peer: bool)
    ensures { view_of context.new ≡ record (view_of context.old) {
      endpoint = record
          (endpoint_of context.old) {
            error_count = if shows_peer then 0 else (endpoint_of context.old).error_count;
          };
    } }
{
    if shows_peer {
        context.reset_errors();
    }
}

// Sends lost data at once, if it is to be, and then what waits. `Err`: an allocation failed; the first of its
// events may already have been added.
fn resend<R: Rng>(context: &mut Context<R>) -> Result<(), AllocError>
    ensures { ResendsWhereHeld R.stream context.old result context.new }
{
    context.send_at_once()?;
    context.send_buffered_packets()?;
    Ok(())
}

// A shutdown that waited for the acknowledgement continues; then what was lost is sent, and what waits. `Err`:
// an allocation failed; the first of its events may already have been added.
fn proceed<R: Rng>(context: &mut Context<R>) -> Result<(), AllocError>
    ensures { ProceedsWhereHeld R.stream context.old result context.new }
{
    step_shutdown(context)?;
    resend(context)?;
    Ok(())
}

/// Handles a SACK (RFC 9260, sections 6.2.1, 7.2.4 and 8.1). What it acknowledges is no longer in flight, and
/// shows that the peer is there. What was lost is sent again, at once or in the flush after it. Before that,
/// a shutdown that waits for the last acknowledgement continues (section 9.2). An old SACK, or one of a TSN
/// that was never sent, changes nothing. Without an association it is reported.
///
/// `Err`: an allocation failed; the first of its events may already have been added.
#[inline(always)]
pub fn handle_sack<R: Rng>(
    context: &mut Context<R>,
    chunk: &SackChunk<'_>,
) -> Result<(), AllocError>
    ensures { TakesOne R.stream (ReceivesSack (sack_content chunk.now)) context.old result
        context.new }
{
    let Some(tcb) = context.state.tcb_mut() else {
        return report_no_tcb(context);
    };
    let handled = tcb
        .transfer
        .handle_sack(&mut context.events, context.moment, chunk)?;
    match handled {
        HandledSack::Invalid => {}
        HandledSack::Valid { acknowledges } => {
            let is_there = shows_peer(&context.options, acknowledges, chunk.a_rwnd);
            heed_answer(context, is_there);
            proceed(context)?;
        }
    }
    Ok(())
}
