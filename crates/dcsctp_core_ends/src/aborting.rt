//! Our own abort (RFC 9260, section 9.1).

ghost use Rattle.std.specs.Prelude.{◌≡◌, true, IsOk, [], ◌∷◌};
ghost use Rattle.dcsctp_core.specs.wire.Content.{cause_content};
ghost use Rattle.dcsctp_core.specs.spec.endpoint.Cause.{reason_text, causes_of};
ghost use Rattle.dcsctp_core.specs.spec.endpoint.EndOutcomes.{end_of};
ghost use Rattle.dcsctp_core.specs.api.Calls.{is_closed};
ghost use Rattle.dcsctp_core.specs.View.{core_of};
ghost use Rattle.dcsctp_core.specs.Handling.{Tries, TakesTurn, close_turn};
ghost use Rattle.dcsctp_core_ends.specs.Ends.{abort_sent_turn, aborting_turn};

use dcsctp_core::Context;
use dcsctp_core::api::ErrorKind;
use dcsctp_core::types::{AbortReason, Violation};
use dcsctp_core::wire::{AbortChunk, Chunk, ErrorCause};
use rand_core::Rng;
use std::alloc::AllocError;

// What is said of it.
fn text_of(reason: AbortReason) -> &'static str
    ensures { result.now ≡ reason_text reason }
{
    match reason {
        AbortReason::CloseCalled => "Close called",
        AbortReason::Violation(Violation::DataWithInterleaving) => {
            "DATA/FORWARD-TSN chunk received when message interleaving is negotiated"
        }
        AbortReason::Violation(Violation::InterleavedDataWithout) => {
            "I-DATA/I-FORWARD-TSN chunk received when message interleaving is not negotiated"
        }
        AbortReason::Violation(Violation::ForwardTsnWithout) => {
            "FORWARD-TSN/I-FORWARD-TSN chunk received when partial reliability is not negotiated"
        }
        AbortReason::TooManyErrors => "Too many retransmissions",
    }
}

// The cause that is sent to the peer.
fn cause_of(reason: AbortReason) -> ErrorCause<'static>
    ensures { cause_content result ∷ [] ≡ causes_of reason }
{
    let text = text_of(reason).as_bytes();
    match reason {
        AbortReason::CloseCalled => ErrorCause::UserInitiatedAbort { text },
        AbortReason::Violation(_) => ErrorCause::ProtocolViolation { text },
        AbortReason::TooManyErrors => ErrorCause::UserInitiatedAbort { text },
    }
}

// Sends an ABORT for this reason to the peer, if it is known and it fits `mtu`.
//
// `Err`: an allocation failed, and nothing has changed.
fn send_abort<R: Rng>(context: &mut Context<R>, reason: AbortReason) -> Result<(), AllocError>
    ensures { Tries R.stream (abort_sent_turn reason) context.old result context.new }
{
    let Some(_) = context.state.tcb() else {
        return Ok(());
    };
    let mut error_causes = Vec::with_capacity(context.alloc, 1)?;
    error_causes.push(cause_of(reason))?;
    let abort = AbortChunk {
        tag_reflected: false,
        error_causes,
    };
    context.emit_to_peer(&Chunk::Abort(abort))?;
    Ok(())
}

// Ends the association with the event for this reason. A closed socket is unchanged.
//
// `Err`: an allocation failed, and nothing has changed.
fn close_association<R: Rng>(
    context: &mut Context<R>,
    reason: AbortReason,
) -> Result<(), AllocError>
    ensures { Tries R.stream (close_turn (end_of reason)) context.old result context.new }
{
    let alloc = context.alloc;
    match reason {
        AbortReason::CloseCalled => {
            context.internal_close(ErrorKind::NoError, String::new(alloc))?;
        }
        AbortReason::Violation(_) => {
            let text = String::from_str(alloc, text_of(reason))?;
            context.internal_close(ErrorKind::ProtocolViolation, text)?;
        }
        AbortReason::TooManyErrors => {
            let text = String::from_str(alloc, text_of(reason))?;
            context.internal_close(ErrorKind::TooManyRetries, text)?;
        }
    }
    Ok(())
}

/// Aborts the association for this reason (RFC 9260, section 9.1): an ABORT is sent if the peer is known and
/// it fits `mtu`. The association ends, with OnClosed if its user closed it, else with OnAborted. A closed
/// socket is unchanged, and no allocation can fail.
///
/// `Err`: an allocation failed; the first of its events may already have been added.
pub fn abort_association<R: Rng>(
    context: &mut Context<R>,
    reason: AbortReason,
) -> Result<(), AllocError>
    ensures turn { TakesTurn R.stream (aborting_turn reason) context.old result context.new }
    ensures closed { is_closed (core_of context.old.state) ≡ true → IsOk result }
{
    if context.state.is_closed() {
        return Ok(());
    }
    send_abort(context, reason)?;
    close_association(context, reason)?;
    Ok(())
}
