//! Our own request to reset streams is sent again (RFC 6525, section 5.1.1). Called by `advance_time`.

ghost use Rattle.std.specs.Prelude.{◌≡◌, ◌&&◌, not};
ghost use Rattle.dcsctp_core.specs.spec.endpoint.TimeTurns.{own_timer};
ghost use Rattle.dcsctp_core.specs.spec.endpoint.OwnTimers.{reconfiguration};
ghost use Rattle.dcsctp_core.specs.spec.endpoint.ReconfigurationOutcomes.{is_renewed};
ghost use Rattle.dcsctp_core.specs.Handling.{Tries};
ghost use Rattle.dcsctp_core.specs.Timing.{Expires};
ghost use Rattle.dcsctp_core.specs.Reconfiguring.{request_renumbered, tcb_changed};
ghost use Rattle.dcsctp_core.specs.View.{endpoint_of, outstanding_of};
ghost use Rattle.dcsctp_core_resets.specs.Repeating.{request_chunk, EmitsRequest, number_if_new, renumbered_if_sent, repeated_turn, unless_turn};

use dcsctp_core::wire::{Chunk, OutgoingSsnResetRequestParameter, Parameter, ReConfigChunk};
use dcsctp_core::{
    Context, ResetRequest, State, TransmissionControlBlock, number_answered, stream_bytes,
};
use rand_core::Rng;
use std::alloc::AllocError;

// Does it say that it is new? A renewed one doesn't.
fn says_new(request: &ResetRequest, is_renewed: bool) -> bool
    ensures { result ≡ (not is_renewed && request.now.is_new) }
{
    !is_renewed && request.is_new
}

// The last TSN that was given out before the request.
fn last_tsn_of(request: &ResetRequest) -> u32
    ensures { result ≡ request.now.last_tsn }
{
    request.last_tsn
}

// The number under which the request is sent: its own, or the next one.
fn number_of(tcb: &TransmissionControlBlock, request: &ResetRequest, is_renewed: bool) -> u32
    ensures { result ≡ number_if_new is_renewed request.now.number
        tcb.now.next_outgoing_reset_req_seq_nbr }
{
    if is_renewed {
        tcb.next_outgoing_reset_req_seq_nbr
    } else {
        request.number
    }
}

// Sends this request to the peer, if it is known and the request fits `mtu`. Returns whether it fits. `Err`: an
// allocation failed, and nothing has changed.
fn emit_request<R: Rng>(
    context: &mut Context<R>,
    request: OutgoingSsnResetRequestParameter<'_>,
) -> Result<bool, AllocError>
    ensures { EmitsRequest (request_chunk request.entry) context.old result context.new }
{
    let mut parameters = Vec::with_capacity(context.alloc, 1)?;
    parameters.push(Parameter::OutgoingSsnResetRequest(request))?;
    let chunk = Chunk::ReConfig(ReConfigChunk { parameters });
    let fits = context.fits(&chunk);
    context.emit_to_peer(&chunk)?;
    Ok(fits)
}

// Our outstanding request, if there is one, takes the next number.
fn renumber(state: &mut State)
    ensures { state.new ≡ tcb_changed request_renumbered state.old }
{
    match state.tcb_mut() {
        None => {}
        Some(tcb) => tcb.renumber_reset(),
    }
}

// It does if it was sent under that number.
fn renumber_where(state: &mut State, is_sent: bool, is_renewed: bool)
    ensures { state.new ≡ renumbered_if_sent is_sent is_renewed state.old }
{
    if is_sent && is_renewed {
        renumber(state);
    }
}

// Sends our outstanding request again, if there is one and it fits `mtu`: under its number, or under the next
// one, which takes its place. `Err`: an allocation failed, and nothing has changed.
fn send_request<R: Rng>(context: &mut Context<R>, is_renewed: bool) -> Result<(), AllocError>
    ensures { Tries R.stream (repeated_turn is_renewed) context.old result context.new }
{
    match context.state.tcb() {
        None => Ok(()),
        Some(tcb) => match &tcb.reset_request {
            None => Ok(()),
            Some(request) => {
                let number = number_of(tcb, request, is_renewed);
                let last_tsn = last_tsn_of(request);
                let streams = stream_bytes(context.alloc, &request.streams)?;
                let request = OutgoingSsnResetRequestParameter {
                    request_seq_nbr: number,
                    response_seq_nbr: number_answered(number, says_new(request, is_renewed)),
                    sender_last_assigned_tsn: last_tsn,
                    streams: &streams,
                };
                let is_sent = emit_request(context, request)?;
                renumber_where(&mut context.state, is_sent, is_renewed);
                Ok(())
            }
        },
    }
}

// Is our outstanding request, if there is one, to be sent under the next number? With `Options::follow_rfc` it
// is, where the peer has answered that it is in progress.
fn is_renewed<R: Rng>(context: &Context<R>) -> bool
    ensures { result ≡ is_renewed (endpoint_of context.now) (outstanding_of context.now.state) }
{
    match context.state.tcb() {
        None => false,
        Some(tcb) => match &tcb.reset_request {
            None => false,
            Some(request) => context.options.follow_rfc && request.waits_for_retry,
        },
    }
}

// Sends it, under its number or under the next one, unless the association is to be aborted. `Err`: an
// allocation failed, and nothing has changed.
fn send_unless_exhausted<R: Rng>(
    context: &mut Context<R>,
    is_renewed: bool,
) -> Result<(), AllocError>
    ensures { Tries R.stream (unless_turn is_renewed) context.old result context.new }
{
    if context.has_too_many_errors() {
        return Ok(());
    }
    send_request(context, is_renewed)
}

/// Advances the reconfiguration timer to the present moment, and returns whether it expires. Then our
/// outstanding request is sent again, if the count of errors allows (RFC 6525, section 5.1.1). With
/// `Options::follow_rfc` one that the peer has answered as in progress (RFC 6525, section 5.2.7) is sent again
/// under the next number.
///
/// `Err`: an allocation failed; the first of its events may already have been added.
pub fn handle_reconfiguration<R: Rng>(context: &mut Context<R>) -> Result<bool, AllocError>
    ensures { Expires R.stream (own_timer reconfiguration) context.old result context.new }
{
    let is_renewed = is_renewed(context);
    if !context.expire_reconfiguration() {
        return Ok(false);
    }
    send_unless_exhausted(context, is_renewed)?;
    Ok(true)
}
