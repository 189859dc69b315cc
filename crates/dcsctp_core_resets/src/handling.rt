//! RE-CONFIG (RFC 6525, sections 3.1 and 5.2) that is received.

ghost use Rattle.std.specs.Prelude.{◌≡◌, ◌&&◌, if◌then◌else◌, false, Some, OnOk, OnErr, IfOk};
ghost use Rattle.std.specs.Option.{option_map};
ghost use Rattle.dcsctp_core.specs.types.Ids.{stream_numbers};
ghost use Rattle.dcsctp_core.specs.spec.Reconfiguration.{early};
ghost use Rattle.dcsctp_core.specs.spec.endpoint.ResetOutcomes.{is_same_list, is_request_reached, is_renewal, renewable_reset, state_if_renewed, reset_refusal_text, ResetsTransferStreams};
ghost use Rattle.dcsctp_core.specs.Reconfiguring.{request_of_state, tcb_changed};
ghost use Rattle.dcsctp_core.specs.Answering.{request_ended};
ghost use Rattle.dcsctp_core.specs.View.{endpoint_of, performed_reset, tcb_of, transfer_of, view_of};
ghost use Rattle.dcsctp_core.specs.Below.{ChangesQueues};
ghost use Rattle.dcsctp_core.specs.Handling.{TakesOne, Tries, report_turn};
ghost use Rattle.dcsctp_core_resets.specs.declared.requests.Treatment.TheVariants.{Performed, Renewed};
ghost use Rattle.dcsctp_core_resets.specs.Requests.{AreResponses, in_state, reset_parameters};
ghost use Rattle.dcsctp_core_resets.specs.Resets.{CarriesOut, DefersReset, DefersTo, Finishes, KeepsRenewable, RecordsRenewable, ReceivesReConfig, RetriesIfConnected, SettlesRequest, ReportsEvent, TreatsReset, HandlesForConnection, view_asked, view_without_errors, asked_number, responses_turn, state_for, reset_of_request};

use crate::reading::{numbers_of, requested, streams_of};
use crate::requests::{
    HandledRequests, LastRequest, OwnAnswer, RequestState, Treatment, handle_requests,
};
use dcsctp_core::api::{ErrorKind, SocketEvent, SocketTime, StreamId};
use dcsctp_core::wire::{Chunk, OutgoingSsnResetRequestParameter, Parameter, ReConfigChunk};
use dcsctp_core::{Context, PerformedReset, ResetRequest, State, TransmissionControlBlock};
use rand_core::Rng;
use std::alloc::{AllocError, Global};

const NO_PARAMETER: &str = "RE-CONFIG chunk must have at least one parameter";

const SECOND_REQUEST: &str =
    "RE-CONFIG chunk must not have multiple Outgoing SSN Reset Request parameters";

// ---- what is decided

// Was everything received that the peer had sent before this request (RFC 6525, section 5.2.2, E2)?
fn is_reached(
    tcb: &TransmissionControlBlock,
    request: Option<OutgoingSsnResetRequestParameter<'_>>,
) -> bool
    ensures { result
        ≡ is_request_reached (Some tcb.now.transfer) (option_map reset_of_request request.entry) }
{
    match request {
        None => true,
        Some(request) => tcb
            .transfer
            .has_received_up_to(request.sender_last_assigned_tsn),
    }
}

// Are these lists the same?
fn are_same(one: &[u16], other: &[u16]) -> bool
    ensures { result ≡ is_same_list one.now other.now }
{
    one == other
}

// Does it say that it isn't the request before, once more?
fn says_new(request: &OutgoingSsnResetRequestParameter<'_>) -> bool
    ensures { result ≡ (reset_of_request request.now).is_new }
{
    request.response_seq_nbr == request.request_seq_nbr.wrapping_sub(1)
}

// Is it the request `old` under the next number? `last` is the last number that was accepted, and `streams` what it
// names.
fn is_again(
    old: &PerformedReset,
    last: u32,
    request: &OutgoingSsnResetRequestParameter<'_>,
    streams: &[u16],
) -> bool
    requires { streams.now ≡ (reset_of_request request.now).streams }
    ensures { result
        ≡ is_renewal (performed_reset (Some old.now)) last (Some (asked_number request.now))
        (Some (reset_of_request request.now)) }
{
    if old.number != last || request.request_seq_nbr != last.wrapping_add(1) {
        return false;
    }
    if says_new(request) || old.last_tsn != request.sender_last_assigned_tsn {
        return false;
    }
    are_same(&old.streams, streams)
}

// Is it the request that was performed last, under the next number? `last` is the last number that was accepted.
fn is_renewal(
    alloc: Global,
    kept: &Option<PerformedReset>,
    last: u32,
    request: &OutgoingSsnResetRequestParameter<'_>,
) -> Result<bool, AllocError>
    ensures { IfOk result (λ is. is ≡ is_renewal (performed_reset kept.now) last
        (Some (asked_number request.now)) (Some (reset_of_request request.now))) }
{
    match kept {
        None => Ok(false),
        Some(old) => {
            let streams = numbers_of(alloc, request)?;
            Ok(is_again(old, last, request, &streams))
        }
    }
}

// Is this request another one under the next number? Without `Options::follow_rfc` (`follows`) none is.
fn may_be_renewed(
    alloc: Global,
    kept: &Option<PerformedReset>,
    follows: bool,
    last: u32,
    request: Option<OutgoingSsnResetRequestParameter<'_>>,
) -> Result<bool, AllocError>
    ensures { IfOk result (λ is. is ≡ (follows && is_renewal (performed_reset kept.now) last
        (option_map asked_number request.entry) (option_map reset_of_request request.entry))) }
{
    if !follows {
        return Ok(false);
    }
    match request {
        None => Ok(false),
        Some(request) => is_renewal(alloc, kept, last, &request),
    }
}

// What a request finds, by whether all has come that was sent before it.
fn state_where(is_reached: bool, is_renewed: bool) -> RequestState
    ensures { in_state result ≡ (if is_reached then state_if_renewed is_renewed else early) }
{
    if !is_reached {
        RequestState::Early
    } else if is_renewed {
        RequestState::Renewed
    } else {
        RequestState::Due
    }
}

// What an Outgoing SSN Reset Request finds. With `Options::follow_rfc` (`follows`) it may be one that was performed
// under the number before: the peer sends one that is in progress again under the next number, and a late copy of
// the old one may come first (RFC 6525, section 5.2.7).
fn state_of(
    alloc: Global,
    tcb: &TransmissionControlBlock,
    kept: &Option<PerformedReset>,
    follows: bool,
    request: Option<OutgoingSsnResetRequestParameter<'_>>,
) -> Result<RequestState, AllocError>
    ensures { IfOk result
        (λ state. in_state state ≡ state_for follows (performed_reset kept.now) (Some tcb.now)
        (option_map asked_number request.entry) (option_map reset_of_request request.entry)) }
{
    let last = tcb.last_processed_req_seq_nbr;
    let is_renewed = may_be_renewed(alloc, kept, follows, last, request)?;
    let is_reached = is_reached(tcb, request);
    Ok(state_where(is_reached, is_renewed))
}

// What becomes of these parameters.
fn decide(
    alloc: Global,
    tcb: &TransmissionControlBlock,
    kept: &Option<PerformedReset>,
    follows: bool,
    parameters: &[Parameter<'_>],
) -> Result<HandledRequests, AllocError>
    ensures { IfOk result (λ worked. HandlesForConnection follows (performed_reset kept.now)
        (Some tcb.now) (reset_parameters parameters.now) worked) }
{
    let last = LastRequest {
        number: tcb.last_processed_req_seq_nbr,
        result: tcb.last_processed_req_result,
    };
    let state = state_of(alloc, tcb, kept, follows, requested(parameters))?;
    handle_requests(alloc, last, tcb.outstanding_number(), state, parameters)
}

// What may come again under the next number, once this request is performed: it, if it was in progress, and so has
// the last number. With `Options::follow_rfc` alone.
fn renewable_of<R: Rng>(
    context: &Context<R>,
    last: u32,
    request: Option<OutgoingSsnResetRequestParameter<'_>>,
) -> Result<Option<PerformedReset>, AllocError>
    ensures { IfOk result
        (λ kept. performed_reset kept ≡ renewable_reset (endpoint_of context.now) last
        (option_map asked_number request.entry) (option_map reset_of_request request.entry)) }
{
    let Some(request) = request else {
        return Ok(None);
    };
    if !(context.options.follow_rfc && request.request_seq_nbr == last) {
        return Ok(None);
    }
    let streams = numbers_of(context.alloc, &request)?;
    Ok(Some(PerformedReset {
        number: request.request_seq_nbr,
        last_tsn: request.sender_last_assigned_tsn,
        streams,
    }))
}

// Records what may come again. `Err`: an allocation failed, and nothing has changed.
fn record_renewable<R: Rng>(
    context: &mut Context<R>,
    last: u32,
    request: Option<OutgoingSsnResetRequestParameter<'_>>,
) -> Result<(), AllocError>
    ensures { RecordsRenewable last request.entry context.old result context.new }
{
    let kept = renewable_of(context, last, request)?;
    context.renewable = kept;
    Ok(())
}

// Records what may come again, if the request is performed. `Err`: an allocation failed, and nothing has changed.
fn keep_renewable<R: Rng>(
    context: &mut Context<R>,
    last: u32,
    request: Option<OutgoingSsnResetRequestParameter<'_>>,
    treatment: Treatment,
) -> Result<(), AllocError>
    ensures { KeepsRenewable last request.entry treatment context.old result context.new }
{
    match treatment {
        Treatment::Nothing => Ok(()),
        Treatment::Deferred => Ok(()),
        Treatment::Performed => record_renewable(context, last, request),
        Treatment::Renewed => record_renewable(context, last, request),
    }
}

// ---- the streams

// Keeps the last request of the peer, if it is known.
fn keep_last<R: Rng>(context: &mut Context<R>, last: LastRequest)
    ensures { view_of context.new ≡ view_asked last (view_of context.old) }
{
    match context.state.tcb_mut() {
        None => {}
        Some(tcb) => {
            tcb.last_processed_req_seq_nbr = last.number;
            tcb.last_processed_req_result = last.result;
        }
    }
}

// Resets streams of the peer. `Err`: an allocation failed for something that waited for that.
fn reset_streams(state: &mut State, streams: &[StreamId]) -> Result<(), AllocError>
    ensures { OnOk result
        (ChangesQueues (ResetsTransferStreams (stream_numbers streams.now)) (transfer_of state.old)
        state.old state.new) }
{
    match state.tcb_mut() {
        None => Ok(()),
        Some(tcb) => tcb.transfer.reset_streams(streams),
    }
}

// Lets what comes beyond this TSN on these streams wait until they are reset. `Err`: an allocation failed, and
// nothing has changed.
fn defer_reset(state: &mut State, last_tsn: u32, streams: &[StreamId]) -> Result<(), AllocError>
    ensures ok { OnOk result (ChangesQueues
        (DefersTo (record {
          last_tsn = last_tsn;
          streams = stream_numbers streams.now;
          is_new = false;
        }))
        (transfer_of state.old) state.old state.new) }
    ensures err { OnErr result (state.new ≡ state.old) }
{
    match state.tcb_mut() {
        None => Ok(()),
        Some(tcb) => tcb.transfer.defer_reset(last_tsn, streams),
    }
}

// Resets the streams that a request names, and reports that to the user. `Err`: an allocation failed, and no
// event was added.
fn perform<R: Rng>(
    context: &mut Context<R>,
    request: &OutgoingSsnResetRequestParameter<'_>,
) -> Result<(), AllocError>
    ensures { TreatsReset Performed (Some (reset_of_request request.now)) context.old result
        context.new }
{
    let streams = streams_of(context.alloc, request)?;
    reset_streams(&mut context.state, &streams)?;
    context
        .events
        .add(SocketEvent::OnIncomingStreamReset(streams))?;
    Ok(())
}

// Resets the streams that a request names once more, and doesn't report that. `Err`: an allocation failed, and no
// event was added.
fn reset_again<R: Rng>(
    context: &mut Context<R>,
    request: &OutgoingSsnResetRequestParameter<'_>,
) -> Result<(), AllocError>
    ensures { TreatsReset Renewed (Some (reset_of_request request.now)) context.old result
        context.new }
{
    let streams = streams_of(context.alloc, request)?;
    reset_streams(&mut context.state, &streams)?;
    Ok(())
}

// Lets the reset that a request wants wait. `Err`: an allocation failed, and nothing has changed.
fn defer<R: Rng>(
    context: &mut Context<R>,
    request: &OutgoingSsnResetRequestParameter<'_>,
) -> Result<(), AllocError>
    ensures { DefersReset (reset_of_request request.now) context.old result context.new }
{
    let streams = streams_of(context.alloc, request)?;
    defer_reset(
        &mut context.state,
        request.sender_last_assigned_tsn,
        &streams,
    )
}

// Carries out what was decided for the streams that the peer wants reset. `Err`: an allocation failed, and no
// event was added.
fn carry_out_reset<R: Rng>(
    context: &mut Context<R>,
    request: Option<OutgoingSsnResetRequestParameter<'_>>,
    treatment: Treatment,
) -> Result<(), AllocError>
    ensures { TreatsReset treatment (option_map reset_of_request request.entry) context.old result
        context.new }
{
    match request {
        None => Ok(()),
        Some(request) => match treatment {
            Treatment::Nothing => Ok(()),
            Treatment::Deferred => defer(context, &request),
            Treatment::Performed => perform(context, &request),
            Treatment::Renewed => reset_again(context, &request),
        },
    }
}

// ---- our own request

// Our outstanding request is in progress: it waits to be sent again.
fn retry_reset(state: &mut State, now: SocketTime)
    ensures { RetriesIfConnected now (tcb_of state.old) state.old state.new }
{
    match state.tcb_mut() {
        None => {}
        Some(tcb) => tcb.retry_reset(now),
    }
}

// Our outstanding request has ended. Returns it, if there was one.
fn end_reset(state: &mut State) -> Option<ResetRequest>
    ensures answer { result ≡ request_of_state state.old }
    ensures left { state.new ≡ tcb_changed request_ended state.old }
{
    match state.tcb_mut() {
        None => None,
        Some(tcb) => tcb.end_reset(),
    }
}

// Our own request was answered. With `Options::follow_rfc` that shows that the peer is there, so no error
// counts (RFC 9260, section 8.1).
fn heed_answer<R: Rng>(context: &mut Context<R>)
    ensures { view_of context.new ≡ view_without_errors (view_of context.old) }
{
    if context.options.follow_rfc {
        context.reset_errors();
    }
}

// The peer has given this answer to our own request (RFC 6525, section 5.2.7). A request that is in progress
// is sent again later. One that has ended gives its streams back to the send queue; returns the event for it.
// Allocates nothing.
fn settle<R: Rng>(context: &mut Context<R>, own: OwnAnswer) -> Option<SocketEvent>
    ensures { SettlesRequest own context.old result context.new }
{
    match own {
        OwnAnswer::Unanswered => None,
        OwnAnswer::InProgress => {
            retry_reset(&mut context.state, context.moment);
            heed_answer(context);
            None
        }
        OwnAnswer::Performed => {
            context.send_queue.commit_reset_streams();
            heed_answer(context);
            match end_reset(&mut context.state) {
                None => None,
                Some(request) => Some(SocketEvent::OnStreamsResetPerformed(request.streams)),
            }
        }
        OwnAnswer::Failed => {
            context.send_queue.rollback_reset_streams();
            heed_answer(context);
            match end_reset(&mut context.state) {
                None => None,
                Some(request) => Some(SocketEvent::OnStreamsResetFailed(request.streams)),
            }
        }
    }
}

// Reports it to the user, if there is an event. `Err`: an allocation failed, and nothing has changed.
fn tell<R: Rng>(context: &mut Context<R>, event: Option<SocketEvent>) -> Result<(), AllocError>
    ensures { ReportsEvent event context.old result context.new }
{
    match event {
        None => Ok(()),
        Some(event) => {
            context.events.add(event)?;
            Ok(())
        }
    }
}

// Carries out what was decided for our own request and for the streams that the peer wants reset. Both are
// reported to the user in the order in which they were decided. `Err`: an allocation failed; the first of its
// events may already have been added.
fn carry_out<R: Rng>(
    context: &mut Context<R>,
    request: Option<OutgoingSsnResetRequestParameter<'_>>,
    worked: &HandledRequests,
) -> Result<(), AllocError>
    ensures { CarriesOut worked.now (option_map reset_of_request request.entry) context.old result
        context.new }
{
    let told = settle(context, worked.own);
    if worked.is_own_first {
        tell(context, told)?;
        return carry_out_reset(context, request, worked.treatment);
    }
    carry_out_reset(context, request, worked.treatment)?;
    tell(context, told)
}

// ---- the answers

// Why a chunk with these parameters is an error.
fn refusal_text(parameters: &[Parameter<'_>]) -> &'static str
    ensures { result.now ≡ reset_refusal_text (reset_parameters parameters.now) }
{
    if parameters.is_empty() {
        NO_PARAMETER
    } else {
        SECOND_REQUEST
    }
}

// Reports a chunk that is an error. `Err`: an allocation failed, and nothing has changed.
fn refuse<R: Rng>(context: &mut Context<R>, parameters: &[Parameter<'_>]) -> Result<(), AllocError>
    ensures { Tries R.stream
        (report_turn ErrorKind.ProtocolViolation
        (reset_refusal_text (reset_parameters parameters.now))) context.old result context.new }
{
    let text = String::from_str(context.alloc, refusal_text(parameters))?;
    context.report(ErrorKind::ProtocolViolation, text)?;
    Ok(())
}

// Sends these answers to the peer, if there are some, they fit `mtu`, and the packet may be answered. `Err`: an
// allocation failed, and nothing has changed.
fn respond<R: Rng>(
    context: &mut Context<R>,
    responses: Vec<Parameter<'static>>,
) -> Result<(), AllocError>
    ensures { AreResponses responses.entry.items
        → Tries R.stream (responses_turn (reset_parameters responses.entry.items)) context.old
        result context.new }
{
    if responses.as_slice().is_empty() {
        return Ok(());
    }
    let chunk = Chunk::ReConfig(ReConfigChunk {
        parameters: responses,
    });
    context.answer_peer(&chunk)
}

// Answers the peer, and then sends what waits. A chunk that is an error is reported instead. `Err`: an
// allocation failed; the first of its events may already have been added.
fn respond_and_flush<R: Rng>(
    context: &mut Context<R>,
    parameters: &[Parameter<'_>],
    worked: HandledRequests,
) -> Result<(), AllocError>
    ensures { Finishes R.stream (reset_parameters parameters.now) worked context.old result
        context.new }
{
    if worked.is_refused {
        return refuse(context, parameters);
    }
    respond(context, worked.responses)?;
    context.send_buffered_packets()
}

// Handles these parameters of a RE-CONFIG. `Err`: an allocation failed; the first of its events may already
// have been added.
fn handle_parameters<R: Rng>(
    context: &mut Context<R>,
    parameters: &[Parameter<'_>],
) -> Result<(), AllocError>
    ensures { TakesOne R.stream (ReceivesReConfig (reset_parameters parameters.now)) context.old
        result context.new }
{
    let Some(tcb) = context.state.tcb() else {
        return Ok(());
    };
    let last = tcb.last_processed_req_seq_nbr;
    let worked = decide(
        context.alloc,
        tcb,
        &context.renewable,
        context.options.follow_rfc,
        parameters,
    )?;
    let request = requested(parameters);
    keep_renewable(context, last, request, worked.treatment)?;
    keep_last(context, worked.last);
    carry_out(context, request, &worked)?;
    respond_and_flush(context, parameters, worked)
}

/// Handles a RE-CONFIG (RFC 6525, section 5.2). Each request of the peer is answered, in one packet, and a
/// flush follows. An Outgoing SSN Reset Request with the next number resets its streams once everything that
/// was sent before it is received. That is reported to the user. Until then it is in progress: what was sent
/// after it on its streams waits, and it is handled again when it comes again. For an Incoming SSN Reset
/// Request nothing is reset. With `Options::follow_rfc` a request that was in progress, was performed and comes again
/// under the next number is answered as performed, and isn't reported a second time (section 5.2.7).
///
/// An answer to our outstanding request ends it (section 5.2.7). Its streams are reset, or aren't, which is
/// reported to the user, and both take messages again. A request that is in progress is sent again later.
///
/// With `Options::follow_rfc` no answer is sent if another chunk of the packet was answered. The peer sends its
/// request again, and then gets the answer that was kept.
///
/// A chunk without parameters, or with a second Outgoing SSN Reset Request, is reported, and no answer is
/// sent. What came before the second request was handled. Without a peer nothing happens.
///
/// `Err`: an allocation failed; the first of its events may already have been added.
pub fn handle_re_config<R: Rng>(
    context: &mut Context<R>,
    chunk: &ReConfigChunk<'_>,
) -> Result<(), AllocError>
    ensures { TakesOne R.stream (ReceivesReConfig (reset_parameters chunk.now.parameters.items))
        context.old result context.new }
{
    handle_parameters(context, &chunk.parameters)
}
