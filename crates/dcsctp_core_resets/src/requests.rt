//! What the parameters of a RE-CONFIG do to the peer's requests, how these are answered, and what becomes of
//! our own (RFC 6525, section 5.2). This only decides, and changes nothing of a socket.

ghost use Rattle.std.specs.Prelude.{◌≡◌, ◌&&◌, false, OnOk, IfOk};
ghost use Rattle.dcsctp_core.specs.types.declared.association.Held.{Held};
ghost use Rattle.dcsctp_core.specs.spec.association.ResetChanges.{outgoing_by_place, incoming_by_place, is_outstanding};
ghost use Rattle.dcsctp_core.specs.spec.association.ResetChanges as changes;
ghost use Rattle.dcsctp_core_resets.specs.Requests.{AnswersAs, Responds, HandlesParameter, HandlesParameters, held_with, in_place, in_state, is_outgoing, own_answer_ended, reset_parameters, parameter_said, with_response};

use dcsctp_core::wire::{
    Parameter, ReconfigurationResponseParameter, ReconfigurationResponseResult,
};
use std::alloc::{AllocError, Global};

/// The last request of the peer that was accepted, and the answer to it.
#[derive(Clone, Copy, Debug)]
pub struct LastRequest {
    /// Its number.
    pub number: u32,

    /// The answer.
    pub result: ReconfigurationResponseResult,
}

/// What becomes of the streams that the peer wants reset.
#[derive(Clone, Copy, Debug, PartialEq, Eq)]
pub enum Treatment {
    /// Nothing: no stream is to be reset, or no longer.
    Nothing,

    /// They are reset later, once all has come that was sent before.
    Deferred,

    /// They are reset now.
    Performed,

    /// They are reset once more, which isn't reported.
    Renewed,
}

/// What an Outgoing SSN Reset Request finds.
#[derive(Clone, Copy, Debug, PartialEq, Eq)]
pub enum RequestState {
    /// Something is missing that was sent before it.
    Early,

    /// All has come that was sent before it.
    Due,

    /// All has come; and it was performed and reported already, under the number before.
    Renewed,
}

/// What becomes of our own request to reset streams.
#[derive(Clone, Copy, Debug, PartialEq, Eq)]
pub enum OwnAnswer {
    /// Nothing: it isn't answered, or there is none.
    Unanswered,

    /// It is in progress, and is sent again later.
    InProgress,

    /// It was performed.
    Performed,

    /// It failed.
    Failed,
}

/// How a request's number compares to that of the last one.
#[derive(Clone, Copy, Debug, PartialEq, Eq)]
enum Place {
    /// It is the last one again.
    Again,

    /// It is the next one.
    Next,

    /// It is neither.
    Astray,
}

/// How a request is answered.
#[derive(Clone, Copy, Debug)]
pub struct AnsweredRequest {
    /// The last request from here on.
    pub last: LastRequest,

    /// The result that the peer gets.
    pub result: ReconfigurationResponseResult,

    /// What becomes of the streams.
    pub treatment: Treatment,
}

/// What was made of parameters.
#[derive(Drop)]
pub struct HandledRequests {
    /// The last request from here on.
    pub last: LastRequest,

    /// What becomes of the streams that the peer wants reset.
    pub treatment: Treatment,

    /// Was an Outgoing SSN Reset Request among them?
    pub has_worked: bool,

    /// The number of our outstanding request from here on.
    pub outstanding: Option<u32>,

    /// What becomes of our own request.
    pub own: OwnAnswer,

    /// Did it end before an Outgoing SSN Reset Request was handled?
    pub is_own_first: bool,

    /// Are they an error: none at all, or a second Outgoing SSN Reset Request?
    pub is_refused: bool,

    /// The answers, in the order of the requests.
    pub responses: Vec<Parameter<'static>>,
}

// How the number of a request compares to that of the last one (RFC 6525, section 5.2.1).
fn place_of(last: u32, number: u32) -> Place
    ensures { in_place result ≡ changes.request_place last number }
{
    if number == last {
        Place::Again
    } else if number == last.wrapping_add(1) {
        Place::Next
    } else {
        Place::Astray
    }
}

// A request of this number is handled: performed if everything was received that was sent before it, else in
// progress (RFC 6525, section 5.2.2).
fn perform_or_defer(number: u32, is_reached: bool) -> AnsweredRequest
    ensures { (base : Held)
        → AnswersAs base result (changes.performed_request base number is_reached) }
{
    if is_reached {
        let result = ReconfigurationResponseResult::SuccessPerformed;
        AnsweredRequest {
            last: LastRequest { number, result },
            result,
            treatment: Treatment::Performed,
        }
    } else {
        let result = ReconfigurationResponseResult::InProgress;
        AnsweredRequest {
            last: LastRequest { number, result },
            result,
            treatment: Treatment::Deferred,
        }
    }
}

// A request of this number was performed already, under the number before: it is answered as performed.
fn renew(number: u32) -> AnsweredRequest
    ensures { (base : Held) → AnswersAs base result (changes.renewed_request base number) }
{
    let result = ReconfigurationResponseResult::SuccessPerformed;
    AnsweredRequest {
        last: LastRequest { number, result },
        result,
        treatment: Treatment::Renewed,
    }
}

// The next request is handled by what it finds.
fn answer_next(number: u32, state: RequestState) -> AnsweredRequest
    ensures { (base : Held)
        → AnswersAs base result (changes.next_request base number (in_state state)) }
{
    match state {
        RequestState::Early => perform_or_defer(number, false),
        RequestState::Due => perform_or_defer(number, true),
        RequestState::Renewed => renew(number),
    }
}

// Has all come that was sent before it?
fn is_due(state: RequestState) -> bool
    ensures { result ≡ changes.is_due (in_state state) }
{
    match state {
        RequestState::Early => false,
        RequestState::Due => true,
        RequestState::Renewed => true,
    }
}

// The last request again is answered as before; one in progress is handled again.
fn repeated(last: LastRequest, is_reached: bool) -> AnsweredRequest
    ensures { (base : Held) → AnswersAs base result (changes.repeated_request_outcome
        (held_with base last) last.result is_reached) }
{
    match last.result {
        ReconfigurationResponseResult::InProgress => perform_or_defer(last.number, is_reached),
        ReconfigurationResponseResult::SuccessNothingToDo
        | ReconfigurationResponseResult::SuccessPerformed
        | ReconfigurationResponseResult::Denied
        | ReconfigurationResponseResult::ErrorWrongSSN
        | ReconfigurationResponseResult::ErrorRequestAlreadyInProgress
        | ReconfigurationResponseResult::ErrorBadSequenceNumber => AnsweredRequest {
            last,
            result: last.result,
            treatment: Treatment::Nothing,
        },
    }
}

// A request whose number is neither the last nor the next is refused.
fn refused(last: LastRequest) -> AnsweredRequest
    ensures { (base : Held) → AnswersAs base result (changes.refused_outcome
        (held_with base last)) }
{
    AnsweredRequest {
        last,
        result: ReconfigurationResponseResult::ErrorBadSequenceNumber,
        treatment: Treatment::Nothing,
    }
}

// How an Outgoing SSN Reset Request of this number is answered.
fn answer_outgoing(last: LastRequest, number: u32, state: RequestState) -> AnsweredRequest
    ensures { (base : Held)
        → AnswersAs base result (outgoing_by_place (held_with base last) number (in_state state)
        (changes.request_place last.number number)) }
{
    match place_of(last.number, number) {
        Place::Again => repeated(last, is_due(state)),
        Place::Next => answer_next(number, state),
        Place::Astray => refused(last),
    }
}

// How an Incoming SSN Reset Request of this number is answered: no stream is reset for it.
fn answer_incoming(last: LastRequest, number: u32) -> AnsweredRequest
    ensures { (base : Held) → AnswersAs base result (incoming_by_place (held_with base last) number
        (changes.request_place last.number number)) }
{
    match place_of(last.number, number) {
        Place::Again | Place::Next => {
            let result = ReconfigurationResponseResult::SuccessNothingToDo;
            AnsweredRequest {
                last: LastRequest { number, result },
                result,
                treatment: Treatment::Nothing,
            }
        }
        Place::Astray => refused(last),
    }
}

// Is it an Outgoing SSN Reset Request?
fn is_outgoing(parameter: &Parameter<'_>) -> bool
    ensures { result ≡ is_outgoing (parameter_said parameter.now) }
{
    match parameter {
        Parameter::OutgoingSsnResetRequest(_) => true,
        Parameter::HeartbeatInfo { .. }
        | Parameter::StateCookie { .. }
        | Parameter::IncomingSsnResetRequest(_)
        | Parameter::ReconfigurationResponse(_)
        | Parameter::SupportedExtensions { .. }
        | Parameter::ZeroChecksumAcceptable { .. }
        | Parameter::ForwardTsnSupported
        | Parameter::Unknown { .. } => false,
    }
}

impl HandledRequests {
    // Answers a request of this number.
    fn respond(
        &mut self,
        number: u32,
        answer: ReconfigurationResponseResult,
    ) -> Result<(), AllocError>
        ensures { OnOk result (Responds number answer self.old self.new) }
    {
        self.responses.push(Parameter::ReconfigurationResponse(
            ReconfigurationResponseParameter {
                response_seq_nbr: number,
                result: answer,
                next_tsns: None,
            },
        ))?;
        Ok(())
    }

    // Our own request has ended so. The events about it come first if no request of the peer was handled.
    fn end_own(&mut self, answer: OwnAnswer)
        ensures { self.new ≡ own_answer_ended answer self.old }
    {
        self.outstanding = None;
        self.own = answer;
        self.is_own_first = !self.has_worked;
    }

    // Handles an answer to a request of this number. If that is our outstanding one, it was performed, has
    // failed, or is in progress (RFC 6525, section 5.2.7).
    fn take_response(&mut self, number: u32, answer: ReconfigurationResponseResult)
        ensures { self.new
            ≡ with_response (is_outstanding number self.old.outstanding) answer self.old }
    {
        match self.outstanding {
            Some(outstanding) if outstanding == number => match answer {
                ReconfigurationResponseResult::SuccessPerformed
                | ReconfigurationResponseResult::SuccessNothingToDo => {
                    self.end_own(OwnAnswer::Performed)
                }
                ReconfigurationResponseResult::Denied
                | ReconfigurationResponseResult::ErrorWrongSSN
                | ReconfigurationResponseResult::ErrorRequestAlreadyInProgress
                | ReconfigurationResponseResult::ErrorBadSequenceNumber => {
                    self.end_own(OwnAnswer::Failed)
                }
                ReconfigurationResponseResult::InProgress => self.own = OwnAnswer::InProgress,
            },
            Some(_) | None => {}
        }
    }

    // Handles a parameter.
    fn handle_parameter(
        &mut self,
        state: RequestState,
        parameter: &Parameter<'_>,
    ) -> Result<(), AllocError>
        requires { (self.old.has_worked && is_outgoing (parameter_said parameter.now)) ≡ false }
        ensures { OnOk result
            (HandlesParameter (in_state state) (parameter_said parameter.now) self.old self.new) }
    {
        match parameter {
            Parameter::OutgoingSsnResetRequest(request) => {
                let number = request.request_seq_nbr;
                let answered = answer_outgoing(self.last, number, state);
                self.respond(number, answered.result)?;
                self.last = answered.last;
                self.treatment = answered.treatment;
                self.has_worked = true;
                Ok(())
            }
            Parameter::IncomingSsnResetRequest(request) => {
                let number = request.request_seq_nbr;
                let answered = answer_incoming(self.last, number);
                self.respond(number, answered.result)?;
                self.last = answered.last;
                Ok(())
            }
            Parameter::ReconfigurationResponse(response) => {
                self.take_response(response.response_seq_nbr, response.result);
                Ok(())
            }
            Parameter::HeartbeatInfo { .. } => Ok(()),
            Parameter::StateCookie { .. } => Ok(()),
            Parameter::SupportedExtensions { .. } => Ok(()),
            Parameter::ZeroChecksumAcceptable { .. } => Ok(()),
            Parameter::ForwardTsnSupported => Ok(()),
            Parameter::Unknown { .. } => Ok(()),
        }
    }
}

/// Handles the parameters of a RE-CONFIG, up to a second Outgoing SSN Reset Request. A chunk with two is an
/// error, as is one without any parameter. `state` is what the first such request finds. `outstanding` is the
/// number of our outstanding request, if there is one.
pub(crate) fn handle_requests(
    alloc: Global,
    last: LastRequest,
    outstanding: Option<u32>,
    state: RequestState,
    parameters: &[Parameter<'_>],
) -> Result<HandledRequests, AllocError>
    ensures { IfOk result
        (λ worked. HandlesParameters (in_state state) last outstanding
        (reset_parameters parameters.now) worked) }
{
    let mut worked = HandledRequests {
        last,
        treatment: Treatment::Nothing,
        has_worked: false,
        outstanding,
        own: OwnAnswer::Unanswered,
        is_own_first: false,
        is_refused: parameters.is_empty(),
        responses: Vec::new(alloc),
    };
    for parameter in parameters {
        if worked.has_worked && is_outgoing(parameter) {
            worked.is_refused = true;
            return Ok(worked);
        }
        worked.handle_parameter(state, parameter)?;
    }
    Ok(worked)
}
