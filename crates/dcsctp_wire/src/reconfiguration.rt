//! Requests to reset streams, and the answers to them (RFC 6525, section 4).

ghost use Rattle.std.specs.Prelude.{◌≡◌, ◌≤◌, ◌<◌, ◌/◌, length};
ghost use Rattle.std.specs.Option.{option_map};
ghost use Rattle.dcsctp_wire.specs.Content.{parameter_content};
ghost use Rattle.dcsctp_wire.specs.Fields.{u32_at, outgoing_request_of_value, incoming_request_of_value, result_of, response_with, next_tsns_of_value, response_of_value, numbered_request_stream};
ghost use Rattle.dcsctp_wire.specs.Spelling.{result_code};

use crate::bytes::{has_entries, u16_at, u32_at};
use crate::parameter::Parameter;
use crate::types::parameter_type;

/// The result of a request, by its code in a Re-configuration Response (RFC 6525, section 4.4).
#[derive(Clone, Copy, Debug, PartialEq, Eq)]
pub enum ReconfigurationResponseResult {
    /// 0: success, there was nothing to do.
    SuccessNothingToDo,

    /// 1: success, it was performed.
    SuccessPerformed,

    /// 2: denied.
    Denied,

    /// 3: error, wrong stream sequence number.
    ErrorWrongSSN,

    /// 4: error, a request is already in progress.
    ErrorRequestAlreadyInProgress,

    /// 5: error, bad sequence number.
    ErrorBadSequenceNumber,

    /// 6: in progress.
    InProgress,
}

/// What an Outgoing SSN Reset Request says (RFC 6525, section 4.1).
///
/// | Offset in the value | Size | Field |
/// |---|---|---|
/// | 0 | 4 | Re-configuration Request Sequence Number |
/// | 4 | 4 | Re-configuration Response Sequence Number |
/// | 8 | 4 | Sender's Last Assigned TSN |
/// | 12 | 2 each | streams |
#[derive(Clone, Copy, Debug)]
pub struct OutgoingSsnResetRequestParameter<'a> {
    /// The number of this request.
    pub request_seq_nbr: u32,

    /// The number of the request that this one answers.
    pub response_seq_nbr: u32,

    /// The last TSN that the sender gave out.
    pub sender_last_assigned_tsn: u32,

    /// The streams, two bytes each: all if there are none.
    pub streams: &'a [u8],
}

/// What an Incoming SSN Reset Request says (RFC 6525, section 4.2): its number, four bytes, and the streams,
/// two bytes each.
#[derive(Clone, Copy, Debug)]
pub struct IncomingSsnResetRequestParameter<'a> {
    /// The number of this request.
    pub request_seq_nbr: u32,

    /// The streams, two bytes each: all if there are none.
    pub streams: &'a [u8],
}

/// The next TSNs in an answer to a request to reset all TSNs (RFC 6525, section 4.4).
#[derive(Clone, Copy, Debug, PartialEq, Eq)]
pub struct NextTsns {
    /// The next TSN of the sender of the answer.
    pub sender: u32,

    /// The next TSN that the sender of the answer expects.
    pub receiver: u32,
}

/// What a Re-configuration Response says (RFC 6525, section 4.4): the number of the request, the result, each
/// four bytes, and none or both of the next TSNs.
#[derive(Clone, Copy, Debug)]
pub struct ReconfigurationResponseParameter {
    /// The number of the request that is answered.
    pub response_seq_nbr: u32,

    /// The result.
    pub result: ReconfigurationResponseResult,

    /// The next TSNs, if the request was to reset them.
    pub next_tsns: Option<NextTsns>,
}

impl<'a> OutgoingSsnResetRequestParameter<'a> {
    /// How many streams are named.
    pub fn stream_count(&self) -> usize
        ensures { result ≡ length self.now.streams.now / 2 }
    {
        self.streams.len() / 2
    }

    /// The stream at this place.
    pub fn stream(&self, index: usize) -> u16
        requires { index < length self.now.streams.now / 2 }
        ensures { result ≡ numbered_request_stream index self.now.streams.now }
    {
        u16_at(self.streams, 2 * index)
    }
}

impl<'a> IncomingSsnResetRequestParameter<'a> {
    /// How many streams are named.
    pub fn stream_count(&self) -> usize
        ensures { result ≡ length self.now.streams.now / 2 }
    {
        self.streams.len() / 2
    }

    /// The stream at this place.
    pub fn stream(&self, index: usize) -> u16
        requires { index < length self.now.streams.now / 2 }
        ensures { result ≡ numbered_request_stream index self.now.streams.now }
    {
        u16_at(self.streams, 2 * index)
    }
}

impl ReconfigurationResponseResult {
    /// The number of the result.
    pub fn code(self) -> u32
        ensures { result ≡ result_code self }
    {
        match self {
            ReconfigurationResponseResult::SuccessNothingToDo => 0,
            ReconfigurationResponseResult::SuccessPerformed => 1,
            ReconfigurationResponseResult::Denied => 2,
            ReconfigurationResponseResult::ErrorWrongSSN => 3,
            ReconfigurationResponseResult::ErrorRequestAlreadyInProgress => 4,
            ReconfigurationResponseResult::ErrorBadSequenceNumber => 5,
            ReconfigurationResponseResult::InProgress => 6,
        }
    }
}

/// The result of this number, if it has one.
#[tactic(auto, unfolding(crate::specs::Fields::result_of))]
fn result_from(code: u32) -> Option<ReconfigurationResponseResult>
    ensures { result ≡ result_of code }
{
    match code {
        0 => Some(ReconfigurationResponseResult::SuccessNothingToDo),
        1 => Some(ReconfigurationResponseResult::SuccessPerformed),
        2 => Some(ReconfigurationResponseResult::Denied),
        3 => Some(ReconfigurationResponseResult::ErrorWrongSSN),
        4 => Some(ReconfigurationResponseResult::ErrorRequestAlreadyInProgress),
        5 => Some(ReconfigurationResponseResult::ErrorBadSequenceNumber),
        6 => Some(ReconfigurationResponseResult::InProgress),
        _ => None,
    }
}

/// The request whose value this is, if its streams are whole.
#[tactic(auto, unfolding(crate::specs::Fields::outgoing_request_of_value))]
pub(crate) fn outgoing_request_from(value: &[u8]) -> Option<Parameter<'_>>
    ensures { option_map parameter_content result ≡ outgoing_request_of_value value.now }
{
    if !has_entries(value, 12, 2) {
        return None;
    }
    Some(Parameter::OutgoingSsnResetRequest(OutgoingSsnResetRequestParameter {
        request_seq_nbr: u32_at(value, 0),
        response_seq_nbr: u32_at(value, 4),
        sender_last_assigned_tsn: u32_at(value, 8),
        streams: &value[12..],
    }))
}

/// The request whose value this is, if its streams are whole.
#[tactic(auto, unfolding(crate::specs::Fields::incoming_request_of_value))]
pub(crate) fn incoming_request_from(value: &[u8]) -> Option<Parameter<'_>>
    ensures { option_map parameter_content result ≡ incoming_request_of_value value.now }
{
    if !has_entries(value, 4, 2) {
        return None;
    }
    Some(Parameter::IncomingSsnResetRequest(IncomingSsnResetRequestParameter {
        request_seq_nbr: u32_at(value, 0),
        streams: &value[4..],
    }))
}

/// The response with these next TSNs. One whose result has no name is kept as type and value.
fn response_with(value: &[u8], next_tsns: Option<NextTsns>) -> Parameter<'_>
    requires { 8 ≤ length value.now }
    ensures { parameter_content result
        ≡ response_with value.now next_tsns (result_of (u32_at 4 value.now)) }
{
    match result_from(u32_at(value, 4)) {
        Some(result) => Parameter::ReconfigurationResponse(ReconfigurationResponseParameter {
            response_seq_nbr: u32_at(value, 0),
            result,
            next_tsns,
        }),
        None => Parameter::Unknown {
            parameter_type: parameter_type::RECONFIGURATION_RESPONSE,
            value,
        },
    }
}

fn next_tsns_from(value: &[u8]) -> NextTsns
    requires { 16 ≤ length value.now }
    ensures { result ≡ next_tsns_of_value value.now }
{
    NextTsns {
        sender: u32_at(value, 8),
        receiver: u32_at(value, 12),
    }
}

/// The response whose value this is: there is none if it is too short for its numbers, or has one next TSN
/// and no other.
#[tactic(auto, unfolding(crate::specs::Fields::response_of_value))]
pub(crate) fn response_from(value: &[u8]) -> Option<Parameter<'_>>
    ensures { option_map parameter_content result ≡ response_of_value value.now }
{
    if value.len() < 8 {
        return None;
    }
    if value.len() < 12 {
        return Some(response_with(value, None));
    }
    if value.len() < 16 {
        return None;
    }
    Some(response_with(value, Some(next_tsns_from(value))))
}
