//! The rows of the table of inputs, each as a function of a stream in use. They touch nothing else.

ghost use Rattle.std.specs.Prelude.{◌≡◌};
ghost use Rattle.dcsctp_channel_calls.specs.View.{may_reopen};
ghost use Rattle.dcsctp_channel_calls.specs.Arrivals.{owes_now};
ghost use Rattle.dcsctp_channel_calls.specs.Handover.{lasting_use};
ghost use Rattle.dcsctp_channel_calls.specs.Late.{may_reset};
ghost use Rattle.dcsctp_channel_calls.specs.messages.channel_spec.Slots.{used, accepted_use, refused_use, opened_use, agreed_use};
ghost use Rattle.dcsctp_channel_calls.specs.messages.channel_spec.Table.{becomes, ends_as, end_if_heard, heard_reports, on_ack, on_close, on_room, on_all_sent, on_no_reset, on_performed, on_refused, on_peer_reset, on_association_end, outcome_of, settled_use, given_up};
ghost use Rattle.dcsctp_channels.specs.Rows.{IsStep, row_input, notice_reports};

use dcsctp_channel_calls::channel_messages::channel_spec::{ChannelEnd, OwnReset, StreamUse};

/// An input on a stream in use.
#[derive(Clone, Copy)]
pub(crate) enum Row {
    /// An ACK has come.
    Ack,

    /// What can't be read has come.
    BadMessage,

    /// The ACK that the stream owes was sent.
    Acknowledged,

    /// The user closes the channel.
    Close,

    /// The reset of the own stream was asked for.
    Asked,

    /// The socket takes no request to reset streams.
    NotAsked,

    /// The peer has performed the reset.
    Performed,

    /// The peer has refused the reset.
    Refused,

    /// The peer has reset its stream.
    PeerReset,

    /// The association has ended.
    Lost,
}

/// What is reported of the channel of a stream.
#[derive(Clone, Copy)]
pub(crate) enum Notice {
    /// The peer knows it.
    Opened(u64),

    /// It is over.
    Ended(u64, ChannelEnd),
}

/// What a row leaves of a stream in use, and what it reports.
#[derive(Clone, Copy)]
pub(crate) struct Step {
    /// The stream after; none: it is free.
    pub(crate) after: Option<StreamUse>,

    /// What is reported.
    pub(crate) notice: Option<Notice>,
}

// A peer that refuses a reset so often isn't asked again.
const MOST_REFUSALS: u8 = 3;

// ---- streams that come into use

/// This end's own channel, before the peer knows it.
pub(crate) fn opened(name: u64) -> StreamUse
    ensures { result ≡ opened_use name }
{
    StreamUse {
        name: Some(name),
        heard: false,
        owes_ack: false,
        closing: false,
        own: OwnReset::NotAsked,
        peer_reset: false,
        awaits_answer: false,
        refusals: 0,
    }
}

/// A channel that both ends agreed on.
pub(crate) fn agreed(name: u64) -> StreamUse
    ensures { result ≡ agreed_use name }
{
    let mut stream = opened(name);
    stream.heard = true;
    stream
}

/// A channel of the peer's.
pub(crate) fn accepted(name: u64, awaits: bool) -> StreamUse
    ensures { result ≡ accepted_use name awaits }
{
    let mut stream = opened(name);
    stream.heard = true;
    stream.owes_ack = true;
    stream.awaits_answer = awaits;
    stream
}

/// A channel that is restored.
pub(crate) fn lasting(name: u64, heard: bool) -> StreamUse
    ensures { result ≡ lasting_use name heard }
{
    let mut stream = opened(name);
    stream.heard = heard;
    stream
}

/// A use of the peer's that is refused.
pub(crate) fn refused_by_us(awaits: bool) -> StreamUse
    ensures { result ≡ refused_use awaits }
{
    StreamUse {
        name: None,
        heard: true,
        owes_ack: false,
        closing: true,
        own: OwnReset::NotAsked,
        peer_reset: false,
        awaits_answer: awaits,
        refusals: 0,
    }
}

// ---- rows

/// What an input makes of a stream in use.
pub(crate) fn step_of(row: Row, stream: StreamUse) -> Step
    ensures { IsStep result (outcome_of (row_input row) (used stream)) }
{
    match row {
        Row::Ack => heard(stream),
        Row::BadMessage => closed(stream),
        Row::Acknowledged => acknowledged(stream),
        Row::Close => closed(stream),
        Row::Asked => asked(stream),
        Row::NotAsked => not_asked(stream),
        Row::Performed => performed(stream),
        Row::Refused => refused(stream),
        Row::PeerReset => reset_by_peer(stream),
        Row::Lost => lost(stream),
    }
}

// Nothing is reported.
fn silent(stream: StreamUse) -> Step
    ensures { IsStep result (becomes stream) }
{
    Step {
        after: Some(stream),
        notice: None,
    }
}

// The end of the channel, if the stream has one.
fn ending(stream: StreamUse, end: ChannelEnd) -> Option<Notice>
    ensures { notice_reports result ≡ ends_as «end» stream }
{
    match stream.name {
        Some(name) => Some(Notice::Ended(name, end)),
        None => None,
    }
}

/// The end of the channel of which both directions were reset.
pub(crate) fn ended(stream: StreamUse) -> Option<Notice>
    ensures { notice_reports result ≡ ends_as (end_if_heard stream.heard) stream }
{
    if stream.heard {
        ending(stream, ChannelEnd::Closed)
    } else {
        ending(stream, ChannelEnd::Refused)
    }
}

// An end has closed it.
fn closed(stream: StreamUse) -> Step
    ensures { IsStep result (on_close (used stream)) }
{
    let mut after = stream;
    after.closing = true;
    silent(after)
}

fn opening(stream: StreamUse) -> Option<Notice>
    ensures { notice_reports result ≡ heard_reports stream.heard stream.closing stream }
{
    match stream.name {
        Some(name) if !stream.heard && !stream.closing => Some(Notice::Opened(name)),
        _ => None,
    }
}

// An ACK or a message has come.
fn heard(stream: StreamUse) -> Step
    ensures { IsStep result (on_ack (used stream)) }
{
    let mut after = stream;
    after.heard = true;
    Step {
        after: Some(after),
        notice: opening(stream),
    }
}

// The ACK was sent.
fn acknowledged(stream: StreamUse) -> Step
    ensures { IsStep result (on_room (used stream)) }
{
    if owes_now(stream) {
        let mut after = stream;
        after.owes_ack = false;
        silent(after)
    } else {
        silent(stream)
    }
}

// The reset was asked for.
fn asked(stream: StreamUse) -> Step
    ensures { IsStep result (on_all_sent (used stream)) }
{
    if may_reset(stream) {
        let mut after = stream;
        after.own = OwnReset::Asked;
        silent(after)
    } else {
        silent(stream)
    }
}

// Both directions may have been reset.
fn settled(stream: StreamUse) -> Step
    ensures { IsStep result (settled_use stream) }
{
    if stream.peer_reset && stream.own == OwnReset::Performed {
        Step {
            after: None,
            notice: ended(stream),
        }
    } else {
        silent(stream)
    }
}

// The peer has performed a reset of the own stream.
fn performed(stream: StreamUse) -> Step
    ensures { IsStep result (on_performed (used stream)) }
{
    let mut after = stream;
    after.awaits_answer = false;
    if stream.own == OwnReset::Asked {
        after.own = OwnReset::Performed;
        settled(after)
    } else {
        silent(after)
    }
}

// The stream isn't given again, and its user hears of the end.
fn given_up(stream: StreamUse) -> Step
    ensures { IsStep result (given_up stream) }
{
    let mut after = stream;
    after.own = OwnReset::GivenUp;
    after.name = None;
    Step {
        after: Some(after),
        notice: ending(stream, ChannelEnd::ResetRefused),
    }
}

// The peer has refused to reset the stream.
fn refused(stream: StreamUse) -> Step
    ensures { IsStep result (on_refused (used stream)) }
{
    let mut after = stream;
    after.awaits_answer = false;
    if stream.own != OwnReset::Asked {
        return silent(after);
    }
    if stream.refusals >= MOST_REFUSALS - 1 {
        return given_up(after);
    }
    after.own = OwnReset::NotAsked;
    after.refusals = stream.refusals + 1;
    silent(after)
}

// The socket takes no request to reset streams.
fn not_asked(stream: StreamUse) -> Step
    ensures { IsStep result (on_no_reset (used stream)) }
{
    if may_reset(stream) {
        given_up(stream)
    } else {
        silent(stream)
    }
}

// The peer has reset its stream.
fn reset_by_peer(stream: StreamUse) -> Step
    ensures { IsStep result (on_peer_reset (used stream)) }
{
    let mut after = stream;
    after.peer_reset = true;
    after.closing = true;
    settled(after)
}

// The association has ended.
fn lost(stream: StreamUse) -> Step
    ensures { IsStep result (on_association_end (used stream)) }
{
    Step {
        after: None,
        notice: ending(stream, ChannelEnd::Lost),
    }
}

// ---- questions

/// May the reset of the own stream be asked for?
pub(crate) fn may_reset(stream: StreamUse) -> bool
    ensures { result ≡ may_reset stream }
{
    stream.closing && !stream.awaits_answer && stream.own == OwnReset::NotAsked
}

/// Is an ACK to be sent?
pub(crate) fn owes_now(stream: StreamUse) -> bool
    ensures { result ≡ owes_now stream }
{
    stream.owes_ack && !stream.closing
}

/// Does an OPEN end the channel, since the peer has performed our reset?
pub(crate) fn may_reopen(stream: StreamUse) -> bool
    ensures { result ≡ may_reopen stream }
{
    stream.peer_reset && stream.own == OwnReset::Asked
}
