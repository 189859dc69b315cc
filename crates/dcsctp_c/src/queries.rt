//! Queries. Each leaves its handle as it was, the two words too, so the header takes the socket as `const`.

ghost use Rattle.std.specs.Prelude.{◌≡◌, length};
ghost use Rattle.dcsctp_api.specs.Calls.{stream_shown};
ghost use Rattle.dcsctp_api.specs.Messages.{ready_messages};
ghost use Rattle.dcsctp_session.specs.Views.{view};
ghost use Rattle.dcsctp_c.specs.Queries.{QueriesSession, QueriesBelowChannels, WritesAnswer, QueriesTag, QueriesDeadline, AmountIs, ReadinessAsked, WritesOptions, ChannelsWriteOptions, GivesOptions, QueriesMetrics, GivesMetrics, QueriesCounts, GivesCounts, ReturnsState, ReturnsFailed};

use crate::answers::{state_number, take};
use crate::handle::Handle;
use dcsctp_channel_session::Held;
use dcsctp_session::{CountsRecord, MetricsRecord, OptionsRecord, Status};

/// The state of the association.
#[unsafe(no_mangle)]
pub extern "C" fn dcsctp_state(handle: &mut Handle) -> i32
    ensures answer { ReturnsState handle.old.slot.value result }
    ensures same { handle.new ≡ handle.old }
{
    if !handle.is_open() {
        return Status::NoSocket.number();
    }
    let state = match handle.slot.held() {
        Held::Socket(session) => session.state(),
        Held::Channels(channels) => channels.state(),
    };
    state_number(state)
}

/// Did an allocation fail in an earlier call?
#[unsafe(no_mangle)]
pub extern "C" fn dcsctp_has_failed(handle: &mut Handle) -> i32
    ensures answer { ReturnsFailed handle.old.slot.value result }
    ensures same { handle.new ≡ handle.old }
{
    if !handle.is_open() {
        return Status::NoSocket.number();
    }
    let has_failed = match handle.slot.held() {
        Held::Socket(session) => session.has_failed(),
        Held::Channels(channels) => channels.has_failed(),
    };
    if has_failed { 1 } else { 0 }
}

/// Our own verification tag; 0 in the closed state.
#[unsafe(no_mangle)]
pub extern "C" fn dcsctp_verification_tag(handle: &mut Handle, tag: &mut u32) -> i32
    ensures answer { QueriesTag handle.old.slot.value tag.old result tag.new }
    ensures same { handle.new ≡ handle.old }
{
    if !handle.is_open() {
        return Status::NoSocket.number();
    }
    *tag = match handle.slot.held() {
        Held::Socket(session) => session.verification_tag(),
        Held::Channels(channels) => channels.verification_tag(),
    };
    Status::Done.number()
}

/// The socket's next deadline.
#[unsafe(no_mangle)]
pub extern "C" fn dcsctp_poll_timeout(handle: &mut Handle, moment: &mut u64) -> i32
    ensures answer { QueriesDeadline handle.old.slot.value moment.old result moment.new }
    ensures same { handle.new ≡ handle.old }
{
    if !handle.is_open() {
        return Status::NoSocket.number();
    }
    *moment = match handle.slot.held() {
        Held::Socket(session) => session.poll_timeout(),
        Held::Channels(channels) => channels.poll_timeout(),
    };
    Status::Done.number()
}

// Writes the options of the socket, whatever the size that the record says.
fn write_options(handle: &mut Handle, options: &mut OptionsRecord) -> i32
    ensures answer { QueriesSession WritesOptions ChannelsWriteOptions handle.old.slot.value
        options.old result options.new }
    ensures same { handle.new ≡ handle.old }
{
    if !handle.is_open() {
        return Status::NoSocket.number();
    }
    match handle.slot.held() {
        Held::Socket(session) => {
            *options = session.options();
            Status::Done.number()
        }
        Held::Channels(channels) => {
            *options = channels.options();
            Status::Done.number()
        }
    }
}

/// The options of the socket, if the record has the size of the library's.
#[unsafe(no_mangle)]
pub extern "C" fn dcsctp_get_options(handle: &mut Handle, options: &mut OptionsRecord) -> i32
    ensures answer { GivesOptions handle.old.slot.value options.old result options.new }
    ensures same { handle.new ≡ handle.old }
{
    if !options.is_sized() {
        return Status::WrongSize.number();
    }
    write_options(handle, options)
}

/// The payload bytes that wait to be sent on a stream.
#[unsafe(no_mangle)]
pub extern "C" fn dcsctp_buffered_amount(
    handle: &mut Handle,
    stream_id: u16,
    bytes: &mut usize,
) -> i32
    ensures answer { QueriesBelowChannels (WritesAnswer (AmountIs stream_id)) handle.old.slot.value
        bytes.old result bytes.new }
    ensures same { handle.new ≡ handle.old }
{
    if !handle.is_open() {
        return Status::NoSocket.number();
    }
    let Held::Socket(session) = handle.slot.held() else {
        return Status::HasChannels.number();
    };
    *bytes = session.buffered_amount(stream_id);
    Status::Done.number()
}

/// The low threshold of a stream.
#[unsafe(no_mangle)]
pub extern "C" fn dcsctp_buffered_amount_low_threshold(
    handle: &mut Handle,
    stream_id: u16,
    bytes: &mut usize,
) -> i32
    ensures answer { QueriesBelowChannels
        (WritesAnswer (λ session told. told ≡ (stream_shown (view session) stream_id).threshold))
        handle.old.slot.value bytes.old result bytes.new }
    ensures same { handle.new ≡ handle.old }
{
    if !handle.is_open() {
        return Status::NoSocket.number();
    }
    let Held::Socket(session) = handle.slot.held() else {
        return Status::HasChannels.number();
    };
    *bytes = session.buffered_amount_low_threshold(stream_id);
    Status::Done.number()
}

/// The priority of a stream.
#[unsafe(no_mangle)]
pub extern "C" fn dcsctp_get_stream_priority(
    handle: &mut Handle,
    stream_id: u16,
    priority: &mut u16,
) -> i32
    ensures answer { QueriesBelowChannels
        (WritesAnswer (λ session told. told ≡ (stream_shown (view session) stream_id).priority))
        handle.old.slot.value priority.old result priority.new }
    ensures same { handle.new ≡ handle.old }
{
    if !handle.is_open() {
        return Status::NoSocket.number();
    }
    let Held::Socket(session) = handle.slot.held() else {
        return Status::HasChannels.number();
    };
    *priority = session.stream_priority(stream_id);
    Status::Done.number()
}

/// How many messages are ready to be taken.
#[unsafe(no_mangle)]
pub extern "C" fn dcsctp_messages_ready_count(handle: &mut Handle, count: &mut usize) -> i32
    ensures answer { QueriesBelowChannels
        (WritesAnswer (λ session told. told ≡ length (ready_messages (view session).endpoint)))
        handle.old.slot.value count.old result count.new }
    ensures same { handle.new ≡ handle.old }
{
    if !handle.is_open() {
        return Status::NoSocket.number();
    }
    let Held::Socket(session) = handle.slot.held() else {
        return Status::HasChannels.number();
    };
    *count = session.messages_ready_count();
    Status::Done.number()
}

// Writes the metrics, where the peer is known, whatever the size that the record says.
fn write_metrics(handle: &mut Handle, metrics: &mut MetricsRecord) -> i32
    ensures answer { QueriesMetrics handle.old.slot.value metrics.old result metrics.new }
    ensures same { handle.new ≡ handle.old }
{
    if !handle.is_open() {
        return Status::NoSocket.number();
    }
    let found = match handle.slot.held() {
        Held::Socket(session) => session.metrics(),
        Held::Channels(channels) => channels.metrics(),
    };
    take(found, *metrics, metrics)
}

/// The metrics, where the peer is known, if the record has the size of the library's.
#[unsafe(no_mangle)]
pub extern "C" fn dcsctp_get_metrics(handle: &mut Handle, metrics: &mut MetricsRecord) -> i32
    ensures answer { GivesMetrics handle.old.slot.value metrics.old result metrics.new }
    ensures same { handle.new ≡ handle.old }
{
    if !metrics.is_sized() {
        return Status::WrongSize.number();
    }
    write_metrics(handle, metrics)
}

// Writes the counts, whatever the size that the record says.
fn write_counts(handle: &mut Handle, counts: &mut CountsRecord) -> i32
    ensures answer { QueriesCounts handle.old.slot.value counts.old result counts.new }
    ensures same { handle.new ≡ handle.old }
{
    if !handle.is_open() {
        return Status::NoSocket.number();
    }
    *counts = match handle.slot.held() {
        Held::Socket(session) => session.counts(),
        Held::Channels(channels) => channels.counts(),
    };
    Status::Done.number()
}

/// What the socket has counted in its life, if the record has the size of the library's.
#[unsafe(no_mangle)]
pub extern "C" fn dcsctp_get_counts(handle: &mut Handle, counts: &mut CountsRecord) -> i32
    ensures answer { GivesCounts handle.old.slot.value counts.old result counts.new }
    ensures same { handle.new ≡ handle.old }
{
    if !counts.is_sized() {
        return Status::WrongSize.number();
    }
    write_counts(handle, counts)
}

/// Why the socket can't be handed over now.
#[unsafe(no_mangle)]
pub extern "C" fn dcsctp_get_handover_readiness(handle: &mut Handle, reasons: &mut u32) -> i32
    ensures answer { ReadinessAsked handle.old.slot.value reasons.old result reasons.new }
    ensures same { handle.new ≡ handle.old }
{
    if !handle.is_open() {
        return Status::NoSocket.number();
    }
    *reasons = match handle.slot.held() {
        Held::Socket(session) => session.handover_readiness(),
        Held::Channels(channels) => channels.handover_readiness(),
    };
    Status::Done.number()
}
