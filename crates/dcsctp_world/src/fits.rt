//! The messages that an act hands over, and the streams that it names, fit the fields of a chunk, by their types.

ghost use Rattle.std.specs.Prelude.{◌<◌, ◌^◌, length, map};
ghost use Rattle.std.specs.List.{AllByRecursion};
ghost use Rattle.dcsctp_core.specs.types.Schedule.{act_content, call_content};
ghost use Rattle.dcsctp_core.specs.types.Ids.{stream_numbers};
ghost use Rattle.dcsctp_core.specs.types.queues.Messages.{message_content};
ghost use Rattle.dcsctp_delivery_sockets.specs.sockets.Delivery.{FitsMessage, FitsCall, FitsAct};

use dcsctp_core::types::{Act, Call, Step};
use dcsctp_socket::{Message, StreamId};

// Each of these bytes is one: what is read has its type.
fn bytes_fit(bytes: &[u8])
    ensures { AllByRecursion (λ byte. byte < 2 ^ 8) bytes.now }
{
    for byte in bytes {
        let _byte = *byte;
    }
}

// No object in memory has 2^63 bytes.
fn length_fits(bytes: &[u8])
    ensures { length bytes.now < 2 ^ 63 }
{}

// A number of two bytes is one.
fn stream_fits(stream_id: u16)
    ensures { stream_id < 2 ^ 16 }
{}

// A number of four bytes is one.
fn protocol_fits(ppid: u32)
    ensures { ppid < 2 ^ 32 }
{}

fn message_fits(message: &Message)
    ensures { FitsMessage (message_content message.now) }
{
    stream_fits(message.stream_id.0);
    protocol_fits(message.ppid.0);
    bytes_fit(&message.payload);
    length_fits(&message.payload);
}

fn messages_fit(messages: &[Message])
    ensures { AllByRecursion FitsMessage (map message_content messages.now) }
{
    for message in messages {
        message_fits(message);
    }
}

fn streams_fit(stream_ids: &[StreamId])
    ensures { AllByRecursion (λ id. id < 2 ^ 16) (stream_numbers stream_ids.now) }
{
    for stream_id in stream_ids {
        stream_fits(stream_id.0);
    }
}

fn call_fits(call: &Call)
    ensures { FitsCall (call_content call.now) }
{
    match call {
        Call::Send(message, _) => message_fits(message),
        Call::SendMany(messages, _) => messages_fit(messages),
        Call::SetStreamPriority(stream_id, _) => stream_fits(stream_id.0),
        Call::SetBufferedAmountLowThreshold(stream_id, _) => stream_fits(stream_id.0),
        Call::ResetStreams(stream_ids) => streams_fit(stream_ids),
        _ => {}
    }
}

/// Does nothing: whatever an act hands over fits.
pub(crate) fn act_fits(act: &Act)
    ensures { FitsAct (act_content act.now) }
{
    if let Act::Step(Step::Call(_, call)) = act {
        call_fits(call);
    }
}
