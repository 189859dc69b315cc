//! What is promised when an allocation failed in a call of a socket. The socket has failed and says so at
//! each later call. Its earlier events can be polled, and the messages that were ready can be taken.
//!
//! None of it may need memory, which may be gone for good: what the calls are handed was made before.

use crate::answers::ask;
use crate::handing_over::restore_from;
use crate::room::Handed;
use crate::side::Side;
use dcsctp_socket::api::handover::SocketHandoverState;
use dcsctp_socket::{
    DcSctpSocket, SendOptions, Socket, SocketFault, SocketState, SocketTime, StreamId,
};
use dcsctp_testing::{Counting, is_gone};
use std::alloc::Global;
use std::process::Abort;

// This call must return that the socket has failed.
fn fails(rt: &impl Abort, name: &str, fault: Option<SocketFault>) {
    assert_eq!(rt; fault, Some(SocketFault::Failed), "{name}");
}

// Both calls of a handover must return that the socket has failed.
fn handovers_fail(rt: &impl Abort, alloc: Global, socket: &mut Socket<Counting>) {
    let state = SocketHandoverState::empty(alloc);
    let restored = restore_from(rt, socket, &state);
    fails(rt, "restore_from_state", restored.err());
    let given = socket.get_handover_state_and_close();
    fails(rt, "get_handover_state_and_close", given.err());
}

// The same of each call that is handed a message.
fn sends_fail(rt: &impl Abort, socket: &mut Socket<Counting>, handed: Handed) {
    let plain = SendOptions::default();
    let Handed { message, several } = handed;
    fails(rt, "send", socket.send(message, &plain).err());
    fails(rt, "send_many", socket.send_many(several, &plain).err());
}

// Each call that can return that the socket has failed must do so. On one that hasn't, they would add events
// and change what queries answer.
fn each_call_fails(rt: &impl Abort, own: &mut Side) {
    let handed = own.handed(rt);
    let socket = &mut own.socket;
    fails(rt, "handle_input", socket.handle_input(&[1, 2, 3]).err());
    let last = SocketTime::infinite_future();
    fails(rt, "advance_time", socket.advance_time(last).err());
    fails(rt, "connect", socket.connect().err());
    fails(rt, "shutdown", socket.shutdown().err());
    fails(rt, "close", socket.close().err());
    sends_fail(rt, socket, handed);
    let reset = socket.reset_streams(&[StreamId(2)]);
    fails(rt, "reset_streams", reset.err());
    let priority = socket.set_stream_priority(StreamId(2), 7);
    fails(rt, "set_stream_priority", priority.err());
    let threshold = socket.set_buffered_amount_low_threshold(StreamId(2), 7);
    fails(rt, "set_buffered_amount_low_threshold", threshold.err());
    handovers_fail(rt, own.alloc, &mut own.socket);
}

// The events from before this step must come, and then the first part of those of the step. Later calls add
// none, and change nothing that a query answers.
fn keeps_events(rt: &impl Abort, own: &mut Side, index: usize) {
    let before = ask(&own.socket, StreamId(2));
    each_call_fails(rt, own);
    own.hear(rt, index);
    own.hear_step(rt, index);
    own.tells_nothing(rt, index);
    each_call_fails(rt, own);
    own.tells_nothing(rt, index);
    assert_eq!(rt;
        ask(&own.socket, StreamId(2)),
        before,
        "step {index}: queries"
    );
}

// That many messages, which were ready before this step, must come, with those that became so in it.
// Nothing is left then, and what can be set without memory is set.
fn keeps_messages(rt: &impl Abort, own: &mut Side, index: usize, ready: usize) {
    let count = own.socket.messages_ready_count();
    assert!(rt;
        ready <= count,
        "step {index}: {count} messages are left of {ready}"
    );
    own.read(rt, count);
    assert!(rt;
        own.socket.get_next_message().is_none(),
        "step {index}: a message more"
    );
    own.socket.set_max_message_size(7);
    assert_eq!(rt; own.socket.options().max_message_size, 7, "step {index}");
    assert!(rt;
        own.socket.has_failed(),
        "step {index}: it has failed for good"
    );
}

// The other side continues: its events don't change what its queries answer, and it connects if it is closed. For that
// it needs memory.
fn goes_on(rt: &impl Abort, other: &mut Side, index: usize) {
    let before = ask(&other.socket, StreamId(2));
    other.is_well(rt, index);
    let after = ask(&other.socket, StreamId(2));
    assert_eq!(rt; after, before, "step {index}: queries of the other side");
    let is_refused = other.socket.state() == SocketState::Closed && is_gone(other.alloc);
    let expected = if is_refused {
        Err(SocketFault::OutOfMemory)
    } else {
        Ok(())
    };
    assert_eq!(rt;
        other.socket.connect(),
        expected,
        "step {index}: the other side"
    );
}

/// In this step an allocation failed in a call of one side, which had that many ready messages before. What
/// is promised for this must hold. The other side has reported all that it must, and continues.
pub fn keeps_promises(
    rt: &impl Abort,
    own: &mut Side,
    other: &mut Side,
    index: usize,
    ready: usize,
) {
    assert!(rt; own.socket.has_failed(), "step {index}: it hasn't failed");
    keeps_events(rt, own, index);
    keeps_messages(rt, own, index, ready);
    goes_on(rt, other, index);
}
