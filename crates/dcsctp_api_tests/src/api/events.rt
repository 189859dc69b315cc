//! Events, messages and faults.

use crate::api::checks::{same, shows};
use dcsctp_api::{
    Events, LifecycleId, Message, PpId, SendOptions, SocketEvent, SocketFault, SocketState,
    StreamId, send_options_default,
};
use std::alloc::{AllocError, AllocFailed, Global};
use std::process::Abort;

/// Adds a connection and a sent message, in this order.
fn add_two(events: &mut Events) -> Result<(), AllocError> {
    events.add(SocketEvent::OnConnected())?;
    let id = LifecycleId::from(123);
    events.add(SocketEvent::OnLifecycleMessageFullySent(id))
}

/// Asserts that this event comes next, as `Debug` writes it.
fn comes_next(rt: &impl Abort, alloc: Global, events: &mut Events, expected: &str) {
    shows(rt, alloc, "event", &events.next_event(), expected);
}

#[test]
fn events_come_in_the_order_of_their_adding(rt: HostRuntime) {
    let mut events = Events::new(rt.alloc());
    add_two(&mut events).expect(&rt, "memory for two events");
    let sent = "Some(OnLifecycleMessageFullySent(123))";
    comes_next(&rt, rt.alloc(), &mut events, "Some(OnConnected)");
    comes_next(&rt, rt.alloc(), &mut events, sent);
    comes_next(&rt, rt.alloc(), &mut events, "None");
}

#[test]
fn a_message_keeps_its_parts(rt: HostRuntime) {
    let alloc = rt.alloc();
    let payload = [1, 2, 3].to_vec(alloc).expect(&rt, "memory");
    let message = Message::new(StreamId(1), PpId(53), payload);
    let expected = "Message { stream_id: 1, ppid: 53, payload: [1, 2, 3] }";
    shows(&rt, alloc, "message", &message, expected);
}

#[test]
fn a_message_is_sent_in_order_by_default(rt: HostRuntime) {
    let options = SendOptions::default();
    let expected = "SendOptions { unordered: false, lifetime: None, max_retransmissions: None, \
        lifecycle_id: None }";
    shows(&rt, rt.alloc(), "options", &options, expected);
    send_options_default();
}

#[test]
fn faults_say_what_happened(rt: HostRuntime) {
    let full = SocketFault::from(AllocError);
    let full_with_value = SocketFault::from(AllocFailed { value: 1_u8 });
    let faults = (full, full_with_value);
    let expected = (SocketFault::OutOfMemory, SocketFault::OutOfMemory);
    same(&rt, "no memory, and none for a value", faults, expected);
    let differ = SocketState::Closed != SocketState::Connecting;
    same(&rt, "states differ", differ, true);
    let failed = SocketFault::Failed;
    let texts = format!(in rt.alloc(); "{full}, {failed}").expect(&rt, "memory");
    same(
        &rt,
        "Display",
        texts.as_str(),
        "out of memory, socket has failed",
    );
}
