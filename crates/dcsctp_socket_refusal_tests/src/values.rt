//! Calls of values that take no memory, with answers that were computed by hand.

use dcsctp_socket::api::handover::{
    HandoverOrderedStream, HandoverOutstandingData, HandoverReceive, HandoverSocketState,
    HandoverStreamMessage, HandoverTransmission, SocketHandoverState,
};
use dcsctp_socket::{
    Capabilities, Events, HandoverReadiness, LifecycleId, Message, Options, PpId, SendOptions,
    SocketEvent, SocketTime, StateCookie, StreamId, TxErrorCounter,
    ZERO_CHECKSUM_ALTERNATE_ERROR_DETECTION_METHOD_LOWER_LAYER_DTLS,
};
use dcsctp_testing::at;
use dcsctp_wire::Parameter;
use std::alloc::{AllocError, Global};
use std::hash::{DefaultHasher, Hash, Hasher};
use std::process::Abort;
use std::time::Duration;

// Each of these must be so. One test of all of them is proved once.
fn are_so(rt: &impl Abort, rows: &[(&str, bool)]) {
    for (name, is_so) in rows {
        assert!(rt; *is_so, "{name}");
    }
}

/// Two events that wait.
pub fn two_events(alloc: Global) -> Result<Events, AllocError> {
    let mut events = Events::new(alloc);
    events.add(SocketEvent::OnConnected())?;
    events.add(SocketEvent::OnBufferedAmountLow(StreamId(3)))?;
    Ok(events)
}

// Is it the event that the buffered amount of stream 3 is low?
fn is_low(event: &Option<SocketEvent>) -> bool {
    match event {
        Some(SocketEvent::OnBufferedAmountLow(id)) => *id == StreamId(3),
        _ => false,
    }
}

/// They come in order, and no others.
pub fn events_come_in_order(rt: &impl Abort, alloc: Global, events: &mut Events) {
    let first = events.next_event();
    let second = events.next_event();
    let rows = [
        (
            "the first event",
            matches!(first, Some(SocketEvent::OnConnected())),
        ),
        ("the second event", is_low(&second)),
        ("a third event", events.next_event().is_none()),
        ("no event yet", Events::new(alloc).next_event().is_none()),
    ];
    are_so(rt, &rows);
}

// The hash of a value.
fn hash_of(value: &impl Hash) -> u64 {
    let mut hasher = DefaultHasher::default();
    value.hash(&mut hasher);
    hasher.finish()
}

pub fn identifiers(rt: &impl Abort) {
    let five = LifecycleId::from(5);
    let rows = [
        (
            "streams",
            StreamId(7) == StreamId(7) && StreamId(7) < StreamId(8),
        ),
        ("protocols", PpId(51) == PpId(51) && PpId(51) != PpId(53)),
        ("no name", LifecycleId::new(0).is_none()),
        ("a name", LifecycleId::new(5) == Some(five)),
        ("its number", five.value() == 5),
        ("names", five < LifecycleId::from(6)),
        (
            "the hash of a stream",
            hash_of(&StreamId(7)) == hash_of(&StreamId(7)),
        ),
        (
            "the hash of a protocol",
            hash_of(&PpId(51)) == hash_of(&PpId(51)),
        ),
        (
            "the hash of a name",
            hash_of(&five) == hash_of(&LifecycleId::from(5)),
        ),
    ];
    are_so(rt, &rows);
}

pub fn moments(rt: &impl Abort) {
    let zero = SocketTime::zero();
    let last = SocketTime::infinite_future();
    let second = Duration::from_secs(1);
    let moment = zero + Duration::from_millis(3);
    let rows = [
        ("the first moment", zero.as_nanos() == 0),
        ("3 milliseconds", moment.as_nanos() == 3_000_000),
        // 2^64 - 1 seconds, and 999,999,999 nanoseconds.
        (
            "the last moment",
            last.as_nanos() == 18_446_744_073_709_551_615_999_999_999,
        ),
        ("behind the last moment", last + second == last),
        ("before the first moment", moment - second == zero),
        (
            "the time between",
            moment - zero == Duration::from_millis(3),
        ),
        ("no time between", zero - moment == Duration::ZERO),
        ("the order", zero < moment && moment < last),
    ];
    are_so(rt, &rows);
}

// How many errors are counted, and whether they are too many.
fn shown(counter: &TxErrorCounter) -> (u32, bool) {
    (counter.value(), counter.is_exhausted())
}

/// One error is allowed, and no more than one beyond that is counted.
pub fn error_counters(rt: &impl Abort) {
    let mut counter = TxErrorCounter::new(Some(1));
    let mut unlimited = TxErrorCounter::new(None);
    let none = shown(&counter);
    counter.increment();
    let one = shown(&counter);
    counter.increment();
    let two = shown(&counter);
    counter.increment();
    let three = shown(&counter);
    counter.reset();
    unlimited.increment();
    let rows = [
        ("no error", none == (0, false)),
        ("one error", one == (1, false)),
        ("two errors", two == (2, true)),
        ("no more are counted", three == (2, true)),
        ("errors that are forgotten", shown(&counter) == (0, false)),
        ("errors that nobody counts", shown(&unlimited) == (0, false)),
    ];
    are_so(rt, &rows);
}

pub fn readiness(rt: &impl Abort) {
    let state = HandoverReadiness::WRONG_CONNECTION_STATE;
    let queue = HandoverReadiness::SEND_QUEUE_NOT_EMPTY;
    let both = state | queue;
    let rows = [
        ("both reasons", both == HandoverReadiness(3)),
        (
            "a reason among them",
            both.contains(queue) && !state.contains(queue),
        ),
        (
            "is it ready?",
            HandoverReadiness::READY.is_ready() && !both.is_ready(),
        ),
        (
            "a reason that holds",
            (queue & true) == queue && (queue & false).is_ready(),
        ),
    ];
    are_so(rt, &rows);
}

// What a peer offers with 10 streams out and 20 in, partial reliability, RE-CONFIG (130) and the method of DTLS.
fn offered() -> Capabilities {
    Capabilities::from_parameters(
        10,
        20,
        &[
            Parameter::ForwardTsnSupported,
            Parameter::ZeroChecksumAcceptable { method: 1 },
            Parameter::SupportedExtensions {
                chunk_types: &[130, 64],
            },
        ],
    )
}

/// That peer against options that are the default, and against those that have its method, too.
pub fn capabilities(rt: &impl Abort) {
    let peer = offered();
    let mut options = Options::default();
    let without = peer.negotiate(&options);
    options.zero_checksum_alternate_error_detection_method =
        ZERO_CHECKSUM_ALTERNATE_ERROR_DETECTION_METHOD_LOWER_LAYER_DTLS;
    let with = peer.negotiate(&options);
    let rows = [
        (
            "partial reliability",
            peer.partial_reliability && with.partial_reliability,
        ),
        ("resets", peer.reconfig && with.reconfig),
        (
            "interleaving of one side",
            peer.message_interleaving && !without.message_interleaving,
        ),
        (
            "a method of one side",
            peer.zero_checksum_enabled() && !without.zero_checksum_enabled(),
        ),
        ("the method of both", with.zero_checksum_method.0 == 1),
        ("streams in", with.negotiated_maximum_incoming_streams == 10),
        (
            "streams out",
            with.negotiated_maximum_outgoing_streams == 20,
        ),
    ];
    are_so(rt, &rows);
}

// The cookie between two sockets with default options, tags 7 and 9, first TSNs 100 and 200, made after a second.
static COOKIE: [u8; 56] = [
    0x64, 0x63, 0x53, 0x43, 0x54, 0x50, 0x72, 0x30, 0, 0, 0, 7, 0, 0, 0, 9, 0, 0, 0, 100, 0, 0, 0,
    200, 0, 0x50, 0, 0, 0, 0, 0, 0, 0, 0, 0, 11, 1, 0, 1, 0, 0, 0, 0, 0, 0xff, 0xff, 0xff, 0xff, 0,
    0, 0, 0, 0x3b, 0x9a, 0xca, 0,
];

pub fn cookies(rt: &impl Abort) {
    let cookie = StateCookie::from_bytes(&COOKIE).expect(rt, "a cookie");
    let minute = Duration::from_secs(60);
    let short = StateCookie::from_bytes(&COOKIE[1..]).err();
    let other = StateCookie::from_bytes(&[0; 56]).err();
    let tsns = (cookie.peer_initial_tsn, cookie.my_initial_tsn);
    let rows = [
        ("tags", (cookie.peer_tag, cookie.my_tag) == (7, 9)),
        ("TSNs", tsns == (100, 200)),
        (
            "window and tie tag",
            (cookie.a_rwnd, cookie.tie_tag) == (5_242_880, 11),
        ),
        ("what the peer supports", cookie.peer_capabilities.reconfig),
        ("moment", cookie.moment == StateCookie::moment_at(at(1000))),
        ("as old as it may be", !cookie.is_stale(minute, at(61_000))),
        ("older", cookie.is_stale(minute, at(61_001))),
        ("55 bytes", short == Some("Invalid state cookie size")),
        ("56 zeros", other == Some("Invalid state cookie magic")),
    ];
    are_so(rt, &rows);
}

pub fn options(rt: &impl Abort) {
    let mut options = Options::default();
    let is_default = options.is_valid();
    options.mtu = 31;
    let is_small = options.is_valid();
    options.mtu = 32;
    let rows = [
        ("the default options", is_default),
        ("an MTU of 31", !is_small),
        ("an MTU of 32", options.is_valid()),
    ];
    are_so(rt, &rows);
}

/// Parts of a snapshot without anything in them, and a message without bytes.
pub fn empty_lists(rt: &impl Abort, alloc: Global) {
    let message = HandoverStreamMessage::empty(alloc);
    let data = HandoverOutstandingData::empty(alloc);
    let tx = HandoverTransmission::empty(alloc);
    let rx = HandoverReceive::empty(alloc);
    let sent = Message::new(StreamId(1), PpId(51), Vec::new(alloc));
    let rows = [
        (
            "a message that waits",
            message.payload.is_empty() && message.mid.is_none(),
        ),
        ("outstanding data", data.payload.is_empty() && !data.acked),
        (
            "what is sent",
            tx.streams.is_empty() && tx.queued_messages.is_empty(),
        ),
        (
            "what is received",
            rx.ordered_streams.is_empty() && !rx.seen_packet,
        ),
        (
            "a message",
            sent.payload.is_empty() && sent.ppid == PpId(51),
        ),
        (
            "how it is sent",
            SendOptions::default().lifecycle_id.is_none(),
        ),
    ];
    are_so(rt, &rows);
}

// Two streams on which a message came.
fn add_streams(state: &mut SocketHandoverState) -> Result<(), AllocError> {
    for id in [5, 3] {
        let stream = HandoverOrderedStream { id, next_ssn: 1 };
        state.rx.ordered_streams.push(stream)?;
    }
    Ok(())
}

// A message of one byte that waits.
fn add_message(alloc: Global, state: &mut SocketHandoverState) -> Result<(), AllocError> {
    let mut message = HandoverStreamMessage::empty(alloc);
    message.payload.push(1)?;
    state.tx.queued_messages.push(message)?;
    Ok(())
}

// One byte that is outstanding.
fn add_data(alloc: Global, state: &mut SocketHandoverState) -> Result<(), AllocError> {
    let mut data = HandoverOutstandingData::empty(alloc);
    data.payload.push(1)?;
    state.tx.outstanding_data.push(data)?;
    Ok(())
}

/// Makes an empty snapshot a connected one with two streams, a message that waits and one datum that is outstanding.
pub fn fill(alloc: Global, state: &mut SocketHandoverState) -> Result<(), AllocError> {
    state.socket_state = HandoverSocketState::Connected;
    state.my_verification_tag = 7;
    state.peer_verification_tag = 9;
    state.tx.next_tsn = 2;
    add_streams(state)?;
    add_message(alloc, state)?;
    add_data(alloc, state)
}

/// It is valid, but not if a stream is named twice.
pub fn used_snapshots(rt: &impl Abort, state: &mut SocketHandoverState) {
    let options = Options::default();
    let is_valid = state.is_valid(&options);
    for stream in state.rx.ordered_streams.iter_mut() {
        stream.id = 4;
    }
    let rows = [
        ("two streams", is_valid),
        ("a stream twice", !state.is_valid(&options)),
    ];
    are_so(rt, &rows);
}

/// A closed snapshot is valid whatever it says; a connected one needs tags, and TSNs for its outstanding data.
pub fn snapshots(rt: &impl Abort, state: &mut SocketHandoverState) {
    let options = Options::default();
    let is_closed = state.is_valid(&options);
    state.socket_state = HandoverSocketState::Connected;
    let has_no_tags = state.is_valid(&options);
    state.my_verification_tag = 7;
    state.peer_verification_tag = 9;
    let has_no_next = state.is_valid(&options);
    state.tx.next_tsn = 1;
    let has_no_data = state.is_valid(&options);
    state.capabilities.zero_checksum = true;
    let rows = [
        ("a closed snapshot", is_closed),
        ("no tags", !has_no_tags),
        ("the next TSN was acknowledged", !has_no_next),
        ("nothing is outstanding", has_no_data),
        ("no method", !state.is_valid(&options)),
    ];
    are_so(rt, &rows);
}
