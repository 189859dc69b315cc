//! Events and packets that no script brings about.

use crate::checks::same;
use dcsctp_api::types::{ErrorKind, Side};
use dcsctp_api::{LifecycleId, SocketEvent, StreamId};
use dcsctp_script::print_event;
use std::alloc::Global;
use std::process::Abort;

/// An event.
#[derive(Clone, Copy)]
enum PrintedEvent {
    Connected,
    Closed,
    Restarted,
    Aborted(ErrorKind, &'static str),
    Error(ErrorKind, &'static str),
    BufferedAmountLow(u16),
    TotalBufferedAmountLow,
    ResetFailed(&'static [StreamId]),
    ResetPerformed(&'static [StreamId]),
    IncomingReset(&'static [StreamId]),

    // The next five are of the message that has the greatest name.
    FullySent,
    MaybeExpired,
    Expired,
    Delivered,
    LifecycleEnd,

    /// The packet of these chunks under tag 0x0000ab09.
    Packet(&'static [&'static [u8]]),
}

fn text(rt: &impl Abort, alloc: Global, words: &str) -> String {
    String::from_str(alloc, words).expect(rt, "no text")
}

fn streams(rt: &impl Abort, alloc: Global, ids: &[StreamId]) -> Vec<StreamId> {
    let mut streams = Vec::new(alloc);
    streams.extend_from_slice(ids).expect(rt, "no streams");
    streams
}

fn packet(rt: &impl Abort, alloc: Global, chunks: &[&[u8]]) -> Vec<u8> {
    let header = [0x13, 0x88, 0x13, 0x88, 0, 0, 0xab, 9, 0, 0, 0, 0];
    let mut packet = Vec::from_array(alloc, header).expect(rt, "no packet");
    for chunk in chunks {
        packet.extend_from_slice(chunk).expect(rt, "no chunk");
    }
    packet
}

fn event_of(rt: &impl Abort, alloc: Global, told: PrintedEvent) -> SocketEvent {
    let last = LifecycleId::from(18446744073709551615);
    match told {
        PrintedEvent::Connected => SocketEvent::OnConnected(),
        PrintedEvent::Closed => SocketEvent::OnClosed(),
        PrintedEvent::Restarted => SocketEvent::OnConnectionRestarted(),
        PrintedEvent::Aborted(kind, words) => SocketEvent::OnAborted(kind, text(rt, alloc, words)),
        PrintedEvent::Error(kind, words) => SocketEvent::OnError(kind, text(rt, alloc, words)),
        PrintedEvent::BufferedAmountLow(id) => SocketEvent::OnBufferedAmountLow(StreamId(id)),
        PrintedEvent::TotalBufferedAmountLow => SocketEvent::OnTotalBufferedAmountLow(),
        PrintedEvent::ResetFailed(ids) => SocketEvent::OnStreamsResetFailed(streams(
            rt, alloc, ids,
        )),
        PrintedEvent::ResetPerformed(ids) => SocketEvent::OnStreamsResetPerformed(streams(
            rt, alloc, ids,
        )),
        PrintedEvent::IncomingReset(ids) => SocketEvent::OnIncomingStreamReset(streams(
            rt, alloc, ids,
        )),
        PrintedEvent::FullySent => SocketEvent::OnLifecycleMessageFullySent(last),
        PrintedEvent::MaybeExpired => SocketEvent::OnLifecycleMessageMaybeExpired(last),
        PrintedEvent::Expired => SocketEvent::OnLifecycleMessageExpired(last),
        PrintedEvent::Delivered => SocketEvent::OnLifecycleMessageDelivered(last),
        PrintedEvent::LifecycleEnd => SocketEvent::OnLifecycleEnd(last),
        PrintedEvent::Packet(chunks) => SocketEvent::SendPacket(packet(rt, alloc, chunks)),
    }
}

// The event must be printed by this line.
fn is_printed(rt: &impl Abort, alloc: Global, event: &SocketEvent, line: &str) {
    let mut printed = Vec::new(alloc);
    print_event(Side::B, 5, event, &mut printed).expect(rt, line);
    same(rt, line, printed.as_slice(), line.as_bytes());
}

// A payload of one byte has three bytes of padding, which may be missing at the end.
const DATA: &[u8] = &[
    0, 3, 0, 17, 0, 0, 0, 1, 0, 0, 0, 2, 0, 0, 0, 3, 0xff, 0, 0, 0,
];

// Events, and the line that each is printed by.
static TOLD: &[(PrintedEvent, &str)] = &[
    (PrintedEvent::Connected, "B connected\n"),
    (PrintedEvent::Closed, "B closed\n"),
    (PrintedEvent::Restarted, "B restarted\n"),
    (
        PrintedEvent::Aborted(ErrorKind::TooManyRetries, "No INIT_ACK received"),
        "B aborted TooManyRetries No INIT_ACK received\n",
    ),
    (
        PrintedEvent::Aborted(ErrorKind::PeerReported, ""),
        "B aborted PeerReported\n",
    ),
    (
        PrintedEvent::Error(ErrorKind::WrongSequence, "a\tb\n\u{7f}\u{e9}"),
        "B error WrongSequence a.b.\u{7f}\u{e9}\n",
    ),
    (PrintedEvent::BufferedAmountLow(7), "B buffered-low 7\n"),
    (
        PrintedEvent::TotalBufferedAmountLow,
        "B total-buffered-low\n",
    ),
    (
        PrintedEvent::ResetFailed(&[StreamId(1), StreamId(65535)]),
        "B reset-failed 1,65535\n",
    ),
    (
        PrintedEvent::ResetPerformed(&[StreamId(0)]),
        "B reset-performed 0\n",
    ),
    (PrintedEvent::IncomingReset(&[]), "B incoming-reset all\n"),
    (
        PrintedEvent::FullySent,
        "B fully-sent 18446744073709551615\n",
    ),
    (
        PrintedEvent::MaybeExpired,
        "B maybe-expired 18446744073709551615\n",
    ),
    (PrintedEvent::Expired, "B expired 18446744073709551615\n"),
    (
        PrintedEvent::Delivered,
        "B delivered 18446744073709551615\n",
    ),
    (
        PrintedEvent::LifecycleEnd,
        "B lifecycle-end 18446744073709551615\n",
    ),
    (
        PrintedEvent::Packet(&[DATA, &[77, 0, 0, 4], DATA]),
        "B packet 5 0000ab09 DATA+TYPE-77+DATA\n",
    ),
    (
        PrintedEvent::Packet(&[&[3, 0, 0, 5, 1]]),
        "B packet 5 0000ab09 SACK\n",
    ),
    (
        PrintedEvent::Packet(&[
            &[4, 0, 0, 4],
            &[5, 0, 0, 4],
            &[7, 0, 0, 4],
            &[8, 0, 0, 4],
            &[9, 0, 0, 4],
        ]),
        "B packet 5 0000ab09 HEARTBEAT+HEARTBEAT-ACK+SHUTDOWN+SHUTDOWN-ACK+ERROR\n",
    ),
    (
        PrintedEvent::Packet(&[
            &[14, 0, 0, 4],
            &[64, 0, 0, 4],
            &[130, 0, 0, 4],
            &[192, 0, 0, 4],
            &[194, 0, 0, 4],
        ]),
        "B packet 5 0000ab09 SHUTDOWN-COMPLETE+I-DATA+RE-CONFIG+FORWARD-TSN+I-FORWARD-TSN\n",
    ),
];

#[test]
fn events_are_printed(rt: HostRuntime) {
    let alloc = rt.alloc();
    for (told, line) in TOLD {
        let event = event_of(&rt, alloc, *told);
        is_printed(&rt, alloc, &event, line);
    }
}
