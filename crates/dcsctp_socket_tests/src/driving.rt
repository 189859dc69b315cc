//! The loop that README shows.

use crate::checks::same;
use dcsctp_example::{SocketOutput, client, drain, say, serve};
use dcsctp_socket::{
    DcSctpSocket, ErrorKind, Options, PpId, Socket, SocketEvent, SocketTime, StreamId,
};
use dcsctp_testing::TwoWords;
use std::alloc::{AllocGlobal, Global};
use std::process::Abort;

// What the client sends, an INIT of tag 7 and first TSN 100, and a COOKIE ECHO; and in between the answer of its peer,
// an INIT ACK of tag 9 and first TSN 200. Another program computed the checksums.
const INIT: &str =
    "1388138800000000645350c70100001e0000000700500000ffffffff00000064c00000048008000682c00000";

const INIT_ACK: &str =
    "13881388000000070cc62aa50200005c0000000900500000ffffffff000000c8c00000048008000682c00000\
    0007003c6463534354507230000000070000000900000064000000c800500000000000000000000001000100\
    00000000ffffffff0000000000000000";

const COOKIE_ECHO: &str =
    "1388138800000009f2f7dfea0a00003c6463534354507230000000070000000900000064000000c800500000\
    00000000000000000100010000000000ffffffff0000000000000000";

// The INIT with 0 in the place of its checksum.
const UNSUMMED: &str =
    "1388138800000000000000000100001e0000000700500000ffffffff00000064c00000048008000682c00000";

// The packet of these digits.
fn packet_of(rt: &impl Abort, alloc: Global, digits: &str) -> Vec<u8> {
    hex::decode(alloc, digits).expect(rt, "no packet")
}

// Bytes that are no packet, and the answer to the client's INIT.
fn incoming(rt: &impl Abort, alloc: Global) -> Vec<Vec<u8>> {
    let no_packet = packet_of(rt, alloc, "010203");
    let init_ack = packet_of(rt, alloc, INIT_ACK);
    Vec::from_array(alloc, [no_packet, init_ack]).expect(rt, "no packets")
}

// INIT and COOKIE ECHO must come, and an error.
fn connects(rt: &impl Abort, alloc: Global, told: &SocketOutput) {
    let [init, cookie_echo] = told.packets.as_slice() else {
        rt.panic("there are not two packets")
    };
    same(rt, "INIT", init, &packet_of(rt, alloc, INIT));
    same(
        rt,
        "COOKIE ECHO",
        cookie_echo,
        &packet_of(rt, alloc, COOKIE_ECHO),
    );
    let [SocketEvent::OnError(kind, _)] = told.events.as_slice() else {
        rt.panic("there is not one error")
    };
    same(rt, "the error", *kind, ErrorKind::ParseFailed);
}

#[test]
fn a_client_is_driven_by_a_loop(rt: HostRuntime) {
    // It draws first TSN 100 and tag 7, and then a tie tag of 0.
    let generator = TwoWords {
        first: 100,
        second: 6,
    };
    let packets = incoming(&rt, rt.alloc());
    let told = client(rt.alloc(), generator, &packets).expect(&rt, "a call failed");
    connects(&rt, rt.alloc(), &told);
}

// Nothing was given yet.
fn nothing_told(alloc: Global) -> SocketOutput {
    SocketOutput {
        packets: Vec::new(alloc),
        messages: Vec::new(alloc),
        events: Vec::new(alloc),
    }
}

// Hands the packets that one socket gave to the other.
fn hand_over<S: DcSctpSocket>(
    rt: &impl Abort,
    from: &mut SocketOutput,
    to: &mut S,
    told: &mut SocketOutput,
) {
    for packet in &from.packets {
        let _due = serve(to, SocketTime::zero(), Some(packet), told).expect(rt, "a call failed");
    }
    from.packets.clear();
}

// A connects, and says a text, which B is given.
fn talks<S: DcSctpSocket>(rt: &impl Abort, alloc: Global, a: &mut S, b: &mut S) {
    let mut from_a = nothing_told(alloc);
    let mut from_b = nothing_told(alloc);
    a.connect().expect(rt, "no connect");
    drain(a, &mut from_a).expect(rt, "no memory");
    // INIT and COOKIE ECHO, each with its answer
    for _ in 0..2 {
        hand_over(rt, &mut from_a, b, &mut from_b);
        hand_over(rt, &mut from_b, a, &mut from_a);
    }
    let is_said = say(a, alloc, "hello").expect(rt, "no send").is_ok();
    same(rt, "it is said", is_said, true);
    drain(a, &mut from_a).expect(rt, "no memory");
    hand_over(rt, &mut from_a, b, &mut from_b);
    let [message] = from_b.messages.as_slice() else {
        rt.panic("there is not one message")
    };
    same(rt, "stream", message.stream_id, StreamId(1));
    same(rt, "protocol", message.ppid, PpId(51));
    same(rt, "payload", message.payload.as_slice(), b"hello");
}

#[test]
fn a_text_is_said_and_read(rt: HostRuntime) {
    let mut a = socket(&rt, 100, 6);
    let mut b = socket(&rt, 200, 8);
    talks(&rt, rt.alloc(), &mut a, &mut b);
}

// An event must be the packet of these digits.
fn sends(rt: &impl Abort, alloc: Global, event: Option<SocketEvent>, digits: &str) {
    let Some(SocketEvent::SendPacket(packet)) = event else {
        rt.panic("there is no packet")
    };
    same(rt, digits, &packet, &packet_of(rt, alloc, digits));
}

#[test]
fn a_packet_is_polled_with_its_checksum_or_without(rt: HostRuntime) {
    let mut a = socket(&rt, 100, 6);
    let mut b = socket(&rt, 100, 6);
    a.connect().expect(&rt, "no connect");
    b.connect().expect(&rt, "no connect");
    sends(&rt, rt.alloc(), a.poll_event(), INIT);
    sends(&rt, rt.alloc(), b.poll_event_without_checksum(), UNSUMMED);
    same(
        &rt,
        "no more",
        b.poll_event_without_checksum().is_none(),
        true,
    );
}

// A closed socket that draws these words.
fn socket<R: Abort + AllocGlobal>(rt: &R, first: u64, second: u64) -> Socket<TwoWords> {
    let words = TwoWords { first, second };
    Socket::new(rt.alloc(), "end", &Options::default(), words).expect(rt, "no socket")
}
