//! The same of acts from outside: bytes that can't be read, copies of packets, a handover, and a restore.

use crate::deeds::Deed::{
    Closes, Connects, IsHanded, IsHandedCopy, IsHandedOver, IsRestored, Passes, Sends,
};
use crate::deeds::Row;
use crate::worlds::{Way, keeps_promises};
use dcsctp_testing::ExpectedEvent::{Event, Packet};
use dcsctp_testing::{ABORT, COOKIE_ACK, COOKIE_ECHO, DATA, INIT, INIT_ACK};
use dcsctp_world::Side::{A, B};
use dcsctp_world::socket::Phase::{CookieEchoed, CookieWait, Established};

// The packets of a handshake come from outside, and so do bytes that can't be read. A is handed over while B lacks its
// message, and sends it again after the first retransmission timeout. It had seven events before and room for eight, so
// its OnConnected needs new room. B continues from the snapshot that is written by hand, once it is closed: what was
// lost and what waits go in one packet.
static FROM_OUTSIDE: &[Row] = &[
    (A, Connects, &[Packet(&[INIT])], Some(CookieWait)),
    (B, IsHandedCopy(1), &[Packet(&[INIT_ACK])], None),
    (
        A,
        IsHandedCopy(1),
        &[Packet(&[COOKIE_ECHO])],
        Some(CookieEchoed),
    ),
    (
        B,
        IsHandedCopy(2),
        &[Event("connected", 0), Packet(&[COOKIE_ACK])],
        Some(Established),
    ),
    (
        A,
        IsHandedCopy(2),
        &[Event("connected", 0)],
        Some(Established),
    ),
    (
        B,
        IsHanded(&[1, 2, 3]),
        &[Event("unreadable", 0)],
        Some(Established),
    ),
    (
        A,
        IsHanded(&[4]),
        &[Event("unreadable", 0)],
        Some(Established),
    ),
    (
        A,
        IsHanded(&[]),
        &[Event("unreadable", 0)],
        Some(Established),
    ),
    (
        A,
        Sends(1, 10),
        &[Event("low", 1), Packet(&[DATA])],
        Some(Established),
    ),
    (
        A,
        IsHandedOver,
        &[Event("closed", 0), Event("connected", 0)],
        Some(Established),
    ),
    (A, Passes(500), &[Packet(&[DATA])], Some(Established)),
    (B, Closes, &[Packet(&[ABORT]), Event("closed", 0)], None),
    (
        B,
        IsRestored,
        &[
            Event("connected", 0),
            Event("low", 1),
            Packet(&[DATA, DATA]),
        ],
        Some(Established),
    ),
];

#[test]
fn a_world_that_runs_out_in_an_act_from_outside_shows_a_front_part(rt: HostRuntime) {
    keeps_promises(&rt, rt.alloc(), FROM_OUTSIDE, Way::OneByOne);
}
