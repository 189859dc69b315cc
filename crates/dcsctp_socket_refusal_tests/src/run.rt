//! Exchanges are gone through, up to the step in which an allocation fails.

use crate::exchange::{Act, Exchange, Name, words};
use crate::long_exchange::LONG_EXCHANGE;
use crate::refusal::keeps_promises;
use crate::room::Room;
use crate::short_exchanges::{COLLISION, HANDOVER, REPEATED_REQUEST, RESTART};
use crate::side::Side;
use dcsctp_socket::{DcSctpSocket, Socket, SocketFault};
use dcsctp_testing::is_gone;
use std::alloc::Global;
use std::process::Abort;

// A new side; none if an allocation fails.
fn new_side(
    rt: &impl Abort,
    alloc: Global,
    exchange: &'static Exchange,
    name: Name,
) -> Option<Side> {
    let Ok(room) = Room::new(alloc) else {
        return None;
    };
    let options = exchange.options();
    assert!(rt; options.is_valid(), "the options are not valid");
    match Socket::new(alloc, "side", &options, words(name)) {
        Ok(socket) => Some(Side::new(alloc, exchange, name, socket, room)),
        Err(fault) => {
            assert_eq!(rt; fault, SocketFault::OutOfMemory, "a new socket");
            None
        }
    }
}

// Takes a step of one side, and returns whether no allocation failed in it. If the test's own allocation
// failed, the steps before have brought all events of the table, and no socket has failed.
fn take_step(rt: &impl Abort, own: &mut Side, other: &mut Side, index: usize, act: Act) -> bool {
    let ready = own.socket.messages_ready_count();
    match own.act(rt, other, index, act) {
        Ok(Err(fault)) => {
            assert_eq!(rt; fault, SocketFault::OutOfMemory, "step {index}");
            keeps_promises(rt, own, other, index, ready);
            false
        }
        Ok(Ok(())) => {
            let has_failed = own.socket.has_failed() || other.socket.has_failed();
            assert!(rt; !has_failed, "step {index}: a socket has failed");
            true
        }
        Err(_) => {
            own.is_well(rt, index);
            other.is_well(rt, index);
            false
        }
    }
}

// Takes all steps, up to one in which an allocation fails. Returns whether none failed.
fn take_steps(rt: &impl Abort, exchange: &Exchange, a: &mut Side, b: &mut Side) -> bool {
    for (index, step) in exchange.steps.iter().enumerate() {
        let goes_on = match step {
            (Name::A, act, _) => take_step(rt, a, b, index, *act),
            (Name::B, act, _) => take_step(rt, b, a, index, *act),
        };
        if !goes_on {
            return false;
        }
    }
    a.is_over(rt);
    b.is_over(rt);
    true
}

// Goes through an exchange with this side and a new one, and returns whether no allocation failed.
fn goes_through_with(
    rt: &impl Abort,
    alloc: Global,
    exchange: &'static Exchange,
    a: &mut Side,
) -> bool {
    let Some(mut b) = new_side(rt, alloc, exchange, Name::B) else {
        a.is_well(rt, 0);
        return false;
    };
    let is_whole = take_steps(rt, exchange, a, &mut b);
    drop(b);
    is_whole
}

// Goes through an exchange with two new sides, and returns whether no allocation failed.
fn goes_through(rt: &impl Abort, alloc: Global, exchange: &'static Exchange) -> bool {
    let Some(mut a) = new_side(rt, alloc, exchange, Name::A) else {
        return false;
    };
    let is_whole = goes_through_with(rt, alloc, exchange, &mut a);
    drop(a);
    is_whole
}

/// If an allocation fails and there is memory again, two other sockets go through the whole exchange then: so what the
/// table says is compared in each such run.
pub fn is_kept(rt: &impl Abort, alloc: Global, exchange: &'static Exchange) {
    let is_whole = goes_through(rt, alloc, exchange)
        || is_gone(alloc)
        || goes_through(rt, alloc, exchange);
    assert!(rt; is_whole, "memory was refused twice");
}

#[test]
fn a_refused_growth_fails_its_socket_and_loses_nothing(rt: HostRuntime) {
    is_kept(&rt, rt.alloc(), &LONG_EXCHANGE);
}

#[test]
fn a_collision_without_memory_loses_nothing(rt: HostRuntime) {
    is_kept(&rt, rt.alloc(), &COLLISION);
}

#[test]
fn a_restart_without_memory_loses_nothing(rt: HostRuntime) {
    is_kept(&rt, rt.alloc(), &RESTART);
}

#[test]
fn a_repeated_request_without_memory_loses_nothing(rt: HostRuntime) {
    is_kept(&rt, rt.alloc(), &REPEATED_REQUEST);
}

#[test]
fn a_handover_without_memory_loses_nothing(rt: HostRuntime) {
    is_kept(&rt, rt.alloc(), &HANDOVER);
}
