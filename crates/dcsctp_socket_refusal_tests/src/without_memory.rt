//! What takes no memory. In a marked run of scripts/refusals.sh every allocation is refused between the marks, and
//! counted: there may be none.

use crate::memoryless_exchanges::{EACH_PHASE, QUERIES, UNSUPPORTED_RESET};
use crate::run::is_kept;
use crate::values;
use dcsctp_socket::Events;
use dcsctp_socket::api::handover::SocketHandoverState;
use dcsctp_testing::{begin_span, end_span, is_gone};
use std::alloc::{AllocError, Global};
use std::process::Abort;

#[test]
fn a_call_that_changes_nothing_takes_no_memory(rt: HostRuntime) {
    is_kept(&rt, rt.alloc(), &EACH_PHASE);
}

#[test]
fn a_query_or_poll_takes_no_memory(rt: HostRuntime) {
    is_kept(&rt, rt.alloc(), &QUERIES);
}

#[test]
fn a_reset_that_is_not_supported_takes_no_memory(rt: HostRuntime) {
    is_kept(&rt, rt.alloc(), &UNSUPPORTED_RESET);
}

// Does what needs no socket. `Err`: the allocation of a mark failed.
fn use_values(
    rt: &impl Abort,
    alloc: Global,
    events: &mut Events,
    snapshot: &mut SocketHandoverState,
) -> Result<(), AllocError> {
    begin_span(alloc)?;
    values::events_come_in_order(rt, alloc, events);
    values::identifiers(rt);
    values::moments(rt);
    values::error_counters(rt);
    values::readiness(rt);
    values::capabilities(rt);
    values::cookies(rt);
    values::options(rt);
    values::empty_lists(rt, alloc);
    values::snapshots(rt, &mut SocketHandoverState::empty(alloc));
    values::used_snapshots(rt, snapshot);
    end_span(alloc)
}

// The same with two events and a snapshot that are made before.
fn try_values(rt: &impl Abort, alloc: Global) -> Result<(), AllocError> {
    let mut events = values::two_events(alloc)?;
    let mut snapshot = SocketHandoverState::empty(alloc);
    values::fill(alloc, &mut snapshot)?;
    use_values(rt, alloc, &mut events, &mut snapshot)
}

#[test]
fn a_value_takes_no_memory(rt: HostRuntime) {
    let alloc = rt.alloc();
    let is_done = try_values(&rt, alloc).is_ok()
        || is_gone(alloc)
        || try_values(&rt, alloc).is_ok();
    assert!(&rt; is_done, "memory was refused twice");
}
