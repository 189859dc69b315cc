//! What was seen of a side, and what must hold at each of its events.

use crate::counts::Counts;
use crate::view::{Ends, View};
use dcsctp_world::socket::SocketEvent;
use std::alloc::Global;
use std::process::Abort;

/// What was seen of a side so far.
#[derive(Drop)]
pub struct Seen {
    // How many of its events.
    events: usize,

    // The numbers of the peer's requests by which streams were reset since the last connection or end.
    numbers: Vec<u32>,
}

// Is the second number the first, or the next one?
fn follows(before: u32, after: u32) -> bool {
    after == before || after == before.wrapping_add(1)
}

// The association continues: the numbers of requests go up by one, or stay. The request that is outstanding is the
// last.
fn numbers_follow(before: &Ends, after: &Ends) -> bool {
    let is_last = match after.1.own_outstanding {
        None => true,
        Some(number) => number.wrapping_add(1) == after.1.own_next,
    };
    is_last
        && follows(before.1.own_next, after.1.own_next)
        && follows(before.1.peer_last, after.1.peer_last)
}

// The numbers of an association that continues follow those before them.
fn counts_on(rt: &impl Abort, view: &View<'_>) {
    if let (Some(before), Some(after)) = (view.ends(1), view.ends(0)) {
        let goes_on = before.0 == after.0 && before.1.peer == after.1.peer;
        view.holds(
            rt,
            "the numbers of requests",
            !goes_on || numbers_follow(&before, &after),
        );
    }
}

// The other side has, or had, the matching association.
fn is_connected(rt: &impl Abort, view: &View<'_>) {
    let Some(ends) = view.ends(0) else {
        view.fails(rt, "it connects, and has no peer")
    };
    view.holds(rt, "it connects to nobody", view.has_match(&ends));
}

// The request that was outstanding before was performed by the other side.
fn is_performed(rt: &impl Abort, view: &View<'_>) {
    let Some((my, held)) = view.ends(1) else {
        view.fails(rt, "there was no peer")
    };
    let Some(number) = held.own_outstanding else {
        view.fails(rt, "no request was outstanding")
    };
    view.holds(rt, "nobody reset them", view.was_performed(my, number));
}

impl Seen {
    /// Nothing was seen yet.
    pub fn new(alloc: Global) -> Seen {
        Seen {
            events: 0,
            numbers: Vec::new(alloc),
        }
    }

    // The number of the request by which the peer reset streams is another than those before.
    fn is_told(&mut self, rt: &impl Abort, view: &View<'_>) {
        let Some((_, held)) = view.ends(0) else {
            view.fails(rt, "streams were reset, and there is no peer")
        };
        let is_new = !self.numbers.contains(&held.peer_last);
        view.holds(rt, "a request was performed twice", is_new);
        self.numbers.push(held.peer_last).expect(rt, "no memory");
    }

    // Looks at an event of the last act.
    fn look(&mut self, rt: &impl Abort, view: &View<'_>, counts: &mut Counts, event: &SocketEvent) {
        match event {
            SocketEvent::OnConnected() => is_connected(rt, view),
            SocketEvent::OnStreamsResetPerformed(_) => is_performed(rt, view),
            SocketEvent::OnIncomingStreamReset(_) => self.is_told(rt, view),
            _ => {}
        }
        if counts.note(event) {
            self.numbers.clear();
        }
    }

    /// Looks at what the last act has brought to this side.
    pub fn look_on(&mut self, rt: &impl Abort, view: &View<'_>, counts: &mut Counts) {
        counts_on(rt, view);
        let events = view.world.events(view.side);
        for event in events.get(self.events..).unwrap_or(&[]) {
            self.look(rt, view, counts, event);
        }
        self.events = events.len();
    }
}
