//! How often things happened, so that no test passes because nothing did.

use crate::delivered::Delivery;
use dcsctp_world::socket::SocketEvent;
use std::process::Abort;

/// How often each of these happened, at both sides in all schedules of a test.
#[derive(Clone, Copy, Debug)]
pub struct Counts {
    pub connected: u32,
    pub restarted: u32,
    pub closed: u32,
    pub aborted: u32,
    pub performed: u32,
    pub incoming: u32,

    /// In how many schedules each verification tag served one association up to the end; how many messages were read
    /// while it was so; how many of these once a reset of streams had been performed; how many in the first
    /// association of both sides; how many of these in schedules without limits and resets; and how many in those with
    /// resets or limits on other streams.
    pub served: u32,
    pub read: u32,
    pub read_after_reset: u32,
    pub in_order: u32,
    pub without_gap: u32,
    pub beside: u32,
}

fn one_more(count: &mut u32) {
    *count = count.saturating_add(1);
}

fn add(count: &mut u32, more: usize) {
    let more = u32::try_from(more).unwrap_or(u32::MAX);
    *count = count.saturating_add(more);
}

impl Counts {
    /// Nothing happened yet.
    pub fn zero() -> Counts {
        Counts {
            connected: 0,
            restarted: 0,
            closed: 0,
            aborted: 0,
            performed: 0,
            incoming: 0,
            served: 0,
            read: 0,
            read_after_reset: 0,
            in_order: 0,
            without_gap: 0,
            beside: 0,
        }
    }

    /// Counts what was read in a schedule.
    pub fn note_read(&mut self, delivery: &Delivery) {
        self.served = self.served.saturating_add(u32::from(delivery.serves));
        add(&mut self.read, delivery.read);
        add(&mut self.read_after_reset, delivery.read_after_reset);
        add(&mut self.in_order, delivery.in_order);
        add(&mut self.without_gap, delivery.without_gap);
        add(&mut self.beside, delivery.beside);
    }

    /// Counts an event. Is it a connection or an end?
    pub fn note(&mut self, event: &SocketEvent) -> bool {
        match event {
            SocketEvent::OnConnected() => one_more(&mut self.connected),
            SocketEvent::OnConnectionRestarted() => one_more(&mut self.restarted),
            SocketEvent::OnClosed() => one_more(&mut self.closed),
            SocketEvent::OnAborted(_, _) => one_more(&mut self.aborted),
            SocketEvent::OnStreamsResetPerformed(_) => one_more(&mut self.performed),
            SocketEvent::OnIncomingStreamReset(_) => one_more(&mut self.incoming),
            _ => {}
        }
        matches!(
            event,
            SocketEvent::OnConnected() | SocketEvent::OnClosed() | SocketEvent::OnAborted(_, _)
        )
    }

    /// Each must have happened at least as often as here.
    pub fn reach(&self, rt: &impl Abort, name: &str, least: &Counts) {
        let enough = [
            least.connected <= self.connected,
            least.restarted <= self.restarted,
            least.closed <= self.closed,
            least.aborted <= self.aborted,
            least.performed <= self.performed,
            least.incoming <= self.incoming,
            least.served <= self.served,
            least.read <= self.read,
            least.read_after_reset <= self.read_after_reset,
            least.in_order <= self.in_order,
            least.without_gap <= self.without_gap,
            least.beside <= self.beside,
        ];
        assert!(rt; enough == [true; 12], "{name}: {self:?}");
    }
}
