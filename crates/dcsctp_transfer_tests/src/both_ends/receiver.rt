//! The side that receives.

use crate::both_ends::link::{Link, Parcel};
use crate::both_ends::messages::Messages;
use crate::both_ends::sender::at;
use dcsctp_receive_reassembly::{Data, ReassemblyQueue, SkippedTo};
use dcsctp_receive_tracker::DataTracker;
use dcsctp_send_retransmission::api::Options;
use dcsctp_send_retransmission::wire::clean_sack;
use std::alloc::{AllocError, Global};
use std::process::Abort;

/// Which TSNs were received, and what waits to be taken.
pub struct Receiver {
    alloc: Global,
    tracker: DataTracker,
    queue: ReassemblyQueue,
}

// Written out: a derived one would be proved at each exit of each function that has one.
impl Drop for Receiver {
    fn drop(self) {
        let Receiver {
            alloc: _,
            tracker: _,
            queue: _,
        } = self;
    }
}

impl Receiver {
    /// Nothing was received, and the peer's first TSN is this.
    pub fn new(alloc: Global, options: &Options, first_tsn: u32) -> Receiver {
        Receiver {
            alloc,
            tracker: DataTracker::new(alloc, options, first_tsn),
            queue: ReassemblyQueue::new(alloc, 200_000, 0),
        }
    }

    // Handles data.
    fn receive_data(&mut self, tsn: u32, data: Data) -> Result<(), AllocError> {
        let is_open = !self.queue.is_full() && !self.queue.is_above_watermark();
        if is_open && self.tracker.is_tsn_valid(tsn) && self.tracker.observe(tsn, false)? {
            self.queue.add(tsn, data)?;
        }
        Ok(())
    }

    // Handles a FORWARD-TSN.
    fn receive_forward_tsn(&mut self, tsn: u32, skipped: &[SkippedTo]) -> Result<(), AllocError> {
        if self.tracker.is_tsn_valid(tsn) && self.tracker.handle_forward_tsn(tsn) {
            self.queue.handle_forward_tsn(tsn, skipped)?;
        }
        Ok(())
    }

    // Handles what was received.
    fn receive_parcel(&mut self, parcel: Parcel) -> Result<(), AllocError> {
        match parcel {
            Parcel::Data { tsn, data } => self.receive_data(tsn, data),
            Parcel::Forward { tsn, skipped } => self.receive_forward_tsn(tsn, skipped.as_slice()),
            Parcel::Sack { .. } => Ok(()),
        }
    }

    // Acknowledges what was received, if that is due.
    fn acknowledge(&mut self, link: &mut Link, now: u64) -> Result<(), AllocError> {
        if !self.tracker.should_send_ack(false) {
            return Ok(());
        }
        let window = self.queue.remaining_bytes().min(200_000) as u32;
        let sack = self.tracker.create_selective_ack(window, 1179)?;
        let blocks = clean_sack(self.alloc, &sack.chunk())?;
        let cumulative = sack.cumulative_tsn_ack;
        link.put(
            now,
            Parcel::Sack {
                cumulative,
                window,
                blocks,
            },
        )
    }

    // Handles a packet with what was received, and acknowledges it if that is due.
    fn receive_packet(
        &mut self,
        outgoing: &mut Link,
        now: u64,
        parcel: Parcel,
    ) -> Result<(), AllocError> {
        self.receive_parcel(parcel)?;
        self.tracker.observe_packet_end(at(now));
        self.acknowledge(outgoing, now)
    }

    // Takes the messages that are ready.
    fn take_messages(&mut self, rt: &impl Abort, messages: &mut Messages) {
        for _ in 0..self.queue.messages_ready_count() {
            if let Some(message) = self.queue.get_next_message() {
                messages.arrives(rt, &message);
            }
        }
    }

    /// Handles all that has arrived, each chunk as a packet of its own, and takes the messages.
    pub fn receive(
        &mut self,
        rt: &impl Abort,
        incoming: &mut Link,
        outgoing: &mut Link,
        now: u64,
        messages: &mut Messages,
    ) -> Result<(), AllocError> {
        for _ in 0..incoming.len() {
            if let Some(parcel) = incoming.take(now) {
                self.receive_packet(outgoing, now, parcel)?;
                self.take_messages(rt, messages);
            }
        }
        self.tracker.handle_timeout(at(now));
        self.acknowledge(outgoing, now)
    }

    /// Is nothing buffered, and no acknowledgement delayed?
    pub fn is_at_rest(&self) -> bool {
        self.queue.remaining_bytes() == 200_000 && self.tracker.next_timeout().is_none()
    }
}
