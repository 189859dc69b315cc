//! The side that sends.

use crate::both_ends::link::{Link, Parcel};
use dcsctp_receive_reassembly::{Data, Numbering, SkippedTo};
use dcsctp_send_retransmission::api::{
    Events, Message, Options, SendOptions, SocketTime, StreamId,
};
use dcsctp_send_retransmission::send_queue::{DataToSend, SendQueue};
use dcsctp_send_retransmission::send_timer::RetransmissionTimeout;
use dcsctp_send_retransmission::wire::GapAckBlock;
use dcsctp_send_retransmission::{ForwardTsn, HandleSackResult, RetransmissionQueue, Skipped};
use std::alloc::{AllocError, Global};
use std::process::Abort;
use std::time::Duration;

/// The moment that many milliseconds after the first.
pub fn at(millis: u64) -> SocketTime {
    SocketTime::zero() + Duration::from_millis(millis)
}

/// A send queue, and what of it is in flight.
pub struct Sender {
    alloc: Global,
    interleaving: bool,
    pub queue: SendQueue,
    sent: RetransmissionQueue,
    rto: RetransmissionTimeout,
    events: Events,
}

// Written out, as that of a receiver is.
impl Drop for Sender {
    fn drop(self) {
        let Sender {
            alloc: _,
            interleaving: _,
            queue: _,
            sent: _,
            rto: _,
            events: _,
        } = self;
    }
}

// What a chunk of this fragment carries.
fn data_of(alloc: Global, part: &DataToSend, interleaving: bool) -> Result<Data, AllocError> {
    let numbering = match (interleaving, part.is_unordered) {
        (false, false) => Numbering::Ordered { ssn: part.ssn },
        (false, true) => Numbering::Unordered,
        (true, false) => Numbering::InterleavedOrdered {
            mid: part.mid,
            fsn: part.fsn,
        },
        (true, true) => Numbering::InterleavedUnordered {
            mid: part.mid,
            fsn: part.fsn,
        },
    };
    Ok(Data {
        stream_id: part.stream_id,
        numbering,
        ppid: part.ppid,
        payload: Vec::from_slice(alloc, part.payload.as_slice())?,
        is_beginning: part.is_beginning,
        is_end: part.is_end,
    })
}

// What a FORWARD-TSN or an I-FORWARD-TSN skips.
fn skipped_of(alloc: Global, forward: &ForwardTsn) -> Result<Vec<SkippedTo>, AllocError> {
    let mut skipped = Vec::new(alloc);
    match &forward.skipped {
        Skipped::Streams(streams) => {
            for entry in streams {
                skipped.push(SkippedTo::Ssn {
                    stream_id: StreamId(entry.stream_id),
                    ssn: entry.ssn,
                })?;
            }
        }
        Skipped::Messages(messages) => {
            for entry in messages {
                skipped.push(SkippedTo::Mid {
                    stream_id: StreamId(entry.stream_id),
                    is_unordered: entry.is_unordered,
                    mid: entry.mid,
                })?;
            }
        }
    }
    Ok(skipped)
}

impl Sender {
    /// Nothing waits, and the first TSN is this.
    pub fn new(alloc: Global, options: &Options, first_tsn: u32, interleaving: bool) -> Sender {
        let mut queue = SendQueue::new(alloc, options);
        queue.enable_message_interleaving(interleaving, 200_000);
        Sender {
            alloc,
            interleaving,
            queue,
            sent: RetransmissionQueue::new(alloc, options, first_tsn, 200_000, true, interleaving),
            rto: RetransmissionTimeout::new(options),
            events: Events::new(alloc),
        }
    }

    /// Queues a message, if it isn't empty.
    pub fn add(&mut self, now: u64, message: Message, how: &SendOptions) -> Result<(), AllocError> {
        if message.payload.is_empty() {
            return Ok(());
        }
        self.queue.add(at(now), message, how)
    }

    // Puts the chunks of these TSNs on the link.
    fn emit(
        &self,
        rt: &impl Abort,
        link: &mut Link,
        now: u64,
        tsns: &[u32],
    ) -> Result<(), AllocError> {
        for tsn in tsns {
            let part = self.sent.chunk(*tsn).expect(rt, "no such chunk");
            assert!(rt; !part.payload.is_empty(), "a chunk without data");
            let data = data_of(self.alloc, part, self.interleaving)?;
            link.put(now, Parcel::Data { tsn: *tsn, data })?;
        }
        Ok(())
    }

    /// Sends four packets at most, and what the peer isn't to wait for.
    pub fn flush(&mut self, rt: &impl Abort, link: &mut Link, now: u64) -> Result<(), AllocError> {
        if self
            .sent
            .should_send_forward_tsn(&mut self.events, &mut self.queue, at(now))?
        {
            let forward = self.sent.create_forward_tsn()?;
            let skipped = skipped_of(self.alloc, &forward)?;
            let tsn = forward.new_cumulative_tsn;
            link.put(now, Parcel::Forward { tsn, skipped })?;
        }
        for _ in 0..4 {
            let tsns = self
                .sent
                .get_chunks_to_send(&mut self.events, &mut self.queue, at(now), 1176)?;
            self.emit(rt, link, now, &tsns)?;
        }
        Ok(())
    }

    /// Handles the retransmission timer.
    pub fn tell(&mut self, now: u64) {
        self.sent.handle_timeout(at(now));
    }

    /// Handles a SACK, and sends what is lost at once.
    pub fn acknowledge(
        &mut self,
        rt: &impl Abort,
        link: &mut Link,
        now: u64,
        (cumulative, window, blocks): (u32, u32, &[GapAckBlock]),
    ) -> Result<(), AllocError> {
        let outcome = self
            .sent
            .handle_sack(&mut self.events, at(now), cumulative, window, blocks)?;
        if let HandleSackResult::Valid { rtt, .. } = outcome {
            if let Some(rtt) = rtt {
                self.rto.observe_rto(rtt);
                self.sent.update_rto(self.rto.rto(), self.rto.is_measured());
            }
            if self.sent.has_data_to_be_fast_retransmitted() {
                let tsns = self.sent.get_chunks_for_fast_retransmit(at(now), 1176)?;
                self.emit(rt, link, now, &tsns)?;
            }
        }
        Ok(())
    }

    /// Is nothing buffered, and nothing in flight?
    pub fn is_at_rest(&self) -> bool {
        self.queue.total_buffered_amount() == 0
            && self.sent.unacked_items() == 0
            && self.sent.next_timeout().is_none()
    }
}
