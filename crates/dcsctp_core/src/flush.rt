//! A flush: what waits is sent, in as many packets as are allowed (RFC 9260, section 6.1).

ghost use Rattle.std.specs.Prelude.{◌≡◌, ◌&&◌, ◌||◌, IsOk};
ghost use Rattle.dcsctp_transfer.specs.spec.endpoint.Endpoint.{is_cookie_echoed};
ghost use Rattle.dcsctp_transfer.specs.spec.queues.SendQueue.{has_queued_data};
ghost use Rattle.dcsctp_transfer.specs.spec.endpoint.FlushOutcomes.{packets_allowed, first_ask};
ghost use Rattle.dcsctp_core.specs.View.{core_of, transfer_of};
ghost use Rattle.dcsctp_core.specs.Below.{FlushesAtOnce};
ghost use Rattle.dcsctp_core.specs.Flushing.{Flushes, FlushesFurther, FillsWith, TriesForward, TriesReset, TriesData, HasNoData, HasNoReset, can_queues_send, SendsUnlessEmpty, KeepsSize};
ghost use Rattle.dcsctp_core.specs.Handling.{TakesOne, SendsQueued};

use crate::context::Context;
use crate::resetting::RequestStart;
use crate::spares::take_spare;
use crate::state::State;
use dcsctp_transfer::api::Options;
use dcsctp_transfer::wire_build::SctpPacketBuilder;
use rand_core::Rng;
use std::alloc::AllocError;

// How many packets a flush may send: one at most while the COOKIE ECHO isn't answered (RFC 9260, section 5.1).
fn packets_allowed(options: &Options, state: &State) -> u32
    ensures { result ≡ packets_allowed options.now.max_burst (core_of state.now) }
{
    if options.max_burst <= 0 {
        return 0;
    }
    match state {
        State::CookieEchoed(_) => 1,
        State::Closed | State::CookieWait(_) | State::Open(_) => {
            options.max_burst.unsigned_abs()
        }
    }
}

impl<R: Rng> Context<R> {
    /// A flush: what waits is sent under the peer's tag, if the peer is known.
    ///
    /// `Err`: an allocation failed; the first of its events may already have been added.
    pub fn send_buffered_packets(&mut self) -> Result<(), AllocError>
        ensures { TakesOne R.stream SendsQueued self.old result self.new }
    {
        let may_follow = self.may_send_data();
        let Some(tcb) = self.state.tcb() else {
            return Ok(());
        };
        // So that hardly a packet is made that would stay empty. A delayed SACK is sent along if data may follow.
        if !tcb.transfer.may_fill_first(&self.send_queue, may_follow)
            && !self.send_queue.has_streams_ready_to_be_reset()
        {
            return Ok(());
        }
        let packet = tcb.new_packet_in(self.alloc, take_spare(&self.events), &self.options)?;
        self.send_buffered_packets_with(packet)?;
        Ok(())
    }

    /// A flush whose first packet is this one, with the chunks that it holds; acknowledgements go after them.
    /// At most `max_burst` packets are sent, and at most one while the COOKIE ECHO isn't answered.
    ///
    /// `Err`: an allocation failed; the first of its events may already have been added.
    pub fn send_buffered_packets_with(
        &mut self,
        packet: SctpPacketBuilder,
    ) -> Result<(), AllocError>
        ensures { Flushes R.stream packet self.old result self.new }
    {
        let allowed = packets_allowed(&self.options, &self.state);
        if allowed == 0 {
            return Ok(());
        }
        let mut packet = packet;
        self.fill_first(&mut packet)?;
        if !self.send_unless_empty(packet)? {
            return Ok(());
        }
        self.send_further(allowed - 1)
    }

    /// Sends one packet of lost data to the peer, if it is to be sent at once, whatever the congestion window
    /// is (RFC 9260, section 7.2.4).
    ///
    /// `Err`: an allocation failed, and no event was added.
    pub fn send_at_once(&mut self) -> Result<(), AllocError>
        ensures { TakesOne R.stream FlushesAtOnce self.old result self.new }
    {
        let Some(tcb) = self.state.tcb_mut() else {
            return Ok(());
        };
        if !tcb.transfer.has_data_at_once() {
            return Ok(());
        }
        let mut packet = tcb.new_packet_in(self.alloc, take_spare(&self.events), &self.options)?;
        tcb.transfer.fill_at_once(self.moment, &mut packet)?;
        self.send_unless_empty(packet)?;
        Ok(())
    }

    // Sends at most that many packets to the peer, until one is still empty after it was filled.
    fn send_further(&mut self, allowed: u32) -> Result<(), AllocError>
        ensures { FlushesFurther R.stream allowed self.old result self.new }
    {
        let mut left = allowed;
        while 0 < left {
            let Some(tcb) = self.state.tcb() else {
                return Ok(());
            };
            if !tcb.transfer.may_fill(&self.send_queue) {
                return Ok(());
            }
            let block = take_spare(&self.events);
            let mut packet = tcb.new_packet_in(self.alloc, block, &self.options)?;
            self.fill_with_data(&mut packet)?;
            if !self.send_unless_empty(packet)? {
                return Ok(());
            }
            left -= 1;
        }
        Ok(())
    }

    // Puts into the first packet a SACK, a FORWARD-TSN, the request of a reset, and then data.
    fn fill_first(&mut self, packet: &mut SctpPacketBuilder) -> Result<(), AllocError>
        ensures { FillsWith first_ask packet.old self.old result self.new packet.new }
    {
        let may_follow = self.may_send_data();
        self.state.acknowledge(may_follow, packet)?;
        self.forward_tsn(packet)?;
        self.begin_reset(packet)?;
        self.fill_with_data(packet)
    }

    // May no reset begin now? With `Options::follow_rfc` none does while the COOKIE ACK is awaited (RFC 9260,
    // section 5.1).
    fn asks_nobody(&self) -> bool
        ensures { result
            ≡ (self.now.options.follow_rfc && is_cookie_echoed (core_of self.now.state)) }
    {
        self.options.follow_rfc && self.state.awaits_cookie_ack()
    }

    // Begins a reset of streams, if one is ready for it, may begin, and its request fits into the packet.
    fn begin_reset(&mut self, packet: &mut SctpPacketBuilder) -> Result<(), AllocError>
        ensures turn { TriesReset packet.old self.old result self.new packet.new }
        ensures idle { HasNoReset self.old.send_queue (transfer_of self.old.state) → IsOk result }
    {
        if self.asks_nobody() {
            return Ok(());
        }
        let Some(tcb) = self.state.tcb_mut() else {
            return Ok(());
        };
        let start = RequestStart {
            now: self.moment,
            is_new: self.options.follow_rfc,
        };
        tcb.begin_reset(self.alloc, start, &mut self.send_queue, packet)
    }

    // Puts a FORWARD-TSN into a packet if messages were abandoned, no sooner after the last one than it may
    // be (RFC 3758, section 3.5).
    fn forward_tsn(&mut self, packet: &mut SctpPacketBuilder) -> Result<(), AllocError>
        ensures turn { TriesForward packet.old self.old result self.new packet.new }
        ensures idle { HasNoData self.old.send_queue (transfer_of self.old.state) → IsOk result }
    {
        if self.moment < self.no_forward_tsn_before {
            return Ok(());
        }
        let Some(tcb) = self.state.tcb_mut() else {
            return Ok(());
        };
        let next = tcb.transfer.forward_tsn(
            &mut self.events,
            &mut self.send_queue,
            self.moment,
            packet,
        )?;
        if let Some(next) = next {
            self.no_forward_tsn_before = next;
        }
        Ok(())
    }

    // May data follow: does some wait, or do the windows allow it?
    fn may_send_data(&self) -> bool
        ensures { result
            ≡ (has_queued_data self.now.send_queue
            || can_queues_send (transfer_of self.now.state)) }
    {
        let can_send = match self.state.tcb() {
            None => false,
            Some(tcb) => tcb.transfer.can_send_data(),
        };
        self.send_queue.has_data_to_send() || can_send
    }

    // Puts data into a packet. If there is some, the heartbeat interval restarts (RFC 9260, section 8.3).
    fn fill_with_data(&mut self, packet: &mut SctpPacketBuilder) -> Result<(), AllocError>
        ensures turn { TriesData packet.old self.old result self.new packet.new }
        ensures idle { HasNoData self.old.send_queue (transfer_of self.old.state) → IsOk result }
    {
        let Some(tcb) = self.state.tcb_mut() else {
            return Ok(());
        };
        let has_some = tcb.transfer.fill_packet(
            &mut self.events,
            &mut self.send_queue,
            self.moment,
            packet,
        )?;
        if has_some {
            self.start_heartbeat_interval();
        }
        Ok(())
    }

    /// Sends a packet, unless it is empty, counts it, and returns whether it was sent. `Err`: an allocation
    /// failed; nothing has changed.
    pub fn send_unless_empty(&mut self, packet: SctpPacketBuilder) -> Result<bool, AllocError>
        ensures sends { SendsUnlessEmpty packet self.old result self.new }
        ensures size { KeepsSize packet }
    {
        if packet.is_empty() {
            return Ok(false);
        }
        self.events.add_packet(packet)?;
        self.count_emitted();
        Ok(true)
    }
}
