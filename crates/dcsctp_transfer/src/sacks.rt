//! Received SACKs (RFC 9260, sections 6.2.1 and 6.3).

ghost use Rattle.std.specs.Prelude.{◌≡◌, ◌-◌, ◌^◌, min};
ghost use Rattle.std.specs.Duration.{as_nanos};
ghost use Rattle.std.specs.Option.{option_map};
ghost use Rattle.dcsctp_send_retransmission.specs.wire.Content.{sack_content};
ghost use Rattle.dcsctp_send_retransmission.specs.spec.endpoint.TimeTurns.{has_come};
ghost use Rattle.dcsctp_send_retransmission.specs.spec.queues.Acknowledging.{is_sack_valid};
ghost use Rattle.dcsctp_send_retransmission.specs.spec.queues.Retransmission.{retransmission_deadline};
ghost use Rattle.dcsctp_send_retransmission.specs.spec.endpoint.TransferMoves.{timed_transfer};
ghost use Rattle.dcsctp_send_retransmission.specs.send_queue.Telling.{contents};
ghost use Rattle.dcsctp_transfer.specs.Sacks.{HandlesSack, lost_if_due};

use crate::transfer::Transfer;
use dcsctp_send_retransmission::HandleSackResult;
use dcsctp_send_retransmission::api::Events;
use dcsctp_send_retransmission::types::SocketTime;
use dcsctp_send_retransmission::wire::{SackChunk, clean_sack};
use std::alloc::AllocError;
use std::time::Duration;

/// What a SACK led to.
#[derive(Clone, Copy, Debug)]
pub enum HandledSack {
    /// Its cumulative TSN is old, or was never sent. Nothing has changed.
    Invalid,

    /// It was taken into account.
    Valid {
        /// Was an item acknowledged that no SACK had acknowledged before, abandoned or not (RFC 9260, section
        /// 8.1)?
        acknowledges: bool,
    },
}

impl Transfer {
    /// Handles a SACK, whatever the order of its blocks (RFC 9260, sections 6.2.1, 6.3 and 7.2). Each message
    /// that it shows as delivered is reported by two events.
    ///
    /// `Err`: an allocation failed; the first of the events have been added, and nothing else has changed.
    pub fn handle_sack(
        &mut self,
        events: &mut Events,
        now: SocketTime,
        sack: &SackChunk<'_>,
    ) -> Result<HandledSack, AllocError>
        ensures { HandlesSack now (sack_content sack.now) self.old (contents events.old) self.new
            (contents events.new) result }
    {
        let blocks = clean_sack(self.alloc, sack)?;
        let handled = self
            .retransmission_queue
            .handle_sack(events, now, sack.cumulative_tsn_ack, sack.a_rwnd, &blocks)?;
        match handled {
            HandleSackResult::Invalid => Ok(HandledSack::Invalid),
            HandleSackResult::Valid {
                rtt,
                reset_error_counter,
            } => {
                self.observe_round_trip(rtt);
                Ok(HandledSack::Valid {
                    acknowledges: reset_error_counter,
                })
            }
        }
    }

    /// Does a SACK with this cumulative TSN ack count? One that is old doesn't, nor does one that was never
    /// sent (RFC 9260, section 6.2.1).
    pub fn is_valid_ack(&self, cumulative_tsn_ack: u32) -> bool
        ensures { result ≡ is_sack_valid self.now.retransmission cumulative_tsn_ack }
    {
        self.retransmission_queue.is_valid_ack(cumulative_tsn_ack)
    }

    /// The receive window that the peer reported last, in bytes.
    pub fn peer_window(&self) -> u32
        ensures { result ≡ min self.now.retransmission.peer_window (2 ^ 32 - 1) }
    {
        u32::try_from(self.retransmission_queue.peer_window()).unwrap_or(u32::MAX)
    }

    /// When what is in flight is lost, where something is.
    pub fn retransmission_deadline(&self) -> Option<SocketTime>
        ensures { result ≡ retransmission_deadline self.now.retransmission }
    {
        self.retransmission_queue.next_timeout()
    }

    /// Advances the retransmission timer to `now`, and returns whether what is in flight is lost. Then it
    /// waits to be sent again, and the timer runs again for twice as long (RFC 9260, section 6.3.3); else
    /// nothing changes.
    pub fn expire_retransmission(&mut self, now: SocketTime) -> bool
        ensures answer { result ≡ has_come now (retransmission_deadline self.old.retransmission) }
        ensures left { self.new ≡ lost_if_due result now self.old }
    {
        self.retransmission_queue.handle_timeout(now)
    }

    /// Takes a round trip into account, if one was measured.
    #[inline(always)]
    pub fn observe_round_trip(&mut self, rtt: Option<Duration>)
        ensures { self.new ≡ timed_transfer (option_map as_nanos rtt) self.old }
    {
        if let Some(rtt) = rtt {
            self.rto.observe_rto(rtt);
            let rto = self.rto.rto();
            self.retransmission_queue
                .update_rto(rto, self.rto.is_measured());
            self.data_tracker.update_rto(rto);
        }
    }
}
