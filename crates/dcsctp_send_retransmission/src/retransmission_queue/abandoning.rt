//! Abandoning messages, and reporting that to the peer (RFC 3758, section 3.5; RFC 8260, section 2.3.1).

ghost use Rattle.std.specs.Prelude.{◌≡◌, ◌++◌, true, OnOk, OnErr};
ghost use Rattle.std.specs.Option.{option_map};
ghost use Rattle.dcsctp_api.specs.types.Ids.{lifecycle_number};
ghost use Rattle.dcsctp_send_queue.specs.Telling.{contents, AddsFront};
ghost use Rattle.dcsctp_api.specs.spec.queues.Filling.{maybe_expired};
ghost use Rattle.dcsctp_api.specs.spec.queues.NextItem.{is_used_up, is_over, is_abandonment_due};

use super::RetransmissionQueue;
use crate::Item;
use dcsctp_api::types::Change;
use dcsctp_api::{Events, LifecycleId, SocketEvent, SocketTime};
use dcsctp_send_queue::SendQueue;
use std::alloc::AllocError;

impl RetransmissionQueue {
    ghost use Rattle.std.specs.Prelude.{ℕ, List, [], ◌&&◌, ◌+◌, ◌-◌, ◌/◌, ◌<◌, ◌≤◌, IfOk, length};
    ghost use Rattle.dcsctp_api.specs.spec.endpoint.Timers.{is_expired_timer};
    ghost use Rattle.dcsctp_api.specs.spec.queues.Items.{is_first_abandoned};
    ghost use Rattle.dcsctp_send_retransmission.specs.Queue.{MayGrow, AbandonsItems};
    ghost use Rattle.dcsctp_api.specs.spec.queues.ItemMessages.{AtPlace};
    ghost use Rattle.dcsctp_api.specs.types.queues.Progress.{is_unacknowledged};
    ghost use Rattle.dcsctp_send_retransmission.specs.States.{RefusesAbandoningItem, RefusesClosing, stage};
    ghost use Rattle.dcsctp_api.specs.spec.queues.Filling.{GivesUpItem, ClosesMessage};
    ghost use Rattle.dcsctp_send_retransmission.specs.GivingUp.{GivesUpDue, GivesUpIf};

    // Is the message of the item at the place to be abandoned instead of being sent again?
    pub(super) fn is_to_be_given_up(&self, place: usize, now: SocketTime) -> bool
        requires { place < length self.now.outstanding.items }
        ensures { AtPlace self.now.outstanding.items place
            (λ item. result ≡ is_abandonment_due now self.now.partial_reliability item) }
    {
        self.partial_reliability && is_lost_for_good(self.outstanding.item(place), now)
    }

    // Abandons the message of the item at the place, with what waits of it in the send queue.
    pub(super) fn give_up(
        &mut self,
        events: &mut Events,
        queue: &mut SendQueue,
        now: SocketTime,
        place: usize,
    ) -> Result<(), AllocError>
        requires { place < length self.old.outstanding.items }
        ensures ok { OnOk result (AbandonsItems place self.old self.new) }
        ensures whole { OnOk result
            ((tsns : List ℕ) (room : ℕ)
            → GivesUpItem now place (stage self.old queue.old events.old tsns room)
            (stage self.new queue.new events.new tsns room)) }
        ensures err { OnErr result ((self.new ≡ self.old) × (queue.new ≡ queue.old)) }
        ensures front { OnErr result
            (RefusesAbandoningItem place self.old.outstanding.items queue.old (contents events.old)
            (contents events.new)) }
    {
        let (start, end) = self.outstanding.message_places(place);
        self.close_message(events, queue, now, end - 1)?;
        self.outstanding.change_between(Change::Abandon, start, end);
        Ok(())
    }

    // Reports that the message whose last item is at the place was abandoned. If it wasn't fully sent, drops
    // what waits of it in the send queue.
    fn close_message(
        &mut self,
        events: &mut Events,
        queue: &mut SendQueue,
        now: SocketTime,
        place: usize,
    ) -> Result<(), AllocError>
        requires { place < length self.old.outstanding.items }
        ensures may { MayGrow self.old self.new }
        ensures ok { AtPlace self.old.outstanding.items place
            (λ last. OnOk result
            ((tsns : List ℕ) (room : ℕ)
            → ClosesMessage now last (stage self.old queue.old events.old tsns room)
            (stage self.new queue.new events.new tsns room) last.fragment.is_end)) }
        ensures err { OnErr result ((self.new ≡ self.old) × (queue.new ≡ queue.old)) }
        ensures front { AtPlace self.old.outstanding.items place
            (λ last. OnErr result
            (RefusesClosing self.old.outstanding.items last queue.old (contents events.old)
            (contents events.new) last.fragment.is_end)) }
    {
        let last = &self.outstanding.item(place).fragment;
        if last.is_end {
            return tell_maybe_expired(events, last.lifecycle_id);
        }
        if !self.outstanding.has_room() {
            return Ok(());
        }
        self.outstanding
            .discard_rest(events, queue, now, place, self.reset_begun)
    }

    /// Is a FORWARD-TSN due at the moment `now`? Yes if partial reliability was negotiated and the first
    /// outstanding item was abandoned. First what is lost is abandoned, as `get_chunks_to_send` does, up to
    /// the first item that is still awaited.
    ///
    /// `Err`: an allocation failed. Some messages may have been abandoned.
    pub fn should_send_forward_tsn(
        &mut self,
        events: &mut Events,
        queue: &mut SendQueue,
        now: SocketTime,
    ) -> Result<bool, AllocError>
        ensures due { IfOk result
            (λ due. due
            ≡ (self.old.partial_reliability && is_first_abandoned self.new.outstanding.items)) }
        ensures gives_up { GivesUpDue now (stage self.old queue.old events.old [] 0)
            (stage self.new queue.new events.new [] 0) result }
    {
        if !self.partial_reliability {
            return Ok(false);
        }
        self.give_up_first(events, queue, now)?;
        Ok(self.is_first_abandoned())
    }

    // Abandons what is due, from the first item on up to one that is still awaited. Only what waits to be sent again
    // may be due.
    fn give_up_first(
        &mut self,
        events: &mut Events,
        queue: &mut SendQueue,
        now: SocketTime,
    ) -> Result<(), AllocError>
        ensures { GivesUpDue now (stage self.old queue.old events.old [] 0)
            (stage self.new queue.new events.new [] 0) result }
    {
        if self.outstanding.marked_items() == 0 {
            return Ok(());
        }
        for place in 0..self.outstanding.len() {
            self.give_up_if_due(events, queue, now, place)?;
            if self.is_awaited(place) {
                return Ok(());
            }
        }
        Ok(())
    }

    // Abandons the message of the item at the place, if it is to be.
    fn give_up_if_due(
        &mut self,
        events: &mut Events,
        queue: &mut SendQueue,
        now: SocketTime,
        place: usize,
    ) -> Result<(), AllocError>
        requires { place < length self.old.outstanding.items }
        ensures { AtPlace self.old.outstanding.items place
            (λ item. GivesUpIf now place (stage self.old queue.old events.old [] 0)
            (stage self.new queue.new events.new [] 0)
            (is_abandonment_due now self.old.partial_reliability item) result) }
    {
        if !self.is_to_be_given_up(place, now) {
            return Ok(());
        }
        self.give_up(events, queue, now, place)
    }

    // Was the item at the place neither acknowledged nor abandoned?
    fn is_awaited(&self, place: usize) -> bool
        requires { place < length self.now.outstanding.items }
        ensures { AtPlace self.now.outstanding.items place
            (λ item. result ≡ is_unacknowledged item.progress.state) }
    {
        let item = self.outstanding.item(place);
        item.progress.state.is_unacknowledged()
    }

    /// Was the message of the first item abandoned?
    pub fn is_first_abandoned(&self) -> bool
        ensures { result ≡ is_first_abandoned self.now.outstanding.items }
    {
        if self.outstanding.len() == 0 {
            return false;
        }
        let item = self.outstanding.item(0);
        item.progress.state.is_abandoned()
    }
}

// Was the item lost, and may it not be sent again?
fn is_lost_for_good(item: &Item, now: SocketTime) -> bool
    ensures { result ≡ is_abandonment_due now true item.now }
{
    item.progress.state.is_marked()
        && (is_used_up(
            item.fragment.max_retransmissions,
            item.progress.times_sent_again,
        ) || is_over(item.fragment.expires_at, now))
}

// Was it sent again as often as it may be?
fn is_used_up(limit: Option<u16>, times: u16) -> bool
    ensures { result ≡ is_used_up limit times }
{
    match limit {
        None => false,
        Some(limit) => limit <= times,
    }
}

// Is its lifetime over?
fn is_over(moment: Option<SocketTime>, now: SocketTime) -> bool
    ensures { result ≡ is_over moment now }
{
    match moment {
        None => false,
        Some(moment) => moment < now,
    }
}

// Reports that the peer may have a message or not, if the message has a lifecycle id.
fn tell_maybe_expired(events: &mut Events, id: Option<LifecycleId>) -> Result<(), AllocError>
    ensures ok { OnOk result
        (contents events.new
        ≡ contents events.old ++ maybe_expired (option_map lifecycle_number id)) }
    ensures err { OnErr result
        (AddsFront (contents events.old) (maybe_expired (option_map lifecycle_number id))
        (contents events.new)) }
{
    if let Some(id) = id {
        events.add(SocketEvent::OnLifecycleMessageMaybeExpired(id))?;
        events.add(SocketEvent::OnLifecycleEnd(id))?;
    }
    Ok(())
}
