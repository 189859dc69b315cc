//! The messages of a run, and which of them have arrived.

use crate::arguments::Plan;
use crate::failure::Failure;
use dcsctp_socket::{Message, PpId, StreamId};
use std::alloc::{AllocError, Global};

/// Which messages of a plan have arrived. They are numbered from 0, and each carries its number as the
/// protocol that it names.
#[derive(Drop)]
pub struct Ledger {
    alloc: Global,
    plan: Plan,

    // By number.
    has_arrived: Vec<bool>,

    /// How many messages there are.
    pub total: u32,

    /// How many have arrived.
    pub count: u32,

    /// The bytes of those that have arrived.
    pub bytes: u64,
}

impl Ledger {
    /// No message of this plan has arrived yet.
    pub fn new(alloc: Global, plan: &Plan) -> Result<Ledger, AllocError> {
        let total = plan.count.saturating_add(plan.queued);
        let len = usize::try_from(total).unwrap_or(usize::MAX);
        Ok(Ledger {
            alloc,
            plan: *plan,
            has_arrived: vec![in alloc; false; len]?,
            total,
            count: 0,
            bytes: 0,
        })
    }

    // The stream of a message, since streams take turns, and each byte of it.
    fn contents(&self, number: u32) -> (StreamId, u8) {
        let turn = number.checked_rem(u32::from(self.plan.streams));
        let stream = u16::try_from(turn.unwrap_or(0)).unwrap_or(0);
        (StreamId(stream), (number % 251) as u8)
    }

    /// The message of this number.
    pub fn message(&self, number: u32) -> Result<Message, AllocError> {
        let (stream, filling) = self.contents(number);
        let payload = vec![in self.alloc; filling; self.plan.size]?;
        Ok(Message::new(stream, PpId(number), payload))
    }

    // Is this the message of that number?
    fn is_right(&self, message: &Message, number: u32) -> bool {
        let (stream, filling) = self.contents(number);
        let payload = message.payload.as_slice();
        message.stream_id.0 == stream.0
            && payload.len() == self.plan.size
            && payload.first().copied() == Some(filling)
            && payload.last().copied() == Some(filling)
    }

    // Has the message of this number arrived?
    fn has(&self, number: u32) -> bool {
        let place = usize::try_from(number).unwrap_or(usize::MAX);
        self.has_arrived.get(place).copied() == Some(true)
    }

    // May the message of this number come now? If messages are ordered, the one before it on its stream has
    // come.
    fn is_in_place(&self, number: u32) -> bool {
        match number.checked_sub(u32::from(self.plan.streams)) {
            Some(before) if !self.plan.is_unordered => self.has(before),
            _ => true,
        }
    }

    /// Records a message that has arrived.
    pub fn note(&mut self, message: &Message) -> Result<(), Failure> {
        let number = message.ppid.0;
        let is_due = self.is_in_place(number) && !self.has(number);
        let place = usize::try_from(number).unwrap_or(usize::MAX);
        if !is_due || !self.is_right(message, number) {
            return Err(Failure::Wrong(number));
        }
        let Some(has_arrived) = self.has_arrived.get_mut(place) else {
            return Err(Failure::Wrong(number));
        };
        *has_arrived = true;
        self.count = self.count.saturating_add(1);
        let bytes = u64::try_from(message.payload.len()).unwrap_or(u64::MAX);
        self.bytes = self.bytes.saturating_add(bytes);
        Ok(())
    }
}
