//! The messages of a run, and which of them have arrived.

use dcsctp_send_retransmission::api::{Message, PpId, SendOptions, StreamId};
use rand_core::Rng;
use rand_xoshiro::Xoshiro256PlusPlus;
use std::alloc::{AllocError, Global};
use std::process::Abort;

/// What a message is, by its number in the run.
#[derive(Clone, Copy)]
pub struct Planned {
    stream: u16,
    size: usize,
    is_unordered: bool,
    is_limited: bool,
    has_arrived: bool,
}

/// All messages of a run.
#[derive(Drop)]
pub struct Messages {
    alloc: Global,
    planned: Vec<Planned>,

    // One more than the number of the last ordered message, for each stream.
    after_last: [usize; 4],
}

// The byte at a place of a message.
fn byte_at(number: usize, place: usize) -> u8 {
    ((number.wrapping_mul(31)).wrapping_add(place) % 251) as u8
}

impl Messages {
    /// That many messages of 1 to 5,000 bytes on four streams, every third of them unordered. If some are
    /// limited, every second one is sent again twice at most.
    pub fn plan(
        alloc: Global,
        rng: &mut Xoshiro256PlusPlus,
        count: usize,
        has_limits: bool,
    ) -> Result<Messages, AllocError> {
        let mut planned = Vec::new(alloc);
        for number in 0..count {
            planned.push(Planned {
                stream: (rng.next_u32() % 4) as u16,
                size: 1 + (rng.next_u32() % 5000) as usize,
                is_unordered: number % 3 == 0,
                is_limited: has_limits && number % 2 == 0,
                has_arrived: false,
            })?;
        }
        Ok(Messages {
            alloc,
            planned,
            after_last: [0; 4],
        })
    }

    /// How many there are.
    pub fn count(&self) -> usize {
        self.planned.len()
    }

    /// The message of a number. Its number is the protocol that it names.
    pub fn message(&self, rt: &impl Abort, number: usize) -> Result<Message, AllocError> {
        let planned = self.planned.get(number).expect(rt, "no such message");
        let mut payload = Vec::with_capacity(self.alloc, planned.size)?;
        for place in 0..planned.size {
            payload.push(byte_at(number, place))?;
        }
        Ok(Message::new(
            StreamId(planned.stream),
            PpId((number % 0x1_0000_0000) as u32),
            payload,
        ))
    }

    /// How it is to be sent.
    pub fn options(&self, rt: &impl Abort, number: usize) -> SendOptions {
        let planned = self.planned.get(number).expect(rt, "no such message");
        let mut options = SendOptions::default();
        options.unordered = planned.is_unordered;
        if planned.is_limited {
            options.max_retransmissions = Some(2);
        }
        options
    }

    /// Records that a message has arrived: whole, once, and if it is ordered after those before it.
    pub fn arrives(&mut self, rt: &impl Abort, message: &Message) {
        let number = message.ppid.0 as usize;
        let planned = *self.planned.get(number).expect(rt, "no such message");
        assert_eq!(rt; message.stream_id.0, planned.stream, "stream of {number}");
        assert_eq!(rt; message.payload.len(), planned.size, "size of {number}");
        for place in 0..planned.size {
            let byte = *message.payload.get(place).expect(rt, "no such byte");
            assert_eq!(rt; byte, byte_at(number, place), "byte {place} of {number}");
        }
        assert!(rt; !planned.has_arrived, "{number} came twice");
        if !planned.is_unordered {
            let stream = usize::from(planned.stream % 4);
            assert!(rt;
                self.after_last[stream] <= number,
                "{number} is out of order"
            );
            self.after_last[stream] = number + 1;
        }
        if let Some(planned) = self.planned.get_mut(number) {
            planned.has_arrived = true;
        }
    }

    /// Have all arrived that must?
    pub fn are_complete(&self) -> bool {
        for planned in &self.planned {
            if !planned.has_arrived && !planned.is_limited {
                return false;
            }
        }
        true
    }
}
