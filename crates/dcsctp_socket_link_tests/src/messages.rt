//! The messages of one direction, and which of them have arrived.

use crate::run::{Effort, Run};
use dcsctp_socket::{Message, PpId, SendOptions, StreamId};
use rand_core::{Rng, SeedableRng};
use rand_xoshiro::Xoshiro256PlusPlus;
use std::alloc::Global;
use std::process::Abort;
use std::time::Duration;

// What a message is, by its number.
#[derive(Clone, Copy)]
struct Planned {
    stream: u16,
    size: usize,
    effort: Effort,
    is_unordered: bool,
    has_arrived: bool,
}

/// All messages of one direction.
#[derive(Drop)]
pub struct Messages {
    alloc: Global,
    planned: Vec<Planned>,

    // One more than the number of the last ordered message that arrived, for each stream.
    after_last: [usize; 4],

    // One more than the greatest number that arrived, for each stream.
    after_greatest: [usize; 4],

    // The number of the first message after the reset that is under way, for each stream; `COUNT` if none is.
    behind_reset: [usize; 4],

    /// How many messages came after one of their stream that was sent later.
    pub overtaken: usize,
}

/// How many messages there are.
pub const COUNT: usize = 300;

// The byte at a place of a message.
fn byte_at(number: usize, place: usize) -> u8 {
    ((number.wrapping_mul(31)).wrapping_add(place) % 251) as u8
}

// The message of a number. The last one of each of the four streams is ordered and reliable.
fn plan_of(rng: &mut Xoshiro256PlusPlus, number: usize, run: &Run) -> Planned {
    let is_last = COUNT - 4 <= number;
    Planned {
        stream: if is_last {
            (number % 4) as u16
        } else {
            (rng.next_u32() % 4) as u16
        },
        size: 1 + (rng.next_u32() % run.longest.max(1)) as usize,
        effort: if is_last {
            Effort::Reliable
        } else {
            run.efforts[number % 4]
        },
        is_unordered: run.has_unordered && !is_last && number % 3 == 0,
        has_arrived: false,
    }
}

impl Messages {
    /// The messages of a run.
    pub fn plan(rt: &impl Abort, alloc: Global, run: &Run) -> Messages {
        let mut rng = Xoshiro256PlusPlus::seed_from_u64(run.seed.wrapping_add(2_000_000));
        let mut list = Vec::new(alloc);
        for number in 0..COUNT {
            list.push(plan_of(&mut rng, number, run))
                .expect(rt, "no plan");
        }
        Messages {
            alloc,
            planned: list,
            after_last: [0; 4],
            after_greatest: [0; 4],
            behind_reset: [COUNT; 4],
            overtaken: 0,
        }
    }

    /// The message of a number. Its number is the protocol that it names.
    pub fn message(&self, rt: &impl Abort, number: usize) -> Message {
        let planned = self.planned.get(number).expect(rt, "no such message");
        let mut payload = Vec::new(self.alloc);
        for place in 0..planned.size {
            payload.push(byte_at(number, place)).expect(rt, "no byte");
        }
        let ppid = PpId((number % 0x1_0000_0000) as u32);
        Message::new(StreamId(planned.stream), ppid, payload)
    }

    /// How it is to be sent.
    pub fn options(&self, rt: &impl Abort, number: usize) -> SendOptions {
        let planned = self.planned.get(number).expect(rt, "no such message");
        let mut options = SendOptions::default();
        options.unordered = planned.is_unordered;
        match planned.effort {
            Effort::Reliable => {}
            Effort::SentOnce => options.max_retransmissions = Some(0),
            Effort::SentTwice => options.max_retransmissions = Some(1),
            Effort::Lifetime => options.lifetime = Some(Duration::from_millis(100)),
        }
        options
    }

    /// A stream is to be reset, and the next message is the one of this number.
    pub fn resets(&mut self, stream: u16, number: usize) {
        if let Some(first) = self.behind_reset.get_mut(usize::from(stream)) {
            *first = number;
        }
    }

    /// The receiver reports that a stream was reset: the reset was under way, and all messages before it that may
    /// not be abandoned have arrived.
    pub fn is_reset(&mut self, rt: &impl Abort, stream: u16) {
        let Some(behind_reset) = self.behind_reset.get_mut(usize::from(stream)) else {
            return;
        };
        let first = *behind_reset;
        *behind_reset = COUNT;
        assert!(rt; first < COUNT, "no reset of {stream} is under way");
        for number in 0..first {
            let planned = *self.planned.get(number).expect(rt, "no such message");
            assert!(rt;
                planned.stream != stream
                    || planned.has_arrived
                    || planned.effort != Effort::Reliable,
                "{number} is missing before the reset"
            );
        }
    }

    // Records the number of a message that has arrived: none comes before a reset after which it was sent, and
    // an ordered one must come after those before it on its stream.
    fn note(&mut self, rt: &impl Abort, number: usize, planned: &Planned) {
        let stream = usize::from(planned.stream % 4);
        let after = number.saturating_add(1);
        if after < self.after_greatest[stream] {
            self.overtaken = self.overtaken.saturating_add(1);
        }
        self.after_greatest[stream] = self.after_greatest[stream].max(after);
        assert!(rt;
            number < self.behind_reset[stream],
            "{number} came before the reset"
        );
        if planned.is_unordered {
            return;
        }
        assert!(rt;
            self.after_last[stream] <= number,
            "{number} is out of order"
        );
        self.after_last[stream] = after;
    }

    /// Records that a message has arrived: whole, once, and in its place.
    pub fn arrives(&mut self, rt: &impl Abort, message: &Message) {
        let number = message.ppid.0 as usize;
        let planned = *self.planned.get(number).expect(rt, "no such message");
        assert_eq!(rt; message.stream_id.0, planned.stream, "stream of {number}");
        assert_eq!(rt; message.payload.len(), planned.size, "size of {number}");
        for place in 0..planned.size {
            let byte = *message.payload.get(place).expect(rt, "no such byte");
            assert_eq!(rt; byte, byte_at(number, place), "byte {place} of {number}");
        }
        assert!(rt; !planned.has_arrived, "{number} came twice");
        self.note(rt, number, &planned);
        if let Some(planned) = self.planned.get_mut(number) {
            planned.has_arrived = true;
        }
    }

    /// How many are missing that must arrive, and how many of the others.
    pub fn missing(&self) -> (usize, usize) {
        let mut reliable = 0usize;
        let mut limited = 0usize;
        for planned in &self.planned {
            if planned.has_arrived {
                continue;
            }
            match planned.effort {
                Effort::Reliable => reliable = reliable.saturating_add(1),
                Effort::SentOnce | Effort::SentTwice | Effort::Lifetime => {
                    limited = limited.saturating_add(1);
                }
            }
        }
        (reliable, limited)
    }
}
