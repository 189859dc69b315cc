//! A generator whose words are known.

use rand_core::utils::NextWord;
use rand_core::{Rng, utils};

/// A generator that gives two words, and then zeros. A draw of 32 bits takes the low half of a word.
#[derive(Drop)]
pub struct TwoWords {
    /// The first word.
    pub first: u64,

    /// The second word.
    pub second: u64,
}

impl NextWord<u64> for TwoWords {
    ghost step = { λ s. (s.first, record { first = s.second; second = 0 }) };

    fn next_word(&mut self) -> u64 {
        let word = self.first;
        self.first = self.second;
        self.second = 0;
        word
    }
}

impl Rng for TwoWords {
    ghost use Rattle.rand_core.specs.Steps.{stream_of, steps_u64_low};

    ghost stream = { stream_of (steps_u64_low (λ s. (s.first, record { first = s.second; second = 0 }))) };

    fn next_u32(&mut self) -> u32 {
        (self.next_word() % 0x1_0000_0000) as u32
    }

    fn next_u64(&mut self) -> u64 {
        self.next_word()
    }

    fn fill_bytes(&mut self, dst: &mut [u8]) {
        utils::fill_bytes_via_u64(self, dst)
    }
}
