//! A generator that counts.

use rand_core::utils::NextWord;
use rand_core::{Rng, utils};

/// A generator whose words go up by one, modulo 2^64. A draw of 32 bits takes the low half of a word.
#[derive(Drop)]
pub struct Counting {
    /// The next word.
    pub next: u64,
}

impl NextWord<u64> for Counting {
    ghost use Rattle.std.specs.Prelude.{◌+◌, ◌%◌, ◌^◌};

    ghost step = { λ s. (s.next, record { next = (s.next + 1) % 2 ^ 64 }) };

    fn next_word(&mut self) -> u64 {
        let word = self.next;
        self.next = word.wrapping_add(1);
        word
    }
}

impl Rng for Counting {
    ghost use Rattle.std.specs.Prelude.{◌+◌, ◌%◌, ◌^◌};
    ghost use Rattle.rand_core.specs.Steps.{stream_of, steps_u64_low};

    ghost stream = { stream_of (steps_u64_low (λ s. (s.next, record { next = (s.next + 1) % 2 ^ 64 }))) };

    fn next_u32(&mut self) -> u32 {
        (self.next_word() % 0x1_0000_0000) as u32
    }

    fn next_u64(&mut self) -> u64 {
        self.next_word()
    }

    fn fill_bytes(&mut self, dst: &mut [u8]) {
        utils::fill_bytes_via_u64(self, dst)
    }
}
