//! A generator whose words make verification tags that never repeat.

use rand_core::utils::NextWord;
use rand_core::{Rng, utils};

/// A counter modulo 2^32 - 2. A tag is the word modulo this number, plus 1. So no tag repeats before as many words
/// were drawn, if the stride is odd and less than 2^31 - 1, by which the number is divisible.
#[derive(Drop)]
pub struct Counter {
    /// The first word.
    pub first: u64,

    /// How much each word is greater than the one before.
    pub stride: u32,
}

impl NextWord<u64> for Counter {
    ghost use Rattle.std.specs.Prelude.{◌+◌, ◌%◌};

    ghost step = { λ s. (s.first % 4294967294, record { first = s.first % 4294967294 + s.stride; stride = s.stride }) };

    fn next_word(&mut self) -> u64 {
        let word = self.first % 0xffff_fffe;
        self.first = word + u64::from(self.stride);
        word
    }
}

impl Rng for Counter {
    ghost use Rattle.std.specs.Prelude.{◌+◌, ◌%◌};
    ghost use Rattle.rand_core.specs.Steps.{stream_of, steps_u64_low};

    ghost stream = { stream_of (steps_u64_low (λ s. (
      s.first % 4294967294,
      record { first = s.first % 4294967294 + s.stride; stride = s.stride },
    ))) };

    fn next_u32(&mut self) -> u32 {
        (self.next_word() % 0x1_0000_0000) as u32
    }

    fn next_u64(&mut self) -> u64 {
        self.next_word()
    }

    fn fill_bytes(&mut self, dst: &mut [u8]) {
        utils::fill_bytes_via_u64(self, dst)
    }
}
