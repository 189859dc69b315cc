//! The random words of a script.

use rand_core::utils::NextWord;
use rand_core::{Rng, utils};
use std::alloc::{AllocError, Global};
use std::collections::VecDeque;
use std::marker::Model;

/// A generator that gives the listed words, one a draw, and then zeros.
///
/// A contract sees the list of the words that are left.
#[derive(Drop)]
pub struct Words {
    words: VecDeque<u64>,
}

impl Model for Words {
    ghost use Rattle.std.specs.Prelude.{ℕ, List};

    ghost Value = { List ℕ };

    ghost view = { λ words. words.words.items };
}

impl Words {
    ghost use Rattle.std.specs.Prelude.{◌≡◌, [], ◌∷◌, ◌++◌, OnOk, OnErr};

    /// A generator of zeros.
    pub fn new(alloc: Global) -> Words
        ensures { result ≡ [] }
    {
        Words {
            words: VecDeque::new(alloc),
        }
    }

    /// Appends a word to the list. `Err`: an allocation failed, and the list is unchanged.
    pub fn append(&mut self, word: u64) -> Result<(), AllocError>
        ensures ok { OnOk result (self.new ≡ self.old ++ word ∷ []) }
        ensures err { OnErr result (self.new ≡ self.old) }
    {
        self.words.push_back(word)?;
        Ok(())
    }
}

impl NextWord<u64> for Words {
    ghost use Rattle.dcsctp_script.specs.Words.{next_word};

    ghost step = { next_word };

    fn next_word(&mut self) -> u64 {
        self.words.pop_front().unwrap_or(0)
    }
}

/// A draw of 32 bits takes the low half of the next word.
impl Rng for Words {
    ghost use Rattle.rand_core.specs.Steps.{stream_of, steps_u64_low};
    ghost use Rattle.dcsctp_script.specs.Words.{next_word};

    ghost stream = { stream_of (steps_u64_low next_word) };

    fn next_u32(&mut self) -> u32 {
        (self.next_word() % 0x1_0000_0000) as u32
    }

    fn next_u64(&mut self) -> u64 {
        self.next_word()
    }

    fn fill_bytes(&mut self, dst: &mut [u8]) {
        utils::fill_bytes_via_u64(self, dst)
    }
}
