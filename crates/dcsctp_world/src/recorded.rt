//! A generator that keeps the words that it gave.

use dcsctp_socket::Word;
use rand_core::Rng;
use std::alloc::Global;
use std::marker::Model;

/// A generator over another one, which keeps each word that it gave, in order.
///
/// It answers what the other one answers. If there is no room for a word, or bytes are asked for, it still
/// answers, keeps nothing from then on, and `is_whole` is false.
#[derive(Drop)]
pub struct Recorded<R> {
    inner: R,
    words: Vec<Word>,
    is_whole: bool,
}

impl<R> Model for Recorded<R> {
    ghost use Rattle.dcsctp_world.specs.Recording.{Recording};

    ghost Value = { Recording R };

    ghost view = { λ r. record { inner = r.inner; words = r.words.items; is_whole = r.is_whole } };
}

impl<R> Recorded<R> {
    ghost use Rattle.std.specs.Prelude.{◌≡◌};
    ghost use Rattle.dcsctp_world.specs.Recording.{fresh_recording, KeepsWord};

    /// A generator over this one, which gave nothing yet. Allocates nothing.
    pub fn new(alloc: Global, inner: R) -> Recorded<R>
        ensures { result ≡ fresh_recording inner }
    {
        Recorded {
            inner,
            words: Vec::new(alloc),
            is_whole: true,
        }
    }

    // Keeps a word that was given, if each before it is kept and there is room.
    fn keep(&mut self, word: Word)
        ensures kept { KeepsWord word self.old self.new }
        ensures inner { self.new.inner ≡ self.old.inner }
    {
        if self.is_whole {
            self.is_whole = self.words.push(word).is_ok();
        }
    }

    /// The words that it gave, in order: each, or the first ones if `is_whole` is false. Allocates nothing.
    pub fn words(&self) -> &[Word]
        ensures { result.now ≡ self.now.words }
    {
        &self.words
    }

    /// Are all that it gave among `words`? Not once there was no room for one, or bytes were asked for. Allocates
    /// nothing.
    pub fn is_whole(&self) -> bool
        ensures { result ≡ self.now.is_whole }
    {
        self.is_whole
    }

    /// The generator that it is over, as it is now. Allocates nothing.
    pub fn inner(&self) -> &R
        ensures { result.now ≡ self.now.inner }
    {
        &self.inner
    }
}

impl<R: Rng> Rng for Recorded<R> {
    ghost use Rattle.std.specs.Prelude.{◌≡◌, false, length};
    ghost use Rattle.rand_core.specs.Stream.{next_u32, next_u64, fill_bytes};
    ghost use Rattle.dcsctp_core.specs.types.declared.word.Word.TheVariants.{U32, U64};
    ghost use Rattle.dcsctp_world.specs.Recording.{KeepsWord};

    ghost stream = { λ r. R.stream r.inner };

    fn next_u32(&mut self) -> u32
        ensures answer { (result, R.stream self.new.inner) ≡ next_u32 (R.stream self.old.inner) }
        ensures kept { KeepsWord (U32 result) self.old self.new }
    {
        let word = self.inner.next_u32();
        self.keep(Word::U32(word));
        word
    }

    fn next_u64(&mut self) -> u64
        ensures answer { (result, R.stream self.new.inner) ≡ next_u64 (R.stream self.old.inner) }
        ensures kept { KeepsWord (U64 result) self.old self.new }
    {
        let word = self.inner.next_u64();
        self.keep(Word::U64(word));
        word
    }

    fn fill_bytes(&mut self, dst: &mut [u8])
        ensures answer { (dst.new, R.stream self.new.inner)
            ≡ fill_bytes (length dst.old) (R.stream self.old.inner) }
        ensures words { self.new.words ≡ self.old.words }
        ensures ends { self.new.is_whole ≡ false }
    {
        self.is_whole = false;
        self.inner.fill_bytes(dst)
    }
}
