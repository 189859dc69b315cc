//! A generator that keeps its words answers each draw, and keeps the first ones if it has no room for all.

use dcsctp_testing::Counting;
use dcsctp_world::Recorded;
use dcsctp_world::socket::Word;
use rand_core::Rng;
use std::process::Abort;

// The words that are kept must be the first ones of a generator that counts from 0.
fn are_first(rt: &impl Abort, words: &[Word]) {
    for (index, word) in words.iter().enumerate() {
        assert_eq!(rt; *word, Word::U64(index as u64), "word {index}");
    }
}

// If an allocation fails once, the words before it stay, and none is added.
#[test]
fn a_word_without_room_is_answered_and_not_kept(rt: HostRuntime) {
    let mut recorded = Recorded::new(rt.alloc(), Counting { next: 0 });
    for drawn in 0..40 {
        let kept = recorded.words().len();
        let was_whole = recorded.is_whole();
        assert_eq!(&rt; recorded.next_u64(), drawn, "another word is answered");
        are_first(&rt, recorded.words());
        if recorded.is_whole() {
            assert!(&rt; was_whole, "it is whole again");
            assert_eq!(&rt; recorded.words().len() as u64, drawn + 1, "words kept");
        } else {
            assert_eq!(&rt; recorded.words().len(), kept, "words kept without room");
        }
    }
}
