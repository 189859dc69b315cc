//! The numbers of a stream's messages and of its turns.

use super::OutgoingStream;

impl OutgoingStream {
    ghost use Rattle.std.specs.Prelude.{◌≡◌};
    ghost use Rattle.dcsctp_api.specs.types.queues.SendStreams.{next_numbers, stream_counted, served_stream, fills_turn, stream_with_turn_bytes};

    /// The numbers of an ordered or unordered message that is started next: SSN and MID. One of the two is
    /// sent, by whether messages are interleaved.
    pub fn next_numbers(&self, is_unordered: bool) -> (u16, u32)
        ensures { result ≡ next_numbers is_unordered self.now }
    {
        if is_unordered {
            (0, self.next_unordered_mid)
        } else {
            (self.next_ssn, self.next_mid)
        }
    }

    /// Counts a message that is started: with interleaving its MID, else its SSN, which an unordered message
    /// doesn't have (RFC 8260, section 2.1).
    pub fn count_begun(&mut self, is_interleaved: bool, is_unordered: bool)
        ensures { self.new ≡ stream_counted is_interleaved is_unordered self.old }
    {
        match (is_interleaved, is_unordered) {
            (false, false) => self.next_ssn = self.next_ssn.wrapping_add(1),
            (false, true) => {}
            (true, false) => self.next_mid = self.next_mid.wrapping_add(1),
            (true, true) => self.next_unordered_mid = self.next_unordered_mid.wrapping_add(1),
        }
    }

    /// Sends that many bytes of its turn, which has `turn_size` bytes. Is its turn over? What it sends beyond
    /// that counts for the next.
    #[inline(always)]
    pub fn use_turn(&mut self, turn_size: usize, size: usize) -> bool
        ensures left { self.new ≡ stream_with_turn_bytes turn_size size self.old }
        ensures over { result ≡ fills_turn turn_size size self.old }
    {
        let bytes = self.turn_bytes.saturating_add(size);
        let is_over = turn_size <= bytes;
        self.turn_bytes = if is_over { bytes - turn_size } else { bytes };
        is_over
    }

    /// The turn that it had last.
    pub fn last_turn(&self) -> u64
        ensures { result ≡ self.now.last_turn }
    {
        self.last_turn
    }

    /// It has this turn.
    pub fn serve(&mut self, turn: u64)
        ensures { self.new ≡ served_stream turn self.old }
    {
        self.last_turn = turn;
    }
}
