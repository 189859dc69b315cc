//! Which snapshots a socket can be restored from.

ghost use Rattle.std.specs.Prelude.{◌≡◌, ◌==◌, ℕ, false, map};
ghost use Rattle.std.specs.Bool.{OnTrue};
ghost use Rattle.std.specs.List.{list_all};
ghost use Rattle.dcsctp_types.specs.SnapshotItems.{queued_part, outstanding_part};
ghost use Rattle.dcsctp_types.specs.Snapshot.{snapshot, send_part, received_part, names_twice, is_valid_queued};
ghost use Rattle.dcsctp_types.specs.Snapshot.{has_bytes_or_is_abandoned, is_valid_connected, is_valid_snapshot};

use crate::options::Options;
use crate::snapshot::{
    HandoverOrderedStream, HandoverOutgoingStream, HandoverOutstandingData, HandoverReceive,
    HandoverSocketState, HandoverStreamMessage, HandoverTransmission, HandoverUnorderedStream,
    SocketHandoverState,
};
use crate::stream_table::StreamTable;

// A stream in a list of streams.
trait Listed {
    ghost id_of: { Self → ℕ };

    // Its identifier.
    fn identifier(&self) -> u16
        ensures { result ≡ id_of self.now };
}

impl Listed for HandoverOutgoingStream {
    ghost id_of = { λ stream. stream.id };

    fn identifier(&self) -> u16 {
        self.id
    }
}

impl Listed for HandoverOrderedStream {
    ghost id_of = { λ stream. stream.id };

    fn identifier(&self) -> u16 {
        self.id
    }
}

impl Listed for HandoverUnorderedStream {
    ghost id_of = { λ stream. stream.id };

    fn identifier(&self) -> u16 {
        self.id
    }
}

// Is each identifier greater than the one before? Then no identifier occurs twice.
fn ascend<T: Listed>(streams: &[T]) -> bool
    ensures { OnTrue result (names_twice (map T.id_of streams.now) ≡ false) }
{
    let mut least: u32 = 0;
    for stream in streams {
        let id = u32::from(stream.identifier());
        if id < least {
            return false;
        }
        least = id + 1;
    }
    true
}

// Does an identifier occur twice? One pass, with a bit for each identifier that was seen.
fn has_repeat<T: Listed>(streams: &[T]) -> bool
    ensures { result ≡ names_twice (map T.id_of streams.now) }
{
    let mut seen = StreamTable::new();
    for stream in streams {
        let id = stream.identifier();
        if seen.has(u64::from(id)) {
            return true;
        }
        seen.mark(id);
    }
    false
}

// Does an identifier occur twice? The lists that a socket makes ascend, so one pass is enough for them.
fn has_twice<T: Listed>(streams: &[T]) -> bool
    ensures { result ≡ names_twice (map T.id_of streams.now) }
{
    !ascend(streams) && has_repeat(streams)
}

// Does each message have bytes that weren't sent?
fn have_unsent_bytes(messages: &[HandoverStreamMessage]) -> bool
    ensures { result ≡ list_all is_valid_queued (map queued_part messages.now) }
{
    for message in messages {
        if message.remaining_offset >= message.payload.len() {
            return false;
        }
    }
    true
}

// Do all outstanding data have bytes, but for what is abandoned?
fn have_bytes_or_are_abandoned(outstanding: &[HandoverOutstandingData]) -> bool
    ensures { result ≡ list_all has_bytes_or_is_abandoned (map outstanding_part outstanding.now) }
{
    for sent in outstanding {
        if sent.payload.is_empty() && !sent.is_abandoned {
            return false;
        }
    }
    true
}

impl HandoverTransmission {
    ghost use Rattle.dcsctp_types.specs.Snapshot.{sends_by_each_once, outstanding_count_fits, is_valid_send_part};

    // Does it name each stream once?
    fn names_each_once(&self) -> bool
        ensures { result ≡ sends_by_each_once (send_part self.now) }
    {
        !has_twice(&self.streams)
    }

    // Are there as many outstanding data as TSNs that were used and aren't acknowledged?
    fn outstanding_count_fits(&self) -> bool
        ensures { result ≡ outstanding_count_fits (send_part self.now) }
    {
        let used = self.next_tsn.wrapping_sub(self.last_cumulative_tsn_ack);
        self.outstanding_data.len() == used.wrapping_sub(1) as usize
    }

    // Can all of it be restored?
    fn is_valid(&self) -> bool
        ensures { result ≡ is_valid_send_part (send_part self.now) }
    {
        self.names_each_once()
            && have_unsent_bytes(&self.queued_messages)
            && have_bytes_or_are_abandoned(&self.outstanding_data)
            && self.outstanding_count_fits()
    }
}

impl HandoverReceive {
    ghost use Rattle.dcsctp_types.specs.Snapshot.{receives_ordered_by_each_once, receives_unordered_by_each_once};
    ghost use Rattle.dcsctp_types.specs.Snapshot.{is_valid_received_part};

    // Does it name each stream of ordered messages once?
    fn names_ordered_once(&self) -> bool
        ensures { result ≡ receives_ordered_by_each_once (received_part self.now) }
    {
        !has_twice(&self.ordered_streams)
    }

    // Does it name each stream of unordered messages once?
    fn names_unordered_once(&self) -> bool
        ensures { result ≡ receives_unordered_by_each_once (received_part self.now) }
    {
        !has_twice(&self.unordered_streams)
    }

    // Can all of it be restored?
    fn is_valid(&self) -> bool
        ensures { result ≡ is_valid_received_part (received_part self.now) }
    {
        self.names_ordered_once() && self.names_unordered_once()
    }
}

impl SocketHandoverState {
    // Can it be restored as a connected one?
    fn is_valid_connected(&self, options: &Options) -> bool
        ensures { result ≡ is_valid_connected options.now (snapshot self.now) }
    {
        let method = options.zero_checksum_alternate_error_detection_method;
        self.my_verification_tag != 0
            && self.peer_verification_tag != 0
            && (!self.capabilities.zero_checksum || method.0 != 0)
            && self.tx.is_valid()
            && self.rx.is_valid()
    }

    /// Can a socket with these options be restored from it? A closed snapshot is always valid. In a
    /// connected one no verification tag is 0, and zero checksum needs a method in the options. No list of
    /// streams names a stream twice. Each message has bytes that weren't sent. All outstanding data has
    /// bytes but what is abandoned, and there is as much as TSNs between `last_cumulative_tsn_ack` and
    /// `next_tsn`, modulo 2^32.
    pub fn is_valid(&self, options: &Options) -> bool
        ensures { result ≡ is_valid_snapshot options.now (snapshot self.now) }
    {
        match self.socket_state {
            HandoverSocketState::Closed => true,
            HandoverSocketState::Connected => self.is_valid_connected(options),
        }
    }
}
