//! What messages under way take of the peer's receive window, where messages are interleaved (RFC 8260, section 2.1).

ghost use Rattle.std.specs.Prelude.{◌≡◌, ◌+◌, ◌*◌};
ghost use Rattle.dcsctp_api.specs.spec.queues.Sending.{part_cost, message_reserve, reserve_begun};

use super::Backlog;
use crate::UnderWay;

// What a receiver may count for a part of a message beside its bytes.
const PART_COST: u128 = 256;

// What a message of that many bytes takes at most, before its first part.
#[inline(always)]
fn whole_reserve(size: usize) -> u128
    ensures { result ≡ 2 * size + 2 * part_cost }
{
    2 * (size as u128) + 2 * PART_COST
}

/// What a message of that many bytes, which has come so far, takes until it ends.
#[inline(always)]
pub fn message_reserve(size: usize, under_way: UnderWay) -> u128
    ensures { result ≡ message_reserve size under_way }
{
    let parts = PART_COST * (under_way.next_fsn as u128);
    (whole_reserve(size) + parts).saturating_sub(under_way.sent as u128)
}

/// The same, but nothing if none of it was sent.
#[inline(always)]
pub fn reserve_begun(size: usize, under_way: UnderWay) -> u128
    ensures { result ≡ reserve_begun size under_way }
{
    if under_way.sent == 0 {
        0
    } else {
        message_reserve(size, under_way)
    }
}

impl Backlog {
    ghost use Rattle.std.specs.Prelude.{◌≡◌, nat_lt};
    ghost use Rattle.dcsctp_send_queue.specs.Backlog.{queue_of};
    ghost use Rattle.dcsctp_api.specs.spec.queues.Sending.{reserved_after, shared_window, has_room_beside};

    // How much messages under way may take together.
    #[inline(always)]
    fn shared_window(&self) -> u32
        ensures { result ≡ shared_window (queue_of self.now) }
    {
        self.window - self.window / 8
    }

    /// Do messages under way take more than they may share?
    #[inline(always)]
    pub fn is_crowded(&self) -> bool
        ensures { result ≡ nat_lt (shared_window (queue_of self.now)) self.now.reserved }
    {
        (self.shared_window() as u128) < self.reserved
    }

    /// Is there room for another message of that many bytes beside those under way?
    #[inline(always)]
    pub fn has_room_beside(&self, size: usize) -> bool
        ensures { result ≡ has_room_beside size (queue_of self.now) }
    {
        self.reserved.saturating_add(whole_reserve(size)) <= self.shared_window() as u128
    }

    /// Messages under way take so much less, and then so much more.
    #[inline(always)]
    pub fn reserve(&mut self, less: u128, more: u128)
        ensures { queue_of self.new
            ≡ record (queue_of self.old) {
              reserved = reserved_after less more (queue_of self.old);
            } }
    {
        self.reserved = self.reserved.saturating_sub(less).saturating_add(more);
    }
}
