//! How far a stream's oldest message has come.

use super::OutgoingStream;
use crate::paused::Standing;
use dcsctp_api::types::{Pause, UnderWay};

impl OutgoingStream {
    ghost use Rattle.std.specs.Prelude.{◌≡◌};
    ghost use Rattle.dcsctp_api.specs.types.queues.SendStreams.{stream_with_progress, stream_put_back, progress_size};
    ghost use Rattle.dcsctp_api.specs.spec.queues.SendQueue.{HaveBytes, CanGoOn, IsUnderWay};
    ghost use Rattle.dcsctp_api.specs.spec.queues.OwnResets.{count_under_way};
    ghost use Rattle.dcsctp_send_queue.specs.Pausing.{pause_in_order, standing_of};

    /// How far its oldest message has come, if it was started.
    pub fn under_way(&self) -> Option<UnderWay>
        ensures progress { result ≡ self.now.under_way }
        ensures bytes { HaveBytes self.now }
        ensures can { CanGoOn self.now }
    {
        self.under_way
    }

    /// How many of its messages are under way: none or one.
    pub fn count_under_way(&self) -> usize
        ensures { result ≡ count_under_way self.now }
    {
        match self.under_way {
            None => 0,
            Some(_) => 1,
        }
    }

    /// In which lists of streams it is.
    pub fn standing(&self) -> Standing
        ensures { result ≡ standing_of self.now }
    {
        Standing {
            pause: self.pause_in_order(),
            is_under_way: self.under_way.is_some(),
        }
    }

    // Its pause, as far as others need to know it.
    fn pause_in_order(&self) -> Pause
        ensures { result ≡ pause_in_order self.now }
    {
        match self.pause {
            Pause::Pausing if self.under_way.is_some() => Pause::Open,
            Pause::Open | Pause::Pausing | Pause::HandedOut => self.pause,
        }
    }

    /// Its oldest message has come so far.
    pub fn go_on(&mut self, under_way: UnderWay)
        requires { IsUnderWay self.old.id self.old.messages under_way }
        ensures { self.new ≡ stream_with_progress under_way self.old }
    {
        self.under_way = Some(under_way);
    }

    /// Puts its message under way back, to begin again. How many of its bytes were sent.
    pub fn put_back(&mut self) -> usize
        ensures left { self.new ≡ stream_put_back self.old }
        ensures sent { result ≡ progress_size self.old.under_way }
    {
        let Some(under_way) = self.under_way else {
            return 0;
        };
        self.raise(under_way.sent);
        self.under_way = None;
        under_way.sent
    }
}
