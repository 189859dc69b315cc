//! The reconfiguration timer, by which our own request to reset streams is sent again (RFC 6525, section
//! 5.1.1).

ghost use Rattle.std.specs.Prelude.{◌≡◌};
ghost use Rattle.dcsctp_transfer.specs.spec.endpoint.Timers.{running_deadline, is_expired_timer};
ghost use Rattle.dcsctp_core.specs.Reconfiguring.{is_unanswered, without_retry, request_renumbered, reconfiguration_at_moment};
ghost use Rattle.dcsctp_core.specs.View.{timer_of};

use crate::transmission_control_block::TransmissionControlBlock;
use dcsctp_transfer::api::SocketTime;

impl TransmissionControlBlock {
    // Advances the timer of the outstanding request to the present moment, and returns whether it expires. If
    // so, it runs again.
    pub(crate) fn expire_reconfiguration(&mut self, now: SocketTime) -> bool
        ensures answer { result ≡ is_expired_timer now (timer_of self.old.reset_request) }
        ensures left { self.new ≡ reconfiguration_at_moment now self.old }
    {
        match &mut self.reset_request {
            None => false,
            Some(request) => request.timer.expire(now),
        }
    }

    /// When our outstanding request is sent again, if there is one. Allocates nothing.
    pub fn reconfiguration_deadline(&self) -> Option<SocketTime>
        ensures { result ≡ running_deadline (timer_of self.now.reset_request) }
    {
        match &self.reset_request {
            None => None,
            Some(request) => request.timer.next_expiry(),
        }
    }

    // The outstanding request no longer waits to be sent again. Returns whether the peer hadn't answered it,
    // so that it didn't wait.
    pub(crate) fn end_retry(&mut self) -> bool
        ensures answer { result ≡ is_unanswered self.old.reset_request }
        ensures left { self.new ≡ without_retry self.old }
    {
        match &mut self.reset_request {
            None => false,
            Some(request) => !std::mem::replace(&mut request.waits_for_retry, false),
        }
    }

    /// Our outstanding request, if there is one, takes the next number in place of its own (RFC 6525, section
    /// 5.2.7). It is the one before, once more. Allocates nothing.
    pub fn renumber_reset(&mut self)
        ensures { self.new ≡ request_renumbered self.old }
    {
        let number = self.next_outgoing_reset_req_seq_nbr;
        match &mut self.reset_request {
            None => {}
            Some(request) => {
                request.number = number;
                request.is_new = false;
                self.next_outgoing_reset_req_seq_nbr = number.wrapping_add(1);
            }
        }
    }
}
