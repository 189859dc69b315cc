//! The peer answers our own request to reset streams (RFC 6525, section 5.2.7).

ghost use Rattle.std.specs.Prelude.{◌≡◌};
ghost use Rattle.dcsctp_core.specs.Answering.{Retries, request_ended};

use crate::resetting::reconfiguration_timer;
use crate::transmission_control_block::{ResetRequest, TransmissionControlBlock};
use dcsctp_transfer::api::SocketTime;

impl TransmissionControlBlock {
    /// Our outstanding request is in progress: it waits to be sent again, and its timer restarts (RFC 6525,
    /// section 5.2.7). Allocates nothing.
    pub fn retry_reset(&mut self, now: SocketTime)
        ensures { Retries now self.old self.new }
    {
        let timer = reconfiguration_timer(&self.transfer, now);
        match &mut self.reset_request {
            None => {}
            Some(request) => {
                request.waits_for_retry = true;
                request.timer = timer;
            }
        }
    }

    /// Our outstanding request has ended, and its timer with it. Returns the request, if there was one.
    /// Allocates nothing.
    pub fn end_reset(&mut self) -> Option<ResetRequest>
        ensures answer { result ≡ self.old.reset_request }
        ensures left { self.new ≡ request_ended self.old }
    {
        self.reset_request.take()
    }
}
