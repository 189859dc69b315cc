//! The delay of an acknowledgement (RFC 9260, section 6.2) and the retransmission timer (RFC 9260, section
//! 6.3). Called by `advance_time`.

ghost use Rattle.dcsctp_core.specs.spec.endpoint.TimeTurns.{own_timer};
ghost use Rattle.dcsctp_core.specs.spec.endpoint.OwnTimers.{acknowledgement_delay, retransmission};
ghost use Rattle.dcsctp_core.specs.Timing.{ExpiresAlways};

use dcsctp_core::Context;
use rand_core::Rng;

/// Advances the delay of an acknowledgement to the present moment, and returns whether it is over. The
/// acknowledgement is due then. Allocates nothing.
pub fn handle_acknowledgement_delay<R: Rng>(context: &mut Context<R>) -> bool
    ensures { ExpiresAlways R.stream (own_timer acknowledgement_delay) context.old result
        context.new }
{
    match context.state.tcb_mut() {
        None => false,
        Some(tcb) => tcb.transfer.expire_acknowledgement(context.moment),
    }
}

/// Advances the retransmission timer to the present moment, and returns whether it expires. What is in flight
/// is lost then, and an error is counted. Allocates nothing.
pub fn handle_retransmission<R: Rng>(context: &mut Context<R>) -> bool
    ensures { ExpiresAlways R.stream (own_timer retransmission) context.old result context.new }
{
    context.expire_retransmission()
}
