//! `get_next_message`.

ghost use Rattle.dcsctp_core.specs.View.{view_of};
ghost use Rattle.dcsctp_core_messages.specs.Taking.{TakesNextOf};

use dcsctp_core::Context;
use dcsctp_core::api::Message;
use rand_core::Rng;

/// Takes the message that became ready first, if one is ready, and gives its bytes back to the receive window
/// (RFC 9260, section 6.2). With `Options::follow_rfc` an acknowledgement is due now if a small window opens by
/// that; and without an association it takes the first of those that the last one left. Allocates nothing.
pub fn get_next_message<R: Rng>(context: &mut Context<R>) -> Option<Message>
    ensures { TakesNextOf (view_of context.old) result (view_of context.new) }
{
    match context.state.tcb_mut() {
        None => context.left.pop_front(),
        Some(tcb) => tcb
            .transfer
            .get_next_message(&context.options, context.moment),
    }
}
