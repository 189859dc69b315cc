//! T2-shutdown (RFC 9260, section 9.2): a SHUTDOWN or a SHUTDOWN ACK that isn't answered is sent again.
//! Called by `advance_time`. Also the answer to data that comes while a SHUTDOWN waits for its own.

ghost use Rattle.dcsctp_core.specs.spec.endpoint.TimeTurns.{t2_timer};
ghost use Rattle.dcsctp_core.specs.Handling.{Tries};
ghost use Rattle.dcsctp_core.specs.Timing.{Expires};
ghost use Rattle.dcsctp_core_ends.specs.Shutdown.{again_turn, shutdown_answer_turn};

use crate::abort_association;
use crate::shutdown::sending::{send_shutdown, send_shutdown_ack};
use crate::shutdown::stepping::enter_shutdown_sent;
use dcsctp_core::types::AbortReason;
use dcsctp_core::{Context, Expiry, OpenPhase, State};
use rand_core::Rng;
use std::alloc::AllocError;

// Sends the packet again that isn't answered yet.
fn send_again<R: Rng>(context: &mut Context<R>) -> Result<(), AllocError>
    ensures { Tries R.stream again_turn context.old result context.new }
{
    match &context.state {
        State::Closed | State::CookieWait(_) | State::CookieEchoed(_) => Ok(()),
        State::Open(opened) => match opened.phase {
            OpenPhase::ShutdownSent(_) => send_shutdown(context),
            OpenPhase::ShutdownAckSent(_) => send_shutdown_ack(context),
            OpenPhase::Established | OpenPhase::ShutdownPending => Ok(()),
            OpenPhase::ShutdownReceived => Ok(()),
        },
    }
}

/// Advances T2 to the present moment, and returns whether it expires. Then its packet is sent again and it
/// backs off, which counts no error. With no restart left, the association is aborted, with OnAborted.
///
/// `Err`: an allocation failed; the first of its events may already have been added.
pub fn handle_t2<R: Rng>(context: &mut Context<R>) -> Result<bool, AllocError>
    ensures { Expires R.stream t2_timer context.old result context.new }
{
    let now = context.moment;
    match context.state.expire_t2(now) {
        Expiry::NotDue => Ok(false),
        Expiry::Again => {
            send_again(context)?;
            Ok(true)
        }
        Expiry::GaveUp => {
            abort_association(context, AbortReason::TooManyErrors)?;
            Ok(true)
        }
    }
}

/// Answers a packet with data that comes while a SHUTDOWN waits for its answer: another SHUTDOWN is sent, and
/// T2 restarts. In any other phase nothing happens.
///
/// `Err`: an allocation failed; nothing has changed.
pub fn answer_data<R: Rng>(context: &mut Context<R>) -> Result<(), AllocError>
    ensures { Tries R.stream shutdown_answer_turn context.old result context.new }
{
    match &context.state {
        State::Closed | State::CookieWait(_) | State::CookieEchoed(_) => Ok(()),
        State::Open(opened) => match opened.phase {
            OpenPhase::ShutdownSent(_) => enter_shutdown_sent(context),
            OpenPhase::Established | OpenPhase::ShutdownPending => Ok(()),
            OpenPhase::ShutdownReceived | OpenPhase::ShutdownAckSent(_) => Ok(()),
        },
    }
}
