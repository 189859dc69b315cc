//! The user's shutdown (RFC 9260, section 9.2).

ghost use Rattle.std.specs.Prelude.{◌≡◌, true, IsOk};
ghost use Rattle.dcsctp_core.specs.spec.endpoint.MessageOutcomes.{is_shutting_down};
ghost use Rattle.dcsctp_core.specs.api.Calls.{is_closed};
ghost use Rattle.dcsctp_core.specs.Handling.{TakesTurn};
ghost use Rattle.dcsctp_core.specs.spec.endpoint.Endpoint.{is_cookie_echoed};
ghost use Rattle.dcsctp_core.specs.View.{core_of};
ghost use Rattle.dcsctp_core_ends.specs.Shutdown.{pending_turn, shut_down_turn};

use crate::shutdown::stepping::step_shutdown;
use dcsctp_core::api::ErrorKind;
use dcsctp_core::{Context, OpenPhase, State};
use rand_core::Rng;
use std::alloc::AllocError;

// The association is shut down from now on, once all that was sent is acknowledged.
fn begin_shutdown<R: Rng>(context: &mut Context<R>) -> Result<(), AllocError>
    ensures { TakesTurn R.stream pending_turn context.old result context.new }
{
    context.state.pend_shutdown();
    step_shutdown(context)
}

// It is asked for while the COOKIE ACK is awaited. With `Options::follow_rfc` it waits until then.
fn shut_down_echoed<R: Rng>(context: &mut Context<R>) -> Result<(), AllocError>
    requires { is_cookie_echoed (core_of context.old.state) ≡ true }
    ensures { TakesTurn R.stream shut_down_turn context.old result context.new }
{
    if context.options.follow_rfc {
        context.ask_shutdown();
        return Ok(());
    }
    begin_shutdown(context)
}

/// Shuts the association down: SHUTDOWN is sent once all that was sent is acknowledged. If an INIT ACK is
/// awaited the association ends at once, with OnClosed. One whose COOKIE ACK is awaited will never connect; with
/// `Options::follow_rfc` it is shut down once it is open. A closed socket, and one that is shutting down, are
/// unchanged, and nothing is allocated.
///
/// `Err`: an allocation failed; the first of the call's events may already have been added.
pub fn do_shutdown<R: Rng>(context: &mut Context<R>) -> Result<(), AllocError>
    ensures turn { TakesTurn R.stream shut_down_turn context.old result context.new }
    ensures closed { is_closed (core_of context.old.state) ≡ true → IsOk result }
    ensures shutting { is_shutting_down (core_of context.old.state) ≡ true → IsOk result }
{
    match &context.state {
        State::Closed => Ok(()),
        State::CookieWait(_) => {
            let alloc = context.alloc;
            context.internal_close(ErrorKind::NoError, String::new(alloc))
        }
        State::CookieEchoed(_) => shut_down_echoed(context),
        State::Open(opened) => match opened.phase {
            OpenPhase::Established => begin_shutdown(context),
            OpenPhase::ShutdownPending | OpenPhase::ShutdownSent(_) => Ok(()),
            OpenPhase::ShutdownReceived | OpenPhase::ShutdownAckSent(_) => Ok(()),
        },
    }
}
