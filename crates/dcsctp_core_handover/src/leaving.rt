//! How an association leaves for another process.

ghost use Rattle.dcsctp_core.specs.Handling.{Tries};
ghost use Rattle.dcsctp_core_handover.specs.Handover.{hand_over_turn};

use dcsctp_core::api::ErrorKind;
use dcsctp_core::{Context, OpenPhase, State};
use rand_core::Rng;
use std::alloc::AllocError;

/// Ends the association with OnClosed, without a packet to the peer. One that isn't established is unchanged.
///
/// `Err`: an allocation failed, and nothing has changed.
pub fn hand_over<R: Rng>(context: &mut Context<R>) -> Result<(), AllocError>
    ensures { Tries R.stream hand_over_turn context.old result context.new }
{
    let alloc = context.alloc;
    match &context.state {
        State::Closed | State::CookieWait(_) | State::CookieEchoed(_) => Ok(()),
        State::Open(opened) => match opened.phase {
            OpenPhase::Established => {
                context.internal_close(ErrorKind::NoError, String::new(alloc))
            }
            OpenPhase::ShutdownPending
            | OpenPhase::ShutdownSent(_)
            | OpenPhase::ShutdownReceived
            | OpenPhase::ShutdownAckSent(_) => Ok(()),
        },
    }
}
