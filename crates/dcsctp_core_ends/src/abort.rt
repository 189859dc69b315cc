//! ABORT (RFC 9260, section 9.1).

ghost use Rattle.std.specs.Prelude.{map};
ghost use Rattle.dcsctp_core.specs.wire.Content.{cause_content};
ghost use Rattle.dcsctp_core.specs.Handling.{HandlesWholeTurn};
ghost use Rattle.dcsctp_core_ends.specs.Ends.{abort_turn};

use dcsctp_core::api::ErrorKind;
use dcsctp_core::wire::{AbortChunk, causes_text};
use dcsctp_core::{Context, Following, State};
use rand_core::Rng;
use std::alloc::AllocError;

/// Handles an ABORT: it ends an association with a peer, and the rest of its packet is dropped. If the peer
/// isn't known, nothing happens; with `Options::follow_rfc` the attempt to connect ends, too.
///
/// `Err`: an allocation failed, and nothing has changed.
pub fn handle_abort<R: Rng>(
    context: &mut Context<R>,
    abort: &AbortChunk<'_>,
) -> Result<Following, AllocError>
    ensures { HandlesWholeTurn R.stream
        (abort_turn (map cause_content abort.now.error_causes.items))
        context.old result context.new }
{
    match context.state {
        State::Closed => Ok(Following::NextChunk),
        State::CookieWait(_) if !context.options.follow_rfc => Ok(Following::NextChunk),
        State::CookieWait(_) | State::CookieEchoed(_) | State::Open(_) => {
            let text = causes_text(context.alloc, &abort.error_causes)?;
            context.internal_close(ErrorKind::PeerReported, text)?;
            Ok(Following::DroppedRest)
        }
    }
}
