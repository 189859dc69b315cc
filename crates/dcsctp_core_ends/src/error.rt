//! ERROR (RFC 9260, section 3.3.10).

ghost use Rattle.std.specs.Prelude.{◌≡◌, map};
ghost use Rattle.std.specs.List.{list_any};
ghost use Rattle.dcsctp_core.specs.wire.Content.{cause_content};
ghost use Rattle.dcsctp_core.specs.spec.endpoint.Cause.{is_stale_cookie, has_stale_cookie};
ghost use Rattle.dcsctp_core.specs.Handling.{HandlesWholeTurn};
ghost use Rattle.dcsctp_core_ends.specs.Ends.{error_turn};

use dcsctp_core::api::ErrorKind;
use dcsctp_core::wire::{ErrorCause, ErrorChunk, causes_text};
use dcsctp_core::{Context, Following, State};
use rand_core::Rng;
use std::alloc::AllocError;

/// The code of the cause Stale Cookie (RFC 9260, section 3.3.10.3).
pub const STALE_COOKIE: u16 = 3;

fn is_stale_cookie(cause: &ErrorCause<'_>) -> bool
    ensures { result ≡ is_stale_cookie (cause_content cause.now) }
{
    match cause {
        ErrorCause::Unknown { code, .. } => *code == STALE_COOKIE,
        _ => false,
    }
}

// Does the peer say that the cookie which it got was too old?
fn has_stale_cookie(causes: &[ErrorCause<'_>]) -> bool
    ensures { result ≡ has_stale_cookie (map cause_content causes.now) }
{
    for cause in causes {
        if is_stale_cookie(cause) {
            return true;
        }
    }
    false
}

/// Handles an ERROR: the texts of its causes are reported to the user, if the peer is known. Else nothing happens.
/// With `Options::follow_rfc` Stale Cookie ends the association while its COOKIE ACK is awaited: the cookie would only
/// be older if it was sent again (RFC 9260, section 5.2.6). Then the rest of the packet is dropped.
///
/// `Err`: an allocation failed, and nothing has changed.
pub fn handle_error<R: Rng>(
    context: &mut Context<R>,
    error: &ErrorChunk<'_>,
) -> Result<Following, AllocError>
    ensures { HandlesWholeTurn R.stream
        (error_turn (map cause_content error.now.error_causes.items))
        context.old result context.new }
{
    let ends_handshake = has_stale_cookie(&error.error_causes) && context.options.follow_rfc;
    match context.state {
        State::Closed | State::CookieWait(_) => Ok(Following::NextChunk),
        State::CookieEchoed(_) if ends_handshake => {
            let text = causes_text(context.alloc, &error.error_causes)?;
            context.internal_close(ErrorKind::PeerReported, text)?;
            Ok(Following::DroppedRest)
        }
        State::CookieEchoed(_) | State::Open(_) => {
            let text = causes_text(context.alloc, &error.error_causes)?;
            context.report(ErrorKind::PeerReported, text)?;
            Ok(Following::NextChunk)
        }
    }
}
