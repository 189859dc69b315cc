//! T1-init and T1-cookie (RFC 9260, section 5.1): a packet that isn't answered is sent again. After its last
//! restart the association ends. Called by `advance_time`.

ghost use Rattle.std.specs.Prelude.{string_bytes};
ghost use Rattle.dcsctp_core.specs.spec.endpoint.TimeTurns.{t1_timer};
ghost use Rattle.dcsctp_core.specs.Handling.{Tries, TakesOne};
ghost use Rattle.dcsctp_core.specs.Timing.{Expires};
ghost use Rattle.dcsctp_core_handshake.specs.Timing.{RepeatsHandshakePacket, abandon_turn, give_up_turn};

use crate::connect::{send_cookie_echo, send_init};
use crate::texts::{NO_COOKIE_ACK, NO_INIT_ACK};
use dcsctp_core::api::ErrorKind;
use dcsctp_core::{Context, Expiry, State};
use rand_core::Rng;
use std::alloc::AllocError;

// Sends the packet again that isn't answered yet, if it fits `mtu`: INIT, or COOKIE ECHO in front of a flush.
// `Err`: an allocation failed; the first of its events may already have been added.
fn send_again<R: Rng>(context: &mut Context<R>) -> Result<(), AllocError>
    ensures { TakesOne R.stream RepeatsHandshakePacket context.old result context.new }
{
    match &context.state {
        State::CookieWait(wait) => {
            let my = wait.my;
            send_init(context, my)?;
        }
        State::CookieEchoed(_) => send_cookie_echo(context)?,
        State::Closed => {}
        State::Open(_) => {}
    }
    Ok(())
}

// Ends the association since no answer came, with this text. `Err`: an allocation failed, and nothing has
// changed.
fn abandon<R: Rng>(context: &mut Context<R>, text: &str) -> Result<(), AllocError>
    ensures { Tries R.stream (abandon_turn text.now) context.old result context.new }
{
    let message = String::from_str(context.alloc, text)?;
    context.internal_close(ErrorKind::TooManyRetries, message)?;
    Ok(())
}

// Ends the association whose packet was never answered. `Err`: an allocation failed, and nothing has changed.
fn give_up<R: Rng>(context: &mut Context<R>) -> Result<(), AllocError>
    ensures { Tries R.stream give_up_turn context.old result context.new }
{
    match context.state {
        State::CookieWait(_) => abandon(context, NO_INIT_ACK)?,
        State::CookieEchoed(_) => abandon(context, NO_COOKIE_ACK)?,
        State::Closed => {}
        State::Open(_) => {}
    }
    Ok(())
}

/// Advances T1 to the present moment, and returns whether it expires (RFC 9260, section 5.1). Then its packet
/// is sent again and it backs off; with no restart left, the association ends with OnAborted. If it isn't
/// due, or doesn't run, nothing happens, and no allocation can fail.
///
/// `Err`: an allocation failed; the first of its events may already have been added.
pub fn handle_t1<R: Rng>(context: &mut Context<R>) -> Result<bool, AllocError>
    ensures { Expires R.stream t1_timer context.old result context.new }
{
    let now = context.moment;
    match context.state.expire_t1(now) {
        Expiry::NotDue => Ok(false),
        Expiry::Again => {
            send_again(context)?;
            Ok(true)
        }
        Expiry::GaveUp => {
            give_up(context)?;
            Ok(true)
        }
    }
}
