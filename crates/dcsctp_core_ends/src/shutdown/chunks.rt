//! SHUTDOWN, SHUTDOWN ACK and SHUTDOWN COMPLETE (RFC 9260, sections 8.5.1 and 9.2).

ghost use Rattle.std.specs.Prelude.{◌≡◌, true, OnErr};
ghost use Rattle.dcsctp_core.specs.spec.endpoint.Event.{closed};
ghost use Rattle.dcsctp_core.specs.Handling.{TakesTurn, Tries, HandlesTurn, close_turn, following_of};
ghost use Rattle.dcsctp_core.specs.spec.endpoint.EndOutcomes.{after_reflected};
ghost use Rattle.dcsctp_core.specs.View.{core_of, view_of};
ghost use Rattle.dcsctp_core_ends.specs.Shutdown.{ack_turn, complete_turn, completed_turn, is_open_core, received_turn, reflected_turn, shutdown_turn};

use crate::shutdown::sending::{reflect_shutdown_complete, send_shutdown_complete};
use crate::shutdown::stepping::{enter_shutdown_ack_sent, step_shutdown};
use dcsctp_core::api::ErrorKind;
use dcsctp_core::types::Options;
use dcsctp_core::{Context, Following, OpenPhase, State};
use rand_core::Rng;
use std::alloc::AllocError;

// The peer shuts the association down: SHUTDOWN ACK is sent once all that was sent is acknowledged.
fn enter_shutdown_received<R: Rng>(context: &mut Context<R>) -> Result<(), AllocError>
    ensures { TakesTurn R.stream received_turn context.old result context.new }
{
    context.state.set_phase(OpenPhase::ShutdownReceived);
    step_shutdown(context)
}

/// Handles a SHUTDOWN that acknowledges nothing. It counts while an association is open, and is answered by
/// SHUTDOWN ACK. That is sent at once if a SHUTDOWN or a SHUTDOWN ACK was sent, else once all that was sent
/// is acknowledged.
///
/// `Err`: an allocation failed; the first of its events may already have been added.
pub fn receive_shutdown<R: Rng>(context: &mut Context<R>) -> Result<(), AllocError>
    ensures { TakesTurn R.stream shutdown_turn context.old result context.new }
{
    match &context.state {
        State::Closed | State::CookieWait(_) | State::CookieEchoed(_) => Ok(()),
        State::Open(opened) => match opened.phase {
            OpenPhase::Established => enter_shutdown_received(context),
            OpenPhase::ShutdownPending => enter_shutdown_received(context),
            OpenPhase::ShutdownSent(_) => enter_shutdown_ack_sent(context),
            OpenPhase::ShutdownReceived => Ok(()),
            OpenPhase::ShutdownAckSent(_) => enter_shutdown_ack_sent(context),
        },
    }
}

// The association ends, with OnClosed.
fn end_shutdown<R: Rng>(context: &mut Context<R>) -> Result<(), AllocError>
    ensures { Tries R.stream (close_turn closed) context.old result context.new }
{
    let alloc = context.alloc;
    context.internal_close(ErrorKind::NoError, String::new(alloc))?;
    Ok(())
}

// The SHUTDOWN ACK was awaited: SHUTDOWN COMPLETE is sent, and the association ends.
fn complete_shutdown<R: Rng>(context: &mut Context<R>) -> Result<Following, AllocError>
    requires { is_open_core (core_of context.old.state) ≡ true }
    ensures { HandlesTurn R.stream completed_turn context.old result context.new }
{
    send_shutdown_complete(context)?;
    end_shutdown(context)?;
    Ok(Following::DroppedRest)
}

// What follows a SHUTDOWN ACK that isn't awaited: the next chunk. With `Options::follow_rfc` one answers a
// packet (RFC 9260, section 8.4), so its end follows.
fn after_reflected(options: &Options) -> Following
    ensures { following_of result ≡ after_reflected options.now }
{
    if options.follow_rfc {
        Following::PacketEnd
    } else {
        Following::NextChunk
    }
}

/// Answers a SHUTDOWN ACK that isn't awaited under its own tag, with the T bit (RFC 9260, section 8.5.1, E).
/// Then the next chunk follows, or the end of the packet with `Options::follow_rfc`.
///
/// `Err`: an allocation failed; nothing has changed.
pub fn reflect_shutdown_ack<R: Rng>(
    context: &mut Context<R>,
    header_tag: u32,
) -> Result<Following, AllocError>
    ensures turn { HandlesTurn R.stream (reflected_turn header_tag) context.old result context.new }
    ensures err { OnErr result (view_of context.new ≡ view_of context.old) }
{
    let following = after_reflected(&context.options);
    reflect_shutdown_complete(context, header_tag)?;
    Ok(following)
}

/// Handles a SHUTDOWN ACK of a packet with this header tag. One that is awaited ends the association, with
/// OnClosed, and is answered by SHUTDOWN COMPLETE. The rest of its packet is dropped. Any other is answered
/// under its own tag, with the T bit.
///
/// `Err`: an allocation failed; the first of its events may already have been added.
pub fn handle_shutdown_ack<R: Rng>(
    context: &mut Context<R>,
    header_tag: u32,
) -> Result<Following, AllocError>
    ensures { HandlesTurn R.stream (ack_turn header_tag) context.old result context.new }
{
    match &context.state {
        State::Closed => reflect_shutdown_ack(context, header_tag),
        State::CookieWait(_) => reflect_shutdown_ack(context, header_tag),
        State::CookieEchoed(_) => reflect_shutdown_ack(context, header_tag),
        State::Open(opened) => match opened.phase {
            OpenPhase::ShutdownSent(_) => complete_shutdown(context),
            OpenPhase::ShutdownAckSent(_) => complete_shutdown(context),
            OpenPhase::Established => reflect_shutdown_ack(context, header_tag),
            OpenPhase::ShutdownPending => reflect_shutdown_ack(context, header_tag),
            OpenPhase::ShutdownReceived => reflect_shutdown_ack(context, header_tag),
        },
    }
}

/// Handles a SHUTDOWN COMPLETE, which counts while a SHUTDOWN ACK waits for it. The association ends, with
/// OnClosed, and the rest of the packet is dropped.
///
/// `Err`: an allocation failed; nothing has changed.
pub fn handle_shutdown_complete<R: Rng>(context: &mut Context<R>) -> Result<Following, AllocError>
    ensures { HandlesTurn R.stream complete_turn context.old result context.new }
{
    match &context.state {
        State::Closed | State::CookieWait(_) => Ok(Following::NextChunk),
        State::CookieEchoed(_) => Ok(Following::NextChunk),
        State::Open(opened) => match opened.phase {
            OpenPhase::ShutdownAckSent(_) => {
                end_shutdown(context)?;
                Ok(Following::DroppedRest)
            }
            OpenPhase::Established | OpenPhase::ShutdownPending => Ok(Following::NextChunk),
            OpenPhase::ShutdownSent(_) => Ok(Following::NextChunk),
            OpenPhase::ShutdownReceived => Ok(Following::NextChunk),
        },
    }
}
