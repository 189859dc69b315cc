//! Which timers are due, and what follows them.

ghost use Rattle.std.specs.Prelude.{◌≡◌, [], ◌∷◌, max, IsOk, map};
ghost use Rattle.dcsctp_core.specs.spec.endpoint.TimeTurns.{handled_timers, NoneIsDue, DueTurns};
ghost use Rattle.dcsctp_core.specs.spec.endpoint.Turn.{act_input, with_clock};
ghost use Rattle.dcsctp_core.specs.spec.association.Acts.{flushes};
ghost use Rattle.dcsctp_core.specs.Timing.{Expires};
ghost use Rattle.dcsctp_core.specs.View.{call_start, core_of, endpoint_of, view_of};
ghost use Rattle.dcsctp_core.specs.types.Schedule.{advance_call};
ghost use Rattle.dcsctp_socket_calls.specs.Parts.{TurnsOf, MovesByCall, MakesTurns};
ghost use Rattle.dcsctp_socket_calls.specs.TimeParts.{timer_of_socket, EndTurns, TurnsAfter};

use dcsctp_core::api::SocketTime;
use dcsctp_core::types::AbortReason;
use dcsctp_core::{Context, State};
use dcsctp_core_data::{handle_acknowledgement_delay, handle_retransmission};
use dcsctp_core_ends::{abort_association, handle_t2};
use dcsctp_core_handshake::handle_t1;
use dcsctp_core_heartbeat::{handle_heartbeat_interval, handle_heartbeat_timeout};
use dcsctp_core_resets::handle_reconfiguration;
use rand_core::Rng;
use std::alloc::AllocError;

/// A timer of a socket.
#[derive(Clone, Copy, Debug, PartialEq, Eq)]
enum SocketTimer {
    /// An INIT or COOKIE ECHO isn't answered (RFC 9260, section 5.1).
    T1,

    /// An acknowledgement is delayed (RFC 9260, section 6.2).
    AcknowledgementDelay,

    /// What is in flight isn't acknowledged, T3-rtx (RFC 9260, section 6.3).
    Retransmission,

    /// The next HEARTBEAT is due (RFC 9260, section 8.3).
    HeartbeatInterval,

    /// A HEARTBEAT isn't answered (RFC 9260, section 8.3).
    HeartbeatTimeout,

    /// Our own request to reset streams isn't answered (RFC 6525, section 5.1.1).
    Reconfiguration,

    /// A SHUTDOWN or SHUTDOWN ACK isn't answered (RFC 9260, section 9.2).
    T2,
}

// Gives up a peer that doesn't answer: aborts the association if too many errors were counted (RFC 9260,
// section 8.1).
fn end_by_errors<R: Rng>(context: &mut Context<R>) -> Result<(), AllocError>
    ensures { MakesTurns R.stream (EndTurns []) context.old result context.new }
{
    if context.has_too_many_errors() {
        abort_association(context, AbortReason::TooManyErrors)?;
    }
    Ok(())
}

// Gives up a peer that doesn't answer, as above; else what waits is sent (RFC 9260, sections 6.3.3 and 8.1).
fn end_or_send<R: Rng>(context: &mut Context<R>) -> Result<(), AllocError>
    ensures { MakesTurns R.stream (EndTurns (act_input flushes ∷ [])) context.old result
        context.new }
{
    if context.has_too_many_errors() {
        abort_association(context, AbortReason::TooManyErrors)?;
    } else {
        context.send_buffered_packets()?;
    }
    Ok(())
}

// What follows the timers if one has expired: the association may be aborted.
fn end_where_held<R: Rng>(context: &mut Context<R>) -> Result<(), AllocError>
    ensures { MakesTurns R.stream TurnsAfter context.old result context.new }
{
    match context.state {
        State::Closed => {}
        State::CookieWait(_) => {}
        State::CookieEchoed(_) => end_by_errors(context)?,
        State::Open(_) => end_or_send(context)?,
    }
    Ok(())
}

// Advances a timer to the present moment, and does what its expiry asks for. Returns whether it has expired.
fn handle_timer<R: Rng>(context: &mut Context<R>, timer: SocketTimer) -> Result<bool, AllocError>
    ensures { Expires R.stream (timer_of_socket timer) context.old result context.new }
{
    match timer {
        SocketTimer::T1 => handle_t1(context),
        SocketTimer::AcknowledgementDelay => Ok(handle_acknowledgement_delay(context)),
        SocketTimer::Retransmission => Ok(handle_retransmission(context)),
        SocketTimer::HeartbeatInterval => handle_heartbeat_interval(context),
        SocketTimer::HeartbeatTimeout => Ok(handle_heartbeat_timeout(context)),
        SocketTimer::Reconfiguration => handle_reconfiguration(context),
        SocketTimer::T2 => handle_t2(context),
    }
}

// The timers that are handled in a phase, in their order.
fn timers_of(state: &State) -> &'static [SocketTimer]
    ensures { map timer_of_socket result.now ≡ handled_timers (core_of state.now) }
{
    match state {
        State::Closed => &[],
        State::CookieWait(_) => &[SocketTimer::T1],
        State::CookieEchoed(_) => &[SocketTimer::AcknowledgementDelay, SocketTimer::T1],
        State::Open(_) => &[
            SocketTimer::AcknowledgementDelay,
            SocketTimer::Retransmission,
            SocketTimer::HeartbeatInterval,
            SocketTimer::HeartbeatTimeout,
            SocketTimer::Reconfiguration,
            SocketTimer::T2,
        ],
    }
}

/// Handles the timers that are due at the present moment (RFC 9260, sections 5.1, 6.2, 6.3.3, 8.3 and 9.2;
/// RFC 6525, section 5.1.1), in this order:
///
/// - in `Closed` none;
/// - in `CookieWait` T1;
/// - in `CookieEchoed` the delay of an acknowledgement, and T1. If one has expired, too many errors abort the
///   association; what waits isn't sent;
/// - in `Open` the delay of an acknowledgement, the retransmission timer, the heartbeat interval, the answer
///   to a heartbeat, our own request to reset streams, and T2. If one has expired, too many errors abort the
///   association; else what waits is sent.
pub(crate) fn handle_timers<R: Rng>(context: &mut Context<R>) -> Result<(), AllocError>
    ensures turns { MakesTurns R.stream DueTurns context.old result context.new }
    ensures waits { NoneIsDue (endpoint_of context.old) (handled_timers (core_of context.old.state))
        → IsOk result }
{
    let mut has_expired = false;
    for timer in timers_of(&context.state) {
        has_expired |= handle_timer(context, *timer)?;
    }
    if has_expired {
        end_where_held(context)?;
    }
    Ok(())
}

/// Moves the clock to `now`, where no timer is due then. An earlier moment changes nothing.
pub fn move_clock<R: Rng>(context: &mut Context<R>, now: SocketTime)
    requires { NoneIsDue (with_clock now (endpoint_of context.old))
        (handled_timers (core_of context.old.state)) }
    ensures turn { MovesByCall R.stream (TurnsOf (advance_call now)) (view_of context.old)
        (view_of context.new) }
    ensures only { view_of context.new ≡ record (call_start (view_of context.old)) {
      endpoint = with_clock (max context.old.moment now) (endpoint_of context.old);
    } }
{
    context.begin_call();
    if now < context.moment {
        return;
    }
    context.moment = now;
}
