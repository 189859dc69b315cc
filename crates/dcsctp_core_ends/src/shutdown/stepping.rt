//! The steps of a shutdown (RFC 9260, section 9.2): each waits until what was sent is acknowledged.

ghost use Rattle.std.specs.Prelude.{◌≡◌, true};
ghost use Rattle.std.specs.Duration.{as_nanos};
ghost use Rattle.dcsctp_core.specs.spec.endpoint.Timers.{started_timer};
ghost use Rattle.dcsctp_core.specs.spec.endpoint.ShutdownOutcomes.{awaits_reset, t2_settings, waits_for_abandoned, waits_for_queue};
ghost use Rattle.dcsctp_core.specs.Handling.{Tries};
ghost use Rattle.dcsctp_core.specs.View.{core_of, endpoint_of};
ghost use Rattle.dcsctp_core_ends.specs.Shutdown.{ack_sent_turn, is_open_core, shutdown_sent_turn, step_turn};

use crate::shutdown::sending::{send_shutdown, send_shutdown_ack};
use dcsctp_core::send_timer::{BackoffAlgorithm, Timer, longest_wait};
use dcsctp_core::transfer::packet_size_limit;
use dcsctp_core::types::{Options, SocketTime};
use dcsctp_core::{Context, OpenPhase, ShutdownState, State};
use rand_core::Rng;
use std::alloc::AllocError;
use std::time::Duration;

// T2-shutdown, started now with this retransmission timeout. Each wait is twice the last one, and with
// `Options::follow_rfc` no longer than the retransmission timer's (RFC 9260, section 6.3.3). The options say
// how often a packet is sent again. Unlike RFC 9260, section 9.2, `t2_shutdown_timeout` is not used
// (docs/design/decisions.md, Shutdown).
fn started_t2(options: &Options, rto: Duration, now: SocketTime) -> ShutdownState
    ensures { result.t2_shutdown.running ≡ started_timer now
        (t2_settings options.now (as_nanos rto)) }
{
    let mut t2_shutdown = Timer::new(
        rto,
        BackoffAlgorithm::Exponential,
        options.max_retransmissions,
        longest_wait(options),
    );
    t2_shutdown.start(now);
    ShutdownState { t2_shutdown }
}

/// Sends SHUTDOWN, and starts T2: its SHUTDOWN ACK is awaited from now on.
///
/// `Err`: an allocation failed; nothing has changed.
pub(crate) fn enter_shutdown_sent<R: Rng>(context: &mut Context<R>) -> Result<(), AllocError>
    requires { is_open_core (core_of context.old.state) ≡ true }
    ensures { Tries R.stream shutdown_sent_turn context.old result context.new }
{
    send_shutdown(context)?;
    let sent = started_t2(&context.options, context.state.rto(), context.moment);
    context.state.set_phase(OpenPhase::ShutdownSent(sent));
    Ok(())
}

/// Sends SHUTDOWN ACK, and starts T2: its SHUTDOWN COMPLETE is awaited from now on.
///
/// `Err`: an allocation failed; nothing has changed.
pub(crate) fn enter_shutdown_ack_sent<R: Rng>(context: &mut Context<R>) -> Result<(), AllocError>
    requires { is_open_core (core_of context.old.state) ≡ true }
    ensures { Tries R.stream ack_sent_turn context.old result context.new }
{
    send_shutdown_ack(context)?;
    let sent = started_t2(&context.options, context.state.rto(), context.moment);
    context.state.set_phase(OpenPhase::ShutdownAckSent(sent));
    Ok(())
}

// The size of a packet that requests the reset of one stream (RFC 6525, section 4.1).
const LEAST_REQUEST_PACKET: usize = 36;

// Does a message wait for a reset that can be requested? One with a lifetime doesn't count: once that is over,
// nothing may come that continues the shutdown.
fn awaits_reset<R: Rng>(context: &Context<R>) -> bool
    ensures { result ≡ awaits_reset (endpoint_of context.now) }
{
    LEAST_REQUEST_PACKET <= packet_size_limit(&context.options)
        && context.send_queue.waits_for_reset()
}

// Does a shutdown wait for what is queued? Only with `Options::follow_rfc`, while packets may be sent and a
// message waits that can be, or could be after a reset (RFC 9260, section 9.2).
fn waits_for_queue<R: Rng>(context: &Context<R>) -> bool
    ensures { result ≡ waits_for_queue (endpoint_of context.now) }
{
    context.options.follow_rfc
        && 0 < context.options.max_burst
        && (context.send_queue.waits_at(context.moment) || awaits_reset(context))
}

// Does a shutdown wait for what was abandoned? Only with `Options::follow_rfc`, until the peer has
// acknowledged that it was: before, the peer delivers nothing that came after it (RFC 9260, section 9.2;
// RFC 3758, section 3.5).
fn waits_for_abandoned<R: Rng>(context: &Context<R>) -> bool
    ensures { result ≡ waits_for_abandoned (endpoint_of context.now) }
{
    context.state.has_outstanding_items() && context.options.follow_rfc
}

/// Continues a shutdown that is under way, if all that was sent is acknowledged or abandoned. SHUTDOWN is
/// sent if the user asked for it, SHUTDOWN ACK if the peer did. With `Options::follow_rfc` queued messages
/// that can be sent go first, also after the reset of their stream, and the peer must have acknowledged what was
/// abandoned; else none of them counts (docs/design/decisions.md, Shutdown).
///
/// `Err`: an allocation failed; nothing has changed.
pub fn step_shutdown<R: Rng>(context: &mut Context<R>) -> Result<(), AllocError>
    ensures { Tries R.stream step_turn context.old result context.new }
{
    if context.state.has_unacknowledged_items() || waits_for_queue(context) {
        return Ok(());
    }
    if waits_for_abandoned(context) {
        return Ok(());
    }
    match &context.state {
        State::Closed | State::CookieWait(_) | State::CookieEchoed(_) => Ok(()),
        State::Open(opened) => match opened.phase {
            OpenPhase::ShutdownPending => enter_shutdown_sent(context),
            OpenPhase::ShutdownReceived => enter_shutdown_ack_sent(context),
            OpenPhase::Established | OpenPhase::ShutdownSent(_) => Ok(()),
            OpenPhase::ShutdownAckSent(_) => Ok(()),
        },
    }
}
