//! The deadlines of a socket by its timers, and what its list of them says.

ghost use Rattle.std.specs.Prelude.{◌≡◌, [], true};
ghost use Rattle.dcsctp_transfer.specs.spec.endpoint.Turn.{with_clock};
ghost use Rattle.dcsctp_transfer.specs.spec.endpoint.TimeTurns.{next_moment, handled_timers, NoneIsDue};
ghost use Rattle.dcsctp_core.specs.declared.state.State.TheVariants.{Open};
ghost use Rattle.dcsctp_core.specs.View.{core_of, endpoint_of};
ghost use Rattle.dcsctp_core.specs.Timeout.{is_deadline_later, is_quiet, next_deadline, ListsDeadlines};

use crate::context::Context;
use crate::deadlines::{DeadlineKind, Deadlines};
use crate::state::{OpenState, State};
use dcsctp_transfer::api::SocketTime;
use rand_core::Rng;

// Lists the six deadlines of an open association.
fn list_open<R: Rng>(context: &Context<R>, opened: &OpenState, deadlines: &mut Deadlines)
    requires empty { deadlines.old ≡ [] }
    requires opened { context.now.state ≡ Open opened.now }
    ensures { ListsDeadlines (endpoint_of context.now) deadlines.new }
{
    deadlines.add(
        DeadlineKind::AcknowledgementDelay,
        opened.tcb.transfer.acknowledgement_deadline(),
    );
    deadlines.add(
        DeadlineKind::Retransmission,
        opened.tcb.transfer.retransmission_deadline(),
    );
    deadlines.add(
        DeadlineKind::HeartbeatInterval,
        context.heartbeat_interval.next_expiry(),
    );
    deadlines.add(
        DeadlineKind::HeartbeatTimeout,
        context.heartbeat_timeout.next_expiry(),
    );
    deadlines.add(
        DeadlineKind::Reconfiguration,
        opened.tcb.reconfiguration_deadline(),
    );
    deadlines.add(DeadlineKind::T2, opened.phase.t2_deadline());
}

/// Makes the list again from the timers. Each call that may change a timer ends with it. During the handshake
/// T1's deadline alone counts, and on an open association those of the other six.
pub fn list_deadlines<R: Rng>(context: &Context<R>, deadlines: &mut Deadlines)
    ensures { ListsDeadlines (endpoint_of context.now) deadlines.new }
{
    deadlines.clear();
    match &context.state {
        State::Closed => {}
        State::CookieWait(wait) => deadlines.add(DeadlineKind::T1, wait.t1_init.next_expiry()),
        State::CookieEchoed(echoed) => {
            deadlines.add(DeadlineKind::T1, echoed.t1_cookie.next_expiry());
        }
        State::Open(opened) => list_open(context, opened, deadlines),
    }
}

/// The next deadline, never before the present moment; the last moment if there is none. During the handshake
/// it is T1's, and on an open association the first of its own timers'.
pub fn poll_timeout<R: Rng>(context: &Context<R>, deadlines: &Deadlines) -> SocketTime
    requires { ListsDeadlines (endpoint_of context.now) deadlines.now }
    ensures { result ≡ next_moment (endpoint_of context.now) }
{
    not_before(context.moment, deadlines.first())
}

// A deadline, but not before the present moment; the last moment if there is none.
fn not_before(moment: SocketTime, deadline: Option<SocketTime>) -> SocketTime
    ensures { result ≡ next_deadline moment deadline }
{
    match deadline {
        None => SocketTime::infinite_future(),
        Some(deadline) if deadline < moment => moment,
        Some(deadline) => deadline,
    }
}

/// Does the list say that nothing is due at a moment? While a COOKIE ACK is awaited it doesn't, since the
/// delay of an acknowledgement isn't in the list then.
pub fn is_quiet<R: Rng>(context: &Context<R>, deadlines: &Deadlines, now: SocketTime) -> bool
    requires { ListsDeadlines (endpoint_of context.now) deadlines.now }
    ensures answer { result ≡ is_quiet (core_of context.now.state) now deadlines.now }
    ensures quiet { result ≡ true → NoneIsDue (with_clock now (endpoint_of context.now))
        (handled_timers (core_of context.now.state)) }
{
    match context.state {
        State::Closed => is_later(now, deadlines.first()),
        State::CookieWait(_) => is_later(now, deadlines.first()),
        State::CookieEchoed(_) => false,
        State::Open(_) => is_later(now, deadlines.first()),
    }
}

// Is a deadline later than a moment, or is there none?
fn is_later(moment: SocketTime, deadline: Option<SocketTime>) -> bool
    ensures { result ≡ is_deadline_later moment deadline }
{
    match deadline {
        None => true,
        Some(deadline) => moment < deadline,
    }
}
