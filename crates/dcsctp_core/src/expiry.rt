//! What happened to a timer when the clock moved.

ghost use Rattle.std.specs.Prelude.{◌≡◌};
ghost use Rattle.dcsctp_core.specs.Timing.{expiry_of, timer_after};

use dcsctp_transfer::api::SocketTime;
use dcsctp_transfer::send_timer::Timer;

/// What happened to a timer when the clock moved.
#[derive(Clone, Copy, Debug, PartialEq, Eq)]
pub enum Expiry {
    /// It doesn't run, or its deadline is still to come.
    NotDue,

    /// It has expired, and runs again.
    Again,

    /// It has expired with no restart left, and stopped.
    GaveUp,
}

/// Advances the timer to `now`. Allocates nothing.
pub(crate) fn expire(timer: &mut Timer, now: SocketTime) -> Expiry
    ensures answer { result ≡ expiry_of now timer.old.running }
    ensures left { timer.new ≡ timer_after now timer.old }
{
    if !timer.expire(now) {
        Expiry::NotDue
    } else if timer.is_running() {
        Expiry::Again
    } else {
        Expiry::GaveUp
    }
}
