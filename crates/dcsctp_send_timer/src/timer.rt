//! A timer is started and stopped, and expires at its deadline. It reads no clock: the caller hands in the
//! moment.

ghost use Rattle.std.specs.Prelude.{◌≡◌};
ghost use Rattle.std.specs.Duration.{as_nanos};
ghost use Rattle.std.specs.Option.{option_map};
ghost use Rattle.dcsctp_spec.specs.endpoint.Timers.{may_restart, next_wait, bounded_wait, longest_backoff, longest_wait};

use dcsctp_spec::types::{BackoffAlgorithm, Options, SocketTime};
use std::marker::Model;
use std::time::Duration;

// May a timer that has expired this often run again?
fn goes_on(max_restarts: Option<u32>, expiries: u64) -> bool
    ensures { result ≡ may_restart max_restarts expiries }
{
    match max_restarts {
        None => true,
        Some(restarts) => expiries <= u64::from(restarts),
    }
}

// How long a timer runs after it has expired, as if there were no bound.
fn next_wait(backoff: BackoffAlgorithm, wait: Duration) -> Duration
    ensures { as_nanos result ≡ next_wait backoff (as_nanos wait) }
{
    match backoff {
        BackoffAlgorithm::Fixed => wait,
        BackoffAlgorithm::Exponential => wait.saturating_mul(2),
    }
}

// No longer than the bound, if there is one.
fn bounded(max_backoff: Option<Duration>, wait: Duration) -> Duration
    ensures { as_nanos result ≡ bounded_wait (option_map as_nanos max_backoff) (as_nanos wait) }
{
    match max_backoff {
        Some(bound) if bound < wait => bound,
        Some(_) | None => wait,
    }
}

/// The longest that the retransmission timer runs once it has expired: `max_timer_backoff_duration`, and with
/// `Options::follow_rfc` at most `rto_max` (RFC 9260, section 6.3.3, E2). `None` is no limit. Allocates nothing.
pub fn longest_backoff(options: &Options) -> Option<Duration>
    ensures { option_map as_nanos result ≡ longest_backoff options.now }
{
    let limit = options.max_timer_backoff_duration;
    if options.follow_rfc {
        Some(bounded(limit, options.rto_max))
    } else {
        limit
    }
}

/// The longest wait of a timer that repeats a control chunk, once it has expired: only with `Options::follow_rfc`
/// it has a limit, that of the retransmission timer. Allocates nothing.
pub fn longest_wait(options: &Options) -> Option<Duration>
    ensures { option_map as_nanos result ≡ longest_wait options.now }
{
    if options.follow_rfc {
        longest_backoff(options)
    } else {
        None
    }
}

// A timer that runs.
#[derive(Clone, Copy, Debug)]
struct Running {
    deadline: SocketTime,

    // How long it runs this time, as if there were no bound.
    wait: Duration,

    expiries: u64,
}

/// A timer. Allocates nothing.
///
/// A contract sees it with its durations and its deadline in nanoseconds.
#[derive(Debug, Drop)]
pub struct Timer {
    running: Option<Running>,
    duration: Duration,
    backoff: BackoffAlgorithm,
    max_restarts: Option<u32>,
    max_backoff: Option<Duration>,
}

impl Model for Timer {
    ghost use Rattle.std.specs.Duration.{as_nanos};
    ghost use Rattle.std.specs.Option.{option_map};
    ghost use Rattle.dcsctp_spec.specs.endpoint.Timers.{TimerModel};

    ghost Value = { TimerModel };

    ghost view = { λ timer. record {
      running = option_map (λ running. record {
        deadline = running.deadline;
        wait = as_nanos running.wait;
        expiries = running.expiries;
        terms = record {
          backoff = timer.backoff;
          max_restarts = timer.max_restarts;
          max_backoff = option_map as_nanos timer.max_backoff;
        };
      }) timer.running;
      settings = record {
        duration = as_nanos timer.duration;
        terms = record {
          backoff = timer.backoff;
          max_restarts = timer.max_restarts;
          max_backoff = option_map as_nanos timer.max_backoff;
        };
      };
    } };
}

impl Timer {
    ghost use Rattle.std.specs.Prelude.{◌≡◌, ◌↔◌, IsTrue, IsSome};
    ghost use Rattle.std.specs.Duration.{as_nanos};
    ghost use Rattle.std.specs.Option.{option_map};
    ghost use Rattle.dcsctp_spec.specs.endpoint.Timers.{started_timer};
    ghost use Rattle.dcsctp_spec.specs.endpoint.Timers.{running_deadline, is_expired_timer, running_after, backed_off, has_expired};

    /// A timer that doesn't run. Once started it runs for `duration`.
    ///
    /// Once it expires it runs again, for as long as `backoff` says and at most `max_backoff`. It restarts no
    /// more than `max_restarts` times; `None` is no limit.
    pub fn new(
        duration: Duration,
        backoff: BackoffAlgorithm,
        max_restarts: Option<u32>,
        max_backoff: Option<Duration>,
    ) -> Timer
        ensures { result ≡ record {
          running = None;
          settings = record {
            duration = as_nanos duration;
            terms = record {
              backoff = backoff;
              max_restarts = max_restarts;
              max_backoff = option_map as_nanos max_backoff;
            };
          };
        } }
    {
        Timer {
            running: None,
            duration,
            backoff,
            max_restarts,
            max_backoff,
        }
    }

    /// Starts the timer at the moment `now`, whether it runs or not. It expires a duration later, or at
    /// the last moment if that is earlier, and has not expired yet.
    pub fn start(&mut self, now: SocketTime)
        ensures { self.new ≡ record self.old { running = started_timer now self.old.settings } }
    {
        self.running = Some(Running {
            deadline: now + self.duration,
            wait: self.duration,
            expiries: 0,
        });
    }

    /// Starts the timer as `start` does, but for this duration, and not for its own.
    pub fn start_for(&mut self, now: SocketTime, duration: Duration)
        ensures { self.new
            ≡ record self.old {
              running = started_timer now
                  (record self.old.settings { duration = as_nanos duration });
            } }
    {
        self.running = Some(Running {
            deadline: now + duration,
            wait: duration,
            expiries: 0,
        });
    }

    /// Starts the timer so that it expires at the moment `now`, whether it runs or not.
    pub fn start_due(&mut self, now: SocketTime)
        ensures { self.new
            ≡ record self.old {
              running = started_timer now
                  (record self.old.settings { duration = 0 });
            } }
    {
        self.running = Some(Running {
            deadline: now + Duration::ZERO,
            wait: Duration::ZERO,
            expiries: 0,
        });
    }

    /// How long the timer runs once it is started next. One that runs backs off from the duration that it
    /// was started with.
    pub fn set_duration(&mut self, duration: Duration)
        ensures { self.new ≡ record self.old {
          settings = record self.old.settings {
            duration = as_nanos duration;
          };
        } }
    {
        self.duration = duration;
    }

    /// From its next start on the timer runs twice as long, and at most as long as its backoff may be.
    pub fn back_off(&mut self)
        ensures { self.new ≡ backed_off self.old }
    {
        let wait = next_wait(self.backoff, self.duration);
        self.duration = bounded(self.max_backoff, wait).max(self.duration);
    }

    /// Does the timer run, and has it expired since it was started?
    pub fn has_expired(&self) -> bool
        ensures { result ≡ has_expired self.now.running }
    {
        match self.running {
            None => false,
            Some(running) => 0 < running.expiries,
        }
    }

    /// Advances the timer to `now`, and returns whether it expires. Before its deadline it doesn't, and
    /// nothing changes.
    ///
    /// A timer that expires runs again from `now`, as its backoff says; with no restart left, it stops.
    pub fn expire(&mut self, now: SocketTime) -> bool
        ensures answer { result ≡ is_expired_timer now self.old.running }
        ensures left { self.new ≡ record self.old { running = running_after now self.old.running } }
    {
        match self.running {
            None => false,
            Some(running) => {
                if now < running.deadline {
                    return false;
                }
                let expiries = running.expiries.saturating_add(1);
                self.running = if goes_on(self.max_restarts, expiries) {
                    let wait = next_wait(self.backoff, running.wait);
                    Some(Running {
                        deadline: now + bounded(self.max_backoff, wait),
                        wait,
                        expiries,
                    })
                } else {
                    None
                };
                true
            }
        }
    }

    /// Stops the timer, if it runs.
    pub fn stop(&mut self)
        ensures { self.new ≡ record self.old { running = None } }
    {
        self.running = None;
    }

    /// Was the timer started, and not stopped since?
    pub fn is_running(&self) -> bool
        ensures { IsTrue result ↔ IsSome self.now.running }
    {
        self.running.is_some()
    }

    /// When the timer expires next; none if it doesn't run.
    pub fn next_expiry(&self) -> Option<SocketTime>
        ensures { result ≡ running_deadline self.now.running }
    {
        self.running.map(|running| running.deadline)
    }
}
