//! Moments in the life of a socket.

ghost use Rattle.std.specs.Prelude.{◌≡◌, ◌+◌, ◌-◌, ◌≤◌, min};
ghost use Rattle.std.specs.Duration.{as_nanos, max_nanos};

use std::marker::Model;
use std::ops::{Add, Sub};
use std::time::Duration;

/// A moment, as the time that has passed since the socket was made. It is exact to the nanosecond. The last
/// moment is the greatest `Duration` after the first.
///
/// A contract sees the number of nanoseconds.
#[derive(Clone, Copy, Debug, PartialEq, Eq, PartialOrd, Ord)]
pub struct SocketTime {
    nanos: u128,
}

impl Model for SocketTime {
    ghost use Rattle.std.specs.Prelude.{ℕ, ◌≤◌};
    ghost use Rattle.std.specs.Duration.{max_nanos};

    ghost Value = { ℕ };

    ghost view = { λ time. time.nanos };

    ghost invariant = { λ time. time.nanos ≤ max_nanos };

    ghost inverse = { λ nanos. record { nanos = nanos } };
}

impl SocketTime {
    /// The moment at which the socket was made.
    pub const fn zero() -> SocketTime
        ensures { result ≡ 0 }
    {
        SocketTime { nanos: 0 }
    }

    /// The last moment, which means never.
    pub const fn infinite_future() -> SocketTime
        ensures { result ≡ max_nanos }
    {
        SocketTime {
            nanos: Duration::MAX.as_nanos(),
        }
    }

    /// How many nanoseconds after the making of the socket the moment is.
    pub const fn as_nanos(self) -> u128
        ensures value { result ≡ self }
        ensures limit { self ≤ max_nanos }
    {
        self.nanos
    }
}

/// The duration of that many nanoseconds. A division of 64 bits is cheaper than one of 128.
pub fn duration_of(nanos: u128) -> Duration
    requires { nanos ≤ max_nanos }
    ensures { as_nanos result ≡ nanos }
{
    match u64::try_from(nanos) {
        Ok(nanos) => Duration::from_nanos(nanos),
        Err(_) => Duration::from_nanos_u128(nanos),
    }
}

/// The moment that comes the duration later, or the last one if that is earlier.
impl Add<Duration> for SocketTime {
    type Output = SocketTime;

    ghost add_gives = { λ time duration later. later ≡ min (time + as_nanos duration) max_nanos };

    fn add(self, duration: Duration) -> SocketTime {
        SocketTime {
            nanos: (self.nanos + duration.as_nanos()).min(Duration::MAX.as_nanos()),
        }
    }
}

/// The moment that comes the duration earlier, or the first one if that is later.
impl Sub<Duration> for SocketTime {
    type Output = SocketTime;

    ghost sub_gives = { λ time duration earlier. earlier ≡ time - as_nanos duration };

    fn sub(self, duration: Duration) -> SocketTime {
        SocketTime {
            nanos: self.nanos.saturating_sub(duration.as_nanos()),
        }
    }
}

/// How long after the other moment this one is; zero if it isn't later.
impl Sub<SocketTime> for SocketTime {
    type Output = Duration;

    ghost sub_gives = { λ later earlier duration. as_nanos duration ≡ later - earlier };

    fn sub(self, earlier: SocketTime) -> Duration {
        duration_of(self.nanos.saturating_sub(earlier.nanos))
    }
}
