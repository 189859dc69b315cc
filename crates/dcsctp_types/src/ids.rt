//! The numbers by which streams, messages and protocols are named.

ghost use Rattle.std.specs.Prelude.{◌≡◌, ◌<◌, ◌↔◌, IsSome, IfSome};

use std::fmt;

/// The number of a stream (RFC 9260, section 3.3.1).
#[derive(Clone, Copy, PartialEq, Eq, PartialOrd, Ord, Hash)]
pub struct StreamId(pub u16);

/// Writes the number.
impl fmt::Display for StreamId {
    ghost use Rattle.std.specs.Prelude.{Some};
    ghost use Rattle.std.specs.Fmt.{decimal};

    ghost output = { λ id. Some (decimal id.0) };

    fn fmt<W: fmt::Write>(&self, f: &mut fmt::Formatter<W>) -> fmt::Result {
        write!(f, "{}", self.0)
    }
}

/// Writes the number.
impl fmt::Debug for StreamId {
    ghost use Rattle.std.specs.Prelude.{Some};
    ghost use Rattle.std.specs.Fmt.{decimal};

    ghost debug_output = { λ id. Some (decimal id.0) };

    fn fmt<W: fmt::Write>(&self, f: &mut fmt::Formatter<W>) -> fmt::Result {
        fmt::Display::fmt(self, f)
    }
}

/// A name that a user gives to a message, to follow it by events. It is a number other than 0, which a
/// contract reads as `lifecycle_number`.
#[derive(Clone, Copy, PartialEq, Eq, PartialOrd, Ord, Hash)]
pub struct LifecycleId {
    value: u64,
    pub ghost nonzero: { 0 < value },
}

impl LifecycleId {
    ghost use Rattle.dcsctp_types.specs.Ids.{lifecycle_number};

    /// The identifier with the number `n`; none for 0.
    pub fn new(n: u64) -> Option<LifecycleId>
        ensures variant { IsSome result ↔ (0 < n) }
        ensures some { IfSome result (λ id. lifecycle_number id ≡ n) }
    {
        if n == 0 {
            return None;
        }
        Some(LifecycleId { value: n })
    }

    /// The identifier with the number `n`, which is not 0.
    pub fn from(n: u64) -> LifecycleId
        requires { 0 < n }
        ensures { lifecycle_number result ≡ n }
    {
        LifecycleId { value: n }
    }

    /// Its number, which is not 0.
    pub fn value(&self) -> u64
        ensures value { result ≡ lifecycle_number self.now }
        ensures nonzero { 0 < result }
    {
        self.value
    }
}

/// Writes the number.
impl fmt::Display for LifecycleId {
    ghost use Rattle.std.specs.Prelude.{Some};
    ghost use Rattle.std.specs.Fmt.{decimal};
    ghost use Rattle.dcsctp_types.specs.Ids.{lifecycle_number};

    ghost output = { λ id. Some (decimal (lifecycle_number id)) };

    fn fmt<W: fmt::Write>(&self, f: &mut fmt::Formatter<W>) -> fmt::Result {
        write!(f, "{}", self.value)
    }
}

/// Writes the number.
impl fmt::Debug for LifecycleId {
    ghost use Rattle.std.specs.Prelude.{Some};
    ghost use Rattle.std.specs.Fmt.{decimal};
    ghost use Rattle.dcsctp_types.specs.Ids.{lifecycle_number};

    ghost debug_output = { λ id. Some (decimal (lifecycle_number id)) };

    fn fmt<W: fmt::Write>(&self, f: &mut fmt::Formatter<W>) -> fmt::Result {
        fmt::Display::fmt(self, f)
    }
}

/// The payload protocol identifier of a message (RFC 9260, section 3.3.1), which SCTP passes on and
/// doesn't look at.
#[derive(Clone, Copy, PartialEq, Eq, Hash)]
pub struct PpId(pub u32);

/// Writes the number.
impl fmt::Display for PpId {
    ghost use Rattle.std.specs.Prelude.{Some};
    ghost use Rattle.std.specs.Fmt.{decimal};

    ghost output = { λ id. Some (decimal id.0) };

    fn fmt<W: fmt::Write>(&self, f: &mut fmt::Formatter<W>) -> fmt::Result {
        write!(f, "{}", self.0)
    }
}

/// Writes the number.
impl fmt::Debug for PpId {
    ghost use Rattle.std.specs.Prelude.{Some};
    ghost use Rattle.std.specs.Fmt.{decimal};

    ghost debug_output = { λ id. Some (decimal id.0) };

    fn fmt<W: fmt::Write>(&self, f: &mut fmt::Formatter<W>) -> fmt::Result {
        fmt::Display::fmt(self, f)
    }
}
