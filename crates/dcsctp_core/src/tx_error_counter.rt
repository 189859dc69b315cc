//! How many errors were counted (RFC 9260, section 8.1).

use std::marker::Model;

/// Counts the errors since the peer last answered, up to one beyond its limit; without a limit it counts
/// none. The count outlasts an association, but for `Options::follow_rfc`. Allocates nothing.
///
/// A contract sees its limit and its count.
#[derive(Debug, Drop)]
pub struct TxErrorCounter {
    limit: Option<u32>,
    value: u32,
}

impl Model for TxErrorCounter {
    ghost use Rattle.dcsctp_core.specs.Errors.{ErrorCount};

    ghost Value = { ErrorCount };

    ghost view = { λ counter. record {
      limit = counter.limit;
      count = counter.value;
    } };
}

impl TxErrorCounter {
    ghost use Rattle.std.specs.Prelude.{◌≡◌, if◌then◌else◌};
    ghost use Rattle.dcsctp_transfer.specs.spec.endpoint.HeartbeatOutcomes.{error_counted, is_exhausted};

    /// No error was counted yet. `None` is no limit.
    #[inline(always)]
    pub fn new(limit: Option<u32>) -> TxErrorCounter
        ensures { result ≡ record {
          limit = limit;
          count = 0;
        } }
    {
        TxErrorCounter { limit, value: 0 }
    }

    /// Counts an error, up to one beyond the limit.
    pub fn increment(&mut self)
        ensures { self.new
            ≡ record self.old { count = error_counted self.old.limit self.old.count } }
    {
        self.value = match self.limit {
            None => 0,
            Some(limit) => self.value.saturating_add(1).min(limit.saturating_add(1)),
        };
    }

    /// Forgets the errors that were counted.
    pub fn reset(&mut self)
        ensures { self.new ≡ record self.old { count = 0 } }
    {
        self.value = 0;
    }

    /// An association begins. With `Options::follow_rfc` no error counts any more (RFC 9260, section 8.1).
    pub fn begin_association(&mut self, follows_rfc: bool)
        ensures { self.new ≡ record self.old { count = if follows_rfc then 0 else self.old.count } }
    {
        self.value = if follows_rfc { 0 } else { self.value };
    }

    /// Are there more errors than the limit allows?
    pub fn is_exhausted(&self) -> bool
        ensures { result ≡ is_exhausted self.now.limit self.now.count }
    {
        match self.limit {
            None => false,
            Some(limit) => limit < self.value,
        }
    }

    /// How many errors count.
    pub fn value(&self) -> u32
        ensures { result ≡ self.now.count }
    {
        self.value
    }
}
