//! Parts of the messages of one stream that aren't whole yet (RFC 9260, section 6.9; RFC 8260, section 2.1).

ghost use Rattle.std.specs.Prelude.{◌≡◌, ◌/◌, ◌^◌, [], IfOk, OnErr, IsTrue, ◌↔◌, length};
ghost use Rattle.dcsctp_api.specs.spec.queues.IncomingStreams.{runs_up_to, runs_behind};
ghost use Rattle.dcsctp_api.specs.spec.queues.Runs.{AddsPart, runs_used};
ghost use Rattle.dcsctp_receive_reassembly.specs.Held.{capped_u128};
ghost use Rattle.dcsctp_receive_reassembly.specs.Runs.{part_of, assembled_of, IsOfMessage, IsFreed};

use crate::joining::add_part;
use crate::numbers::fragment_place;
use crate::runs::{Assembled, Part, Run, drop_places, runs_used};
use std::alloc::{AllocError, Global};
use std::collections::BTreeMap;
use std::marker::Model;

/// The parts of the messages of one stream. Those of one message are next to each other, and the messages
/// ascend by their numbers, so that what is skipped is a front. A contract sees the runs of parts.
#[derive(Drop)]
pub struct Fragments {
    runs: BTreeMap<u128, Run>,
}

impl Model for Fragments {
    ghost use Rattle.std.specs.Prelude.{List, map};
    ghost use Rattle.dcsctp_api.specs.spec.queues.Runs.{RunModel};
    ghost use Rattle.dcsctp_receive_reassembly.specs.Runs.{run_model, AreInPlace};

    ghost Value = { List RunModel };

    ghost view = { λ fragments. map run_model fragments.runs.entries };

    ghost invariant = { λ fragments. AreInPlace (map run_model fragments.runs.entries) };
}

impl Fragments {
    /// Nothing was received yet. Allocates nothing.
    pub fn new(alloc: Global) -> Fragments
        ensures { result ≡ [] }
    {
        Fragments {
            runs: BTreeMap::new(alloc),
        }
    }

    /// Are there no parts?
    pub fn is_empty(&self) -> bool
        ensures { IsTrue result ↔ (length self.now ≡ 0) }
    {
        self.runs.is_empty()
    }

    /// How much of the receive window the parts use, at most `u128::MAX`.
    pub fn used(&self, overhead: usize) -> u128
        ensures { result ≡ capped_u128 (runs_used overhead self.now) }
    {
        runs_used(&self.runs, overhead)
    }

    /// Adds a part, and returns its message if that is whole now. One that was received before is dropped.
    /// `Err`: an allocation failed, and nothing has changed.
    #[inline(always)]
    pub fn add(
        &mut self,
        alloc: Global,
        part: Part,
        overhead: usize,
    ) -> Result<Assembled, AllocError>
        requires { part.place / 2 ^ 64 ≡ part.number }
        ensures ok { IfOk result
            (λ outcome. AddsPart (part_of part) self.old (assembled_of outcome) self.new) }
        ensures number { IfOk result (λ outcome. IsOfMessage part.number outcome) }
        ensures used { IfOk result (λ outcome. IsFreed overhead self.old outcome self.new) }
        ensures err { OnErr result (self.new ≡ self.old) }
    {
        add_part(alloc, &mut self.runs, part, overhead)
    }

    /// Drops the parts of the messages up to this number, and returns how much they used, at most
    /// `u128::MAX`. Visits these and one more.
    pub fn drop_up_to(&mut self, number: u64, overhead: usize) -> u128
        ensures kept { self.new ≡ runs_behind number self.old }
        ensures size { result ≡ capped_u128 (runs_used overhead (runs_up_to number self.old)) }
    {
        if self.runs.len() == 0 {
            return 0;
        }
        drop_places(&mut self.runs, fragment_place(number, u64::MAX), overhead)
    }
}
