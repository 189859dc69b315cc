//! Quiet rounds: what two sockets do when nothing comes from outside, and no packet is lost.

ghost use Rattle.std.specs.Prelude.{◌≡◌, ◌-◌, min};
ghost use Rattle.dcsctp_world.specs.Acts.{RunsSteps};
ghost use Rattle.dcsctp_world.specs.Rounds.{emitted_counts, both_counts, earlier_moment, clock_steps, delivery_steps, ExchangesOnce, SettlesOnce, SettlesOrFails};

use crate::world::World;
use dcsctp_core::types::{Call, Side, Step};
use dcsctp_socket::{DcSctpSocket, SocketFault, SocketTime};
use rand_core::Rng;

/// How many packets each side has emitted.
#[derive(Clone, Copy)]
pub struct Counts {
    /// A.
    pub a: usize,

    /// B.
    pub b: usize,
}

// The earlier of two moments.
fn earlier_of(first: SocketTime, second: SocketTime) -> SocketTime
    ensures { result ≡ min first second }
{
    if second.as_nanos() < first.as_nanos() {
        second
    } else {
        first
    }
}

impl<R: Rng + Drop> World<R> {
    // How many packets each side has emitted.
    fn counts(&self) -> Counts
        ensures { both_counts result ≡ emitted_counts self.now }
    {
        Counts {
            a: self.packets(Side::A).len(),
            b: self.packets(Side::B).len(),
        }
    }

    // Both clocks go to the earlier moment of the two that `poll_timeout` has. The errors are those of `run`.
    fn advance_clocks(&mut self) -> Result<(), SocketFault>
        ensures { RunsSteps R.stream (clock_steps (earlier_moment self.old)) self.old result
            self.new }
    {
        let a = self.socket(Side::A).poll_timeout();
        let b = self.socket(Side::B).poll_timeout();
        let moment = earlier_of(a, b);
        self.run(&[
            Step::Call(Side::A, Call::AdvanceTime(moment)),
            Step::Call(Side::B, Call::AdvanceTime(moment)),
        ])
    }

    // Delivers to this side the other's packets after the first ones, up to the last. The errors are those of
    // `run`.
    fn deliver_after(&mut self, side: Side, first: usize, last: usize) -> Result<(), SocketFault>
        ensures { RunsSteps R.stream (delivery_steps side first (last - first)) self.old result
            self.new }
    {
        self.run(&[])?;
        let count = last.saturating_sub(first);
        for done in 0..count {
            self.run(&[Step::Deliver(side, first + done + 1)])?;
        }
        Ok(())
    }

    // Delivers all that was emitted since these counts, first to B, then to A, and gives the counts from before it.
    // The errors are those of `run`.
    fn exchange(&mut self, settled: Counts) -> Result<Counts, SocketFault>
        ensures { ExchangesOnce R.stream (both_counts settled) self.old result self.new }
    {
        let shown = self.counts();
        self.deliver_after(Side::B, settled.a, shown.a)?;
        self.deliver_after(Side::A, settled.b, shown.b)?;
        Ok(shown)
    }

    // Both clocks go on, and then come four exchanges, as many as a handshake has packets. The errors are those of
    // `run`.
    fn quiet_round(&mut self, settled: Counts) -> Result<Counts, SocketFault>
        ensures { SettlesOnce R.stream (both_counts settled) self.old result self.new }
    {
        self.advance_clocks()?;
        let first = self.exchange(settled)?;
        let second = self.exchange(first)?;
        let third = self.exchange(second)?;
        let last = self.exchange(third)?;
        Ok(last)
    }

    /// Makes so many quiet rounds, by `run`. In a round both clocks go to the earlier of the two moments of
    /// `Socket::poll_timeout`: if no timer runs, to the last moment that there is. Then four times all packets that
    /// were emitted since are delivered, each once, in order, first to B, then to A. What was emitted before the first
    /// round is lost.
    ///
    /// One round connects two sockets that fit each other, if one awaits an INIT ACK and the other is closed, or both
    /// await one, T1 may restart, and no setting was changed (RFC 9260, sections 5.1 and 5.2.1): both are Established
    /// and crossed, and each has reported OnConnected once more. Messages may be queued. With
    /// `Options::follow_rfc` a closed one must have had no association before. So it is too if one awaits a COOKIE ACK,
    /// while the other is closed and takes its cookie, or is Established by it and has no timer that is due before T1:
    /// then it reports nothing more (section 5.2.4, D).
    ///
    /// The errors are those of `run`; if an allocation failed, the steps before it were applied.
    pub fn settle(&mut self, rounds: usize) -> Result<(), SocketFault>
        ensures { SettlesOrFails R.stream rounds self.old result self.new }
    {
        self.run(&[])?;
        let mut settled = self.counts();
        for _round in 0..rounds {
            settled = self.quiet_round(settled)?;
        }
        Ok(())
    }
}
