//! Two ends with channels, and what happens to them.

use crate::fits::step_fits;
use crate::step::{ChannelStep, EndReply, side_of};
use crate::watched_end::{ChannelMessage, EndedChannel, NamedChannel, WatchedEnd};
use dcsctp_channel_runs::channels_run_sockets;
use dcsctp_channels::Channels;
use dcsctp_channels::channel_calls::Limits;
use dcsctp_channels::channel_calls::api::types::Side;
use dcsctp_channels::channel_calls::api::{DcSctpSocket, SocketFault};
use std::alloc::Global;
use std::marker::Model;

/// Two ends with channels, with all that their users did and were told.
///
/// If an allocation fails in a step, that returns `SocketFault::OutOfMemory`, and the world has failed. Each later step
/// returns `SocketFault::Failed` and changes nothing.
pub struct ChannelWorld<S: DcSctpSocket> {
    a: WatchedEnd<S>,
    b: WatchedEnd<S>,
    failed: bool,
}

// Written out, as that of `Channels` is.
impl<S: DcSctpSocket + Drop> Drop for ChannelWorld<S> {
    fn drop(self) {
        let ChannelWorld {
            a: _,
            b: _,
            failed: _,
        } = self;
    }
}

impl<S: DcSctpSocket> Model for ChannelWorld<S> {
    ghost use Rattle.dcsctp_channel_world.specs.Shown.{WorldParts, parts_of_world, world_shown};
    ghost use Rattle.dcsctp_channel_world.specs.Promises.{ShowsUnlessFailed};

    ghost Value = { WorldParts S };

    ghost view = { λ w. parts_of_world w.a w.b w.failed };

    ghost invariant = { λ w. ShowsUnlessFailed (world_shown S.user_view
        (parts_of_world w.a w.b w.failed)) };
}

ghost use Rattle.std.specs.Prelude.{◌≡◌, map};
ghost use Rattle.dcsctp_channels.specs.Shown.{channels_shown};
ghost use Rattle.dcsctp_channel_world.specs.Shown.{bytes_of, named_channel, named_content, named_end, end_shown, both_shown, side_shown, world_shown, fresh_channel_world};
ghost use Rattle.dcsctp_channel_world.specs.Steps.{MovesEnd};
ghost use Rattle.dcsctp_channel_world.specs.Promises.{IsNewSocket, KeepsChannelPromises, AppliesStepOrFails, RunsStepsOrFails};

// Performs a step at its end; the other is unchanged. The errors are those of `WatchedEnd::perform`.
fn move_end<S: DcSctpSocket + Drop>(
    a: &mut WatchedEnd<S>,
    b: &mut WatchedEnd<S>,
    step: &ChannelStep,
) -> Result<EndReply, SocketFault>
    ensures { MovesEnd step.now result (both_shown S.user_view a.old b.old)
        (both_shown S.user_view a.new b.new) }
{
    match side_of(step) {
        Side::A => a.perform(&b.packets, step),
        Side::B => b.perform(&a.packets, step),
    }
}

impl<S: DcSctpSocket + Drop> ChannelWorld<S> {
    /// Makes two ends over two sockets that were just made. Allocates nothing.
    pub fn new(alloc: Global, a: S, b: S, limits: Limits) -> ChannelWorld<S>
        requires a { IsNewSocket (S.user_view a) }
        requires b { IsNewSocket (S.user_view b) }
        ensures fresh { world_shown S.user_view result ≡ fresh_channel_world (S.user_view a)
            (S.user_view b) limits }
        ensures keeps { KeepsChannelPromises (world_shown S.user_view result) }
    {
        channels_run_sockets();
        ChannelWorld {
            a: WatchedEnd::new(alloc, a, limits),
            b: WatchedEnd::new(alloc, b, limits),
            failed: false,
        }
    }

    /// Applies a step, and keeps what it showed. The errors are `SocketFault::OutOfMemory`, if an allocation failed,
    /// and `SocketFault::Failed`, if one failed before.
    pub fn apply(&mut self, step: &ChannelStep) -> Result<EndReply, SocketFault>
        ensures { AppliesStepOrFails step.now (world_shown S.user_view self.old) result
            (world_shown S.user_view self.new) }
    {
        if self.failed {
            return Err(SocketFault::Failed);
        }
        channels_run_sockets();
        step_fits(step);
        match move_end(&mut self.a, &mut self.b, step) {
            Ok(reply) => Ok(reply),
            Err(_fault) => {
                self.failed = true;
                Err(SocketFault::OutOfMemory)
            }
        }
    }

    /// Applies steps one after another, up to the first that fails. The errors are those of `apply`.
    ///
    /// Over every schedule that loses, repeats, delays and reorders packets, whoever connects, the two ends do what two
    /// sockets do. A channel that one end reports as incoming was opened by the other's user, with this label, protocol
    /// and rules, and two that come in were opened as two (RFC 8832, section 6). What is read on channels was sent on
    /// channels by the other's user, and nothing is read twice. That has the premises of what is read from sockets: no
    /// verification tag is drawn twice, each serves one association, or with `follow_rfc` one takes the place of
    /// another, and not too much is sent.
    ///
    /// If an allocation failed, all that holds of the steps before it.
    pub fn run(&mut self, steps: &[ChannelStep]) -> Result<(), SocketFault>
        ensures { RunsStepsOrFails steps.now (world_shown S.user_view self.old) result
            (world_shown S.user_view self.new) }
    {
        if self.failed {
            return Err(SocketFault::Failed);
        }
        channels_run_sockets();
        for step in steps {
            self.apply(step)?;
        }
        Ok(())
    }

    // One of the two ends.
    fn end(&self, side: Side) -> &WatchedEnd<S>
        ensures { end_shown S.user_view result.now ≡ side_shown S.user_view side self.now }
    {
        match side {
            Side::A => &self.a,
            Side::B => &self.b,
        }
    }

    /// The packets that polls of this end gave, in order. Allocates nothing.
    pub fn packets(&self, side: Side) -> &[Vec<u8>]
        ensures { bytes_of result.now ≡ (side_shown S.user_view side self.now).packets }
    {
        &self.end(side).packets
    }

    /// The channels that this end's user opened with an OPEN, in order. Allocates nothing.
    pub fn opened(&self, side: Side) -> &[NamedChannel]
        ensures { map named_channel result.now ≡ (side_shown S.user_view side self.now).opened }
    {
        &self.end(side).opened
    }

    /// The channels that the peer opened, as this end's user was told, in order. Allocates nothing.
    pub fn incoming(&self, side: Side) -> &[NamedChannel]
        ensures { map named_channel result.now ≡ (side_shown S.user_view side self.now).incoming }
    {
        &self.end(side).incoming
    }

    /// The messages that this end's user sent, each with its channel, in order: those that `send` accepted. Allocates
    /// nothing.
    pub fn sent(&self, side: Side) -> &[ChannelMessage]
        ensures { map named_content result.now ≡ (side_shown S.user_view side self.now).sent }
    {
        &self.end(side).sent
    }

    /// The messages that this end's user read, each with its channel, in order. Allocates nothing.
    pub fn read(&self, side: Side) -> &[ChannelMessage]
        ensures { map named_content result.now ≡ (side_shown S.user_view side self.now).read }
    {
        &self.end(side).read
    }

    /// The channels that are over, as this end's user was told, in order. Allocates nothing.
    pub fn ended(&self, side: Side) -> &[EndedChannel]
        ensures { map named_end result.now ≡ (side_shown S.user_view side self.now).ended }
    {
        &self.end(side).ended
    }

    /// This end, for its queries. Allocates nothing.
    pub fn channels(&self, side: Side) -> &Channels<S>
        ensures { channels_shown S.user_view result.now
            ≡ (side_shown S.user_view side self.now).view }
    {
        &self.end(side).channels
    }

    /// Did an allocation fail in an earlier step? Allocates nothing.
    pub fn has_failed(&self) -> bool
        ensures { result ≡ self.now.failed }
    {
        self.failed
    }
}
