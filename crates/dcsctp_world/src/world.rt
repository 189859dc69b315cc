//! Two sockets, and what happens to them.

use crate::act::{Reply, are_honest, side_of};
use crate::fits::act_fits;
use crate::recorded::Recorded;
use crate::watched_socket::WatchedSocket;
use dcsctp_core::types::{Act, Outside, Side, Step};
use dcsctp_delivery_recovery::recovery_laws;
use dcsctp_delivery_sockets::users_read_what_was_sent;
use dcsctp_socket::{Association, Message, Options, Pair, Socket, SocketEvent, SocketFault, Word};
use dcsctp_spec_runs::{options_fit, sockets_stay_sound};
use dcsctp_theorem_progress::progress_laws;
use dcsctp_theorem_sockets::{cookie_laws, restored_sockets_begin_nothing, socket_laws};
use dcsctp_theorem_transfer::transfer_laws;
use rand_core::Rng;
use std::alloc::Global;
use std::marker::Model;

/// Two sockets, with all that happened to them and all that they ever showed.
///
/// Each takes a packet that the other emitted by a step that delivers it, and any bytes by an act from
/// outside. If an allocation fails in a call, the call returns `SocketFault::OutOfMemory`, and the world has
/// failed from here on. Each later call that applies something returns `SocketFault::Failed` and changes
/// nothing. What the world shows then starts with what it showed before the call that failed.
pub struct World<R> {
    a: WatchedSocket<Recorded<R>>,
    b: WatchedSocket<Recorded<R>>,
    acts: Vec<Act>,
    failed: bool,
}

// Written out, as that of `Socket` is.
impl<R: Drop> Drop for World<R> {
    fn drop(self) {
        let World {
            a: _,
            b: _,
            acts: _,
            failed: _,
        } = self;
    }
}

impl<R> Model for World<R> {
    ghost use Rattle.std.specs.Prelude.{◌≡◌, false};
    ghost use Rattle.dcsctp_world.specs.Recording.{Recording};
    ghost use Rattle.dcsctp_world.specs.Shown.{WorldView};

    ghost Value = { WorldView (Recording R) };

    ghost use Rattle.dcsctp_world.specs.Parts.{world_of};
    ghost use Rattle.dcsctp_world.specs.Run.{GoesWell};

    ghost view = { λ w. world_of w.a w.b w.acts.items w.failed };

    ghost invariant = { λ w. w.failed ≡ false → GoesWell (world_of w.a w.b w.acts.items w.failed) };
}

ghost use Rattle.std.specs.Prelude.{◌≡◌, ◌↔◌, IsTrue, [], false, map, OnOk, IfOk, IsOkUnless};
ghost use Rattle.dcsctp_core.specs.types.Settings.{IsValid};
ghost use Rattle.dcsctp_core.specs.types.Schedule.{act_content, step_content, step_act, outside_content, outside_act, AreHonest};
ghost use Rattle.dcsctp_spec_runs.specs.Sockets.{of_side};
ghost use Rattle.dcsctp_core.specs.types.queues.Messages.{message_content};
ghost use Rattle.dcsctp_core.specs.api.Events.{event_content};
ghost use Rattle.dcsctp_world.specs.Shown.{fresh_world};
ghost use Rattle.dcsctp_world.specs.Recording.{fresh_recording, recorded_stream};
ghost use Rattle.dcsctp_world.specs.Drawing.{AreWhole};
ghost use Rattle.dcsctp_world.specs.Promises.{Promises};
ghost use Rattle.dcsctp_world.specs.Acts.{MovesSide, AppliesOrFails, Applies, RunsSteps};
ghost use Rattle.dcsctp_world.specs.Parts.{bytes_of_packets, shown_side, both, world_of};

// Performs an act at its side. The errors are those of `WatchedSocket::perform`; the other side is unchanged.
fn move_side<R: Rng + Drop>(
    a: &mut WatchedSocket<R>,
    b: &mut WatchedSocket<R>,
    act: &Act,
) -> Result<Reply, SocketFault>
    requires a { a.old.socket.view.events ≡ [] }
    requires b { b.old.socket.view.events ≡ [] }
    ensures { MovesSide R.stream (act_content act.now) (both a.old b.old) result
        (both a.new b.new) }
{
    match side_of(act) {
        Side::A => {
            let reply = a.perform(&b.packets, act)?;
            Ok(reply)
        }
        Side::B => {
            let reply = b.perform(&a.packets, act)?;
            Ok(reply)
        }
    }
}

// Have both generators kept all that they gave?
fn are_whole<R: Rng + Drop>(a: &WatchedSocket<Recorded<R>>, b: &WatchedSocket<Recorded<R>>) -> bool
    ensures { IsTrue result ↔ AreWhole (both a.now b.now) }
{
    a.socket.generator().is_whole() && b.socket.generator().is_whole()
}

// Performs an act, and keeps it and its outcome. The errors are those of `move_side`, and
// `SocketFault::OutOfMemory` if a word, an association or the act can't be kept.
fn perform_and_keep<R: Rng + Drop>(
    a: &mut WatchedSocket<Recorded<R>>,
    b: &mut WatchedSocket<Recorded<R>>,
    acts: &mut Vec<Act>,
    act: Act,
) -> Result<Reply, SocketFault>
    requires a { a.old.socket.view.events ≡ [] }
    requires b { b.old.socket.view.events ≡ [] }
    ensures call { AppliesOrFails (recorded_stream R.stream) (act_content act)
        (world_of a.old b.old acts.old.items false) result
        (world_of a.new b.new acts.new.items false) }
    ensures whole { OnOk result (AreWhole (both a.new b.new)) }
{
    let reply = move_side(a, b, &act)?;
    if !are_whole(a, b) {
        return Err(SocketFault::OutOfMemory);
    }
    a.keep_association()?;
    b.keep_association()?;
    acts.push(act)?;
    Ok(reply)
}

impl<R: Rng + Drop> World<R> {
    /// Makes two closed sockets with these options; random words come from a generator for each, which keeps
    /// those that it gave.
    ///
    /// The options must be valid, which `Options::is_valid` tests.
    pub fn new(
        alloc: Global,
        a: &Options,
        b: &Options,
        rng_a: R,
        rng_b: R,
    ) -> Result<World<R>, SocketFault>
        requires a { IsValid a.now }
        requires b { IsValid b.now }
        ensures fresh { IfOk result (λ world. world ≡ fresh_world (record { a = a.now; b = b.now })
            (record { a = fresh_recording rng_a; b = fresh_recording rng_b })) }
        ensures keeps { IfOk result (λ world. Promises world) }
        ensures fault { IsOkUnless result SocketFault.OutOfMemory }
    {
        options_fit(a);
        options_fit(b);
        socket_laws();
        cookie_laws();
        users_read_what_was_sent();
        transfer_laws();
        recovery_laws();
        progress_laws();
        let a = WatchedSocket::new(alloc, "a", a, Recorded::new(alloc, rng_a))?;
        let b = WatchedSocket::new(alloc, "b", b, Recorded::new(alloc, rng_b))?;
        Ok(World {
            a,
            b,
            acts: Vec::new(alloc),
            failed: false,
        })
    }

    // Applies an act. The errors are those of `apply`.
    fn apply_act(&mut self, act: Act) -> Result<Reply, SocketFault>
        ensures { Applies R.stream (act_content act) self.old result self.new }
    {
        // A world that has failed applies nothing.
        if self.failed {
            return Err(SocketFault::Failed);
        }
        socket_laws();
        cookie_laws();
        users_read_what_was_sent();
        transfer_laws();
        recovery_laws();
        progress_laws();
        sockets_stay_sound();
        restored_sockets_begin_nothing();
        act_fits(&act);
        match perform_and_keep(&mut self.a, &mut self.b, &mut self.acts, act) {
            Ok(reply) => Ok(reply),
            Err(_fault) => {
                self.failed = true;
                Err(SocketFault::OutOfMemory)
            }
        }
    }

    /// Applies a step: the call is made, or the packet is handed over. Then all events are taken from the
    /// socket, and what they show is kept.
    ///
    /// Returns `Reply::NoCall` if the number of a delivery names no packet, which changes no socket, and else
    /// what the call answered. Over all that was applied so far `run` says what holds. The errors are
    /// `SocketFault::OutOfMemory`, if an allocation failed for a socket or the world, and
    /// `SocketFault::Failed`, if one failed before.
    pub fn apply(&mut self, step: &Step) -> Result<Reply, SocketFault>
        ensures { Applies R.stream (step_act (step_content step.now)) self.old result self.new }
    {
        // A world that has failed copies no step.
        if self.failed {
            return Err(SocketFault::Failed);
        }
        match step.copied() {
            Ok(copy) => self.apply_act(Act::Step(copy)),
            Err(_refused) => {
                self.failed = true;
                Err(SocketFault::OutOfMemory)
            }
        }
    }

    /// Applies an act from outside, whatever its bytes or its snapshot say. Then all events are taken from the
    /// socket, and what they show is kept.
    ///
    /// Bytes are handed to it: `Reply::Done`. It is restored from a snapshot: `Reply::Restored`, or
    /// `Reply::NoCall` if the snapshot isn't valid, and no socket has changed. Or it is handed over and restored
    /// from its own snapshot: `Reply::Restored`, or `Reply::HandedOver` if that is refused. A restore brings back
    /// both pairs, the tie tag, what both ends support, and the numbers of requests to reset streams. It begins
    /// no such request, so the next own number is that of the snapshot (RFC 6525, section 4.1).
    ///
    /// Once it was applied, `is_honest` is false, and the agreement of the two sockets, what their users read and
    /// what is said of cookies are promised only up to here. The rest of what `run` says still holds. The errors are
    /// those of `apply`.
    pub fn outside(&mut self, outside: Outside) -> Result<Reply, SocketFault>
        ensures { Applies R.stream (outside_act (outside_content outside)) self.old result
            self.new }
    {
        self.apply_act(Act::Outside(outside))
    }

    /// Applies steps one after another, up to the first that fails. The errors are those of `apply`; if an
    /// allocation failed, what is promised of both sockets holds of the steps before it.
    ///
    /// Over every schedule that loses, repeats, delays and reorders packets the two sockets agree. That has
    /// two premises. No act comes from outside, so no socket was restored either; `is_honest` tests that. And no
    /// side draws a verification tag twice, which `pairs` shows. When one side reports OnConnected, its peer has,
    /// or had, the matching association, with what the two have in common. When it reports
    /// OnStreamsResetPerformed, its peer has performed one of that number, if it is one of the first 2^32 - 1 of
    /// a lifetime. The four packets of a handshake, delivered in turn, connect two fresh sockets that fit each
    /// other (RFC 9260, section 5.1). By the first premise alone, each COOKIE ECHO that a side handles has a
    /// cookie that this side gave away before, in an INIT ACK. A cookie that makes an association was given away
    /// at most `cookie_lifetime` before, by that side's clock (section 5.1.5).
    ///
    /// What a side's user read (`read`) is what the other's user sent (`sent`): stream, protocol identifier and bytes,
    /// and no message is read twice, in any association. That has further premises. Each verification tag serves one
    /// association: what `associations` shows after an act was there before it, or has an own tag and a peer's tag that
    /// are new, and where one side's own tag is the other's peer tag, both pairs are crossed. Or with `follow_rfc` one
    /// takes the place of another under the same own pair, which the other side never shows (RFC 9260, section 5.2.4,
    /// action B): both sides connect, and a COOKIE ECHO is late or lost.
    /// Fewer than 2^30 chunks of data, to both peers' tags together, and fewer than 2^32 - 1 requests to reset streams
    /// go to each tag, each counted as often as it is sent, and a side sends fewer than 2^64 messages. In an
    /// association with interleaving (RFC 8260) no such request ends by OnStreamsResetFailed. Where a tag serves a
    /// second association otherwise, a message may be read twice, or be made of parts of two: a COOKIE ECHO that is
    /// delivered again once its association has ended makes another one under the same tags, for as long as its cookie
    /// lives.
    ///
    /// In one association, or after it has ended, the ordered messages of a stream are read in the order in which they
    /// were sent (RFC 9260, section 6.6). That has two more premises. The sender has `follow_rfc`, or had no other own
    /// tag. And one of two holds. In this association messages interleave; then streams may be reset. Or the
    /// sender sent no request to reset streams to the peer's verification tag, and of the messages that it ever sent, on
    /// any stream, either none has a lifetime or a limit on retransmissions, or fewer than 2^15 on each stream are ordered.
    ///
    /// None is missing before one that was read on a stream for which the sender's user never called `reset_streams`,
    /// refused calls included, if the sender had no other own tag, and no message of the stream has such a limit.
    /// Messages of other streams may have one, and those streams may be reset. Then what was read of its ordered
    /// messages is a prefix of what was sent on it. It is all that was sent on it, where messages don't interleave,
    /// once the sender has no message that waits and no TSN that isn't acknowledged, and its peer in this association
    /// has no message ready.
    ///
    /// With the premises of what is read, a side reports OnStreamsResetPerformed only of streams of which the other
    /// has reported OnIncomingStreamReset, in one event, in the same order.
    ///
    /// The rest holds whatever comes from outside. In one lifetime an association connects at most once, and
    /// the numbers of requests to reset streams go up by one. Each request that was accepted is performed at
    /// most once (RFC 6525, section 4.1). A request ends by an answer with its number (section 5.2.7). Events
    /// report each connection, end and reset, in order, and no other. The end of an association is reported once.
    /// While an INIT ACK or a COOKIE ACK is awaited, T1 runs. Time before the next deadline moves the clock
    /// alone, but for a socket that awaits a COOKIE ACK. No packet is longer than the `mtu` of its side, rounded
    /// down to a multiple of 4, and no flush sends more than `max_burst` of them.
    ///
    /// Two sockets that fit each other connect, once the network lets a repeated INIT and what follows it through
    /// (sections 5.1 and 5.2.1). In a round both clocks go to the earlier `poll_timeout`, and four times all that was
    /// sent since is delivered, in order. However many rounds are lost, one that isn't leaves both Established and
    /// crossed, each with one OnConnected more. That has premises: one awaits an INIT ACK, and the other is closed or
    /// awaits one too; and T1 may restart once more than rounds are lost. Messages may be queued. Or no round is lost,
    /// and one awaits a COOKIE ACK, while the other is closed and takes its cookie.
    pub fn run(&mut self, steps: &[Step]) -> Result<(), SocketFault>
        ensures { RunsSteps R.stream (map step_content steps.now) self.old result self.new }
    {
        // Nor does it run no steps at all.
        if self.failed {
            return Err(SocketFault::Failed);
        }
        socket_laws();
        cookie_laws();
        users_read_what_was_sent();
        transfer_laws();
        recovery_laws();
        progress_laws();
        for step in steps {
            self.apply(step)?;
        }
        Ok(())
    }

    // One of the two sockets, with all that it showed.
    fn watched(&self, side: Side) -> &WatchedSocket<Recorded<R>>
        ensures { shown_side result.now ≡ of_side side self.now.sides }
    {
        match side {
            Side::A => &self.a,
            Side::B => &self.b,
        }
    }

    /// All that was applied, in order. Allocates nothing.
    pub fn acts(&self) -> &[Act]
        ensures { map act_content result.now ≡ self.now.acts }
    {
        &self.acts
    }

    /// Is each act so far a step, and none from outside? Allocates nothing.
    pub fn is_honest(&self) -> bool
        ensures { IsTrue result ↔ AreHonest self.now.acts }
    {
        are_honest(&self.acts)
    }

    /// The bytes of every packet that this side ever emitted, in order. Allocates nothing.
    pub fn packets(&self, side: Side) -> &[Vec<u8>]
        ensures { bytes_of_packets result.now ≡ (of_side side self.now.sides).packets }
    {
        &self.watched(side).packets
    }

    /// All events of this side, in order. Allocates nothing.
    pub fn events(&self, side: Side) -> &[SocketEvent]
        ensures { map event_content result.now ≡ (of_side side self.now.sides).events }
    {
        &self.watched(side).events
    }

    /// The random words that this side ever drew, in order: those that its generator gave first. They are kept
    /// after each call. `socket(side).generator()` keeps what it gave by itself, by which a test can compare.
    /// Allocates nothing.
    pub fn words(&self, side: Side) -> &[Word]
        ensures { result.now ≡ (of_side side self.now.sides).words }
    {
        &self.watched(side).words
    }

    /// The pairs of a tag and a first TSN that this side drew, in order: its own, and those of answers to an
    /// INIT (RFC 9260, section 5.1). Allocates nothing.
    pub fn pairs(&self, side: Side) -> &[Pair]
        ensures { result.now ≡ (of_side side self.now.sides).pairs }
    {
        &self.watched(side).pairs
    }

    /// All messages that this side's user sent, in order: those that `send` and `send_many` accepted. Allocates
    /// nothing.
    pub fn sent(&self, side: Side) -> &[Message]
        ensures { map message_content result.now ≡ (of_side side self.now.sides).sent }
    {
        &self.watched(side).sent
    }

    /// All messages that this side's user read, in order: those that `get_next_message` gave. Allocates nothing.
    pub fn read(&self, side: Side) -> &[Message]
        ensures { map message_content result.now ≡ (of_side side self.now.sides).read }
    {
        &self.watched(side).read
    }

    /// What this side's association was at the start and after each act of either side. Allocates nothing.
    pub fn associations(&self, side: Side) -> &[Option<Association>]
        ensures { result.now ≡ (of_side side self.now.sides).associations }
    {
        &self.watched(side).associations
    }

    /// This side's socket. Its generator is the one that this side was made with, in a `Recorded`, so it also has
    /// the words that it gave. Allocates nothing.
    pub fn socket(&self, side: Side) -> &Socket<Recorded<R>>
        ensures { result.now ≡ (of_side side self.now.sides).socket }
    {
        &self.watched(side).socket
    }

    /// Did an allocation fail in an earlier call? Allocates nothing.
    pub fn has_failed(&self) -> bool
        ensures { result ≡ self.now.failed }
    {
        self.failed
    }
}
