//! One end: a socket, the link by which its packets leave, and the messages that it sends.

use crate::handovers::{Handovers, is_left, restored};
use crate::link::Link;
use crate::messages::{COUNT, Messages};
use crate::resets::Resets;
use crate::run::{Closing, Handing, Run};
use dcsctp_socket::api::handover::SocketHandoverState;
use dcsctp_socket::{
    DcSctpSocket, Options, Socket, SocketEvent, SocketState, SocketTime, StreamId,
    ZERO_CHECKSUM_ALTERNATE_ERROR_DETECTION_METHOD_LOWER_LAYER_DTLS,
};
use rand_core::SeedableRng;
use rand_xoshiro::Xoshiro256PlusPlus;
use std::alloc::Global;
use std::process::Abort;
use std::time::Duration;

/// A socket with what belongs to it.
pub struct End {
    pub socket: Socket<Xoshiro256PlusPlus>,
    pub link: Link,
    pub sent: Messages,
    pub resets: Resets,
    pub handovers: Handovers,

    // How many messages the socket was given.
    added: usize,

    // How often it was connected, and how often it ended.
    connections: usize,
    closings: usize,
}

// Written out: a derived one would be proved at each exit of each function that has one.
impl Drop for End {
    fn drop(self) {
        let End {
            socket: _,
            link: _,
            sent: _,
            resets: _,
            handovers: _,
            added: _,
            connections: _,
            closings: _,
        } = self;
    }
}

// How many events a socket may have at once.
const MOST_EVENTS: u32 = 100_000;

// Heartbeats are off, so that a socket at rest has no deadline. No association is aborted after errors: if
// three of ten packets are lost, eleven timeouts in a row do occur.
fn options_of(run: &Run) -> Options {
    let mut options = Options::default();
    options.heartbeat_interval = Duration::from_secs(0);
    options.max_retransmissions = None;
    options.max_init_retransmits = None;
    options.enable_message_interleaving = run.interleaving;
    options.mtu = run.mtu;
    options.enable_handover_with_outstanding_data = run.handing == Handing::WithData;
    if run.zero_checksum {
        options.zero_checksum_alternate_error_detection_method =
            ZERO_CHECKSUM_ALTERNATE_ERROR_DETECTION_METHOD_LOWER_LAYER_DTLS;
    }
    options
}

impl End {
    /// A closed end, whose first handover is due before this message.
    pub fn new(rt: &impl Abort, alloc: Global, run: &Run, first_handover: usize) -> End {
        let options = options_of(run);
        assert!(rt; options.is_valid(), "the options are not valid");
        let generator = Xoshiro256PlusPlus::seed_from_u64(run.seed);
        End {
            socket: Socket::new(alloc, "end", &options, generator).expect(rt, "no socket"),
            link: Link::new(alloc, run),
            sent: Messages::plan(rt, alloc, run),
            resets: Resets::new(alloc, run),
            handovers: Handovers::new(run, first_handover),
            added: 0,
            connections: 0,
            closings: 0,
        }
    }

    /// How many bytes wait to be sent.
    pub fn buffered(&self) -> usize {
        let mut sum = 0usize;
        for stream in 0..4u16 {
            sum = sum.saturating_add(self.socket.buffered_amount(StreamId(stream)));
        }
        sum
    }

    // Sends the next message.
    fn send_next(&mut self, rt: &impl Abort) {
        let message = self.sent.message(rt, self.added);
        let options = self.sent.options(rt, self.added);
        let answer = self.socket.send(message, &options).expect(rt, "a message");
        assert_eq!(rt; answer, Ok(()), "message {}", self.added);
        self.added = self.added.saturating_add(1);
    }

    // Resets the streams whose turn it is, if it is the turn of some.
    fn reset_next(&mut self, rt: &impl Abort) {
        let waiting = match self.resets.next_alone() {
            None => self.buffered(),
            Some(stream) => self.socket.buffered_amount(stream),
        };
        let Some(streams) = self.resets.ask(rt, self.added, waiting) else {
            return;
        };
        for stream in &streams {
            self.sent.resets(stream.0, self.added);
        }
        let answer = self.socket.reset_streams(&streams).expect(rt, "a reset");
        assert_eq!(rt; answer, Ok(()), "the reset before message {}", self.added);
    }

    /// Sends messages while little waits, once the association is open, and resets streams between them.
    pub fn offer(&mut self, rt: &impl Abort) {
        if self.socket.state() != SocketState::Connected {
            return;
        }
        for _ in 0..=COUNT {
            self.reset_next(rt);
            let is_held = self.resets.are_due(self.added) || self.handovers.hold(self.added);
            if is_held || COUNT <= self.added || 20_000 <= self.buffered() {
                return;
            }
            self.send_next(rt);
        }
    }

    /// Is it to be handed over now?
    pub fn is_leaving(&self) -> bool {
        self.socket.state() == SocketState::Connected && self.handovers.are_due(self.added)
    }

    // Asks for the snapshot of the socket, if it is ready; all messages that were ready have been taken.
    fn snapshot(&mut self, rt: &impl Abort) -> Option<SocketHandoverState> {
        assert_eq!(rt; self.socket.messages_ready_count(), 0, "messages are lost");
        let is_ready = self.socket.get_handover_readiness().is_ready();
        let answer = self.socket.get_handover_state_and_close();
        let snapshot = answer.expect(rt, "no answer").ok();
        assert_eq!(rt; snapshot.is_some(), is_ready, "is it ready?");
        snapshot
    }

    /// Continues with another socket, if that is due and the present one is ready. Does it?
    pub fn hand_over(
        &mut self,
        rt: &impl Abort,
        alloc: Global,
        run: &Run,
        now: SocketTime,
    ) -> bool {
        if !self.is_leaving() {
            return false;
        }
        let Some(state) = self.snapshot(rt) else {
            return false;
        };
        is_left(rt, &mut self.socket);
        self.handovers.note(&state);
        self.socket = restored(rt, alloc, &options_of(run), now, &state);
        self.drain(rt, now);
        true
    }

    /// Have all messages left the queue?
    pub fn has_sent_all(&self) -> bool {
        self.added == COUNT && self.buffered() == 0
    }

    // Errors are only reported for packets that come after the end, whose tag isn't known any longer.
    fn fails(&self, rt: &impl Abort, text: &str) {
        assert!(rt; 0 < self.closings, "error: {text}");
    }

    // Its own streams of these numbers were reset.
    fn are_performed(&mut self, rt: &impl Abort, streams: &[StreamId]) {
        for stream in streams {
            self.link.seen.begins_anew(stream.0);
        }
        self.resets.are_performed(rt, streams);
    }

    // Handles an event of the socket: a packet leaves, and nothing may go wrong.
    fn hear(&mut self, rt: &impl Abort, now: SocketTime, event: SocketEvent) {
        match event {
            SocketEvent::SendPacket(packet) => self.link.put(rt, now, packet),
            SocketEvent::OnConnected() => self.connections = self.connections.saturating_add(1),
            SocketEvent::OnClosed() => self.closings = self.closings.saturating_add(1),
            SocketEvent::OnError(_, text) => self.fails(rt, text.as_str()),
            SocketEvent::OnAborted(_, text) => panic!(rt; "aborted: {}", text.as_str()),
            SocketEvent::OnStreamsResetPerformed(streams) => self.are_performed(rt, &streams),
            SocketEvent::OnIncomingStreamReset(streams) => self.resets.are_told(rt, &streams),
            SocketEvent::OnStreamsResetFailed(_) => rt.panic("a reset failed"),
            SocketEvent::OnConnectionRestarted() => rt.panic("restarted"),
            _ => {}
        }
    }

    /// Handles all events of the socket.
    pub fn drain(&mut self, rt: &impl Abort, now: SocketTime) {
        for _ in 0..MOST_EVENTS {
            let Some(event) = self.socket.poll_event() else {
                return;
            };
            self.hear(rt, now, event);
        }
    }

    /// Advances the socket to this moment. Its events so far have been taken. Before its deadline nothing happens, and
    /// the deadline stays. From then on there is a later one, or none.
    pub fn advance(&mut self, rt: &impl Abort, now: SocketTime) {
        let deadline = self.socket.poll_timeout();
        self.socket.advance_time(now).expect(rt, "the time");
        let next = self.socket.poll_timeout();
        if now < deadline {
            let event = self.socket.poll_event();
            assert!(rt; event.is_none(), "before {deadline:?}: {event:?}");
            drop(event);
            assert_eq!(rt; next, deadline, "the deadline moves at {now:?}");
        } else {
            assert!(rt; now < next, "the deadline stays at {now:?}");
        }
    }

    /// Hands in the packets of the other end that have arrived. The messages of each are taken before the
    /// streams that it has reset are looked at.
    pub fn receive(&mut self, rt: &impl Abort, other: &mut End, now: SocketTime) {
        for _ in 0..other.link.len() {
            if let Some(packet) = other.link.take(now) {
                self.socket.handle_input(&packet).expect(rt, "a packet");
                self.take(rt, &mut other.sent);
                self.drain(rt, now);
                self.resets.note(rt, &mut other.sent);
            }
        }
    }

    // Takes the messages that are ready, which the other end has sent.
    fn take(&mut self, rt: &impl Abort, sent: &mut Messages) {
        for _ in 0..self.socket.messages_ready_count() {
            if let Some(message) = self.socket.get_next_message() {
                sent.arrives(rt, &message);
            }
        }
    }

    /// Everything was sent, nothing waits, and what must arrive has arrived. The end was connected once,
    /// and closed once if an end has shut it down. On the wire there was nothing strange. If messages may be
    /// abandoned, some are missing, and a FORWARD-TSN said so; that isn't certain if nothing is lost.
    /// Elsewhere neither is so. If some are unordered, some came after later ones.
    pub fn is_over(&self, rt: &impl Abort, run: &Run, end: &str) {
        let (name, seed, seen) = (run.name, run.seed, self.link.seen);
        let (reliable, limited) = self.sent.missing();
        let sums = [
            self.added,
            self.buffered(),
            self.connections,
            self.closings,
            reliable,
            seen.strange,
        ];
        let closings = usize::from(run.closing != Closing::Never);
        assert_eq!(rt;
            sums,
            [COUNT, 0, 1, closings, 0, 0],
            "{name}, seed {seed}, {end}: sent, waiting, connections, ends, missing, strange"
        );
        let is_limited = run.is_limited();
        if is_limited && run.faults == 0 {
            return;
        }
        let shown = [
            0 < seen.data,
            0 < limited,
            0 < seen.forward_tsns,
            0 < self.sent.overtaken,
        ];
        assert_eq!(rt;
            shown,
            [true, is_limited, is_limited, run.has_unordered],
            "{name}, seed {seed}, {end}: data, messages given up, FORWARD-TSNs, overtaken messages"
        );
    }
}
