//! One of the two sockets, with all that it ever showed.

ghost use Rattle.std.specs.Prelude.{◌≡◌, true, [], ◌∷◌, map, IfOk, IsOkUnless};
ghost use Rattle.std.specs.Option.{option_map};
ghost use Rattle.dcsctp_core.specs.types.Settings.{IsValid};
ghost use Rattle.dcsctp_core.specs.types.Schedule.{call_content, act_content, send_call, send_many_call, reset_call, take_call, hand_over_call};
ghost use Rattle.dcsctp_core.specs.types.Ids.{stream_numbers};
ghost use Rattle.dcsctp_core.specs.types.queues.Messages.{message_content};
ghost use Rattle.dcsctp_core.specs.spec.endpoint.CallTurns.{HandleInput};
ghost use Rattle.dcsctp_core.specs.types.Snapshot.{snapshot, is_valid_snapshot};
ghost use Rattle.dcsctp_spec_runs.specs.Sockets.{packet_at_number, DeliveryTurns, TurnsOfAct};
ghost use Rattle.dcsctp_core.specs.spec.endpoint.UserTurns.{UserTurns};
ghost use Rattle.dcsctp_core.specs.api.Events.{event_content};
ghost use Rattle.dcsctp_world.specs.declared.act.Reply.TheVariants.{Done};
ghost use Rattle.dcsctp_socket.specs.SocketView.{user_view_of};
ghost use Rattle.dcsctp_world.specs.Shown.{fresh_side_shown};
ghost use Rattle.dcsctp_world.specs.Growth.{KeepsEvents, TakesAll, CollectsAll, MakesUserCall, HandlesAct, RecordsAssociation, IsReply, IsDeliveryReply, IsCallReply};
ghost use Rattle.dcsctp_world.specs.Outside.{OutsideHandoverTurns, IsHandoverReply, ValidTurns, IsRestoredReply};
ghost use Rattle.dcsctp_world.specs.Parts.{bytes_of_packets, kept_output, shown_side};

use crate::act::Reply;
use crate::user_messages::keep_messages;
use dcsctp_core::api::handover::SocketHandoverState;
use dcsctp_core::types::{Act, Call, Outside, Step, copied_messages};
use dcsctp_socket::{
    Association, DcSctpSocket, Message, Options, Pair, SendOptions, Socket, SocketEvent,
    SocketFault, StreamId, Word,
};
use rand_core::Rng;
use std::alloc::{AllocError, Global};

/// A socket, and what it showed from its making on.
#[derive(Drop)]
pub struct WatchedSocket<R> {
    /// The socket. Between two acts no event waits in it.
    pub socket: Socket<R>,

    /// The options that it was made with.
    pub options: Options,

    /// Its events.
    pub events: Vec<SocketEvent>,

    /// The packets among them.
    pub packets: Vec<Vec<u8>>,

    /// The random words that it drew.
    pub words: Vec<Word>,

    /// The pairs that it made of them.
    pub pairs: Vec<Pair>,

    /// The messages that its user sent: those that `send` and `send_many` accepted.
    pub sent: Vec<Message>,

    /// Those that its user read: what `get_next_message` gave.
    pub read: Vec<Message>,

    /// Its association at the start and after each act of either side.
    pub associations: Vec<Option<Association>>,
}

// Keeps an event, and its packet if it is one. `Err`: an allocation failed; the packet alone may have been
// kept.
fn keep_event(
    events: &mut Vec<SocketEvent>,
    packets: &mut Vec<Vec<u8>>,
    event: SocketEvent,
) -> Result<(), AllocError>
    ensures { KeepsEvents (event_content event ∷ []) (kept_output events.old.items
        packets.old.items) result (kept_output events.new.items packets.new.items) }
{
    if let SocketEvent::SendPacket(packet) = &event {
        packets.push(packet.clone()?)?;
    }
    events.push(event)?;
    Ok(())
}

// Takes all events that wait in the socket, and keeps them. `Err`: an allocation failed; the first of them
// have been kept.
fn take_events<R: Rng + Drop>(
    socket: &mut Socket<R>,
    events: &mut Vec<SocketEvent>,
    packets: &mut Vec<Vec<u8>>,
) -> Result<(), AllocError>
    ensures { TakesAll (user_view_of R.stream socket.old)
        (kept_output events.old.items packets.old.items) result (user_view_of R.stream socket.new)
        (kept_output events.new.items packets.new.items) }
{
    while let Some(event) = socket.poll_event() {
        keep_event(events, packets, event)?;
    }
    Ok(())
}

// Makes a call of the user. The errors are those of the call.
fn make_call<R: Rng + Drop>(socket: &mut Socket<R>, call: &Call) -> Result<Reply, SocketFault>
    ensures { MakesUserCall (UserTurns socket.old.view.endpoint (call_content call.now))
        (IsCallReply socket.old.view.endpoint (call_content call.now))
        (user_view_of R.stream socket.old) result (user_view_of R.stream socket.new) }
{
    match call {
        Call::Connect => {
            socket.connect()?;
            Ok(Reply::Done)
        }
        Call::Close => {
            socket.close()?;
            Ok(Reply::Done)
        }
        Call::Shutdown => {
            socket.shutdown()?;
            Ok(Reply::Done)
        }
        Call::AdvanceTime(now) => {
            socket.advance_time(*now)?;
            Ok(Reply::Done)
        }
        Call::SetStreamPriority(stream_id, priority) => {
            socket.set_stream_priority(*stream_id, *priority)?;
            Ok(Reply::Done)
        }
        Call::SetBufferedAmountLowThreshold(stream_id, bytes) => {
            socket.set_buffered_amount_low_threshold(*stream_id, *bytes)?;
            Ok(Reply::Done)
        }
        Call::SetMaxMessageSize(bytes) => {
            if socket.has_failed() {
                return Err(SocketFault::Failed);
            }
            socket.set_max_message_size(*bytes);
            Ok(Reply::Done)
        }
        Call::Send(message, options) => send(socket, message, options),
        Call::SendMany(messages, options) => send_many(socket, messages, options),
        Call::ResetStreams(stream_ids) => reset_streams(socket, stream_ids),
        Call::GetNextMessage => take_message(socket),
        Call::GetHandoverStateAndClose => hand_over(socket),
    }
}

// The user sends a copy of the message. The errors are those of the call, and `SocketFault::OutOfMemory` if
// the copy can't be allocated.
fn send<R: Rng + Drop>(
    socket: &mut Socket<R>,
    message: &Message,
    options: &SendOptions,
) -> Result<Reply, SocketFault>
    ensures { MakesUserCall
        (UserTurns socket.old.view.endpoint (send_call (message_content message.now) options.now))
        (IsCallReply socket.old.view.endpoint (send_call (message_content message.now) options.now))
        (user_view_of R.stream socket.old) result (user_view_of R.stream socket.new) }
{
    if socket.has_failed() {
        return Err(SocketFault::Failed);
    }
    let answer = socket.send(message.copied()?, options)?;
    Ok(Reply::Sent(answer))
}

// The same for several messages.
fn send_many<R: Rng + Drop>(
    socket: &mut Socket<R>,
    messages: &Vec<Message>,
    options: &SendOptions,
) -> Result<Reply, SocketFault>
    ensures { MakesUserCall (UserTurns socket.old.view.endpoint
        (send_many_call (map message_content messages.now.items) options.now))
        (IsCallReply socket.old.view.endpoint
        (send_many_call (map message_content messages.now.items) options.now))
        (user_view_of R.stream socket.old) result (user_view_of R.stream socket.new) }
{
    if socket.has_failed() {
        return Err(SocketFault::Failed);
    }
    let answer = socket.send_many(copied_messages(messages)?, options)?;
    Ok(Reply::SentMany(answer))
}

// The user resets streams. The errors are those of the call.
fn reset_streams<R: Rng + Drop>(
    socket: &mut Socket<R>,
    stream_ids: &[StreamId],
) -> Result<Reply, SocketFault>
    ensures { MakesUserCall
        (UserTurns socket.old.view.endpoint (reset_call (stream_numbers stream_ids.now)))
        (IsCallReply socket.old.view.endpoint (reset_call (stream_numbers stream_ids.now)))
        (user_view_of R.stream socket.old) result (user_view_of R.stream socket.new) }
{
    let answer = socket.reset_streams(stream_ids)?;
    Ok(Reply::Reset(answer))
}

// The user takes a message. `Err`: the socket had failed.
fn take_message<R: Rng + Drop>(socket: &mut Socket<R>) -> Result<Reply, SocketFault>
    ensures { MakesUserCall (UserTurns socket.old.view.endpoint take_call)
        (IsCallReply socket.old.view.endpoint take_call)
        (user_view_of R.stream socket.old) result (user_view_of R.stream socket.new) }
{
    if socket.has_failed() {
        return Err(SocketFault::Failed);
    }
    Ok(Reply::Taken(socket.get_next_message()))
}

// The user hands the socket over. The errors are those of the call.
fn hand_over<R: Rng + Drop>(socket: &mut Socket<R>) -> Result<Reply, SocketFault>
    ensures { MakesUserCall (UserTurns socket.old.view.endpoint hand_over_call)
        (IsCallReply socket.old.view.endpoint hand_over_call)
        (user_view_of R.stream socket.old) result (user_view_of R.stream socket.new) }
{
    let answer = socket.get_handover_state_and_close()?;
    Ok(Reply::HandedOver(answer))
}

// Restores the socket from a snapshot that is valid. The errors are those of the call.
fn restore<R: Rng + Drop>(
    socket: &mut Socket<R>,
    state: &SocketHandoverState,
) -> Result<Reply, SocketFault>
    requires { is_valid_snapshot socket.old.view.endpoint.options (snapshot state.now) ≡ true }
    ensures { MakesUserCall (ValidTurns socket.old.view.endpoint (snapshot state.now))
        (IsRestoredReply socket.old.view.endpoint (snapshot state.now))
        (user_view_of R.stream socket.old) result (user_view_of R.stream socket.new) }
{
    let answer = socket.restore_from_state(state)?;
    Ok(Reply::Restored(answer))
}

// Hands the socket over, and restores it from its snapshot. The errors are those of the calls.
fn hand_over_and_restore<R: Rng + Drop>(socket: &mut Socket<R>) -> Result<Reply, SocketFault>
    ensures { MakesUserCall (OutsideHandoverTurns socket.old.view.endpoint)
        (IsHandoverReply socket.old.view.endpoint)
        (user_view_of R.stream socket.old) result (user_view_of R.stream socket.new) }
{
    match socket.get_handover_state_and_close()? {
        Err(error) => Ok(Reply::HandedOver(Err(error))),
        Ok(state) => restore(socket, &state),
    }
}

// The packet of this number, counted from 1.
fn packet_numbered(packets: &[Vec<u8>], number: usize) -> Option<&Vec<u8>>
    ensures { packet_at_number number (bytes_of_packets packets.now)
        ≡ option_map (λ packet. packet.now.items) result }
{
    if number == 0 {
        return None;
    }
    packets.get(number - 1)
}

impl<R: Rng + Drop> WatchedSocket<R> {
    /// A socket that was just made.
    pub fn new(
        alloc: Global,
        name: &str,
        options: &Options,
        rng: R,
    ) -> Result<WatchedSocket<R>, SocketFault>
        requires { IsValid options.now }
        ensures fresh { IfOk result (λ watched. shown_side watched ≡ fresh_side_shown options.now
            rng) }
        ensures fault { IsOkUnless result SocketFault.OutOfMemory }
    {
        let socket = Socket::new(alloc, name, options, rng)?;
        let mut associations = Vec::new(alloc);
        associations.push(None)?;
        Ok(WatchedSocket {
            socket,
            options: *options,
            events: Vec::new(alloc),
            packets: Vec::new(alloc),
            words: Vec::new(alloc),
            pairs: Vec::new(alloc),
            sent: Vec::new(alloc),
            read: Vec::new(alloc),
            associations,
        })
    }

    // Keeps what the last call brought: its events, the words that it drew, and the pairs that it made of them.
    // `Err`: an allocation failed; the first of them have been kept.
    fn keep_all(&mut self) -> Result<(), AllocError>
        ensures { CollectsAll R.stream (shown_side self.old) result (shown_side self.new) }
    {
        take_events(&mut self.socket, &mut self.events, &mut self.packets)?;
        self.words.extend_from_slice(self.socket.drawn_words())?;
        self.pairs.extend_from_slice(self.socket.drawn_pairs())?;
        Ok(())
    }

    // The user calls. The errors are those of the call, and `SocketFault::OutOfMemory` if what it brought
    // can't be kept.
    fn call(&mut self, call: &Call) -> Result<Reply, SocketFault>
        requires { self.old.socket.view.events ≡ [] }
        ensures { HandlesAct R.stream (UserTurns self.old.socket.view.endpoint
            (call_content call.now)) (IsCallReply self.old.socket.view.endpoint
            (call_content call.now)) (shown_side self.old) result (shown_side self.new) }
    {
        let reply = make_call(&mut self.socket, call)?;
        keep_messages(&mut self.sent, &mut self.read, call, &reply)?;
        self.keep_all()?;
        Ok(reply)
    }

    // Hands over these bytes. The errors are as those of `call`.
    fn hand_in(&mut self, bytes: &[u8]) -> Result<Reply, SocketFault>
        requires { self.old.socket.view.events ≡ [] }
        ensures { HandlesAct R.stream (HandleInput self.old.socket.view.endpoint bytes.now)
            (λ reply. reply ≡ Done) (shown_side self.old) result (shown_side self.new) }
    {
        self.socket.handle_input(bytes)?;
        self.keep_all()?;
        Ok(Reply::Done)
    }

    // Hands over the packet of this number, if there is one. The errors are as those of `call`.
    fn deliver(&mut self, packets: &[Vec<u8>], number: usize) -> Result<Reply, SocketFault>
        requires { self.old.socket.view.events ≡ [] }
        ensures { HandlesAct R.stream
            (DeliveryTurns self.old.socket.view.endpoint (packet_at_number number
            (bytes_of_packets packets.now)))
            (IsDeliveryReply (packet_at_number number (bytes_of_packets packets.now)))
            (shown_side self.old) result (shown_side self.new) }
    {
        match packet_numbered(packets, number) {
            None => Ok(Reply::NoCall),
            Some(packet) => self.hand_in(packet),
        }
    }

    // Hands the socket over, and restores it from its own snapshot. The errors are as those of `call`.
    fn hand_over_and_restore(&mut self) -> Result<Reply, SocketFault>
        requires { self.old.socket.view.events ≡ [] }
        ensures { HandlesAct R.stream (OutsideHandoverTurns self.old.socket.view.endpoint)
            (IsHandoverReply self.old.socket.view.endpoint) (shown_side self.old) result
            (shown_side self.new) }
    {
        let reply = hand_over_and_restore(&mut self.socket)?;
        self.keep_all()?;
        Ok(reply)
    }

    // Restores the socket from this snapshot, if it is valid. The errors are as those of `call`.
    fn restore(&mut self, state: &SocketHandoverState) -> Result<Reply, SocketFault>
        requires { self.old.socket.view.events ≡ [] }
        ensures { HandlesAct R.stream (ValidTurns self.old.socket.view.endpoint
            (snapshot state.now)) (IsRestoredReply self.old.socket.view.endpoint
            (snapshot state.now)) (shown_side self.old) result (shown_side self.new) }
    {
        if !state.is_valid(&self.socket.options()) {
            return Ok(Reply::NoCall);
        }
        let reply = restore(&mut self.socket, state)?;
        self.keep_all()?;
        Ok(reply)
    }

    /// Performs an act at this side, where the other has emitted these packets. `SocketFault::OutOfMemory`: an
    /// allocation failed, in the socket or here; the first part of what the act brings may have been kept.
    /// `SocketFault::Failed`: the socket had failed. No more is promised of that, since a world that has failed
    /// performs nothing.
    pub fn perform(&mut self, packets: &[Vec<u8>], act: &Act) -> Result<Reply, SocketFault>
        requires { self.old.socket.view.events ≡ [] }
        ensures { HandlesAct R.stream
            (TurnsOfAct self.old.socket.view.endpoint (bytes_of_packets packets.now)
            (act_content act.now))
            (IsReply self.old.socket.view.endpoint (bytes_of_packets packets.now)
            (act_content act.now)) (shown_side self.old) result (shown_side self.new) }
    {
        match act {
            Act::Step(Step::Call(_, call)) => self.call(call),
            Act::Step(Step::Deliver(_, number)) => self.deliver(packets, *number),
            Act::Outside(Outside::Input(_, bytes)) => self.hand_in(bytes),
            Act::Outside(Outside::Handover(_)) => self.hand_over_and_restore(),
            Act::Outside(Outside::Restore(_, state)) => self.restore(state),
        }
    }

    /// Keeps the association as it is now. `Err`: an allocation failed, and nothing was kept.
    pub fn keep_association(&mut self) -> Result<(), AllocError>
        ensures { RecordsAssociation (shown_side self.old) result (shown_side self.new) }
    {
        self.associations.push(self.socket.association())?;
        Ok(())
    }
}
