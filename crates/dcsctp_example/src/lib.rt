//! How a user drives a socket. README names `serve`. The page of `dcsctp_socket` has the body of
//! `serve`, with that of `drain` in it.
#![tactic(auto)]

ghost use Rattle.std.specs.Prelude.{◌≡◌, [], OnOk, IfOk};
ghost use Rattle.dcsctp_spec.specs.endpoint.TimeTurns.{next_moment};

use dcsctp_socket::{
    DcSctpSocket, Message, Options, PpId, SendError, SendOptions, Socket, SocketEvent, SocketFault,
    SocketTime, StreamId,
};
use rand_core::Rng;
use std::alloc::{AllocError, Global};

/// What a socket gave its user.
#[derive(Drop)]
pub struct SocketOutput {
    /// Packets that go to the peer, oldest first.
    pub packets: Vec<Vec<u8>>,

    /// Messages of the peer, in the order in which they became ready.
    pub messages: Vec<Message>,

    /// Events for the application, oldest first.
    pub events: Vec<SocketEvent>,
}

/// One round of the loop: hands in the time, and a packet of the peer if one came, and takes what is ready.
/// Returns when the next round is due if no packet comes before. The errors are those of the calls.
pub fn serve<S: DcSctpSocket>(
    socket: &mut S,
    now: SocketTime,
    packet: Option<&[u8]>,
    told: &mut SocketOutput,
) -> Result<SocketTime, SocketFault>
    ensures quiet { OnOk result ((S.user_view socket.new).events ≡ []) }
    ensures due { IfOk result (λ due. due ≡ next_moment (S.user_view socket.new).endpoint) }
{
    socket.advance_time(now)?;
    if let Some(packet) = packet {
        socket.handle_input(packet)?;
    }
    for _ in 0..socket.messages_ready_count() {
        if let Some(message) = socket.get_next_message() {
            told.messages.push(message)?;
        }
    }
    drain(socket, told)?;
    Ok(socket.poll_timeout())
}

/// Takes all events that wait. `Err`: an allocation failed.
pub fn drain<S: DcSctpSocket>(socket: &mut S, told: &mut SocketOutput) -> Result<(), AllocError>
    ensures { OnOk result ((S.user_view socket.new).events ≡ []) }
{
    while let Some(event) = socket.poll_event() {
        match event {
            SocketEvent::SendPacket(packet) => told.packets.push(packet)?,
            other => told.events.push(other)?,
        }
    }
    Ok(())
}

/// Sends a text on stream 1, in order and until it is acknowledged. 51 is the payload protocol identifier of
/// a text (RFC 8831, section 8). The result is that of `DcSctpSocket::send`.
pub fn say<S: DcSctpSocket>(
    socket: &mut S,
    alloc: Global,
    text: &str,
) -> Result<Result<(), SendError>, SocketFault> {
    let payload = Vec::from_slice(alloc, text.as_bytes())?;
    let message = Message::new(StreamId(1), PpId(51), payload);
    socket.send(message, &SendOptions::default())
}

/// Connects, and serves the packets that come from the peer, all at the moment zero. The errors are those of
/// the calls.
pub fn drive<S: DcSctpSocket>(
    socket: &mut S,
    incoming: &[Vec<u8>],
    told: &mut SocketOutput,
) -> Result<(), SocketFault>
    ensures { OnOk result ((S.user_view socket.new).events ≡ []) }
{
    socket.connect()?;
    drain(socket, told)?;
    for packet in incoming {
        let _due = serve(socket, SocketTime::zero(), Some(packet), told)?;
    }
    Ok(())
}

/// What a socket with the default options returns when it connects and is handed these packets. The errors
/// are those of the calls.
pub fn client<R: Rng + Drop>(
    alloc: Global,
    generator: R,
    incoming: &[Vec<u8>],
) -> Result<SocketOutput, SocketFault> {
    let mut socket = Socket::new(alloc, "client", &Options::default(), generator)?;
    let mut told = SocketOutput {
        packets: Vec::new(alloc),
        messages: Vec::new(alloc),
        events: Vec::new(alloc),
    };
    drive(&mut socket, incoming, &mut told)?;
    Ok(told)
}
