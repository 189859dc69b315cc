//! The events of a socket, by short names: a packet by the types of its chunks.

use dcsctp_api::{ErrorKind, SocketEvent};

// The types of chunks (RFC 9260, section 3.2; RFC 3758, section 3.2; RFC 6525, section 3.1).
pub const DATA: u8 = 0;

pub const INIT: u8 = 1;

pub const INIT_ACK: u8 = 2;

pub const SACK: u8 = 3;

pub const HEARTBEAT: u8 = 4;

pub const HEARTBEAT_ACK: u8 = 5;

pub const ABORT: u8 = 6;

pub const SHUTDOWN: u8 = 7;

pub const SHUTDOWN_ACK: u8 = 8;

pub const COOKIE_ECHO: u8 = 10;

pub const COOKIE_ACK: u8 = 11;

pub const SHUTDOWN_COMPLETE: u8 = 14;

pub const RE_CONFIG: u8 = 130;

pub const FORWARD_TSN: u8 = 192;

/// An event.
#[derive(Clone, Copy)]
pub enum ExpectedEvent {
    /// A packet with chunks of these types, and no others.
    Packet(&'static [u8]),

    /// Another event, by its name and the number of its stream or message, or how many streams it names, else 0.
    Event(&'static str, u64),
}

// Are the chunks of the packet of these types? They begin after a common header of 12 bytes. The first byte
// of each is its type, the third and the fourth are its length, and padding goes to a multiple of four (RFC
// 9260, sections 3.1 and 3.2).
fn has_chunks(packet: &[u8], kinds: &[u8]) -> bool {
    let mut start = 12usize;
    for kind in kinds {
        let bytes = (
            packet.get(start),
            packet.get(start.saturating_add(2)),
            packet.get(start.saturating_add(3)),
        );
        let (Some(found), Some(high), Some(low)) = bytes else {
            return false;
        };
        if *found != *kind {
            return false;
        }
        let length = usize::from(u16::from_be_bytes([*high, *low]));
        let end = start.saturating_add(length).saturating_add(3);
        start = end.saturating_sub(end % 4);
    }
    packet.len() <= start
}

// The name of an event and its number.
fn name_of(event: &SocketEvent) -> (&'static str, u64) {
    match event {
        SocketEvent::OnConnected() => ("connected", 0),
        SocketEvent::OnClosed() => ("closed", 0),
        SocketEvent::OnConnectionRestarted() => ("restarted", 0),
        SocketEvent::OnAborted(ErrorKind::PeerReported, _) => ("aborted by the peer", 0),
        SocketEvent::OnError(ErrorKind::ParseFailed, _) => ("unreadable", 0),
        SocketEvent::OnIncomingStreamReset(ids) => ("incoming reset", ids.len() as u64),
        SocketEvent::OnStreamsResetPerformed(ids) => ("reset performed", ids.len() as u64),
        SocketEvent::OnBufferedAmountLow(id) => ("low", u64::from(id.0)),
        SocketEvent::OnLifecycleMessageFullySent(id) => ("fully sent", id.value()),
        SocketEvent::OnLifecycleMessageMaybeExpired(id) => ("maybe expired", id.value()),
        SocketEvent::OnLifecycleMessageDelivered(id) => ("delivered", id.value()),
        SocketEvent::OnLifecycleEnd(id) => ("end", id.value()),
        _ => ("another event", 0),
    }
}

/// Is the event this one?
pub fn is_told(event: &SocketEvent, told: &ExpectedEvent) -> bool {
    match told {
        ExpectedEvent::Event(name, number) => name_of(event) == (*name, *number),
        ExpectedEvent::Packet(kinds) => match event {
            SocketEvent::SendPacket(packet) => has_chunks(packet, kinds),
            _ => false,
        },
    }
}
