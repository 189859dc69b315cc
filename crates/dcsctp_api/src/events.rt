//! The events of a socket, and the queue in which they wait for its user.

ghost use Rattle.std.specs.Prelude.{◌≡◌};
ghost use Rattle.std.specs.Vec.{with_items};
ghost use Rattle.dcsctp_wire_build.specs.Checksums.{checksum_filled, checksum_cleared};
ghost use Rattle.dcsctp_api.specs.Events.{event_content};
ghost use Rattle.dcsctp_api.specs.Packets.{entry_event, packet_event, cleared_event};

use crate::spares::Spares;
use dcsctp_spec_lemmas::types::{ErrorKind, LifecycleId, StreamId};
use dcsctp_wire_build::{SctpPacketBuilder, clear_checksum, fill_checksum};
use std::alloc::{AllocError, Global};
use std::collections::VecDeque;
use std::marker::Model;

/// An event that a socket reports to its user.
///
/// A message that was sent with a `LifecycleId` has events with that identifier. The first is
/// `OnLifecycleMessageFullySent` or `OnLifecycleMessageExpired`. After the former comes
/// `OnLifecycleMessageMaybeExpired` or `OnLifecycleMessageDelivered`. The last is `OnLifecycleEnd` in each
/// case.
#[derive(Debug, Drop)]
pub enum SocketEvent {
    /// These bytes are to be sent to the peer as one packet.
    SendPacket(Vec<u8>),

    /// An association was made, whichever end began it.
    OnConnected(),

    /// The association was ended in an orderly way.
    OnClosed(),

    /// The peer restarted the association. It continues, but data may have been lost.
    OnConnectionRestarted(),

    /// The association was cut off, by this end or the peer. The text says more, and may be empty.
    OnAborted(ErrorKind, String),

    /// Something went wrong, and the association continues. The text says more, and may be empty.
    OnError(ErrorKind, String),

    /// What waits to be sent on the stream has fallen to its threshold or below.
    OnBufferedAmountLow(StreamId),

    /// What waits to be sent on all streams together has fallen to the threshold of the options or
    /// below.
    OnTotalBufferedAmountLow(),

    /// The peer refused to reset these outgoing streams.
    OnStreamsResetFailed(Vec<StreamId>),

    /// These outgoing streams were reset.
    OnStreamsResetPerformed(Vec<StreamId>),

    /// The peer reset these incoming streams; an empty list means all of them.
    OnIncomingStreamReset(Vec<StreamId>),

    /// The last part of the message was sent for the first time.
    OnLifecycleMessageFullySent(LifecycleId),

    /// The message was abandoned after it was fully sent, so that the peer may have it or not.
    OnLifecycleMessageMaybeExpired(LifecycleId),

    /// The message was abandoned before it was fully sent.
    OnLifecycleMessageExpired(LifecycleId),

    /// The peer has acknowledged the message, and all that was sent before it.
    OnLifecycleMessageDelivered(LifecycleId),

    /// No further event names the message, whatever became of it. A message that was refused has only this
    /// event.
    OnLifecycleEnd(LifecycleId),
}

// An event that waits.
#[derive(Drop)]
enum Entry {
    // As it is taken.
    Whole(SocketEvent),

    // A packet with 0 in the place of its checksum. That is filled in when the packet is taken, since a user who
    // makes checksums takes it without.
    Unfilled(Vec<u8>),
}

/// The events that the user has not taken yet, in the order in which they came.
///
/// A contract sees the list of them, the earliest first, each packet with its checksum.
#[derive(Drop)]
pub struct Events {
    items: VecDeque<Entry>,

    /// Memory for packets. A contract doesn't see it.
    pub spares: Spares,
}

impl Model for Events {
    ghost use Rattle.std.specs.Prelude.{List, map};
    ghost use Rattle.dcsctp_api.specs.declared.events.SocketEvent.{SocketEvent};
    ghost use Rattle.dcsctp_api.specs.Packets.{entry_event};

    ghost Value = { List SocketEvent };

    ghost view = { λ events. map entry_event events.items.items };
}

// The packet with its checksum.
fn filled(mut packet: Vec<u8>) -> Vec<u8>
    ensures { result ≡ with_items packet (checksum_filled packet.items) }
{
    fill_checksum(&mut packet);
    packet
}

// The packet with 0 in the place of its checksum.
fn cleared(mut packet: Vec<u8>) -> Vec<u8>
    ensures { result.items ≡ checksum_cleared packet.items }
{
    clear_checksum(&mut packet);
    packet
}

impl Entry {
    // A packet that was built.
    fn of(packet: SctpPacketBuilder) -> Entry
        ensures { event_content (entry_event result) ≡ packet_event packet }
    {
        if packet.writes_checksum() {
            return Entry::Unfilled(packet.build_without_checksum());
        }
        Entry::Whole(SocketEvent::SendPacket(packet.build()))
    }

    // The event.
    fn event(self) -> SocketEvent
        ensures { result ≡ entry_event self }
    {
        match self {
            Entry::Whole(event) => event,
            Entry::Unfilled(packet) => SocketEvent::SendPacket(filled(packet)),
        }
    }

    // The event, but that its packet has 0 in the place of its checksum.
    fn event_without_checksum(self) -> SocketEvent
        ensures { event_content result ≡ cleared_event (event_content (entry_event self)) }
    {
        match self {
            Entry::Whole(SocketEvent::SendPacket(packet)) => {
                SocketEvent::SendPacket(cleared(packet))
            }
            Entry::Whole(event) => event,
            Entry::Unfilled(packet) => SocketEvent::SendPacket(cleared(packet)),
        }
    }
}

impl Events {
    ghost use Rattle.std.specs.Prelude.{◌≡◌, [], ◌∷◌, ◌++◌, map, OnOk, OnErr, IfSome, IfNone};
    ghost use Rattle.dcsctp_api.specs.Packets.{TakesCleared};

    /// No events yet. Allocates nothing until the first is added.
    pub fn new(alloc: Global) -> Events
        ensures { result ≡ [] }
    {
        Events {
            items: VecDeque::new(alloc),
            spares: Spares::new(alloc),
        }
    }

    /// Adds an event after all others. If an allocation fails, the event is dropped and the others are kept.
    pub fn add(&mut self, event: SocketEvent) -> Result<(), AllocError>
        ensures ok { OnOk result (self.new ≡ self.old ++ event ∷ []) }
        ensures err { OnErr result (self.new ≡ self.old) }
    {
        self.items.push_back(Entry::Whole(event))?;
        Ok(())
    }

    /// Adds a packet after all others, as `SocketEvent::SendPacket`. If an allocation fails, the packet is dropped and
    /// the others are kept.
    pub fn add_packet(&mut self, packet: SctpPacketBuilder) -> Result<(), AllocError>
        ensures ok { OnOk result (map event_content self.new
            ≡ map event_content self.old ++ packet_event packet ∷ []) }
        ensures err { OnErr result (self.new ≡ self.old) }
    {
        self.items.push_back(Entry::of(packet))?;
        Ok(())
    }

    /// Takes the earliest event; `None` if no event is left.
    pub fn next_event(&mut self) -> Option<SocketEvent>
        ensures some { IfSome result (λ event. self.old ≡ event ∷ self.new) }
        ensures none { IfNone result ((self.old ≡ []) × (self.new ≡ [])) }
    {
        let entry = self.items.pop_front()?;
        Some(entry.event())
    }

    /// The same for a user who makes checksums: a packet has 0 in the place of its checksum, which isn't computed.
    pub fn next_event_without_checksum(&mut self) -> Option<SocketEvent>
        ensures some { IfSome result (λ event. TakesCleared self.old event self.new) }
        ensures none { IfNone result ((self.old ≡ []) × (self.new ≡ [])) }
    {
        let first = self.items.pop_front()?;
        Some(first.event_without_checksum())
    }
}
