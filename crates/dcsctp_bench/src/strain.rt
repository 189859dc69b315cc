//! Packets that strain a receiver: it holds a lot, and then handles a few more packets. The cost of one
//! packet is what those few add, divided by their number.

use crate::failure::Failure;
use crate::pair::Pair;
use dcsctp_socket::{DcSctpSocket, SocketEvent};
use dcsctp_types::wire::{
    Chunk, DataChunk, DataFlags, ForwardTsnChunk, IDataChunk, IForwardTsnChunk,
    OutgoingSsnResetRequestParameter, Parameter, ReConfigChunk,
};
use dcsctp_wire_build::SctpPacketBuilder;
use std::alloc::{AllocError, Global};

/// What the receiver comes to hold.
#[derive(Clone, Copy)]
pub enum Holding {
    /// Beginnings of unordered messages.
    Fragments,

    /// Beginnings of unordered messages in I-DATA chunks (RFC 8260), by their message identifiers.
    Interleaved,

    /// Ranges of TSNs after gaps.
    Gaps,

    /// Fragments of one I-DATA message in a row. What comes then links up with them.
    Links,

    /// Beginnings of ordered messages.
    Begun,

    /// Whole ordered messages after one that is missing.
    Waiting,

    /// Streams on which a message came.
    Streams,

    /// The streams of a reset that waits for data that was sent before it (RFC 6525, section 5.2.2).
    Reset,

    /// Entries of FORWARD-TSNs that wait for the end of such a reset of all streams, each of another stream.
    Deferred,

    /// The same of I-FORWARD-TSNs.
    DeferredApart,
}

/// What comes once a receiver holds it.
#[derive(Clone, Copy)]
pub enum Following {
    /// More of the same.
    More,

    /// FORWARD-TSNs, or I-FORWARD-TSNs, that name one stream as often as they can. Nothing that is held is
    /// skipped. The numbers rise, or each is the same.
    Skips { is_rising: bool },

    /// As many requests to reset a stream as a packet has room for. Nothing is held of that stream.
    Resets,
}

/// How a receiver is strained.
#[derive(Clone, Copy)]
pub struct Strain {
    pub holding: Holding,

    pub following: Following,

    /// How much is held, 1 at least.
    pub held: u32,

    /// How many packets come then, at most `HOLES`.
    pub more: u32,
}

/// So many places among what is held stay free at first.
pub const HOLES: u32 = 10;

impl Strain {
    // How many places lie between a hole and the next.
    fn step(&self) -> u32 {
        (self.held / HOLES).saturating_add(1)
    }

    // The place of what is held, by its number in the order of places: no hole has it.
    fn held_place(&self, number: u32) -> u32 {
        let before = match number.checked_div(self.step().saturating_sub(1)) {
            Some(before) => before.min(HOLES),
            None => HOLES,
        };
        number.saturating_add(before)
    }

    // The place of a hole. They come in mixed order.
    fn hole_place(&self, number: u32) -> u32 {
        let hole = number.saturating_mul(7) % HOLES;
        let step = self.step();
        hole.saturating_mul(step)
            .saturating_add(step.saturating_sub(1))
    }

    // The place of what comes as the packet of this number, the held first.
    fn place(&self, number: u32) -> u32 {
        match number.checked_sub(self.held) {
            Some(more) => self.hole_place(more),
            None => self.held_place(number),
        }
    }
}

// The chunks that one side gets, as if its peer had sent them.
#[derive(Drop)]
struct Sender<'p> {
    alloc: Global,
    pair: &'p mut Pair,

    // The first TSN.
    first: u32,
}

// The flags of the beginning of a message.
fn beginning(is_unordered: bool, is_end: bool) -> DataFlags {
    DataFlags {
        is_end,
        is_beginning: true,
        is_unordered,
        immediate_ack: false,
    }
}

// The flags of a fragment that neither begins nor ends its message.
fn middle() -> DataFlags {
    DataFlags {
        is_end: false,
        is_beginning: false,
        is_unordered: false,
        immediate_ack: false,
    }
}

// The low 16 bits.
fn low(number: u32) -> u16 {
    (number % 65536) as u16
}

// An unordered DATA chunk of one byte.
fn unordered(tsn: u32, is_end: bool) -> Chunk<'static> {
    Chunk::Data(DataChunk {
        flags: beginning(true, is_end),
        tsn,
        stream_id: 0,
        ssn: 0,
        ppid: 1,
        payload: &[7],
    })
}

// A whole ordered message of one byte.
fn ordered(tsn: u32, stream_id: u16, ssn: u16) -> Chunk<'static> {
    Chunk::Data(DataChunk {
        flags: beginning(false, true),
        tsn,
        stream_id,
        ssn,
        ppid: 1,
        payload: &[7],
    })
}

// The beginning of an ordered message.
fn begun(tsn: u32, ssn: u16) -> Chunk<'static> {
    Chunk::Data(DataChunk {
        flags: beginning(false, false),
        tsn,
        stream_id: 0,
        ssn,
        ppid: 1,
        payload: &[7],
    })
}

// The beginning of an unordered I-DATA message.
fn interleaved(tsn: u32, mid: u32) -> Chunk<'static> {
    Chunk::IData(IDataChunk {
        flags: beginning(true, false),
        tsn,
        stream_id: 0,
        mid,
        ppid_or_fsn: 1,
        payload: &[7],
    })
}

// A fragment of the first ordered I-DATA message.
fn fragment(tsn: u32, fsn: u32) -> Chunk<'static> {
    Chunk::IData(IDataChunk {
        flags: middle(),
        tsn,
        stream_id: 0,
        mid: 0,
        ppid_or_fsn: fsn,
        payload: &[7],
    })
}

// The fragments that are held go from this number on.
const HELD_FROM: u32 = 0x8000_0000;

// The fragment number of what comes as the packet of this number, the held first. Of those that come then,
// every second one links the one before it with all others.
fn linking_fsn(strain: &Strain, number: u32) -> u32 {
    match number.checked_sub(strain.held) {
        Some(more) => {
            let pairs = (more / 2).wrapping_mul(2);
            HELD_FROM.wrapping_sub(pairs).wrapping_sub(2 - more % 2)
        }
        None => HELD_FROM.wrapping_add(number),
    }
}

// How many entries a packet has room for, of FORWARD-TSN and of I-FORWARD-TSN.
const SKIPPED: u16 = 280;

const SKIPPED_APART: u16 = 140;

// The entries of a FORWARD-TSN that name stream 0, from this number on or by the last number before 0.
fn skipped_streams(alloc: Global, rising_from: Option<u16>) -> Result<Vec<u8>, AllocError> {
    let mut entries = Vec::new(alloc);
    for entry in 0..SKIPPED {
        let ssn = rising_from.map_or(u16::MAX, |from| from.wrapping_add(entry));
        entries.extend_from_slice(&[0, 0])?;
        entries.extend_from_slice(&ssn.to_be_bytes())?;
    }
    Ok(entries)
}

// How many FORWARD-TSNs of one entry a packet has room for, I-FORWARD-TSNs, and requests to reset a stream.
const SKIPS: u32 = 97;

const SKIPS_APART: u32 = 73;

const RESETS: u32 = 48;

// The bytes of these chunks in a packet.
const CHUNKS: usize = 1_168;

// Entries that name the first message of that many streams from this one on.
fn skipped_firsts(
    alloc: Global,
    from: u32,
    count: u32,
    is_apart: bool,
) -> Result<Vec<u8>, AllocError> {
    let first: &[u8] = if is_apart { &[0; 6] } else { &[0; 2] };
    let mut entries = Vec::new(alloc);
    for number in 0..count {
        entries.extend_from_slice(&low(from.wrapping_add(number)).to_be_bytes())?;
        entries.extend_from_slice(first)?;
    }
    Ok(entries)
}

// A chunk that skips messages up to this TSN by these entries.
fn skipping(new_cumulative_tsn: u32, skipped_streams: &[u8], is_apart: bool) -> Chunk<'_> {
    if is_apart {
        Chunk::IForwardTsn(IForwardTsnChunk {
            new_cumulative_tsn,
            skipped_streams,
        })
    } else {
        Chunk::ForwardTsn(ForwardTsnChunk {
            new_cumulative_tsn,
            skipped_streams,
        })
    }
}

// The entries of an I-FORWARD-TSN that name the unordered messages of stream 0 up to the first.
fn skipped_apart(alloc: Global) -> Result<Vec<u8>, AllocError> {
    let mut entries = Vec::new(alloc);
    for _ in 0..SKIPPED_APART {
        entries.extend_from_slice(&[0, 0, 0, 1, 0, 0, 0, 0])?;
    }
    Ok(entries)
}

// Adds a chunk to a packet, if that has room for it.
fn add(packet: &mut SctpPacketBuilder, chunk: &Chunk<'_>) {
    if chunk.serialized_size() <= packet.bytes_remaining() {
        packet.add(chunk);
    }
}

impl<'p> Sender<'p> {
    // A packet for so many bytes of chunks.
    fn packet(&self, size: usize) -> Result<SctpPacketBuilder, AllocError> {
        let tag = self.pair.b.socket.verification_tag();
        let size = size.min(65_000).saturating_add(12);
        let builder = SctpPacketBuilder::new(self.alloc, tag, 5000, 5000, size)?;
        Ok(builder.write_checksum(false))
    }

    // Hands a packet over, and takes all events and messages.
    fn send_packet(&mut self, packet: SctpPacketBuilder) -> Result<(), Failure> {
        let bytes = packet.build();
        self.pair.b.socket.handle_input(bytes.as_slice())?;
        self.drain()
    }

    // Hands a chunk over in a packet of its own.
    fn send(&mut self, chunk: &Chunk<'_>) -> Result<(), Failure> {
        let mut packet = self.packet(chunk.serialized_size())?;
        add(&mut packet, chunk);
        self.send_packet(packet)
    }

    // Takes all events and messages.
    fn drain(&mut self) -> Result<(), Failure> {
        for _ in 0..u64::MAX {
            match self.pair.b.socket.poll_event() {
                Some(SocketEvent::OnError(kind, _)) => return Err(Failure::Reported(kind)),
                Some(_) => {}
                None => break,
            }
        }
        for _ in 0..u64::MAX {
            if self.pair.b.socket.get_next_message().is_none() {
                break;
            }
        }
        Ok(())
    }

    // A request of this number to reset streams once this TSN was received.
    fn request<'x>(
        &self,
        number: u32,
        last_tsn: u32,
        streams: &'x [u8],
    ) -> Result<Chunk<'x>, AllocError> {
        let mut parameters = Vec::new(self.alloc);
        parameters.push(Parameter::OutgoingSsnResetRequest(OutgoingSsnResetRequestParameter {
            request_seq_nbr: self.first.wrapping_add(number),
            response_seq_nbr: 0,
            sender_last_assigned_tsn: last_tsn,
            streams,
        }))?;
        Ok(Chunk::ReConfig(ReConfigChunk { parameters }))
    }

    // Asks for a reset of that many streams, or of all, which waits for the first TSN.
    fn reset(&mut self, count: u32) -> Result<(), Failure> {
        let mut streams = Vec::new(self.alloc);
        for id in 0..count {
            streams.extend_from_slice(&low(id).to_be_bytes())?;
        }
        let chunk = self.request(0, self.first, streams.as_slice())?;
        self.send(&chunk)
    }

    // Asks for a reset of all streams, which waits for the first TSN, and skips a message on each of that
    // many.
    fn defer(&mut self, count: u32, is_apart: bool) -> Result<(), Failure> {
        self.reset(0)?;
        let many = if is_apart { SKIPPED_APART } else { SKIPPED };
        let many = u32::from(many).max(1);
        for number in 0..count.div_ceil(many) {
            let from = number.saturating_mul(many);
            let left = count.saturating_sub(from).min(many);
            let entries = skipped_firsts(self.alloc, from, left, is_apart)?;
            let tsn = self.first.wrapping_add(number).wrapping_add(1);
            self.send(&skipping(tsn, entries.as_slice(), is_apart))?;
        }
        Ok(())
    }

    // Hands over a packet of as many chunks as it has room for, each of which skips a message.
    fn skip_often(&mut self, number: u32, is_apart: bool) -> Result<(), Failure> {
        let count = if is_apart { SKIPS_APART } else { SKIPS };
        let from = number.wrapping_mul(count).wrapping_add(10_000);
        let mut packet = self.packet(CHUNKS)?;
        for at in 0..count {
            let entry = skipped_firsts(self.alloc, at, 1, is_apart)?;
            let tsn = self.first.wrapping_add(from).wrapping_add(at);
            add(&mut packet, &skipping(tsn, entry.as_slice(), is_apart));
        }
        self.send_packet(packet)
    }

    // Hands over a packet of as many requests as it has room for, each to reset a stream of which nothing is
    // held.
    fn reset_often(&mut self, number: u32) -> Result<(), Failure> {
        let from = number.wrapping_mul(RESETS);
        let mut packet = self.packet(CHUNKS)?;
        for at in 0..RESETS {
            let before = self.first.wrapping_sub(1);
            let request = self.request(from.wrapping_add(at), before, &[0, 1])?;
            add(&mut packet, &request);
        }
        self.send_packet(packet)
    }

    // Hands over a chunk that skips nothing of what is held.
    fn skip(&mut self, strain: &Strain, number: u32, is_rising: bool) -> Result<(), Failure> {
        let new_cumulative_tsn = self.first.wrapping_add(number);
        if let Holding::Interleaved = strain.holding {
            let entries = skipped_apart(self.alloc)?;
            let skipped_streams = entries.as_slice();
            return self.send(&Chunk::IForwardTsn(IForwardTsnChunk {
                new_cumulative_tsn,
                skipped_streams,
            }));
        }
        let from = low(number.saturating_sub(strain.held).wrapping_mul(280));
        let entries = skipped_streams(self.alloc, if is_rising { Some(from) } else { None })?;
        self.send(&Chunk::ForwardTsn(ForwardTsnChunk {
            new_cumulative_tsn,
            skipped_streams: entries.as_slice(),
        }))
    }

    // Has the receiver hold what isn't data, and returns how much that is.
    fn begin(&mut self, strain: &Strain) -> Result<u32, Failure> {
        match strain.holding {
            Holding::Reset => self.reset(strain.held)?,
            Holding::Deferred => self.defer(strain.held, false)?,
            Holding::DeferredApart => self.defer(strain.held, true)?,
            _ => return Ok(0),
        }
        Ok(strain.held)
    }

    // Hands over the packet of this number, the first being 0.
    fn hand(&mut self, strain: &Strain, number: u32) -> Result<(), Failure> {
        if let Some(more) = number.checked_sub(strain.held) {
            match (strain.holding, strain.following) {
                (Holding::Deferred, _) => return self.skip_often(more, false),
                (Holding::DeferredApart, _) => return self.skip_often(more, true),
                (_, Following::Resets) => return self.reset_often(more),
                (_, Following::Skips { is_rising }) => return self.skip(strain, number, is_rising),
                (_, Following::More) => {}
            }
        }
        self.hand_data(strain, number)
    }

    // Hands over data as the packet of this number.
    fn hand_data(&mut self, strain: &Strain, number: u32) -> Result<(), Failure> {
        let place = strain.place(number);
        let tsn = self.first.wrapping_add(number);
        let chunk = match strain.holding {
            Holding::Fragments => unordered(self.first.wrapping_add(place), false),
            Holding::Interleaved => interleaved(tsn, place.wrapping_add(10)),
            Holding::Links => fragment(tsn, linking_fsn(strain, number)),
            Holding::Begun => begun(tsn, low(number % 20_000).wrapping_add(30_000)),
            Holding::Gaps => {
                let twice = place.wrapping_mul(2).wrapping_add(1);
                unordered(self.first.wrapping_add(twice), true)
            }
            Holding::Waiting => ordered(tsn, 0, low(place.wrapping_add(1))),
            Holding::Streams => ordered(tsn, low(place), 0),
            Holding::Reset | Holding::Deferred | Holding::DeferredApart => {
                ordered(tsn.wrapping_add(1), low(strain.held.saturating_sub(1)), 0)
            }
        };
        self.send(&chunk)
    }
}

/// Connects two sockets, and strains one of them.
pub fn strain_receiver(alloc: Global, strain: &Strain) -> Result<(), Failure> {
    let is_interleaved = matches!(
        strain.holding,
        Holding::Interleaved | Holding::Links | Holding::DeferredApart
    );
    let mut pair = Pair::strained(alloc, is_interleaved)?;
    pair.connect()?;
    let first = pair.a.socket.association().map_or(0, |it| it.my.first_tsn);
    let mut sender = Sender {
        alloc,
        pair: &mut pair,
        first,
    };
    let total = strain.held.saturating_add(strain.more);
    let from = sender.begin(strain)?;
    for number in from..total {
        sender.hand(strain, number)?;
    }
    Ok(())
}
