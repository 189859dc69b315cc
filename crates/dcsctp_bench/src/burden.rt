//! Calls and packets that strain a sender: it has many streams or a lot in flight, and then comes a little more.
//! What one more call or packet costs is what a few of them add, divided by their number.

use crate::failure::Failure;
use crate::pair::Pair;
use dcsctp_socket::{
    DcSctpSocket, Message, Options, PpId, SendOptions, SocketEvent, StreamId,
    ZERO_CHECKSUM_ALTERNATE_ERROR_DETECTION_METHOD_LOWER_LAYER_DTLS,
};
use dcsctp_types::wire::{
    Chunk, Parameter, ReConfigChunk, ReconfigurationResponseParameter,
    ReconfigurationResponseResult, SackChunk,
};
use dcsctp_wire_build::SctpPacketBuilder;
use std::alloc::{AllocError, Global};

/// What a sender has, and what comes then.
#[derive(Clone, Copy)]
pub enum Kind {
    /// Two messages wait on each stream, and streams take turns (`Options::follow_rfc`). Then come SACKs.
    Turns,

    /// A message was sent on each stream. Then one stream after another is closed, and the peer performs that.
    Closes,

    /// Streams have got a priority, in descending order. Then further ones get it.
    Priorities,

    /// Messages wait on streams that were used in descending order. Then messages come on further ones.
    Sends,

    /// Streams were reset in descending order. Then further ones are.
    Resets,

    /// Messages are in flight. Then come packets with many SACKs. Every second one names all of them but the
    /// first, and the others none.
    Sacks,

    /// The same. Each SACK names one message more of the last ones.
    Misses,

    /// The first message was abandoned, and the peer has all others. Then come SACKs that say so again.
    Abandoned,
}

/// How a sender is strained.
#[derive(Clone, Copy)]
pub struct Burden {
    pub kind: Kind,

    /// How many streams or messages there are, 1 at least.
    pub held: u32,

    /// How many calls or packets come then.
    pub more: u32,
}

// So many SACKs go into a packet.
const SACKS: u32 = 50;

// More messages than the last ones that are named one by one.
const SPARE: u32 = 500;

// The greatest number in a gap ack block.
const LAST: u32 = 65_535;

// Two numbers, from 1 on, of TSNs after the cumulative one. No SACK has a block of zeros.
type Block = [u8; 4];

// The low 16 bits.
fn low(number: u32) -> u16 {
    (number % 65_536) as u16
}

// A stream by its number, counted down from the greatest.
fn descending(number: u32) -> StreamId {
    StreamId(65_534_u16.saturating_sub(low(number % 65_535)))
}

// The block from one number to another.
fn block(start: u32, end: u32) -> Block {
    let [start_high, start_low] = low(start.min(LAST)).to_be_bytes();
    let [end_high, end_low] = low(end.min(LAST)).to_be_bytes();
    [start_high, start_low, end_high, end_low]
}

// The bytes of a SACK's block; none if it is all zeros.
fn block_bytes(block: &Block) -> &[u8] {
    if *block == [0; 4] { &[] } else { block }
}

// A SACK up to this TSN with these blocks.
fn sack<'a>(cumulative_tsn_ack: u32, gap_ack_blocks: &'a [u8]) -> Chunk<'a> {
    Chunk::Sack(SackChunk {
        cumulative_tsn_ack,
        a_rwnd: 100_000_000,
        gap_ack_blocks,
        duplicate_tsns: &[],
    })
}

// A message that is sent once may be abandoned.
fn sent_once() -> SendOptions {
    let mut options = SendOptions::default();
    options.max_retransmissions = Some(0);
    options
}

impl Kind {
    // Is a lot in flight?
    fn is_in_flight(&self) -> bool {
        match self {
            Kind::Sacks | Kind::Misses | Kind::Abandoned => true,
            Kind::Turns | Kind::Closes => false,
            Kind::Priorities | Kind::Sends | Kind::Resets => false,
        }
    }

    // The options of both sockets: a lot may wait, or be in flight.
    fn options(&self) -> Options {
        let mut options = Options::default();
        options.zero_checksum_alternate_error_detection_method =
            ZERO_CHECKSUM_ALTERNATE_ERROR_DETECTION_METHOD_LOWER_LAYER_DTLS;
        options.max_send_buffer_size = 1_000_000_000;
        options.max_receiver_window_buffer_size = 100_000_000;
        options.cwnd_mtus_initial = if self.is_in_flight() { 10_000 } else { 10 };
        options.follow_rfc = matches!(self, Kind::Turns);
        options
    }
}

impl Burden {
    // The blocks of the SACKs in a packet that name all or none.
    fn alternating_blocks(&self, alloc: Global) -> Result<Vec<Block>, AllocError> {
        let mut blocks = Vec::new(alloc);
        for number in 0..SACKS {
            blocks.push(if number % 2 == 0 {
                block(2, self.held)
            } else {
                [0; 4]
            })?;
        }
        Ok(blocks)
    }

    // The blocks of the SACKs in the packet of this number that name one message more each.
    fn rising_blocks(&self, alloc: Global, number: u32) -> Result<Vec<Block>, AllocError> {
        let first = self.held.saturating_add(number.saturating_mul(SACKS));
        let mut blocks = Vec::new(alloc);
        for further in 0..SACKS {
            let place = first.saturating_add(further);
            blocks.push(block(place, place))?;
        }
        Ok(blocks)
    }

    // How many of the calls are made before those that are counted.
    fn made_before(&self) -> u32 {
        match self.kind {
            Kind::Priorities | Kind::Sends | Kind::Resets => self.held,
            Kind::Turns | Kind::Closes | Kind::Sacks | Kind::Misses | Kind::Abandoned => 0,
        }
    }
}

// A sender, and what its peer would send.
#[derive(Drop)]
struct Sender {
    alloc: Global,
    pair: Pair,

    // The first TSN. The first request to reset streams has the same number.
    first: u32,
}

impl Sender {
    // Takes all events.
    fn drain(&mut self) -> Result<(), Failure> {
        for _ in 0..u64::MAX {
            match self.pair.a.socket.poll_event() {
                Some(SocketEvent::OnError(kind, _)) => return Err(Failure::Reported(kind)),
                Some(_) => {}
                None => break,
            }
        }
        Ok(())
    }

    // Hands chunks over in one packet.
    fn hand(&mut self, chunks: &[Chunk<'_>]) -> Result<(), Failure> {
        let tag = self.pair.a.socket.verification_tag();
        let builder = SctpPacketBuilder::new(self.alloc, tag, 5000, 5000, 65_000)?;
        let mut packet = builder.write_checksum(false);
        for chunk in chunks {
            if chunk.serialized_size() <= packet.bytes_remaining() {
                packet.add(chunk);
            }
        }
        let bytes = packet.build();
        self.pair.a.socket.handle_input(bytes.as_slice())?;
        self.drain()
    }

    // Acknowledges that many TSNs in all.
    fn acknowledge(&mut self, count: u32) -> Result<(), Failure> {
        let last = self.first.wrapping_add(count).wrapping_sub(1);
        self.hand(&[sack(last, &[])])
    }

    // Hands over a packet of SACKs with these blocks, one each. None acknowledges the first TSN.
    fn report(&mut self, blocks: &[Block]) -> Result<(), Failure> {
        let mut chunks = Vec::new(self.alloc);
        for block in blocks {
            chunks.push(sack(self.first.wrapping_sub(1), block_bytes(block)))?;
        }
        self.hand(chunks.as_slice())
    }

    // Sends a message.
    fn send(
        &mut self,
        stream: StreamId,
        size: usize,
        options: &SendOptions,
    ) -> Result<(), Failure> {
        let payload = vec![in self.alloc; 7u8; size]?;
        let message = Message::new(stream, PpId(1), payload);
        let answer = self.pair.a.socket.send(message, options)?;
        answer.map_err(Failure::Refused)?;
        self.drain()
    }

    // Sends that many short messages.
    fn send_short(&mut self, count: u32) -> Result<(), Failure> {
        for _ in 0..count {
            self.send(StreamId(1), 1, &SendOptions::default())?;
        }
        Ok(())
    }

    // Closes a stream.
    fn close(&mut self, stream: StreamId) -> Result<(), Failure> {
        let _refusal = self.pair.a.socket.reset_streams(&[stream])?;
        self.drain()
    }

    // The peer performs the request of this number, counted from 0.
    fn perform(&mut self, number: u32) -> Result<(), Failure> {
        let mut parameters = Vec::new(self.alloc);
        parameters.push(Parameter::ReconfigurationResponse(ReconfigurationResponseParameter {
            response_seq_nbr: self.first.wrapping_add(number),
            result: ReconfigurationResponseResult::SuccessPerformed,
            next_tsns: None,
        }))?;
        self.hand(&[Chunk::ReConfig(ReConfigChunk { parameters })])
    }

    // Two messages wait on each of that many streams.
    fn fill_streams(&mut self, count: u32) -> Result<(), Failure> {
        for number in 0..count.saturating_mul(2) {
            let stream = StreamId(low(number.checked_rem(count).unwrap_or(0)));
            self.send(stream, 500, &SendOptions::default())?;
        }
        Ok(())
    }

    // A message was sent on each of that many streams, and acknowledged.
    fn use_streams(&mut self, count: u32) -> Result<(), Failure> {
        for number in 0..count {
            self.send(StreamId(low(number)), 1, &SendOptions::default())?;
            self.acknowledge(number.saturating_add(1))?;
        }
        Ok(())
    }

    // The first message is lost, and abandoned. The peer has that many others.
    fn abandon_first(&mut self, count: u32) -> Result<(), Failure> {
        self.send(StreamId(1), 1, &sent_once())?;
        self.send_short(count)?;
        for place in 2..5 {
            self.report(&[block(place, place)])?;
        }
        self.report(&[block(2, count.saturating_add(1))])
    }

    // Makes the first calls.
    fn prepare(&mut self, burden: &Burden) -> Result<(), Failure> {
        match burden.kind {
            Kind::Turns => self.fill_streams(burden.held),
            Kind::Closes => self.use_streams(burden.held),
            Kind::Priorities | Kind::Sends | Kind::Resets => Ok(()),
            Kind::Sacks => self.send_short(burden.held),
            Kind::Misses => self.send_short(burden.held.saturating_add(SPARE)),
            Kind::Abandoned => self.abandon_first(burden.held),
        }
    }

    // One more call or packet, by its number.
    fn strain(&mut self, burden: &Burden, number: u32) -> Result<(), Failure> {
        match burden.kind {
            Kind::Turns => self.acknowledge(number.saturating_add(1).saturating_mul(2)),
            Kind::Closes => {
                self.close(StreamId(low(number)))?;
                self.perform(number)
            }
            Kind::Priorities => {
                let stream = descending(number);
                self.pair.a.socket.set_stream_priority(stream, 300)?;
                Ok(())
            }
            Kind::Sends => self.send(descending(number), 1, &SendOptions::default()),
            Kind::Resets => self.close(descending(number)),
            Kind::Sacks => {
                let blocks = burden.alternating_blocks(self.alloc)?;
                self.report(blocks.as_slice())
            }
            Kind::Misses => {
                let blocks = burden.rising_blocks(self.alloc, number)?;
                self.report(blocks.as_slice())
            }
            Kind::Abandoned => self.report(&[block(2, burden.held.saturating_add(1))]),
        }
    }
}

/// Connects two sockets, and strains the one that sends.
pub fn strain_sender(alloc: Global, burden: &Burden) -> Result<(), Failure> {
    let mut pair = Pair::with(alloc, &burden.kind.options())?;
    pair.connect()?;
    let first = pair.a.socket.association().map_or(0, |it| it.my.first_tsn);
    let mut sender = Sender { alloc, pair, first };
    sender.prepare(burden)?;
    let total = burden.made_before().saturating_add(burden.more);
    for number in 0..total {
        sender.strain(burden, number)?;
    }
    Ok(())
}
