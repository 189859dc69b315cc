//! How many streams a request to reset names in a small packet (RFC 6525, section 4.1): its chunk has 20
//! bytes and 2 for each stream, padded to a multiple of 4, after a header of 12 bytes. And by which chunk a
//! fragment goes to the peer (RFC 9260, section 3.3.1; RFC 8260, section 2.1).

use dcsctp_core::api::{Capabilities, Events, Options, Pair, PpId, SocketTime, StreamId};
use dcsctp_core::transfer::{DataToSend, SendQueue};
use dcsctp_core::wire::Chunk;
use dcsctp_core::{Peer, RequestStart, TransmissionControlBlock};
use std::alloc::{AllocError, Global};
use std::process::Abort;

// What is left of that many ready streams, once a packet of `mtu` bytes was offered.
#[derive(Debug, Drop, PartialEq, Eq)]
struct Left {
    // how many streams the request names, if one was begun
    named: Option<usize>,

    next_number: u32,

    // is a stream ready still?
    is_ready: bool,
}

// An association whose own first TSN is 100, with a peer that supports this.
fn association(
    alloc: Global,
    options: &Options,
    capabilities: &Capabilities,
) -> TransmissionControlBlock {
    let my = Pair {
        tag: 7,
        first_tsn: 100,
    };
    let peer = Peer {
        pair: Pair {
            tag: 9,
            first_tsn: 200,
        },
        a_rwnd: 5_000,
        capabilities: *capabilities,
    };
    TransmissionControlBlock::new(alloc, options, my, &peer, 0)
}

// An association whose own first TSN is 100, and whose streams 0, 1, .. are ready, begins a reset.
fn begin(rt: &impl Abort, alloc: Global, mtu: usize, streams: u16) -> Result<Left, AllocError> {
    let options = Options {
        mtu,
        ..Options::default()
    };
    assert!(rt; options.is_valid());
    let mut tcb = association(alloc, &options, &Capabilities::default());
    let mut queue = SendQueue::new(alloc, &options);
    let mut events = Events::new(alloc);
    for id in 0..streams {
        queue.prepare_reset_stream(&mut events, StreamId(id))?;
    }
    let mut packet = tcb.new_packet(alloc, &options)?;
    let start = RequestStart {
        now: SocketTime::zero(),
        is_new: false,
    };
    tcb.begin_reset(alloc, start, &mut queue, &mut packet)?;
    Ok(Left {
        named: match &tcb.reset_request {
            None => None,
            Some(request) => Some(request.streams.len()),
        },
        next_number: tcb.next_outgoing_reset_req_seq_nbr,
        is_ready: queue.has_streams_ready_to_be_reset(),
    })
}

#[test]
fn a_request_names_the_streams_that_fit(rt: HostRuntime) -> Result<(), AllocError> {
    let rows = [
        (
            "20 bytes are left, and one stream takes 24",
            (32, 1),
            (None, 100, true),
        ),
        (
            "24 bytes are left, so two streams fit",
            (36, 3),
            (Some(2), 101, true),
        ),
        (
            "28 bytes are left, so all three fit",
            (40, 3),
            (Some(3), 101, false),
        ),
    ];
    for (name, (mtu, streams), (named, next_number, is_ready)) in rows {
        let left = begin(&rt, rt.alloc(), mtu, streams)?;
        let expected = Left {
            named,
            next_number,
            is_ready,
        };
        assert_eq!(rt; left, expected, "{name}");
    }
    Ok(())
}

// The last fragment of a message on stream 5, of two bytes; two fragments came before it.
fn fragment(alloc: Global) -> Result<DataToSend, AllocError> {
    Ok(DataToSend {
        message_id: 0,
        stream_id: StreamId(5),
        ssn: 6,
        mid: 7,
        fsn: 2,
        ppid: PpId(51),
        is_unordered: true,
        is_beginning: false,
        is_end: true,
        payload: Vec::from_array(alloc, [0x68, 0x69])?,
        max_retransmissions: None,
        expires_at: None,
        lifecycle_id: None,
    })
}

// Its chunk under TSN 9.
fn chunk_of<'a>(
    rt: &impl Abort,
    tcb: &TransmissionControlBlock,
    fragment: &'a DataToSend,
) -> Chunk<'a> {
    assert!(rt; fragment.payload.len() < 1000);
    tcb.make_data_chunk(9, fragment)
}

#[test]
fn a_fragment_is_data_without_interleaving(rt: HostRuntime) -> Result<(), AllocError> {
    let alloc = rt.alloc();
    let tcb = association(alloc, &Options::default(), &Capabilities::default());
    let fragment = fragment(alloc)?;
    let Chunk::Data(data) = chunk_of(&rt, &tcb, &fragment) else {
        panic!(&rt; "another chunk")
    };
    let numbers = (data.tsn, data.stream_id, data.ssn, data.ppid);
    assert_eq!(&rt; numbers, (9, 5, 6, 51));
    assert!(&rt; data.flags.is_unordered && data.flags.is_end);
    assert!(&rt; !data.flags.is_beginning && !data.flags.immediate_ack);
    assert_eq!(&rt; data.payload, [0x68u8, 0x69].as_slice());
    Ok(())
}

#[test]
fn a_fragment_is_i_data_with_interleaving(rt: HostRuntime) -> Result<(), AllocError> {
    let alloc = rt.alloc();
    let capabilities = Capabilities {
        message_interleaving: true,
        ..Capabilities::default()
    };
    let tcb = association(alloc, &Options::default(), &capabilities);
    let fragment = fragment(alloc)?;
    let Chunk::IData(data) = chunk_of(&rt, &tcb, &fragment) else {
        panic!(&rt; "another chunk")
    };
    let numbers = (data.tsn, data.stream_id, data.mid, data.ppid_or_fsn);
    assert_eq!(&rt; numbers, (9, 5, 7, 2));
    assert!(&rt; data.flags.is_unordered && data.flags.is_end);
    assert!(&rt; !data.flags.is_beginning && !data.flags.immediate_ack);
    assert_eq!(&rt; data.payload, [0x68u8, 0x69].as_slice());
    Ok(())
}
