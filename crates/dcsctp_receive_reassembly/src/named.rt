//! The streams that a reset names (RFC 6525, section 4.1). A stream is found by binary search.

ghost use Rattle.std.specs.Prelude.{◌≡◌, IfOk};
ghost use Rattle.dcsctp_api.specs.types.Ids.{stream_numbers};
ghost use Rattle.dcsctp_receive_reassembly.specs.NamedStreams.{IsSortedFrom};
ghost use Rattle.dcsctp_api.specs.spec.queues.Reassembly.{names_stream};

use dcsctp_api::StreamId;
use std::alloc::{AllocError, Global};
use std::marker::Model;

/// The streams that a reset names, in the order in which it does.
#[derive(Drop)]
pub struct NamedStreams {
    given: Vec<StreamId>,

    // Their numbers, ascending.
    sorted: Vec<u16>,
}

impl Model for NamedStreams {
    ghost use Rattle.std.specs.Prelude.{ℕ, List};
    ghost use Rattle.dcsctp_api.specs.types.Ids.{stream_numbers};
    ghost use Rattle.dcsctp_receive_reassembly.specs.NamedFields.{IsSearchable};

    ghost Value = { List ℕ };

    ghost view = { λ named. stream_numbers named.given.items };

    ghost invariant = { IsSearchable };
}

// The numbers of the streams, ascending.
fn sorted_numbers(alloc: Global, streams: &[StreamId]) -> Result<Vec<u16>, AllocError>
    ensures { IfOk result (λ sorted. IsSortedFrom (stream_numbers streams.now) sorted.items) }
{
    let mut numbers = Vec::with_capacity(alloc, streams.len())?;
    for id in streams {
        numbers.push(id.0)?;
    }
    numbers.sort()?;
    Ok(numbers)
}

// Is the stream among those whose numbers these are? An empty list names all.
fn finds(streams: &[StreamId], numbers: &[u16], id: StreamId) -> bool
    requires { IsSortedFrom (stream_numbers streams.now) numbers.now }
    ensures { result ≡ names_stream (stream_numbers streams.now) id.0 }
{
    streams.is_empty() || numbers.binary_search(&id.0).is_ok()
}

impl NamedStreams {
    /// The streams of the list.
    pub fn new(alloc: Global, streams: &[StreamId]) -> Result<NamedStreams, AllocError>
        ensures { IfOk result (λ named. named ≡ stream_numbers streams.now) }
    {
        Ok(NamedStreams {
            given: Vec::from_slice(alloc, streams)?,
            sorted: sorted_numbers(alloc, streams)?,
        })
    }

    /// Is the stream named? An empty list names all.
    pub fn names(&self, id: StreamId) -> bool
        ensures { result ≡ names_stream self.now id.0 }
    {
        finds(self.given.as_slice(), self.sorted.as_slice(), id)
    }
}
