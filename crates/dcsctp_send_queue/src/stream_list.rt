//! The list of a queue's streams. Each has a block of its own, so one that is put in moves no other stream, only
//! pointers.

use crate::stream::OutgoingStream;
use std::alloc::{AllocError, Global};
use std::marker::Model;

/// Streams in order.
///
/// A contract sees it as their list.
#[derive(Drop)]
pub struct StreamList {
    alloc: Global,
    boxes: Vec<Box<OutgoingStream>>,
}

impl Model for StreamList {
    ghost use Rattle.std.specs.Prelude.{List};
    ghost use Rattle.dcsctp_api.specs.types.queues.SendStreams.{Stream};
    ghost use Rattle.dcsctp_send_queue.specs.Boxes.{in_boxes};

    ghost Value = { List Stream };

    ghost view = { λ list. in_boxes list.boxes.items };
}

impl StreamList {
    ghost use Rattle.std.specs.Prelude.{◌≡◌, ◌<◌, ◌≤◌, ◌^◌, [], length, slice_index_or, insert, IfOk, OnOk, OnErr};
    ghost use Rattle.std.specs.Borrow.{sem};
    ghost use Rattle.dcsctp_send_queue.specs.Boxes.{in_boxes};
    ghost use Rattle.dcsctp_send_queue.specs.Lending.{LendsStream};

    /// None. Allocates nothing.
    pub fn new(alloc: Global) -> StreamList
        ensures { result ≡ [] }
    {
        StreamList {
            alloc,
            boxes: Vec::new(alloc),
        }
    }

    /// How many there are.
    pub fn len(&self) -> usize
        ensures { result ≡ length self.now }
    {
        self.boxes.len()
    }

    /// All of them, in order.
    pub fn boxes(&self) -> &[Box<OutgoingStream>]
        ensures { in_boxes result.now ≡ self.now }
    {
        self.boxes.as_slice()
    }

    /// The stream at the place.
    pub fn at(&self, place: usize) -> &OutgoingStream
        requires { place < length self.now }
        ensures { result.now ≡ slice_index_or self.now place result.now }
    {
        &self.boxes[place]
    }

    /// The same, to be changed in place.
    pub fn at_mut(&mut self, place: usize) -> &mut OutgoingStream
        requires { place < length self.old }
        ensures* writes_back { sem 𝓛 (LendsStream self.entry place result) }
        ensures value { result.now ≡ slice_index_or self.old place result.now }
    {
        let boxed = &mut self.boxes[place];
        &mut **boxed
    }

    /// Makes room for one more, and returns for how many there is room then. `Err`: an allocation failed, and
    /// nothing has changed.
    pub fn reserve(&mut self) -> Result<usize, AllocError>
        ensures kept { self.new ≡ self.old }
        ensures room { IfOk result (λ room. length self.old < room) }
    {
        self.boxes.reserve(1)?;
        Ok(self.boxes.capacity())
    }

    /// Puts a stream in. `Err`: an allocation failed, and nothing has changed.
    pub fn insert(&mut self, place: usize, stream: OutgoingStream) -> Result<(), AllocError>
        requires { place ≤ length self.old }
        ensures ok { OnOk result (self.new ≡ insert self.old place stream) }
        ensures err { OnErr result (self.new ≡ self.old) }
    {
        let boxed = Box::new(self.alloc, stream)?;
        self.boxes.insert(place, boxed)?;
        Ok(())
    }
}
