//! The streams of a snapshot, as bytes.

ghost use Rattle.std.specs.Prelude.{◌≡◌, ◌++◌, OnOk};
ghost use Rattle.dcsctp_types.specs.declared.snapshot.HandoverOutgoingStream.{HandoverOutgoingStream as OutgoingPart};
ghost use Rattle.dcsctp_types.specs.declared.snapshot.HandoverOrderedStream.{HandoverOrderedStream as OrderedPart};
ghost use Rattle.dcsctp_types.specs.declared.snapshot.HandoverUnorderedStream.{HandoverUnorderedStream as UnorderedPart};
ghost use Rattle.dcsctp_snapshot_bytes.specs.Spelling.{outgoing_bytes, ordered_bytes, unordered_bytes};
ghost use Rattle.dcsctp_snapshot_bytes.specs.ReadingItems.{leading_outgoing_stream, leading_ordered_stream, leading_unordered_stream};
ghost use Rattle.dcsctp_snapshot_bytes.specs.Fits.{FitsOutgoing, FitsOrdered, FitsUnordered};
ghost use Rattle.dcsctp_snapshot_bytes.specs.Gives.{ReadsValue};

use crate::element::Element;
use crate::reader::{ReadError, Reader};
use crate::writer::{write_u16, write_u32};
use dcsctp_types::{HandoverOrderedStream, HandoverOutgoingStream, HandoverUnorderedStream};
use std::alloc::{AllocError, Global};

impl Element for HandoverOutgoingStream {
    ghost part = { OutgoingPart };

    ghost part_of = { λ stream. stream };

    ghost bytes_of = { outgoing_bytes };

    ghost part_at = { leading_outgoing_stream };

    ghost fits = { FitsOutgoing };

    #[tactic(auto, unfolding(crate::specs::Spelling::outgoing_bytes))]
    fn write(&self, out: &mut Vec<u8>) -> Result<(), AllocError> {
        write_u16(out, self.id)?;
        write_u16(out, self.next_ssn)?;
        write_u32(out, self.next_unordered_mid)?;
        write_u32(out, self.next_ordered_mid)?;
        write_u16(out, self.priority)
    }

    #[tactic(auto, unfolding(crate::specs::ReadingItems::leading_outgoing_stream))]
    fn read(_alloc: Global, reader: &mut Reader) -> Result<HandoverOutgoingStream, ReadError> {
        Ok(HandoverOutgoingStream {
            id: reader.u16()?,
            next_ssn: reader.u16()?,
            next_unordered_mid: reader.u32()?,
            next_ordered_mid: reader.u32()?,
            priority: reader.u16()?,
        })
    }
}

impl Element for HandoverOrderedStream {
    ghost part = { OrderedPart };

    ghost part_of = { λ stream. stream };

    ghost bytes_of = { ordered_bytes };

    ghost part_at = { leading_ordered_stream };

    ghost fits = { FitsOrdered };

    #[tactic(auto, unfolding(crate::specs::Spelling::ordered_bytes))]
    fn write(&self, out: &mut Vec<u8>) -> Result<(), AllocError> {
        write_u16(out, self.id)?;
        write_u32(out, self.next_ssn)
    }

    #[tactic(auto, unfolding(crate::specs::ReadingItems::leading_ordered_stream))]
    fn read(_alloc: Global, reader: &mut Reader) -> Result<HandoverOrderedStream, ReadError> {
        Ok(HandoverOrderedStream {
            id: reader.u16()?,
            next_ssn: reader.u32()?,
        })
    }
}

impl Element for HandoverUnorderedStream {
    ghost part = { UnorderedPart };

    ghost part_of = { λ stream. stream };

    ghost bytes_of = { unordered_bytes };

    ghost part_at = { leading_unordered_stream };

    ghost fits = { FitsUnordered };

    #[tactic(auto, unfolding(crate::specs::Spelling::unordered_bytes))]
    fn write(&self, out: &mut Vec<u8>) -> Result<(), AllocError> {
        write_u16(out, self.id)
    }

    #[tactic(auto, unfolding(crate::specs::ReadingItems::leading_unordered_stream))]
    fn read(_alloc: Global, reader: &mut Reader) -> Result<HandoverUnorderedStream, ReadError> {
        Ok(HandoverUnorderedStream { id: reader.u16()? })
    }
}
