//! What a list of a snapshot holds, and lists of it.

ghost use Rattle.std.specs.Prelude.{◌≡◌, ℕ, ◌++◌, OnOk, List, Option, map};
ghost use Rattle.std.specs.List.{flat_map, AllByRecursion};
ghost use Rattle.dcsctp_snapshot_bytes.specs.Fields.{element_list_bytes, leading_list, leading_elements};
ghost use Rattle.dcsctp_snapshot_bytes.specs.Fits.{FitsElements};
ghost use Rattle.dcsctp_snapshot_bytes.specs.Gives.{ReadsValue};

use crate::reader::{ReadError, Reader};
use crate::writer::write_u64;
use std::alloc::{AllocError, Global};

/// An element of a list.
pub(crate) trait Element: Drop {
    /// What it says, without where it lies in memory.
    ghost part: { Type 0 };

    /// What a value says.
    ghost part_of: { Self → part };

    /// It as bytes.
    ghost bytes_of: { part → List ℕ };

    /// It, read from the front of bytes.
    ghost part_at: { List ℕ → Option (part × List ℕ) };

    /// Each of its numbers fits its field.
    ghost fits: { part → Type 0 };

    /// Writes it at the end of bytes.
    fn write(&self, out: &mut Vec<u8>) -> Result<(), AllocError>
        ensures bytes { OnOk result (out.new.items ≡ out.old.items ++ bytes_of (part_of self.now)) }
        ensures fits { OnOk result (fits (part_of self.now)) };

    /// Reads one from the front of bytes.
    fn read(alloc: Global, reader: &mut Reader) -> Result<Self, ReadError>
        ensures { ReadsValue part_of part_at reader.old.rest.now result reader.new.rest.now };
}

// Writes elements one after another.
#[tactic(auto, using(crate::proofs::Lists::written_more))]
fn write_elements<T: Element>(out: &mut Vec<u8>, elements: &[T]) -> Result<(), AllocError>
    ensures bytes { OnOk result
        (out.new.items ≡ out.old.items ++ flat_map T.bytes_of (map T.part_of elements.now)) }
    ensures fits { OnOk result (AllByRecursion T.fits (map T.part_of elements.now)) }
{
    for element in elements {
        element.write(out)?;
    }
    Ok(())
}

/// Writes a list at the end of bytes: its length, and its elements.
#[tactic(auto, unfolding(crate::specs::Fields::element_list_bytes))]
pub(crate) fn write_list<T: Element>(out: &mut Vec<u8>, elements: &[T]) -> Result<(), AllocError>
    ensures bytes { OnOk result
        (out.new.items
        ≡ out.old.items ++ element_list_bytes T.bytes_of (map T.part_of elements.now)) }
    ensures fits { OnOk result (FitsElements T.fits (map T.part_of elements.now)) }
{
    write_u64(out, elements.len() as u64)?;
    write_elements(out, elements)
}

// Reads that many elements. Each is pushed once it was read, so that a count that the bytes can't back takes
// no memory.
fn read_elements<T: Element>(
    alloc: Global,
    count: u64,
    reader: &mut Reader,
) -> Result<Vec<T>, ReadError>
    ensures { ReadsValue (λ elements. map T.part_of elements.items)
        (leading_elements T.part_at count) reader.old.rest.now result reader.new.rest.now }
{
    let mut elements = Vec::new(alloc);
    for _ in 0..count {
        elements.push(T::read(alloc, reader)?)?;
    }
    Ok(elements)
}

/// Reads a list from the front of bytes: its length, and its elements.
#[tactic(auto, unfolding(crate::specs::Fields::leading_list))]
pub(crate) fn read_list<T: Element>(alloc: Global, reader: &mut Reader) -> Result<Vec<T>, ReadError>
    ensures { ReadsValue (λ elements. map T.part_of elements.items) (leading_list T.part_at)
        reader.old.rest.now result reader.new.rest.now }
{
    let count = reader.u64()?;
    read_elements(alloc, count, reader)
}
