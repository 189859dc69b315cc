//! Writes the fields of channels at the end of bytes.

ghost use Rattle.std.specs.Prelude.{◌≡◌, ◌++◌, ◌<◌, ◌^◌, length, OnOk, IfSome};
ghost use Rattle.std.specs.Int.{w16, w32, w64};
ghost use Rattle.dcsctp_snapshot_bytes.specs.Fields.{number_bytes, flag_bytes, payload_bytes, optional_bytes};

use std::alloc::AllocError;

/// A number of two bytes.
#[tactic(auto, unfolding(dcsctp_snapshot_bytes::specs::Fields::number_bytes))]
pub(crate) fn write_u16(out: &mut Vec<u8>, number: u16) -> Result<(), AllocError>
    ensures bytes { OnOk result (out.new.items ≡ out.old.items ++ number_bytes w16 number) }
    ensures fits { number < 2 ^ 16 }
{
    out.extend_from_slice(&number.to_be_bytes())
}

/// A number of four bytes.
#[tactic(auto, unfolding(dcsctp_snapshot_bytes::specs::Fields::number_bytes))]
pub(crate) fn write_u32(out: &mut Vec<u8>, number: u32) -> Result<(), AllocError>
    ensures bytes { OnOk result (out.new.items ≡ out.old.items ++ number_bytes w32 number) }
    ensures fits { number < 2 ^ 32 }
{
    out.extend_from_slice(&number.to_be_bytes())
}

/// A number of eight bytes.
#[tactic(auto, unfolding(dcsctp_snapshot_bytes::specs::Fields::number_bytes))]
pub(crate) fn write_u64(out: &mut Vec<u8>, number: u64) -> Result<(), AllocError>
    ensures bytes { OnOk result (out.new.items ≡ out.old.items ++ number_bytes w64 number) }
    ensures fits { number < 2 ^ 64 }
{
    out.extend_from_slice(&number.to_be_bytes())
}

/// A byte, 0 or 1.
#[tactic(auto, unfolding(dcsctp_snapshot_bytes::specs::Fields::flag_bytes))]
pub(crate) fn write_flag(out: &mut Vec<u8>, flag: bool) -> Result<(), AllocError>
    ensures { OnOk result (out.new.items ≡ out.old.items ++ flag_bytes flag) }
{
    out.extend_from_slice(&[flag as u8])
}

/// A count, and that many bytes.
#[tactic(auto, unfolding(dcsctp_snapshot_bytes::specs::Fields::payload_bytes))]
pub(crate) fn write_payload(out: &mut Vec<u8>, bytes: &[u8]) -> Result<(), AllocError>
    ensures bytes { OnOk result (out.new.items ≡ out.old.items ++ payload_bytes bytes.now) }
    ensures fits { length bytes.now < 2 ^ 64 }
{
    write_u64(out, bytes.len() as u64)?;
    out.extend_from_slice(bytes)
}

/// A number of four bytes after a flag.
#[tactic(auto, unfolding(dcsctp_snapshot_bytes::specs::Fields::optional_bytes))]
pub(crate) fn write_optional_u32(out: &mut Vec<u8>, value: Option<u32>) -> Result<(), AllocError>
    ensures bytes { OnOk result
        (out.new.items ≡ out.old.items ++ optional_bytes (number_bytes w32) value) }
    ensures fits { IfSome value (λ number. number < 2 ^ 32) }
{
    write_flag(out, value.is_some())?;
    match value {
        None => Ok(()),
        Some(number) => write_u32(out, number),
    }
}
