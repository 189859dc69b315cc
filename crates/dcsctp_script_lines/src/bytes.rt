//! Bytes in a line: hexadecimal digits, two a byte, with spaces anywhere.

ghost use Rattle.std.specs.Prelude.{◌≡◌, [], ◌∷◌, ◌++◌, IfOk};
ghost use Rattle.dcsctp_script_lines.specs.Bytes.{text_without_spaces, ReadsBytes};

use std::alloc::{AllocError, Global};

/// The bytes that the digits write, or no bytes if the text is `-`. `None` if the text has no digit, an odd
/// number of them, or anything else but spaces.
pub fn bytes_of(alloc: Global, text: &str) -> Result<Option<Vec<u8>>, AllocError>
    ensures { ReadsBytes (text_without_spaces text.now) result }
{
    let digits = without_spaces(alloc, text)?;
    if digits.is_empty() {
        return Ok(None);
    }
    if digits.as_slice() == b"-".as_slice() {
        return Ok(Some(Vec::new(alloc)));
    }
    match hex::decode(alloc, digits.as_slice()) {
        Ok(bytes) => Ok(Some(bytes)),
        Err(hex::FromHexError::OutOfMemory) => Err(AllocError),
        Err(_) => Ok(None),
    }
}

// The text without its spaces.
fn without_spaces(alloc: Global, text: &str) -> Result<Vec<u8>, AllocError>
    ensures { IfOk result (λ digits. digits.items ≡ text_without_spaces text.now) }
{
    let mut digits = Vec::with_capacity(alloc, text.len())?;
    for byte in text.as_bytes() {
        keep_digit(&mut digits, byte)?;
    }
    Ok(digits)
}

// Keeps a byte that is no space.
fn keep_digit(digits: &mut Vec<u8>, byte: &u8) -> Result<(), AllocError>
    ensures { IfOk result
        (λ done. digits.new.items ≡ digits.old.items ++ text_without_spaces (byte.now ∷ [])) }
{
    if *byte == b' ' {
        return Ok(());
    }
    digits.push(*byte)?;
    Ok(())
}
