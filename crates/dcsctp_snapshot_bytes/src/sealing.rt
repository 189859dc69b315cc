//! The seal after a snapshot's bytes: the options that must be the same where an association continues, and a
//! check value of all before it.

ghost use Rattle.std.specs.Prelude.{◌≡◌, ◌≢◌, ℕ, List, ◌++◌, OnOk, MatchOption, MatchResult};
ghost use Rattle.dcsctp_snapshot_bytes.specs.Seal.{fingerprint, bytes_with_check, sealed_snapshot, AreBytesRefused};

use dcsctp_types::Options;
use dcsctp_wire_checksum::crc32c;
use std::alloc::AllocError;

/// Why the seal of bytes is refused.
#[derive(Clone, Copy, Debug, PartialEq, Eq)]
pub enum SealError {
    /// The check value is wrong: a byte was changed, is missing or was added.
    Broken,

    /// It was made by a socket with other options.
    OtherOptions,
}

// The bytes of a fingerprint, and of a check value.
const FINGERPRINT_LEN: usize = 14;

const CHECK_LEN: usize = 4;

// The options that must be the same.
#[tactic(auto, unfolding(crate::specs::Seal::fingerprint, crate::specs::Fields::number_bytes, crate::specs::Fields::flag_bytes))]
fn fingerprint(options: &Options) -> [u8; FINGERPRINT_LEN]
    ensures { result ≡ fingerprint options.now }
{
    let local = options.local_port.to_be_bytes();
    let remote = options.remote_port.to_be_bytes();
    let incoming = options.announced_maximum_incoming_streams.to_be_bytes();
    let outgoing = options.announced_maximum_outgoing_streams.to_be_bytes();
    let method = options
        .zero_checksum_alternate_error_detection_method
        .0
        .to_be_bytes();
    [
        local[0],
        local[1],
        remote[0],
        remote[1],
        incoming[0],
        incoming[1],
        outgoing[0],
        outgoing[1],
        options.enable_partial_reliability as u8,
        options.enable_message_interleaving as u8,
        method[0],
        method[1],
        method[2],
        method[3],
    ]
}

/// Adds the seal to the bytes of a snapshot, by the options of its socket.
///
/// | Size | Field |
/// |---|---|
/// | 2 each | `local_port`, `remote_port` |
/// | 2 each | `announced_maximum_incoming_streams`, `announced_maximum_outgoing_streams` |
/// | 1 each | `enable_partial_reliability`, `enable_message_interleaving` |
/// | 4 | the number of `zero_checksum_alternate_error_detection_method` |
/// | 4 | the CRC32c of all bytes before it (RFC 9260, appendix A) |
///
/// `Err`: an allocation failed, and what was added may be a part of it.
#[tactic(auto, unfolding(crate::specs::Seal::bytes_with_check, crate::specs::Fields::number_bytes))]
pub fn seal(bytes: &mut Vec<u8>, options: &Options) -> Result<(), AllocError>
    ensures { OnOk result (bytes.new.items ≡ sealed_snapshot options.now bytes.old.items) }
{
    bytes.extend_from_slice(&fingerprint(options))?;
    let check = crc32c(bytes.as_slice());
    bytes.extend_from_slice(&check.to_be_bytes())
}

// The bytes before the check value, if that is right.
fn before_check(bytes: &[u8]) -> Option<&[u8]>
    ensures { MatchOption result
        ((front : List ℕ) → bytes.now ≢ bytes_with_check front)
        (λ front. bytes.now ≡ bytes_with_check front.now) }
{
    if bytes.len() < CHECK_LEN {
        return None;
    }
    let (front, check) = bytes.split_at(bytes.len() - CHECK_LEN);
    if u32::from_be_bytes([check[0], check[1], check[2], check[3]]) != crc32c(front) {
        return None;
    }
    Some(front)
}

/// The bytes of a snapshot, without the seal that `seal` has added by these options.
pub fn unseal<'a>(bytes: &'a [u8], options: &Options) -> Result<&'a [u8], SealError>
    ensures { MatchResult result
        (λ body. bytes.now ≡ sealed_snapshot options.now body.now)
        (λ error. AreBytesRefused error options.now bytes.now) }
{
    let Some(front) = before_check(bytes) else {
        return Err(SealError::Broken);
    };
    if front.len() < FINGERPRINT_LEN {
        return Err(SealError::Broken);
    }
    let (body, mark) = front.split_at(front.len() - FINGERPRINT_LEN);
    if mark != fingerprint(options).as_slice() {
        return Err(SealError::OtherOptions);
    }
    Ok(body)
}
