//! The checksum of SCTP packets, CRC32c (RFC 9260, appendix A), for those who read and write packets. A block
//! of sixteen bytes is read at once. For each byte the table has what it alone becomes by the end of the
//! block; their exclusive or is the result. Long pieces are folded on to their last bytes first.
#![tactic(auto)]

ghost use Rattle.std.specs.Prelude.{◌≡◌, ◌+◌, ◌<◌, ◌≤◌, ◌++◌, length, replicate, slice_range};
ghost use Rattle.dcsctp_wire_checksum.specs.Crc32c.{crc32c_of, packet_checksum_of, register_after};
ghost use Rattle.dcsctp_wire_checksum.specs.Folds.{IsFolded, IsFoldedOn, taps_of_place};

mod table;

use table::TABLE;

// The register at the start, and the bits that are flipped at the end.
const ALL_ONES: u32 = 0xFFFF_FFFF;

// How many bytes the register reads at once, one row of the table for each.
const BLOCK_LEN: usize = 16;

// The register that `byte` has become once it and `zeros` bytes of zero are read.
#[inline(always)]
fn entry(byte: u8, zeros: usize) -> u32
    requires { zeros < 16 }
    ensures { result ≡ register_after byte (replicate (zeros + 1) 0) }
{
    TABLE[zeros][byte as usize]
}

// The register after the four bytes from `at` on and `zeros` bytes of zero. The four are read as one
// word, which costs less than a shift of the register for each.
#[inline(always)]
fn after_first_four(register: u32, bytes: &[u8], at: usize, zeros: usize) -> u32
    requires within { at + 4 ≤ length bytes.now }
    requires in_table { zeros ≤ 12 }
    ensures { result ≡ register_after register (slice_range bytes.now at (at + 4)
        ++ replicate zeros 0) }
{
    let read = u32::from_le_bytes([bytes[at], bytes[at + 1], bytes[at + 2], bytes[at + 3]]);
    let word = register ^ read;
    entry((word & 0xFF) as u8, zeros + 3)
        ^ entry((word >> 8 & 0xFF) as u8, zeros + 2)
        ^ entry((word >> 16 & 0xFF) as u8, zeros + 1)
        ^ entry((word >> 24) as u8, zeros)
}

// The register after the four bytes from `at` on and `zeros` bytes of zero, if it was zero.
#[inline(always)]
fn after_next_four(bytes: &[u8], at: usize, zeros: usize) -> u32
    requires within { at + 4 ≤ length bytes.now }
    requires in_table { zeros ≤ 12 }
    ensures { result ≡ register_after 0 (slice_range bytes.now at (at + 4) ++ replicate zeros 0) }
{
    entry(bytes[at], zeros + 3)
        ^ entry(bytes[at + 1], zeros + 2)
        ^ entry(bytes[at + 2], zeros + 1)
        ^ entry(bytes[at + 3], zeros)
}

// The register after the block of bytes from `at` on.
#[inline(always)]
fn after_block(register: u32, bytes: &[u8], at: usize) -> u32
    requires { at + 16 ≤ length bytes.now }
    ensures { result ≡ register_after register (slice_range bytes.now at (at + 16)) }
{
    after_first_four(register, bytes, at, 12)
        ^ after_next_four(bytes, at + 4, 8)
        ^ after_next_four(bytes, at + 8, 4)
        ^ after_next_four(bytes, at + 12, 0)
}

// The register after the bytes, one at a time.
fn after_each(mut register: u32, bytes: &[u8]) -> u32
    ensures { result ≡ register_after register bytes.now }
{
    for byte in bytes {
        register = entry((register & 0xFF) as u8 ^ *byte, 0) ^ (register >> 8);
    }
    register
}

// The register after the bytes, a block at a time.
fn after_blocks(mut register: u32, bytes: &[u8]) -> u32
    ensures { result ≡ register_after register bytes.now }
{
    let mut at = 0;
    while bytes.len() - at >= BLOCK_LEN {
        register = after_block(register, bytes, at);
        at += BLOCK_LEN;
    }
    after_each(register, &bytes[at..])
}

// The most bytes that are folded at once, and how many of them stay, for the table.
const PIECE_LEN: usize = 1248;

const REST_LEN: usize = 224;

// How many zeros come before the folded bytes, and the room for all: as far as the taps of a piece's last byte.
const FRONT: usize = 209;

const FOLDED_LEN: usize = 1392;

// How many bytes are folded in one step. None of them reaches another: the nearest tap is 65 places away.
const FOLD_LEN: usize = 32;

// What earlier bytes, folded, add to the byte at a place.
fn taps(folded: &[u8; FOLDED_LEN], at: usize) -> u8
    requires { at + 144 < 1392 }
    ensures { result ≡ taps_of_place folded.now at }
{
    folded[at + 144] ^ folded[at + 54] ^ folded[at + 39] ^ folded[at + 14] ^ folded[at]
}

// Folds 32 bytes from `at` on. They are put together first, so that the compiler takes 16 at a time.
fn fold_next(folded: &mut [u8; FOLDED_LEN], bytes: &[u8], at: usize)
    requires within { at + 32 ≤ length bytes.now }
    requires fits { at + 241 ≤ 1392 }
    ensures { IsFoldedOn folded.old folded.new bytes.now at }
{
    let mut next = [0; FOLD_LEN];
    for n in 0..FOLD_LEN {
        next[n] = bytes[at + n] ^ taps(folded, at + n);
    }
    folded[at + FRONT..at + FRONT + FOLD_LEN].copy_from_slice(&next);
}

// Begins with the first `len` bytes, on to which none is folded. The register goes into the first four.
fn fold_first(folded: &mut [u8; FOLDED_LEN], register: u32, bytes: &[u8], len: usize)
    requires empty { folded.old ≡ replicate 1392 0 }
    requires within { len ≤ length bytes.now }
    requires long { 4 ≤ len }
    requires near { len ≤ 65 }
    ensures { IsFolded register bytes.now folded.new len }
{
    let first = register.to_le_bytes();
    for at in 0..4 {
        folded[at + FRONT] = bytes[at] ^ first[at];
    }
    for at in 4..len {
        folded[at + FRONT] = bytes[at];
    }
}

// Folds the bytes before `end`.
fn fold(folded: &mut [u8; FOLDED_LEN], register: u32, bytes: &[u8], end: usize)
    requires empty { folded.old ≡ replicate 1392 0 }
    requires within { end ≤ length bytes.now }
    requires long { 16 ≤ end }
    requires fits { end + 209 ≤ 1392 }
    ensures { IsFolded register bytes.now folded.new end }
{
    let mut at = 16 + (end - 16) % FOLD_LEN;
    fold_first(folded, register, bytes, at);
    while at < end {
        fold_next(folded, bytes, at);
        at += FOLD_LEN;
    }
}

// The register after a piece, of which all but the last 224 bytes are folded.
fn after_piece(register: u32, bytes: &[u8]) -> u32
    requires long { 400 ≤ length bytes.now }
    requires fits { length bytes.now ≤ 1248 }
    ensures { result ≡ register_after register bytes.now }
{
    let mut folded = [0; FOLDED_LEN];
    let end = bytes.len() - REST_LEN;
    fold(&mut folded, register, bytes, end);
    let mut rest = [0; REST_LEN];
    for n in 0..REST_LEN {
        rest[n] = bytes[end + n] ^ taps(&folded, end + n);
    }
    after_blocks(0, &rest)
}

// From this length on it is cheaper to fold first.
const LONG: usize = 400;

// The register after the bytes.
fn after(mut register: u32, bytes: &[u8]) -> u32
    ensures { result ≡ register_after register bytes.now }
{
    let mut at = 0;
    while bytes.len() - at >= LONG {
        let end = bytes.len().min(at + PIECE_LEN);
        register = after_piece(register, &bytes[at..end]);
        at = end;
    }
    after_blocks(register, &bytes[at..])
}

/// The checksum CRC32c of the bytes (RFC 9260, appendix A).
pub fn crc32c(bytes: &[u8]) -> u32
    ensures { result ≡ crc32c_of bytes.now }
{
    after(ALL_ONES, bytes) ^ ALL_ONES
}

/// The checksum CRC32c of an SCTP packet of 12 bytes or more. The checksum field, bytes 8 to 11, counts as
/// zeros (RFC 9260, appendix A).
pub fn packet_checksum(packet: &[u8]) -> u32
    requires { 12 ≤ length packet.now }
    ensures { result ≡ packet_checksum_of packet.now }
{
    let header = after_first_four(ALL_ONES, packet, 0, 8) ^ after_next_four(packet, 4, 4);
    after(header, &packet[12..]) ^ ALL_ONES
}
