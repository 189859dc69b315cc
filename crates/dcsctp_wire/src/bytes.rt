//! Numbers in bytes, and the frame that a chunk (RFC 9260, section 3.2) and a parameter
//! (RFC 9260, section 3.2.1) share.

ghost use Rattle.std.specs.Prelude.{◌≡◌, ◌+◌, ◌≤◌, ◌<◌, length, drop, IfSome};
ghost use Rattle.std.specs.Option.{option_map};
ghost use Rattle.dcsctp_wire.specs.Fields.{u16_at, u32_at, has_entries};
ghost use Rattle.dcsctp_wire.specs.Format.{padding_of, leading_frame};
ghost use Rattle.dcsctp_wire.specs.Reading.{frame_content};

/// The value of a chunk or a parameter, and the bytes after its padding.
#[derive(Clone, Copy)]
pub(crate) struct Frame<'a> {
    /// The value, without padding.
    pub(crate) value: &'a [u8],

    /// What follows the padding.
    pub(crate) rest: &'a [u8],
}

/// The big-endian number in the two bytes at a place.
pub fn u16_at(bytes: &[u8], at: usize) -> u16
    requires { at + 2 ≤ length bytes.now }
    ensures { result ≡ u16_at at bytes.now }
{
    let field = &bytes[at..at + 2];
    u16::from_be_bytes([field[0], field[1]])
}

/// The big-endian number in the four bytes at a place.
pub fn u32_at(bytes: &[u8], at: usize) -> u32
    requires { at + 4 ≤ length bytes.now }
    ensures { result ≡ u32_at at bytes.now }
{
    let field = &bytes[at..at + 4];
    u32::from_be_bytes([field[0], field[1], field[2], field[3]])
}

/// Is the value long enough for `fields` bytes, and is the rest of it whole entries of `entry` bytes?
pub(crate) fn has_entries(value: &[u8], fields: usize, entry: usize) -> bool
    requires { 0 < entry }
    ensures { result ≡ has_entries fields entry value.now }
{
    value.len() >= fields && (value.len() - fields) % entry == 0
}

/// How many bytes of padding follow `len` bytes, to a multiple of 4.
pub fn padding_of(len: usize) -> usize
    ensures { result ≡ padding_of len }
{
    (4 - len % 4) % 4
}

/// The bytes from `start` on. There are none if it is past the end, since the last padding may be missing.
fn bytes_from(bytes: &[u8], start: usize) -> &[u8]
    ensures { result.now ≡ drop start bytes.now }
{
    if start < bytes.len() {
        &bytes[start..]
    } else {
        &[]
    }
}

/// The frame in front of the bytes: a header of 4 bytes, whose last two are the length, and a value.
///
/// There is none if the header is cut off, or its length is below 4 or above the number of bytes.
#[tactic(auto, unfolding(crate::specs::Format::leading_frame))]
pub(crate) fn read_frame(bytes: &[u8]) -> Option<Frame<'_>>
    ensures gives { option_map frame_content result ≡ leading_frame bytes.now }
    ensures shorter { IfSome result (λ frame. length frame.rest.now + 4 ≤ length bytes.now) }
{
    if bytes.len() < 4 {
        return None;
    }
    let len = u16_at(bytes, 2) as usize;
    if len < 4 || bytes.len() < len {
        return None;
    }
    Some(Frame {
        value: &bytes[4..len],
        rest: bytes_from(bytes, len + padding_of(len)),
    })
}
