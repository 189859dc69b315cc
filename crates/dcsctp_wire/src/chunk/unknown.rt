//! A chunk of any other type, of which only the header is read (RFC 9260, section 3.2).

/// A chunk's type, flags and value.
#[derive(Clone, Copy, Debug)]
pub struct UnknownChunk<'a> {
    /// The chunk type.
    pub chunk_type: u8,

    /// The chunk flags.
    pub flags: u8,

    /// The value, without padding.
    pub value: &'a [u8],
}
