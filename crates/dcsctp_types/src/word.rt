//! Random words.

/// A word that a socket drew from its generator.
#[derive(Clone, Copy, Debug, PartialEq, Eq)]
pub enum Word {
    /// From one `next_u32`.
    U32(u32),

    /// From one `next_u64`.
    U64(u64),
}
