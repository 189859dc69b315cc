//! Streams as a table of bits.

ghost use Rattle.std.specs.Prelude.{◌≡◌, ◌==◌, ◌||◌, ℕ, false};
ghost use Rattle.dcsctp_types.specs.StreamTables.{marks};

/// Which streams are named: a bit for each number that a stream can have. It takes 8 KiB. A lookup takes
/// constant time, and nothing is allocated.
#[derive(Drop)]
pub struct StreamTable {
    words: [u64; 1024],
}

impl StreamTable {
    /// No stream is named.
    pub fn new() -> StreamTable
        ensures { (number : ℕ) → marks result number ≡ false }
    {
        StreamTable { words: [0; 1024] }
    }

    /// Names a stream. The others stay as they are.
    pub fn mark(&mut self, id: u16)
        ensures { (number : ℕ) → marks self.new number ≡ ((id == number) || marks self.old number) }
    {
        self.words[usize::from(id / 64)] |= 1u64 << (id % 64);
    }

    /// Is the stream named? A number of 65,536 or more never is.
    pub fn has(&self, number: u64) -> bool
        ensures { result ≡ marks self.now number }
    {
        number < 65_536 && self.words[(number / 64) as usize] >> (number % 64) & 1 == 1
    }
}
