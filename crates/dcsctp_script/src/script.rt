//! The lines of a script, counted.

ghost use Rattle.std.specs.Prelude.{◌≡◌, ◌≤◌, ◌↔◌, IsTrue, IsOk, IfOk, IfErr, IfSome};
ghost use Rattle.dcsctp_script.specs.declared.failure.Status.TheVariants.{BadLine};
ghost use Rattle.dcsctp_script.specs.Ending.{status_of};
ghost use Rattle.dcsctp_script.specs.Script.{IsLine, IsPrintable};

use crate::failure::Failure;
use std::alloc::Global;
use std::io::BufRead;
use std::str;

/// The lines that a reader gives. A line ends with a line feed or with the input.
#[derive(Drop)]
pub struct Script<R> {
    reader: R,
    line: Vec<u8>,
    number: u64,
}

impl<R: BufRead> Script<R> {
    /// The lines of this reader.
    pub fn new(alloc: Global, reader: R) -> Script<R> {
        Script {
            reader,
            line: Vec::new(alloc),
            number: 0,
        }
    }

    /// The next line that isn't empty, without its line feed; `None` at the end of the input.
    ///
    /// `BadLine`: the line has a byte outside 32 to 126. `OutOfMemory`: an allocation failed. `Broken`: the
    /// reader failed.
    pub fn next_line(&mut self) -> Result<Option<&str>, Failure>
        ensures line { IfOk result (λ found. IfSome found (λ text. IsLine text.now)) }
    {
        for _ in 0..u64::MAX {
            if !self.read_line()? {
                return Ok(None);
            }
            if !self.line.is_empty() {
                return Ok(Some(self.text()?));
            }
        }
        Ok(None)
    }

    /// The failure of a run whose last line read is bad: `BadLine`, with that line's number.
    pub fn bad_line(&self) -> Failure
        ensures { status_of result ≡ BadLine }
    {
        Failure::BadLine(self.number)
    }

    // Reads one line, and takes its line feed away. False at the end of the input.
    fn read_line(&mut self) -> Result<bool, Failure> {
        self.line.clear();
        if self.reader.read_until(b'\n', &mut self.line)? == 0 {
            return Ok(false);
        }
        self.number = self.number.saturating_add(1);
        if self.line.last() == Some(&b'\n') {
            self.line.pop();
        }
        Ok(true)
    }

    // The line as a text.
    fn text(&self) -> Result<&str, Failure>
        ensures ok { IfOk result (λ text. (text.now ≡ self.now.line.items) × IsPrintable text.now) }
        ensures err { IfErr result (λ failure. status_of failure ≡ BadLine) }
        ensures all { IsPrintable self.now.line.items → IsOk result }
    {
        if !self.line.iter().all(|byte| is_printable(*byte)) {
            return Err(self.bad_line());
        }
        match str::from_utf8(&self.line) {
            Ok(text) => Ok(text),
            Err(_) => Err(self.bad_line()),
        }
    }
}

// May a line have this byte?
fn is_printable(byte: u8) -> bool
    ensures { IsTrue result ↔ ((32 ≤ byte) × (byte ≤ 126)) }
{
    32 <= byte && byte <= 126
}
