//! What isn't as a line says.

ghost use Rattle.std.specs.Prelude.{◌≤◌};

use dcsctp_script_lines::number;
use dcsctp_socket::{SocketFault, StreamId};
use std::alloc::{AllocError, Global};
use std::fmt::Debug;

/// What isn't as the line says that is taken. It is recorded, and the line continues: a number that is none is 0, and a
/// text that is missing is empty. Whoever goes through the lines looks for it after each.
pub struct Notes {
    alloc: Global,
    fault: Option<String>,
}

// Written out: a derived one costs more to prove.
impl Drop for Notes {
    fn drop(self) {
        let Notes { alloc: _, fault: _ } = self;
    }
}

impl Notes {
    /// No line yet.
    pub fn new(alloc: Global) -> Notes {
        Notes { alloc, fault: None }
    }

    /// The allocator of all texts and packets.
    pub fn alloc(&self) -> Global {
        self.alloc
    }

    /// Takes what was recorded of a line. It is empty if there was no memory for it.
    pub fn take_fault(&mut self) -> Option<String> {
        self.fault.take()
    }

    // The first fault of a line counts.
    fn note(&mut self, text: Result<String, AllocError>) {
        if self.fault.is_none() {
            self.fault = Some(text.unwrap_or(String::new(self.alloc)));
        }
    }

    /// The line can't be taken, for this reason.
    pub fn fails(&mut self, why: &str) {
        self.note(String::from_str(self.alloc, why));
    }

    /// This was found in place of that.
    pub fn found(&mut self, found: &str, expected: &str) {
        self.note(format!(in self.alloc; "found:    {found}\n    expected: {expected}"));
    }

    /// The two must be equal.
    pub fn same(&mut self, found: &str, expected: &str) {
        if found != expected {
            self.found(found, expected);
        }
    }

    /// The value must be shown as this text.
    pub fn shows<T: Debug>(&mut self, value: &T, expected: &str) {
        match format!(in self.alloc; "{value:?}") {
            Ok(found) => self.same(&found, expected),
            Err(_) => self.fails("out of memory"),
        }
    }

    /// A call of a socket must be made, and its answer must be shown as this text.
    pub fn answers<T: Debug>(&mut self, outcome: &Result<T, SocketFault>, expected: &str) {
        match outcome {
            Ok(answer) => self.shows(answer, expected),
            Err(fault) => self.shows(fault, "an answer"),
        }
    }

    /// A call of a socket must be made.
    pub fn made(&mut self, outcome: Result<(), SocketFault>) {
        self.answers(&outcome, "()");
    }

    /// There must be memory.
    pub fn has_memory(&mut self, has_memory: bool) {
        if !has_memory {
            self.fails("out of memory");
        }
    }

    /// The two parts of a text around its first space.
    pub fn split<'a>(&mut self, text: &'a str) -> (&'a str, &'a str) {
        match text.split_once(' ') {
            Some(parts) => parts,
            None => {
                self.found(text, "more words");
                (text, "")
            }
        }
    }

    /// The number that the text writes, of this size at most.
    pub fn number(&mut self, text: &str, most: u64) -> u64
        ensures { result ≤ most }
    {
        match number(text, most) {
            Some(value) => value,
            None => {
                self.found(text, "a number");
                0
            }
        }
    }

    /// A number of bytes.
    pub fn size(&mut self, text: &str) -> usize {
        self.number(text, u64::MAX) as usize
    }

    /// The stream of this number.
    pub fn stream(&mut self, text: &str) -> StreamId {
        StreamId(self.number(text, 0xffff) as u16)
    }

    /// The flag that the text writes.
    pub fn flag(&mut self, text: &str) -> bool {
        match text {
            "true" => true,
            "false" => false,
            _ => {
                self.found(text, "true or false");
                false
            }
        }
    }
}
