//! A reader and a writer that fail, also with out of memory.

use crate::checks::{holds, same};
use dcsctp_script::run_script;
use std::alloc::Global;
use std::io::{self, Read, Write};
use std::process::Abort;

// A reader that gives two lines and the front of a third, and then fails with this error.
#[derive(Drop)]
struct FailingReader {
    kind: io::ErrorKind,
    is_used: bool,
}

impl Read for FailingReader {
    fn read(&mut self, buf: &mut [u8]) -> io::Result<usize> {
        if self.is_used || buf.len() < 21 {
            return Err(io::Error::from(self.kind));
        }
        self.is_used = true;
        buf[..21].copy_from_slice(b"connect A\nstate A\nsta");
        Ok(21)
    }
}

// A writer that takes one byte, then fails with this error this many times, and then takes all.
#[derive(Drop)]
struct FailingWriter {
    taken: Vec<u8>,
    kind: io::ErrorKind,
    failures: u32,
}

impl Write for FailingWriter {
    fn write(&mut self, buf: &[u8]) -> io::Result<usize> {
        if self.taken.is_empty() {
            return self.taken.write(&buf[..buf.len().min(1)]);
        }
        if self.failures != 0 {
            self.failures -= 1;
            return Err(io::Error::from(self.kind));
        }
        self.taken.write(buf)
    }

    fn flush(&mut self) -> io::Result<()> {
        Ok(())
    }
}

// Runs a script whose reading fails with this error: these lines must be printed, and this must be the
// status.
fn breaks_reading(rt: &impl Abort, alloc: Global, kind: io::ErrorKind, lines: &str, code: u8) {
    let mut reader = FailingReader {
        kind,
        is_used: false,
    };
    let mut printed = Vec::new(alloc);
    let status = run_script(alloc, &mut reader, &mut printed);
    same(rt, lines, status.code(), code);
    same(rt, lines, printed.as_slice(), lines.as_bytes());
}

// How reading fails, what is printed, and the status.
static READS: [(io::ErrorKind, &str, u8); 2] = [
    (
        io::ErrorKind::Other,
        "A packet 1 00000000 INIT\nA Connecting\n",
        1,
    ),
    (
        io::ErrorKind::OutOfMemory,
        "A packet 1 00000000 INIT\nA Connecting\nout of memory\n",
        3,
    ),
];

#[test]
fn a_failed_read_ends_the_run(rt: HostRuntime) {
    for (kind, lines, code) in &READS {
        breaks_reading(&rt, rt.alloc(), *kind, lines, *code);
    }
}

// A script that is one line, repeated that often, which prints one answer each time. Its writes fail with
// this error, that often.
struct Writes {
    name: &'static str,
    line: &'static str,
    answer: &'static str,
    times: usize,
    kind: io::ErrorKind,
    failures: u32,
}

// Runs the script: the run must end, and what was taken must be the first part of as many answers.
fn breaks_writing(rt: &impl Abort, alloc: Global, writes: &Writes) {
    let script = writes
        .line
        .repeat(alloc, writes.times)
        .expect(rt, "no script");
    let answers = writes
        .answer
        .repeat(alloc, writes.times)
        .expect(rt, "no answers");
    let mut writer = FailingWriter {
        taken: Vec::new(alloc),
        kind: writes.kind,
        failures: writes.failures,
    };
    let status = run_script(alloc, &mut script.as_bytes(), &mut writer);
    same(rt, writes.name, status.code(), 1);
    let is_front = answers.as_bytes().starts_with(&writer.taken);
    holds(rt, writes.name, is_front);
}

static WRITES: [Writes; 5] = [
    Writes {
        name: "always",
        line: "state A\n",
        answer: "A Closed\n",
        times: 1,
        kind: io::ErrorKind::Other,
        failures: u32::MAX,
    },
    Writes {
        name: "always, at a bad line",
        line: "state",
        answer: "line 1: bad\n",
        times: 1,
        kind: io::ErrorKind::Other,
        failures: u32::MAX,
    },
    Writes {
        name: "always, for want of memory",
        line: "state B\n",
        answer: "B Closed\n",
        times: 1,
        kind: io::ErrorKind::OutOfMemory,
        failures: u32::MAX,
    },
    Writes {
        name: "once, for want of memory",
        line: "state A\n",
        answer: "A Closed\n",
        times: 1,
        kind: io::ErrorKind::OutOfMemory,
        failures: 1,
    },
    Writes {
        name: "once among many lines",
        line: "state B\n",
        answer: "B Closed\n",
        times: 2000,
        kind: io::ErrorKind::OutOfMemory,
        failures: 1,
    },
];

#[test]
fn a_failed_write_ends_the_run(rt: HostRuntime) {
    for writes in &WRITES {
        breaks_writing(&rt, rt.alloc(), writes);
    }
}
