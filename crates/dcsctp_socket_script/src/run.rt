//! Texts of tests: what is done to two sockets, and which events and answers they must give. Any other line fails, and
//! with it its test.
//!
//! ```text
//! == NAME                     two new sockets, closed: A draws 100 and 6, which make tag 7 and first TSN 100, and
//!                             B 200 and 8, which make tag 9 and first TSN 200; they look at no checksum
//! option NAME VALUE           two new sockets, closed, with this option as well
//! sending NAME VALUE          messages that are sent from here on have this option as well
//! sending all default         .. have no option
//! each N..M LINE; LINE ..     these lines, once for each number from N to M - 1, which replaces '#'
//! A opens                     A is connected to a peer of tag 9, and the four packets of it are compared
//! A meets B                   A connects to B, by four packets of any bytes
//! // ..                       a comment
//! ```
//!
//! In any of them `{N TEXT}` is N times that text. All other lines begin with `A` or `B`, and then say one of these.
//! PACKET is as in `packets`, and a value is as `Debug` shows it.
//!
//! ```text
//! sends PACKET                the next event is this packet
//! sends any, sends any of N   the next event is a packet, of N bytes
//! tells EVENT                 the next event is this one; UNREADABLE and NO_INIT are short for two in `told`
//! takes-too PACKET            is handed this packet, while events wait
//! message = ..                takes a message, which has this stream, protocol and length
//! state = .., tag = .., association = .., pairs = .., failed = .., longest = .., mtu = ..
//! metrics = .., packets = .., again = .., unacknowledged = .., uses = ..
//! ready = .., readiness = ..  may it be handed over, and why not?
//! ```
//!
//! Ahead of these, and at the end, no event may be left:
//!
//! ```text
//! connects, shuts-down, closes
//!                             the user's call
//! takes PACKET                is handed this packet
//! receives                    is handed the packet that was sent last
//! waits N                     its clock is advanced to N milliseconds after it was made
//! hands-over                  is handed over, and restored from its own snapshot
//! draws N M                   a new socket, closed, that draws these words
//! sets priority S N, sets threshold S N, sets longest N
//! send S N = ANSWER           sends a message of N zeros on stream S
//! send-many S N M .. = ANSWER sends messages of N zeros, of M zeros and so on together
//! resets S T .. = ANSWER      resets streams S, T and so on
//! amount S = .., priority S = .., threshold S = ..
//! ```

use crate::notes::Notes;
use crate::report::{Progress, Report};
use crate::stage::Stage;
use dcsctp_script_lines::number;
use std::alloc::{AllocError, Global};

// The lines for `A opens`.
const OPENS: &str =
    "A connects; A sends INIT; A takes INIT_ACK; A sends COOKIE_ECHO; A takes COOKIE_ACK; \
    A tells OnConnected";

// The lines for `A meets B`.
const MEETS: &str =
    "A connects; A sends any; B receives; B sends any; A receives; A sends any; B receives; \
    B tells OnConnected; B sends any; A receives; A tells OnConnected";

/// Goes through the lines of a text.
pub fn run_text(alloc: Global, text: &str) -> Report {
    let mut run = Run::new(alloc);
    for line in text.lines() {
        run.take_line(line.trim());
    }
    run.end_test();
    let Run {
        number: _,
        notes: _,
        stage: _,
        report,
    } = run;
    report
}

// A text whose lines are gone through.
struct Run {
    // The number of the line, from 1.
    number: usize,

    notes: Notes,
    stage: Stage,
    report: Report,
}

impl Run {
    fn new(alloc: Global) -> Run {
        Run {
            number: 0,
            notes: Notes::new(alloc),
            stage: Stage::new(alloc),
            report: Report::new(alloc),
        }
    }

    fn take_line(&mut self, line: &str) {
        self.number = self.number.saturating_add(1);
        match line.split_once(' ') {
            Some(("each", rest)) => self.take_each(line, rest),
            Some(("A", "opens")) => self.take_lines(OPENS, 0),
            Some(("A", "meets B")) => self.take_lines(MEETS, 0),
            _ => self.take_one(line),
        }
    }

    fn take_each(&mut self, line: &str, rest: &str) {
        match range_of(rest) {
            Some((from, to, lines)) => self.take_range(from, to, lines),
            None => {
                self.notes.found(rest, "numbers and lines");
                self.look(line);
            }
        }
    }

    fn take_range(&mut self, from: u64, to: u64, lines: &str) {
        for number in from..to {
            self.take_lines(lines, number);
        }
    }

    fn take_lines(&mut self, lines: &str, number: u64) {
        for line in lines.split("; ") {
            self.take_numbered(line, number);
        }
    }

    fn take_numbered(&mut self, line: &str, number: u64) {
        let Some((front, behind)) = line.split_once('#') else {
            self.take_one(line);
            return;
        };
        match format!(in self.notes.alloc(); "{front}{number}{behind}") {
            Ok(line) => self.take_one(&line),
            Err(_) => {
                self.notes.has_memory(false);
                self.look(line);
            }
        }
    }

    fn take_one(&mut self, line: &str) {
        if line.is_empty() || line.starts_with("//") {
            return;
        }
        match line.strip_prefix("== ") {
            Some(name) => self.begin_test(line, name),
            None => self.take_step(line),
        }
    }

    fn begin_test(&mut self, line: &str, name: &str) {
        self.end_test();
        self.report.begin(name);
        self.stage.begin(&mut self.notes);
        self.look(line);
    }

    fn end_test(&mut self) {
        if self.report.progress() == Progress::Passing {
            self.stage.ends(&mut self.notes);
            self.look("the end of the test");
        }
        self.report.end();
    }

    fn take_step(&mut self, line: &str) {
        match self.report.progress() {
            Progress::Failed => {}
            Progress::NoTest => self.notes.fails("no test has begun"),
            Progress::Passing => self.take_spelled(line),
        }
        self.look(line);
    }

    fn take_spelled(&mut self, line: &str) {
        match spelled_out(self.notes.alloc(), line) {
            Ok(spelled) => self.stage.take(&mut self.notes, &spelled),
            Err(_) => self.notes.has_memory(false),
        }
    }

    // Was a fault of the line recorded?
    fn look(&mut self, line: &str) {
        if let Some(fault) = self.notes.take_fault() {
            self.report.fail(self.number, line, &fault);
        }
    }
}

// The numbers and the lines after `each`.
fn range_of(text: &str) -> Option<(u64, u64, &str)> {
    let (numbers, lines) = text.split_once(' ')?;
    let (from, to) = numbers.split_once("..")?;
    let from = number(from, u64::MAX)?;
    let to = number(to, u64::MAX)?;
    if from < to {
        Some((from, to, lines))
    } else {
        None
    }
}

// The line with each text written as often as its number says.
fn spelled_out(alloc: Global, line: &str) -> Result<String, AllocError> {
    let mut spelled = String::new(alloc);
    let mut parts = line.split('{');
    spelled.push_str(parts.next().unwrap_or(""))?;
    for part in parts {
        spell(&mut spelled, part)?;
    }
    Ok(spelled)
}

// What is after a brace: a number, a text and the end of both, or anything else.
fn spell(spelled: &mut String, part: &str) -> Result<(), AllocError> {
    let Some((count, text, behind)) = repeated(part) else {
        spelled.push_str("{")?;
        return spelled.push_str(part);
    };
    for _ in 0..count {
        spelled.push_str(text)?;
    }
    spelled.push_str(behind)
}

fn repeated(part: &str) -> Option<(u64, &str, &str)> {
    let (inside, behind) = part.split_once('}')?;
    let (count, text) = inside.split_once(' ')?;
    Some((number(count, u64::MAX)?, text, behind))
}
