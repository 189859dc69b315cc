//! The runner of all tables of steps, and of all texts with a line for each step.

use crate::row::Row;
use std::alloc::Global;

/// What is tested, which takes steps of this kind.
pub trait Takes<S> {
    /// Takes a step, and records what isn't as its row says.
    fn take(&mut self, row: &mut Row, step: S);
}

/// Takes the steps of a table, each with the name of its row, up to the first that isn't as it says. `Err`: its
/// number from 1, its name, and what was found and expected.
pub fn run_steps<S: Copy, T: Takes<S>>(
    alloc: Global,
    subject: &mut T,
    steps: &[(&'static str, S)],
) -> Result<(), String> {
    let mut row = Row::new(alloc);
    for (name, step) in steps {
        row.begin(name);
        subject.take(&mut row, *step);
        if row.has_fault {
            break;
        }
    }
    row.ends()
}

/// Takes the lines of a text. A step is the first word of its line, and the row has the others, of which none may be
/// left over. `# NAME` names the test that follows, and an empty line is skipped. `begin` starts a new test: there it
/// continues after a line that isn't as it says. `Err`: the same as of a table, in a line for each such test.
pub fn run_text<T: Takes<&'static str>>(
    alloc: Global,
    subject: &mut T,
    text: &'static str,
) -> Result<(), String> {
    let mut row = Row::new(alloc);
    for line in text.lines() {
        row.begin(line);
        match row.next() {
            "" => {}
            "#" => row.begin_test(),
            keyword if row.takes(keyword) => subject.take(&mut row, keyword),
            _ => {}
        }
        row.end_line();
    }
    row.ends()
}
