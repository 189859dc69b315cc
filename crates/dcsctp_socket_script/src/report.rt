//! The results of the tests of a text.

ghost use Rattle.std.specs.Prelude.{◌≡◌, ◌<◌};

use std::alloc::Global;

/// The state of the test whose lines are taken.
#[derive(Clone, Copy, Debug, PartialEq, Eq)]
pub enum Progress {
    /// No test has begun.
    NoTest,

    /// All lines were as they say so far.
    Passing,

    /// A line wasn't. Those that follow are skipped.
    Failed,
}

/// The results of the tests so far.
pub struct Report {
    alloc: Global,
    progress: Progress,

    // The name of the test.
    name: String,

    passed: usize,
    failed: usize,

    // Each test that failed: its name, the line, and what was found.
    failures: String,
}

impl Drop for Report {
    fn drop(self) {
        let Report {
            alloc: _,
            progress: _,
            name: _,
            passed: _,
            failed: _,
            failures: _,
        } = self;
    }
}

// A copy of the text, which is empty if there is no memory.
fn text_of(alloc: Global, text: &str) -> String {
    String::from_str(alloc, text).unwrap_or(String::new(alloc))
}

impl Report {
    /// No test yet.
    pub fn new(alloc: Global) -> Report {
        Report {
            alloc,
            progress: Progress::NoTest,
            name: text_of(alloc, "(no test)"),
            passed: 0,
            failed: 0,
            failures: String::new(alloc),
        }
    }

    /// The state of the test.
    pub fn progress(&self) -> Progress {
        self.progress
    }

    /// The test is over, and this one follows.
    pub fn begin(&mut self, name: &str) {
        self.end();
        self.progress = Progress::Passing;
        self.name = text_of(self.alloc, name);
    }

    /// The test is over.
    pub fn end(&mut self) {
        if self.progress == Progress::Passing {
            self.passed = self.passed.saturating_add(1);
        }
        self.progress = Progress::NoTest;
    }

    /// The line of this number isn't as it says, and the test has failed. Its first such line counts. Without memory
    /// nothing is kept of the line.
    pub fn fail(&mut self, number: usize, line: &str, fault: &str) {
        if self.progress == Progress::Failed {
            return;
        }
        self.progress = Progress::Failed;
        self.failed = self.failed.saturating_add(1);
        let name = self.name.as_str();
        let text = format!(in self.alloc; "{name}\n    line {number}: {line}\n    {fault}\n");
        if let Ok(text) = text {
            let _ = self.failures.push_str(&text);
        }
    }

    /// The tests that failed, three lines or four each.
    pub fn failures(&self) -> &str {
        &self.failures
    }

    /// How many tests passed, and how many failed.
    pub fn counts(&self) -> (usize, usize) {
        (self.passed, self.failed)
    }

    /// The exit status: 0 if all passed, 1 if one failed, 2 if there was none.
    pub fn status(&self) -> u8
        ensures failed { 0 < self.now.failed → result ≡ 1 }
        ensures passed { self.now.failed ≡ 0 → 0 < self.now.passed → result ≡ 0 }
        ensures none { self.now.failed ≡ 0 → self.now.passed ≡ 0 → result ≡ 2 }
    {
        match (self.passed, self.failed) {
            (0, 0) => 2,
            (_, 0) => 0,
            _ => 1,
        }
    }
}
