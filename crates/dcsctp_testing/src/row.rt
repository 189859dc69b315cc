//! A row of a table or a line of a text, and what isn't as the rows so far say.
//!
//! A line is read word by word. What isn't as it says is recorded, and the runner looks for it after the step: a
//! function that may end the test itself costs more to prove.

use std::alloc::Global;
use std::fmt::Debug;
use std::str::{self, FromStr};

/// The row whose step is taken.
#[derive(Drop)]
pub struct Row {
    alloc: Global,

    // What a text has named the test; empty in a table.
    test: &'static str,

    // The number of the row, from 1, and its name or line.
    place: usize,
    name: &'static str,

    // What is still to be read of a line. One space separates two words.
    rest: &'static str,

    // Is a row of this test not as it says?
    pub(crate) has_fault: bool,

    // A line for each such test.
    faults: Option<String>,
}

impl Row {
    // No row yet.
    pub(crate) fn new(alloc: Global) -> Row {
        Row {
            alloc,
            test: "",
            place: 0,
            name: "",
            rest: "",
            has_fault: false,
            faults: None,
        }
    }

    // The next row has this name, or is this line.
    pub(crate) fn begin(&mut self, name: &'static str) {
        self.place = self.place.saturating_add(1);
        self.name = name;
        self.rest = name;
    }

    // The rest of the line names the test that follows.
    pub(crate) fn begin_test(&mut self) {
        self.test = self.rest;
        self.rest = "";
    }

    // Nothing of the line may be left over.
    pub(crate) fn end_line(&mut self) {
        if !self.rest.is_empty() {
            let rest = self.rest;
            self.note("left over", &rest, &"");
        }
    }

    // Is a line that begins with this word taken? After a fault the next is `begin`, which depends on none before.
    pub(crate) fn takes(&mut self, keyword: &str) -> bool {
        if keyword == "begin" {
            self.has_fault = false;
        }
        !self.has_fault
    }

    pub(crate) fn ends(&mut self) -> Result<(), String> {
        match self.faults.take() {
            None => Ok(()),
            Some(faults) => Err(faults),
        }
    }

    // Records a fault, if it is the first of its test. Its text is empty if an allocation fails.
    fn note(&mut self, what: &str, found: &impl Debug, expected: &impl Debug) {
        if self.has_fault {
            return;
        }
        self.has_fault = true;
        let before = self.faults.take().unwrap_or(String::new(self.alloc));
        let newline = if before.is_empty() { "" } else { "\n" };
        let colon = if self.test.is_empty() { "" } else { ": " };
        let text = format!(in self.alloc;
            "{before}{newline}{}{colon}row {}, {}: {what} {found:?} in place of {expected:?}",
            self.test, self.place, self.name
        );
        self.faults = Some(text.unwrap_or(String::new(self.alloc)));
    }

    /// The two must be equal.
    pub fn same<T: PartialEq + Debug + Drop>(&mut self, found: T, expected: T) {
        if found != expected {
            self.note("found", &found, &expected);
        }
    }

    /// What the step asks for must be done: no allocation failed, and there is such a step.
    pub fn done(&mut self, is_done: bool) {
        if !is_done {
            self.note("is it done?", &false, &true);
        }
    }

    /// The next word of the line. It is empty at the end.
    pub fn next(&mut self) -> &'static str {
        let (word, rest) = self.rest.split_once(' ').unwrap_or((self.rest, ""));
        self.rest = rest;
        word
    }

    /// The next word, which must be a number.
    pub fn number<T: FromStr + Default>(&mut self) -> T
    where
        <T as FromStr>::Err: Drop,
    {
        let word = self.next();
        match word.parse::<T>() {
            Ok(number) => number,
            Err(_) => {
                self.note("found", &word, &"a number");
                T::default()
            }
        }
    }

    // This number must follow the name.
    fn follows(&mut self, name: &'static str, found: u128) {
        let expected = self.number::<u128>();
        if found != expected {
            self.note(name, &found, &expected);
        }
    }

    /// If this name comes next, this number must follow it.
    pub fn check(&mut self, name: &'static str, found: u128) {
        let before = self.rest;
        if self.next() != name {
            self.rest = before;
            return;
        }
        self.follows(name, found);
    }

    /// This name must come next, and this answer must follow it: 1 for yes, 0 for no.
    pub fn answers(&mut self, name: &'static str, found: bool) {
        let word = self.next();
        if word != name {
            self.note("found", &word, &name);
            return;
        }
        self.follows(name, found as u128);
    }

    /// The same for each of these names, in their order. What the line doesn't name may have any number.
    pub fn check_all(&mut self, names: &[&'static str], found: &[u128]) {
        for index in 0..names.len() {
            if let Some(number) = found.get(index) {
                self.check(names[index], *number);
            }
        }
    }

    /// The rest of the line must be this.
    pub fn check_rest(&mut self, found: &str) {
        let expected = self.rest;
        self.rest = "";
        self.same(found, expected);
    }

    /// The rest of the line, if it says any more, must be these bytes.
    pub fn check_bytes(&mut self, found: &[u8]) {
        if !self.rest.is_empty() {
            self.check_rest(str::from_utf8(found).unwrap_or("no text"));
        }
    }

    /// The rest of the line must be what `Debug` writes of this.
    pub fn shows(&mut self, found: &impl Debug) {
        match format!(in self.alloc; "{found:?}") {
            Err(_) => self.done(false),
            Ok(shown) => self.check_rest(&shown),
        }
    }
}
