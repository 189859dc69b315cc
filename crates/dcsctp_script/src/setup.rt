//! What precedes the first command: the options and the words of the two sockets.

ghost use Rattle.std.specs.Prelude.{◌≡◌, true, false};
ghost use Rattle.dcsctp_api.specs.types.Settings.{IsValid};

use crate::failure::Failure;
use crate::script::Script;
use crate::words::Words;
use dcsctp_api::types::{Options, Side};
use dcsctp_script_lines::{Command, Line, number, parse_line, set_option};
use dcsctp_world::World;
use std::alloc::{AllocError, Global};
use std::io::BufRead;

/// What one socket is made from.
#[derive(Drop)]
struct SocketSetup {
    options: Options,
    words: Words,
    ghost valid: { IsValid options },
}

impl SocketSetup {
    // The default options, and no words.
    fn new(alloc: Global) -> SocketSetup {
        SocketSetup {
            options: Options::default(),
            words: Words::new(alloc),
        }
    }

    // Sets an option. False if that can't be, as the options would not be valid.
    fn set(&mut self, name: &str, value: &str) -> bool {
        let mut options = self.options;
        if !set_option(&mut options, name, value) || !options.is_valid() {
            return false;
        }
        self.options = options;
        true
    }

    // Appends the words of a list. False if one is no word; those before it are appended.
    fn append(&mut self, list: &str) -> Result<bool, AllocError> {
        for text in list.split(' ') {
            let Some(word) = number(text, u64::MAX) else {
                return Ok(false);
            };
            self.words.append(word)?;
        }
        Ok(true)
    }
}

/// What the two sockets are made from.
#[derive(Drop)]
pub struct Setup {
    a: SocketSetup,
    b: SocketSetup,
    has_words: bool,
}

impl Setup {
    /// Two sockets with default options, and no words.
    pub fn new(alloc: Global) -> Setup {
        Setup {
            a: SocketSetup::new(alloc),
            b: SocketSetup::new(alloc),
            has_words: false,
        }
    }

    /// Reads on up to the first command; none if the script ends before.
    ///
    /// `BadLine`: a line isn't one of a script, or an option comes after words. So it is if there is no such
    /// option, if it can't have the value, or if a word is no number up to 2^64 - 1. `OutOfMemory`: an
    /// allocation failed. `Broken`: the reader failed.
    pub fn read<R: BufRead>(
        &mut self,
        alloc: Global,
        script: &mut Script<R>,
    ) -> Result<Option<Command>, Failure> {
        for _ in 0..u64::MAX {
            let Some(text) = script.next_line()? else {
                return Ok(None);
            };
            let is_good = match parse_line(alloc, text)? {
                Some(Line::Setting(side, name, value)) => self.set(side, name, value),
                Some(Line::Words(side, list)) => self.append(side, list)?,
                Some(Line::Command(command)) => return Ok(Some(command)),
                None => false,
            };
            if !is_good {
                return Err(script.bad_line());
            }
        }
        Ok(None)
    }

    /// The two sockets. `Err`: an allocation failed.
    pub fn make_world(self, alloc: Global) -> Result<World<Words>, Failure> {
        let Setup { a, b, has_words: _ } = self;
        let (options_a, options_b) = (a.options, b.options);
        Ok(World::new(alloc, &options_a, &options_b, a.words, b.words)?)
    }

    // Sets an option. No option is set after words.
    fn set(&mut self, side: Side, name: &str, value: &str) -> bool
        ensures first { self.old.has_words ≡ true → result ≡ false }
    {
        if self.has_words {
            return false;
        }
        match side {
            Side::A => self.a.set(name, value),
            Side::B => self.b.set(name, value),
        }
    }

    // Appends words.
    fn append(&mut self, side: Side, list: &str) -> Result<bool, AllocError>
        ensures second { self.new.has_words ≡ true }
    {
        self.has_words = true;
        match side {
            Side::A => self.a.append(list),
            Side::B => self.b.append(list),
        }
    }
}
