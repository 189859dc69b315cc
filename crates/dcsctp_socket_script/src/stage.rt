//! Two sockets that draw known words, and the lines that are about one of them or both.

use crate::commands::act;
use crate::notes::Notes;
use crate::questions::is_asked;
use crate::settings::{Settings, new_socket};
use crate::told::{is_quiet, sends, tells};
use dcsctp_socket::Socket;
use dcsctp_testing::TwoWords;
use std::alloc::Global;

/// Two sockets, once a test has begun.
pub struct Stage {
    alloc: Global,
    settings: Settings,
    a: Option<Socket<TwoWords>>,
    b: Option<Socket<TwoWords>>,
}

impl Drop for Stage {
    fn drop(self) {
        let Stage {
            alloc: _,
            settings: _,
            a: _,
            b: _,
        } = self;
    }
}

impl Stage {
    /// No sockets yet.
    pub fn new(alloc: Global) -> Stage {
        Stage {
            alloc,
            settings: Settings::new(alloc),
            a: None,
            b: None,
        }
    }

    /// Two new sockets with the options that a test begins with.
    pub fn begin(&mut self, notes: &mut Notes) {
        self.settings = Settings::new(self.alloc);
        self.make_sockets(notes);
    }

    /// No event may be left.
    pub fn ends(&mut self, notes: &mut Notes) {
        ends(notes, &mut self.a);
        ends(notes, &mut self.b);
    }

    /// Does what a line says that is about one socket, or about options.
    pub fn take(&mut self, notes: &mut Notes, line: &str) {
        let (front, rest) = line.split_once(' ').unwrap_or((line, ""));
        match front {
            "option" => self.set_option(notes, rest),
            "sending" => self.settings.set_sending(notes, rest),
            "A" => take_of_one(notes, &mut self.a, &mut self.settings, rest),
            "B" => take_of_one(notes, &mut self.b, &mut self.settings, rest),
            _ => notes.fails("no such line"),
        }
    }

    fn set_option(&mut self, notes: &mut Notes, text: &str) {
        self.ends(notes);
        self.settings.set_option(notes, text);
        self.make_sockets(notes);
    }

    fn make_sockets(&mut self, notes: &mut Notes) {
        self.a = new_socket(notes, &self.settings.options, (100, 6));
        self.b = new_socket(notes, &self.settings.options, (200, 8));
    }
}

fn ends(notes: &mut Notes, socket: &mut Option<Socket<TwoWords>>) {
    if let Some(socket) = socket {
        is_quiet(notes, socket);
    }
}

// A line about this socket.
fn take_of_one(
    notes: &mut Notes,
    socket: &mut Option<Socket<TwoWords>>,
    settings: &mut Settings,
    text: &str,
) {
    match socket {
        Some(socket) => take_of(notes, socket, settings, text),
        None => notes.fails("there is no socket"),
    }
}

fn take_of(notes: &mut Notes, socket: &mut Socket<TwoWords>, settings: &mut Settings, text: &str) {
    let (verb, text) = text.split_once(' ').unwrap_or((text, ""));
    match verb {
        "sends" => settings.packet = sends(notes, socket, text),
        "tells" => tells(notes, socket, text),
        _ => match text.strip_prefix("= ") {
            Some(expected) => is_asked(notes, socket, verb, expected),
            None => act(notes, socket, settings, verb, text),
        },
    }
}
