//! What sockets are made with, and messages sent with.

use crate::notes::Notes;
use dcsctp_script_lines::set_option;
use dcsctp_socket::{LifecycleId, Options, SendOptions, Socket};
use dcsctp_testing::TwoWords;
use std::alloc::Global;
use std::time::Duration;

/// The options of the next sockets and of the next messages, and the packet that was sent last.
pub struct Settings {
    pub options: Options,
    pub sending: SendOptions,
    pub packet: Vec<u8>,
}

// Written out: a derived one costs more to prove.
impl Drop for Settings {
    fn drop(self) {
        let Settings {
            options: _,
            sending: _,
            packet: _,
        } = self;
    }
}

impl Settings {
    /// Those of a test that begins: its sockets look at no checksum.
    pub fn new(alloc: Global) -> Settings {
        let mut options = Options::default();
        options.disable_checksum_verification = true;
        Settings {
            options,
            sending: SendOptions::default(),
            packet: Vec::new(alloc),
        }
    }

    /// Sets an option of the next sockets.
    pub fn set_option(&mut self, notes: &mut Notes, text: &str) {
        let (name, value) = notes.split(text);
        if !set_option(&mut self.options, name, value) {
            notes.fails("no such option");
        }
    }

    /// Sets an option of the next messages.
    pub fn set_sending(&mut self, notes: &mut Notes, text: &str) {
        let (name, value) = notes.split(text);
        let sending = &mut self.sending;
        match name {
            "all" if value == "default" => *sending = SendOptions::default(),
            "unordered" => sending.unordered = notes.flag(value),
            "lifecycle_id" => sending.lifecycle_id = LifecycleId::new(notes.number(
                value,
                u64::MAX,
            )),
            "lifetime" => sending.lifetime = Some(Duration::from_millis(notes.number(
                value,
                u64::MAX,
            ))),
            "max_retransmissions" => sending.max_retransmissions = Some(
                notes.number(value, 0xffff) as u16,
            ),
            _ => notes.fails("no such option"),
        }
    }
}

/// A closed socket that draws these words. None, and that is recorded, if the options are not valid or memory is out.
pub fn new_socket(
    notes: &mut Notes,
    options: &Options,
    (first, second): (u64, u64),
) -> Option<Socket<TwoWords>> {
    if !options.is_valid() {
        notes.fails("the options are not valid");
        return None;
    }
    let words = TwoWords { first, second };
    match Socket::new(notes.alloc(), "socket", options, words) {
        Ok(socket) => Some(socket),
        Err(_) => {
            notes.has_memory(false);
            None
        }
    }
}
