//! Messages from one socket to the other.
//!
//! Each is sent by a call of its own as long as less than 1 MiB is between the two users; then all packets
//! are handed over, and each message is taken as it comes. Time passes only when nothing else happens, up to
//! the next moment at which something does.

use crate::arguments::Plan;
use crate::failure::Failure;
use crate::ledger::Ledger;
use crate::pair::{Pair, Side};
use dcsctp_socket::{DcSctpSocket, SendOptions};
use std::alloc::{AllocError, Global};

// As many bytes may be between the two users, and one more message.
const WINDOW: u64 = 1_048_576;

// After that many such moments without a message the run fails: none will come.
const PATIENCE: u32 = 120_000;

/// Messages from the first socket of a pair to the second.
#[derive(Drop)]
pub struct Traffic {
    queued: u32,
    options: SendOptions,

    /// Which messages have arrived.
    pub ledger: Ledger,

    sent: u32,
    sent_bytes: u64,

    // How often time has passed since the last message came.
    idle: u32,
}

impl Traffic {
    /// The messages of a plan.
    pub fn new(alloc: Global, plan: &Plan) -> Result<Traffic, AllocError> {
        let mut options = SendOptions::default();
        options.unordered = plan.is_unordered;
        Ok(Traffic {
            queued: plan.queued,
            options,
            ledger: Ledger::new(alloc, plan)?,
            sent: 0,
            sent_bytes: 0,
            idle: 0,
        })
    }

    /// Sends all messages, until they have arrived.
    pub fn run(&mut self, pair: &mut Pair) -> Result<(), Failure> {
        self.give(pair, self.queued, u64::MAX)?;
        for _ in 0..u64::MAX {
            if self.ledger.count == self.ledger.total {
                break;
            }
            let sent = self.sent;
            self.give(pair, self.ledger.total, WINDOW)?;
            let has_moved = self.deliver(pair)?;
            if sent == self.sent && !has_moved {
                self.wait(pair)?;
            }
        }
        Ok(())
    }

    // Sends the next message.
    fn send(&mut self, pair: &mut Pair) -> Result<(), Failure> {
        let message = self.ledger.message(self.sent)?;
        let bytes = u64::try_from(message.payload.len()).unwrap_or(u64::MAX);
        pair.a.send(&mut pair.link, message, &self.options)?;
        self.sent = self.sent.saturating_add(1);
        self.sent_bytes = self.sent_bytes.saturating_add(bytes);
        Ok(())
    }

    // Sends messages up to this number, as long as fewer bytes than the window are between the two users.
    fn give(&mut self, pair: &mut Pair, end: u32, window: u64) -> Result<(), Failure> {
        for _ in 0..u64::MAX {
            let between = self.sent_bytes.saturating_sub(self.ledger.bytes);
            if end <= self.sent || window <= between {
                break;
            }
            self.send(pair)?;
        }
        Ok(())
    }

    // Hands over the packets that have arrived, and returns whether there was one.
    fn deliver(&mut self, pair: &mut Pair) -> Result<bool, Failure> {
        let mut has_moved = false;
        for _ in 0..u64::MAX {
            match pair.deliver()? {
                None => break,
                Some(Side::A) => {}
                Some(Side::B) => self.take(pair)?,
            }
            has_moved = true;
        }
        Ok(has_moved)
    }

    // Takes the messages that are ready.
    fn take(&mut self, pair: &mut Pair) -> Result<(), Failure> {
        for _ in 0..u64::MAX {
            let message = pair.b.socket.get_next_message();
            pair.b.drain(&mut pair.link)?;
            let Some(message) = message else {
                break;
            };
            self.ledger.note(&message)?;
            self.idle = 0;
        }
        Ok(())
    }

    // Lets time pass, but not for ever.
    fn wait(&mut self, pair: &mut Pair) -> Result<(), Failure> {
        if PATIENCE <= self.idle {
            return Err(Failure::Stuck(self.ledger.count));
        }
        self.idle = self.idle.saturating_add(1);
        pair.pass()
    }
}
