//! What a side needs once there is no memory. It is made before.

use dcsctp_socket::Message;
use dcsctp_testing::message;
use std::alloc::{AllocError, Global};
use std::collections::VecDeque;

// No more packets are under way to one side, in any exchange.
const MOST_PACKETS: usize = 16;

/// What the later calls of a socket that has failed are handed.
#[derive(Drop)]
pub struct Handed {
    /// For `send`.
    pub message: Message,

    /// For `send_many`.
    pub several: Vec<Message>,
}

impl Handed {
    fn new(alloc: Global) -> Result<Handed, AllocError> {
        let one = message(alloc, 2, 60)?;
        let another = message(alloc, 2, 70)?;
        let several = Vec::from_array(alloc, [another])?;
        Ok(Handed {
            message: one,
            several,
        })
    }
}

/// Room of one side.
#[derive(Drop)]
pub struct Room {
    /// For the packets that are under way to the other side, oldest first.
    pub outgoing: VecDeque<Vec<u8>>,

    /// For two rounds of later calls.
    pub handed: Vec<Handed>,
}

impl Room {
    /// `Err`: an allocation failed.
    pub fn new(alloc: Global) -> Result<Room, AllocError> {
        let outgoing = VecDeque::with_capacity(alloc, MOST_PACKETS)?;
        let mut handed = Vec::with_capacity(alloc, 2)?;
        handed.push(Handed::new(alloc)?)?;
        handed.push(Handed::new(alloc)?)?;
        Ok(Room { outgoing, handed })
    }
}
