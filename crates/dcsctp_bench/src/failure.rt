//! Why a run failed.

use dcsctp_socket::{ErrorKind, SendError, SocketFault};
use std::alloc::{AllocError, AllocFailed};
use std::fmt::{self, Display, Formatter};
use std::io;

/// Why a run failed.
#[derive(Clone, Copy)]
pub enum Failure {
    /// Memory ran out.
    OutOfMemory,

    /// What was done could not be printed.
    Output,

    /// The four packets were handed over, and a socket isn't connected.
    NotConnected,

    /// A socket reported an error of this kind.
    Reported(ErrorKind),

    /// An association ended.
    Ended,

    /// A socket took no message.
    Refused(SendError),

    /// A message is not the one that was sent: its stream, length, bytes or place in its stream is another,
    /// or it came before. It carries this number.
    Wrong(u32),

    /// No message came for a long time. So many came before.
    Stuck(u32),
}

impl Display for Failure {
    fn fmt<W: fmt::Write>(&self, f: &mut Formatter<W>) -> fmt::Result {
        match self {
            Failure::OutOfMemory => f.write_str("out of memory"),
            Failure::Output => f.write_str("the output could not be written"),
            Failure::NotConnected => f.write_str("not connected"),
            Failure::Reported(kind) => write!(f, "a socket told an error: {kind:?}"),
            Failure::Ended => f.write_str("an association ended"),
            Failure::Refused(error) => write!(f, "a message was refused: {error}"),
            Failure::Wrong(number) => write!(f, "message {number} is wrong"),
            Failure::Stuck(count) => write!(f, "stuck after {count} messages"),
        }
    }
}

impl From<AllocError> for Failure {
    fn from(_refused: AllocError) -> Failure {
        Failure::OutOfMemory
    }
}

impl<T: Drop> From<AllocFailed<T>> for Failure {
    fn from(_refused: AllocFailed<T>) -> Failure {
        Failure::OutOfMemory
    }
}

// A socket only fails when an allocation failed.
impl From<SocketFault> for Failure {
    fn from(_fault: SocketFault) -> Failure {
        Failure::OutOfMemory
    }
}

impl From<io::Error> for Failure {
    fn from(_error: io::Error) -> Failure {
        Failure::Output
    }
}
