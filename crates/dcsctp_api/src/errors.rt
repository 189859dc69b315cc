//! How a call on a socket can fail for reasons that lie outside SCTP.

use dcsctp_spec_lemmas::types::HandoverReadiness;
use std::alloc::{AllocError, AllocFailed};
use thiserror::Error;

/// Why a socket could not do its work.
#[derive(Clone, Copy, Debug, PartialEq, Eq, Error)]
pub enum SocketFault {
    /// An allocation failed in this call. The socket has failed from now on.
    #[error("out of memory")]
    OutOfMemory,

    /// An allocation failed in an earlier call.
    #[error("socket has failed")]
    Failed,
}

/// Why a message is refused. If several reasons hold, the first in this order is given: `EmptyPayload`,
/// `MessageTooLarge`, `ShuttingDown`, `ResourceExhaustion`.
#[derive(Clone, Copy, Debug, PartialEq, Eq, Error)]
pub enum SendError {
    /// The payload is empty.
    #[error("message payload cannot be empty")]
    EmptyPayload,

    /// The payload has more bytes, `len`, than a message may have, `limit`.
    #[error("message size ({len}) exceeds configured max_message_size ({limit})")]
    MessageTooLarge { len: usize, limit: usize },

    /// The send buffer is full, in all or for the stream of the message.
    #[error("send queue is full")]
    ResourceExhaustion,

    /// The association is being shut down (RFC 9260, section 9.2).
    #[error("socket is shutting down or closed")]
    ShuttingDown,
}

/// The refused ones of several messages that were sent together, in ascending order. Each has its place among
/// them, from 0, and the reason. The others were accepted. There is at least one.
#[derive(Debug, PartialEq, Eq, Drop, Error)]
#[error("batch send failed with errors: {0:?}")]
pub struct BatchSendError(pub Vec<(usize, SendError)>);

/// Why no stream can be reset.
#[derive(Clone, Copy, Debug, PartialEq, Eq, Error)]
pub enum ResetStreamsError {
    /// The peer isn't known: there is no association, or its INIT isn't answered yet.
    #[error("socket is not connected")]
    NotConnected,

    /// Resets of streams weren't negotiated (RFC 6525, section 5.1.1).
    #[error("peer does not support stream resetting")]
    NotSupported,
}

/// Why a socket can't be handed over to another process.
#[derive(Clone, Copy, Debug, PartialEq, Eq, Error)]
pub enum HandoverError {
    /// It isn't ready, for these reasons.
    #[error("socket is not in a ready state for handover")]
    NotReady(HandoverReadiness),
}

/// Why a socket can't be restored from a snapshot.
#[derive(Clone, Copy, Debug, PartialEq, Eq, Error)]
pub enum RestoreError {
    /// It has an association, or begins one.
    #[error("cannot restore state: socket is not closed")]
    SocketNotClosed,
}

/// A failed allocation is `OutOfMemory`.
impl From<AllocError> for SocketFault {
    ghost use Rattle.std.specs.Prelude.{◌≡◌};
    ghost use Rattle.dcsctp_api.specs.declared.errors.SocketFault.TheVariants.{OutOfMemory};

    ghost from_gives = { λ _ fault. fault ≡ OutOfMemory };

    fn from(_refused: AllocError) -> SocketFault {
        SocketFault::OutOfMemory
    }
}

/// A failed allocation is `OutOfMemory`. The value that was to be stored is dropped.
impl<T: Drop> From<AllocFailed<T>> for SocketFault {
    ghost use Rattle.std.specs.Prelude.{◌≡◌};
    ghost use Rattle.dcsctp_api.specs.declared.errors.SocketFault.TheVariants.{OutOfMemory};

    ghost from_gives = { λ _ fault. fault ≡ OutOfMemory };

    fn from(_refused: AllocFailed<T>) -> SocketFault {
        SocketFault::OutOfMemory
    }
}
