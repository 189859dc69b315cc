//! What a call of a session returns. C reads it as a number.

ghost use Rattle.std.specs.Prelude.{◌≡◌};
ghost use Rattle.dcsctp_session.specs.Status.{status_number, fault_status, done_status, send_error_status, send_status, reset_status, handover_error_status, seal_error_status, restore_status};

use dcsctp_snapshot_bytes::SealError;
use dcsctp_socket::{HandoverError, ResetStreamsError, RestoreError, SendError, SocketFault};

/// What a call returns.
#[derive(Clone, Copy, Debug, PartialEq, Eq)]
pub enum Status {
    /// The call was made; or there was nothing to take.
    Done,

    /// Something was taken.
    Taken,

    /// An allocation failed in this call.
    OutOfMemory,

    /// An allocation failed in an earlier call on the socket.
    Failed,

    /// There is no socket.
    NoSocket,

    /// There is a socket already.
    AlreadyCreated,

    /// No socket can be made with these options, or with this seed.
    InvalidOptions,

    /// The buffer is too small.
    BufferTooSmall,

    /// What was taken last has nothing of that kind.
    NothingToCopy,

    /// The payload is empty.
    EmptyPayload,

    /// The payload is longer than a message may be.
    MessageTooLarge,

    /// The send buffer is full.
    ResourceExhaustion,

    /// The association is being shut down.
    ShuttingDown,

    /// The peer isn't known.
    NotConnected,

    /// Resets of streams weren't negotiated.
    NotSupported,

    /// The socket can't be handed over now.
    NotReady,

    /// The bytes are no snapshot, or none that is valid for the options of the socket.
    InvalidSnapshot,

    /// The socket has an association, or begins one.
    NotClosed,

    /// A bit of the options of a message is set that has no meaning.
    InvalidSendOptions,

    /// A record has another size than that of this library.
    WrongSize,

    /// The snapshot is of a socket with other options.
    OtherOptions,

    /// The socket has data channels, and the call is below them.
    HasChannels,

    /// There is no such channel, none any more, or it has no stream.
    NoChannel,

    /// The stream that was agreed on is in use.
    StreamInUse,

    /// The association has ended, and so have its channels.
    Ended,
}

impl Status {
    /// Its number: 0, 1 if something was taken, and negative for an error.
    pub fn number(self) -> i32
        ensures { result ≡ status_number self }
    {
        match self {
            Status::Done => 0,
            Status::Taken => 1,
            Status::OutOfMemory => -1,
            Status::Failed => -2,
            Status::NoSocket => -3,
            Status::AlreadyCreated => -4,
            Status::InvalidOptions => -5,
            Status::BufferTooSmall => -6,
            Status::NothingToCopy => -7,
            Status::EmptyPayload => -8,
            Status::MessageTooLarge => -9,
            Status::ResourceExhaustion => -10,
            Status::ShuttingDown => -11,
            Status::NotConnected => -12,
            Status::NotSupported => -13,
            Status::NotReady => -14,
            Status::InvalidSnapshot => -15,
            Status::NotClosed => -16,
            Status::InvalidSendOptions => -17,
            Status::WrongSize => -18,
            Status::OtherOptions => -19,
            Status::HasChannels => -20,
            Status::NoChannel => -21,
            Status::StreamInUse => -22,
            Status::Ended => -23,
        }
    }

    /// What a call returns that the socket couldn't do.
    pub fn of_fault(fault: SocketFault) -> Status
        ensures { result ≡ fault_status fault }
    {
        match fault {
            SocketFault::OutOfMemory => Status::OutOfMemory,
            SocketFault::Failed => Status::Failed,
        }
    }

    /// What a call returns that can't be refused.
    pub fn of_call(outcome: Result<(), SocketFault>) -> Status
        ensures { result ≡ done_status outcome }
    {
        match outcome {
            Ok(()) => Status::Done,
            Err(fault) => Status::of_fault(fault),
        }
    }

    /// Why a message is refused.
    pub fn of_send_error(error: SendError) -> Status
        ensures { result ≡ send_error_status error }
    {
        match error {
            SendError::EmptyPayload => Status::EmptyPayload,
            SendError::MessageTooLarge { len: _, limit: _ } => Status::MessageTooLarge,
            SendError::ResourceExhaustion => Status::ResourceExhaustion,
            SendError::ShuttingDown => Status::ShuttingDown,
        }
    }

    // What a call returns that sends a message.
    pub(crate) fn of_send(outcome: Result<Result<(), SendError>, SocketFault>) -> Status
        ensures { result ≡ send_status outcome }
    {
        match outcome {
            Ok(Ok(())) => Status::Done,
            Ok(Err(error)) => Status::of_send_error(error),
            Err(fault) => Status::of_fault(fault),
        }
    }

    // What a call returns that resets streams.
    pub(crate) fn of_reset(outcome: Result<Result<(), ResetStreamsError>, SocketFault>) -> Status
        ensures { result ≡ reset_status outcome }
    {
        match outcome {
            Ok(Ok(())) => Status::Done,
            Ok(Err(ResetStreamsError::NotConnected)) => Status::NotConnected,
            Ok(Err(ResetStreamsError::NotSupported)) => Status::NotSupported,
            Err(fault) => Status::of_fault(fault),
        }
    }

    // Why a socket can't be handed over.
    pub(crate) fn of_handover_error(error: HandoverError) -> Status
        ensures { result ≡ handover_error_status error }
    {
        match error {
            HandoverError::NotReady(_) => Status::NotReady,
        }
    }

    // Why the seal of a snapshot is refused.
    pub(crate) fn of_seal_error(error: SealError) -> Status
        ensures { result ≡ seal_error_status error }
    {
        match error {
            SealError::Broken => Status::InvalidSnapshot,
            SealError::OtherOptions => Status::OtherOptions,
        }
    }

    // What a call returns that restores a socket.
    pub(crate) fn of_restore(outcome: Result<Result<(), RestoreError>, SocketFault>) -> Status
        ensures { result ≡ restore_status outcome }
    {
        match outcome {
            Ok(Ok(())) => Status::Done,
            Ok(Err(RestoreError::SocketNotClosed)) => Status::NotClosed,
            Err(fault) => Status::of_fault(fault),
        }
    }
}
