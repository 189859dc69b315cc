//! How a run ends.

ghost use Rattle.std.specs.Prelude.{◌≡◌, ◌↔◌, IsOk, IfErr};
ghost use Rattle.std.specs.IoError.{error_kind};
ghost use Rattle.dcsctp_script.specs.Ending.{exit_code, failure_of, status_of};
ghost use Rattle.dcsctp_script.specs.declared.failure.Failure.TheVariants.{Broken, OutOfMemory};

use dcsctp_api::SocketFault;
use std::alloc::{AllocError, AllocFailed};
use std::io;

/// How a run ended.
#[derive(Clone, Copy, Debug, PartialEq, Eq)]
pub enum Status {
    /// Every line of the script was run.
    Done,

    /// The input could not be read, or the output not be written.
    Broken,

    /// A line isn't a line of a script, or came at the wrong place.
    BadLine,

    /// An allocation failed.
    OutOfMemory,
}

impl Status {
    /// The exit status of the program: 0, 1, 2 or 3, in the order of the variants.
    pub fn code(self) -> u8
        ensures { result ≡ exit_code self }
    {
        match self {
            Status::Done => 0,
            Status::Broken => 1,
            Status::BadLine => 2,
            Status::OutOfMemory => 3,
        }
    }
}

/// Why a run ended early.
#[derive(Clone, Copy, Debug, PartialEq, Eq)]
pub enum Failure {
    /// The line of this number, counted from 1, is bad.
    BadLine(u64),

    /// An allocation failed.
    OutOfMemory,

    /// The input could not be read, or the output not be written.
    Broken,
}

impl Failure {
    /// How a run ends that failed so.
    pub fn status(&self) -> Status
        ensures { result ≡ status_of self.now }
    {
        match self {
            Failure::BadLine(_) => Status::BadLine,
            Failure::OutOfMemory => Status::OutOfMemory,
            Failure::Broken => Status::Broken,
        }
    }
}

impl From<AllocError> for Failure {
    ghost from_gives = { λ _ failure. failure ≡ OutOfMemory };

    fn from(_refused: AllocError) -> Failure {
        Failure::OutOfMemory
    }
}

impl<T: Drop> From<AllocFailed<T>> for Failure {
    ghost from_gives = { λ _ failure. failure ≡ OutOfMemory };

    fn from(_refused: AllocFailed<T>) -> Failure {
        Failure::OutOfMemory
    }
}

// A socket only fails when an allocation failed.
impl From<SocketFault> for Failure {
    ghost from_gives = { λ _ failure. failure ≡ OutOfMemory };

    fn from(_fault: SocketFault) -> Failure {
        Failure::OutOfMemory
    }
}

// An error of the reader, or of a buffer that isn't made. Those of the writer are for `written`.
impl From<io::Error> for Failure {
    ghost from_gives = { λ error failure. failure ≡ failure_of (error_kind error) };

    fn from(error: io::Error) -> Failure {
        match error.kind() {
            io::ErrorKind::OutOfMemory => Failure::OutOfMemory,
            _ => Failure::Broken,
        }
    }
}

/// The result of writing, for the run: an error of the writer, of whatever kind, is `Broken`.
pub fn written(outcome: io::Result<()>) -> Result<(), Failure>
    ensures ok { IsOk result ↔ IsOk outcome }
    ensures err { IfErr result (λ failure. failure ≡ Broken) }
{
    outcome.map_err(|_| Failure::Broken)
}
