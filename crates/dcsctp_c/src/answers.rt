//! What an export returns and writes.

ghost use Rattle.std.specs.Prelude.{◌≡◌};
ghost use Rattle.dcsctp_session.specs.Status.{state_number, status_number, taken_status};
ghost use Rattle.dcsctp_c.specs.Channels.{found_status};
ghost use Rattle.dcsctp_c.specs.Exports.{taken_or};

use dcsctp_session::{SocketState, Status};

// Writes what a call took, or else `otherwise`.
pub(crate) fn take<T: Copy>(taken: Option<T>, otherwise: T, place: &mut T) -> i32
    ensures result { result ≡ status_number (taken_status taken) }
    ensures place { place.new ≡ taken_or otherwise taken }
{
    match taken {
        None => {
            *place = otherwise;
            Status::Done.number()
        }
        Some(told) => {
            *place = told;
            Status::Taken.number()
        }
    }
}

// Writes what was found; if nothing was, this status is returned.
pub(crate) fn put<T: Copy>(found: Option<T>, missing: Status, place: &mut T) -> i32
    ensures result { result ≡ status_number (found_status missing found) }
    ensures place { place.new ≡ taken_or place.old found }
{
    match found {
        None => missing.number(),
        Some(told) => {
            *place = told;
            Status::Done.number()
        }
    }
}

// The number of a state.
pub(crate) fn state_number(state: SocketState) -> i32
    ensures { result ≡ state_number state }
{
    match state {
        SocketState::Closed => 0,
        SocketState::Connecting => 1,
        SocketState::Connected => 2,
        SocketState::ShuttingDown => 3,
    }
}
