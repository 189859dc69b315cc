//! What is settled: acknowledged by a SACK, and not to be acknowledged again. Blocks of later SACKs name it again.

ghost use Rattle.std.specs.Prelude.{◌≡◌};
ghost use Rattle.dcsctp_send_retransmission.specs.Settled.{is_settled, leaves_settled, is_left_unchanged, is_unsettled};

use dcsctp_api::types::{Change, Progress};

/// Does the change leave what is settled as it is?
pub fn leaves_settled(change: Change) -> bool
    ensures { result ≡ leaves_settled change }
{
    match change {
        Change::Miss(_) | Change::Mark | Change::Acknowledge => true,
        Change::SendAgain(_) | Change::Abandon => false,
    }
}

/// Has a SACK acknowledged it, and doesn't it wait to be acknowledged again?
pub fn is_settled(progress: Progress) -> bool
    ensures { result ≡ is_settled progress }
{
    if progress.state.is_unacknowledged() {
        false
    } else {
        progress.was_acknowledged
    }
}

/// Does the change leave it as it is? Not each such change is known.
pub fn is_left_by(change: Change, progress: Progress) -> bool
    ensures { result ≡ is_left_unchanged change progress }
{
    match change {
        Change::Miss(_) => {
            if progress.state.is_in_flight() {
                3 <= progress.misses
            } else {
                true
            }
        }
        Change::Mark => !progress.state.is_in_flight(),
        Change::Acknowledge => is_settled(progress),
        Change::SendAgain(_) | Change::Abandon => false,
    }
}

/// Is it settled, and not after the change?
pub fn is_unsettled_by(change: Change, progress: Progress) -> bool
    ensures { result ≡ is_unsettled change progress }
{
    match change {
        Change::SendAgain(_) => is_settled(progress),
        Change::Miss(_) | Change::Mark | Change::Acknowledge | Change::Abandon => false,
    }
}
