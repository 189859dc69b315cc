//! Where an act happens, what its call answered, and which acts are honest.

ghost use Rattle.std.specs.Prelude.{◌≡◌, ◌↔◌, IsTrue, map};
ghost use Rattle.dcsctp_core.specs.types.Schedule.{act_content, AreHonest};
ghost use Rattle.dcsctp_spec_runs.specs.Sockets.{side_of_act};

use dcsctp_core::api::handover::SocketHandoverState;
use dcsctp_core::api::{
    BatchSendError, HandoverError, Message, ResetStreamsError, RestoreError, SendError,
};
use dcsctp_core::types::{Act, Outside, Side, Step};

/// What the call of an act answered.
#[derive(Debug, PartialEq, Eq, Drop)]
pub enum Reply {
    /// No call was made: the number of a delivery names no packet, or a snapshot isn't valid.
    NoCall,

    /// The call was made, and has nothing to answer.
    Done,

    /// What `send` answered.
    Sent(Result<(), SendError>),

    /// What `send_many` answered.
    SentMany(Result<(), BatchSendError>),

    /// What `reset_streams` answered.
    Reset(Result<(), ResetStreamsError>),

    /// What `get_next_message` answered.
    Taken(Option<Message>),

    /// What `get_handover_state_and_close` answered.
    HandedOver(Result<SocketHandoverState, HandoverError>),

    /// What `restore_from_state` answered.
    Restored(Result<(), RestoreError>),
}

/// The side at which an act happens.
pub(crate) fn side_of(act: &Act) -> Side
    ensures { result ≡ side_of_act (act_content act.now) }
{
    match act {
        Act::Step(Step::Call(side, _)) => *side,
        Act::Step(Step::Deliver(side, _)) => *side,
        Act::Outside(Outside::Input(side, _)) => *side,
        Act::Outside(Outside::Handover(side)) => *side,
        Act::Outside(Outside::Restore(side, _)) => *side,
    }
}

/// Is each of these acts a step, and none from outside?
pub(crate) fn are_honest(acts: &[Act]) -> bool
    ensures { IsTrue result ↔ AreHonest (map act_content acts.now) }
{
    for act in acts {
        if let Act::Outside(_) = act {
            return false;
        }
    }
    true
}
