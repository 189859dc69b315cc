//! The calls that hand a socket over and restore it, over its parts.

ghost use Rattle.std.specs.Prelude.{◌≡◌, ◌≢◌, true, [], IsOk};
ghost use Rattle.dcsctp_core.specs.spec.Handover.{readiness_of};
ghost use Rattle.dcsctp_core.specs.types.Snapshot.{snapshot, is_valid_snapshot};
ghost use Rattle.dcsctp_core.specs.spec.HandoverInputs.{inputs_of_restore};
ghost use Rattle.dcsctp_core.specs.spec.Soundness.{IsSound};
ghost use Rattle.dcsctp_core.specs.View.{core_of, endpoint_of};
ghost use Rattle.dcsctp_core.specs.types.Schedule.{hand_over_call};
ghost use Rattle.dcsctp_core.specs.api.Handover.{IsHandoverAnswer, IsRestoreAnswer};
ghost use Rattle.dcsctp_socket_calls.specs.Parts.{TurnsOf, RestoringTurns, FirstOfRestore, BeganAlone, CutsCall, MakesAnsweredCall};

use dcsctp_core::Context;
use dcsctp_core::api::handover::{HandoverSocketState, SocketHandoverState};
use dcsctp_core::api::{HandoverError, RestoreError};
use dcsctp_core_handover::{hand_over, handover_state};
use dcsctp_spec_laws::snapshots_are_valid;
use rand_core::Rng;
use std::alloc::AllocError;

/// Makes the socket's snapshot, and ends its association here. The snapshot is valid for the socket's options.
/// `Err`: an allocation failed, and nothing has changed.
pub fn get_handover_state_and_close<R: Rng>(
    context: &mut Context<R>,
) -> Result<Result<SocketHandoverState, HandoverError>, AllocError>
    requires { IsSound (endpoint_of context.old) }
    ensures call { MakesAnsweredCall R.stream (IsHandoverAnswer (endpoint_of context.old))
        (TurnsOf hand_over_call) BeganAlone context.old result context.new }
    ensures refused { readiness_of (endpoint_of context.old) ≢ 0 → IsOk result }
{
    snapshots_are_valid();
    context.begin_call();
    let readiness = context.get_handover_readiness();
    if !readiness.is_ready() {
        return Ok(Err(HandoverError::NotReady(readiness)));
    }
    let state = handover_state(context)?;
    hand_over(context)?;
    Ok(Ok(state))
}

/// A closed socket continues from a snapshot, which must be valid for its options, and sends what waits. `Err`:
/// an allocation failed; the first of the call's events may already have been added.
pub fn restore_from_state<R: Rng>(
    context: &mut Context<R>,
    state: &SocketHandoverState,
) -> Result<Result<(), RestoreError>, AllocError>
    requires { is_valid_snapshot context.old.options (snapshot state.now) ≡ true }
    ensures call { MakesAnsweredCall R.stream (IsRestoreAnswer (core_of context.old.state))
        (RestoringTurns (snapshot state.now)) (CutsCall (FirstOfRestore (snapshot state.now)))
        context.old result context.new }
    ensures idle { inputs_of_restore (core_of context.old.state) (snapshot state.now) ≡ []
        → IsOk result }
{
    context.begin_call();
    if !context.state.is_closed() {
        return Ok(Err(RestoreError::SocketNotClosed));
    }
    match state.socket_state {
        HandoverSocketState::Closed => {}
        HandoverSocketState::Connected => {
            dcsctp_core_handover::restore(context, state)?;
            context.send_buffered_packets()?;
        }
    }
    Ok(Ok(()))
}
