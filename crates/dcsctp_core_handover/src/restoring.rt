//! How a socket continues from a snapshot.

ghost use Rattle.std.specs.Prelude.{◌≡◌, true, IfOk};
ghost use Rattle.dcsctp_core.specs.spec.endpoint.Endpoint.{closed};
ghost use Rattle.dcsctp_core.specs.types.Snapshot.{snapshot, is_valid_send_part};
ghost use Rattle.dcsctp_core.specs.spec.endpoint.RestoreOutcomes.{capabilities_restored, own_pair, peer_pair, was_reset};
ghost use Rattle.dcsctp_core.specs.View.{core_of};
ghost use Rattle.dcsctp_core_handover.specs.Handover.{IsRestoredAssociation, RestoresAssociation};

use dcsctp_core::api::handover::{HandoverCapabilities, SocketHandoverState};
use dcsctp_core::api::{
    Capabilities, Options, Pair, SocketEvent, SocketTime,
    ZERO_CHECKSUM_ALTERNATE_ERROR_DETECTION_METHOD_NONE,
};
use dcsctp_core::{Context, OpenPhase, OpenState, Peer, State, TransmissionControlBlock};
use rand_core::Rng;
use std::alloc::{AllocError, Global};
use std::collections::VecDeque;

// What both ends support. Packets go without a checksum by the method of the options.
fn capabilities_restored(options: &Options, given: &HandoverCapabilities) -> Capabilities
    ensures { result ≡ capabilities_restored options.now given.now }
{
    Capabilities {
        partial_reliability: given.partial_reliability,
        message_interleaving: given.message_interleaving,
        reconfig: given.reconfig,
        zero_checksum_method: if given.zero_checksum {
            options.zero_checksum_alternate_error_detection_method
        } else {
            ZERO_CHECKSUM_ALTERNATE_ERROR_DETECTION_METHOD_NONE
        },
        negotiated_maximum_incoming_streams: given.negotiated_maximum_incoming_streams,
        negotiated_maximum_outgoing_streams: given.negotiated_maximum_outgoing_streams,
    }
}

// Our own pair.
fn own_pair(state: &SocketHandoverState) -> Pair
    ensures { result ≡ own_pair (snapshot state.now) }
{
    Pair {
        tag: state.my_verification_tag,
        first_tsn: state.my_initial_tsn,
    }
}

// The peer's pair.
fn peer_pair(state: &SocketHandoverState) -> Pair
    ensures { result ≡ peer_pair (snapshot state.now) }
{
    Pair {
        tag: state.peer_verification_tag,
        first_tsn: state.peer_initial_tsn,
    }
}

// Was a request of ours to reset streams begun? The number of the first is that of our first TSN.
fn was_reset(state: &SocketHandoverState) -> bool
    ensures { result ≡ was_reset (snapshot state.now) }
{
    state.tx.next_reset_req_sn != state.my_initial_tsn
}

// The association of the snapshot, which is restored at the moment `now`. `Err`: an allocation failed.
fn restored_association(
    alloc: Global,
    options: &Options,
    now: SocketTime,
    state: &SocketHandoverState,
) -> Result<TransmissionControlBlock, AllocError>
    requires { is_valid_send_part (snapshot state.now).tx ≡ true }
    ensures { IfOk result (IsRestoredAssociation options.now now (snapshot state.now)) }
{
    let peer = Peer {
        pair: peer_pair(state),
        a_rwnd: state.tx.rwnd,
        capabilities: capabilities_restored(options, &state.capabilities),
    };
    let own = own_pair(state);
    let mut tcb = TransmissionControlBlock::new(alloc, options, own, &peer, state.tie_tag);
    tcb.next_outgoing_reset_req_seq_nbr = state.tx.next_reset_req_sn;
    tcb.last_processed_req_seq_nbr = state.rx.last_completed_reset_req_sn;
    tcb.transfer
        .restore_from_state(now, was_reset(state), &state.tx, &state.rx)?;
    Ok(tcb)
}

/// A closed socket continues with the association of the snapshot, and with what waits there. The event is
/// OnConnected. `Err`: an allocation failed, and no event was added.
pub fn restore<R: Rng>(
    context: &mut Context<R>,
    state: &SocketHandoverState,
) -> Result<(), AllocError>
    requires closed { core_of context.old.state ≡ closed }
    requires valid { is_valid_send_part (snapshot state.now).tx ≡ true }
    ensures { RestoresAssociation R.stream (snapshot state.now) context.old result context.new }
{
    let now = context.moment;
    let tcb = restored_association(context.alloc, &context.options, now, state)?;
    context
        .send_queue
        .enable_message_interleaving(state.capabilities.message_interleaving, state.tx.rwnd);
    context.send_queue.restore_from_state(now, &state.tx)?;
    context.state = State::Open(OpenState {
        phase: OpenPhase::Established,
        tcb,
    });
    context.left = VecDeque::new(context.alloc);
    context.events.add(SocketEvent::OnConnected())?;
    context.resume_heartbeats();
    Ok(())
}
