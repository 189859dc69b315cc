//! What a socket's snapshot has.

ghost use Rattle.std.specs.Prelude.{◌≡◌, IfOk};
ghost use Rattle.dcsctp_core.specs.types.Snapshot.{snapshot};
ghost use Rattle.dcsctp_core.specs.spec.SocketSnapshot.{capabilities_given, snapshot_of};
ghost use Rattle.dcsctp_core.specs.View.{endpoint_of};
ghost use Rattle.dcsctp_core_handover.specs.Handover.{snapshot_with};

use dcsctp_core::api::Capabilities;
use dcsctp_core::api::handover::{
    HandoverCapabilities, HandoverReceive, HandoverSocketState, HandoverTransmission,
    SocketHandoverState,
};
use dcsctp_core::{Context, State, TransmissionControlBlock};
use std::alloc::AllocError;

// What it has of what both ends support.
fn capabilities_given(capabilities: &Capabilities) -> HandoverCapabilities
    ensures { result ≡ capabilities_given capabilities.now }
{
    HandoverCapabilities {
        partial_reliability: capabilities.partial_reliability,
        message_interleaving: capabilities.message_interleaving,
        reconfig: capabilities.reconfig,
        zero_checksum: capabilities.zero_checksum_method.0 != 0,
        negotiated_maximum_incoming_streams: capabilities.negotiated_maximum_incoming_streams,
        negotiated_maximum_outgoing_streams: capabilities.negotiated_maximum_outgoing_streams,
    }
}

// That of a socket with this association. `Err`: an allocation failed.
fn connected_state<R>(
    context: &Context<R>,
    tcb: &TransmissionControlBlock,
) -> Result<SocketHandoverState, AllocError>
    ensures { IfOk result
        (λ state. snapshot state ≡ snapshot_with (endpoint_of context.now) tcb.now) }
{
    let now = context.moment;
    let with_data = context.options.enable_handover_with_outstanding_data;
    let mut tx = HandoverTransmission::empty(context.alloc);
    tx.next_reset_req_sn = tcb.next_outgoing_reset_req_seq_nbr;
    let mut rx = HandoverReceive::empty(context.alloc);
    rx.last_completed_reset_req_sn = tcb.last_processed_req_seq_nbr;
    context
        .send_queue
        .add_to_handover_state(now, with_data, &mut tx)?;
    tcb.transfer
        .add_to_handover_state(now, with_data, &mut tx, &mut rx)?;
    Ok(SocketHandoverState {
        socket_state: HandoverSocketState::Connected,
        my_verification_tag: tcb.my.tag,
        my_initial_tsn: tcb.my.first_tsn,
        peer_verification_tag: tcb.peer.tag,
        peer_initial_tsn: tcb.peer.first_tsn,
        tie_tag: tcb.tie_tag,
        capabilities: capabilities_given(&tcb.capabilities),
        tx,
        rx,
    })
}

/// The socket's snapshot: that of a closed one is empty, and so is that of one which connects. `Err`: an
/// allocation failed.
pub fn handover_state<R>(context: &Context<R>) -> Result<SocketHandoverState, AllocError>
    ensures { IfOk result (λ state. snapshot state ≡ snapshot_of (endpoint_of context.now)) }
{
    match &context.state {
        State::Closed | State::CookieWait(_) | State::CookieEchoed(_) => {
            Ok(SocketHandoverState::empty(context.alloc))
        }
        State::Open(opened) => connected_state(context, &opened.tcb),
    }
}
