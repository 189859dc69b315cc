//! SHUTDOWN (RFC 9260, sections 3.3.8 and 9.2) that is received.

ghost use Rattle.std.specs.Prelude.{◌≡◌, true};
ghost use Rattle.dcsctp_core.specs.Handling.{TakesOne};
ghost use Rattle.dcsctp_core.specs.View.{core_of, endpoint_of, transfer_of};
ghost use Rattle.dcsctp_core_data.specs.Shutdown.{ReceivesShutdown, takes_shutdown_tsn, may_core_have_sent, window_of};

use crate::sack::handle_sack;
use dcsctp_core::wire::{SackChunk, ShutdownChunk};
use dcsctp_core::{Context, OpenPhase, State};
use dcsctp_core_ends::receive_shutdown;
use rand_core::Rng;
use std::alloc::AllocError;

// Does the TSN of a SHUTDOWN count in this phase? Once SHUTDOWN or SHUTDOWN ACK was sent, SACKs alone
// acknowledge.
fn may_have_sent(state: &State) -> bool
    ensures { result ≡ may_core_have_sent (core_of state.now) }
{
    match state {
        State::Closed | State::CookieWait(_) | State::CookieEchoed(_) => false,
        State::Open(opened) => match opened.phase {
            OpenPhase::Established | OpenPhase::ShutdownPending => true,
            OpenPhase::ShutdownReceived => true,
            OpenPhase::ShutdownSent(_) | OpenPhase::ShutdownAckSent(_) => false,
        },
    }
}

// Does a SHUTDOWN with this cumulative TSN ack acknowledge? Only with `Options::follow_rfc`.
fn heeds_shutdown<R: Rng>(context: &Context<R>, cumulative_tsn_ack: u32) -> bool
    ensures { result
        ≡ takes_shutdown_tsn (endpoint_of context.now) (core_of context.now.state)
        (transfer_of context.now.state) cumulative_tsn_ack }
{
    match context.state.tcb() {
        None => false,
        Some(tcb) => {
            context.options.follow_rfc
                && may_have_sent(&context.state)
                && tcb.transfer.is_valid_ack(cumulative_tsn_ack)
        }
    }
}

// The receive window that the peer reported last; 0 without a peer.
fn peer_window(state: &State) -> u32
    ensures { result ≡ window_of (transfer_of state.now) }
{
    match state.tcb() {
        None => 0,
        Some(tcb) => tcb.transfer.peer_window(),
    }
}

// The peer shuts the association down, and this is acknowledged: as by a SACK without gaps, with the window
// that was reported last.
//
// `Err`: an allocation failed; the first of its events may already have been added.
fn acknowledge_and_receive<R: Rng>(
    context: &mut Context<R>,
    cumulative_tsn_ack: u32,
) -> Result<(), AllocError>
    requires { takes_shutdown_tsn (endpoint_of context.old) (core_of context.old.state)
        (transfer_of context.old.state) cumulative_tsn_ack ≡ true }
    ensures { TakesOne R.stream (ReceivesShutdown cumulative_tsn_ack) context.old result
        context.new }
{
    let sack = SackChunk {
        cumulative_tsn_ack,
        a_rwnd: peer_window(&context.state),
        gap_ack_blocks: &[],
        duplicate_tsns: &[],
    };
    context.state.set_phase(OpenPhase::ShutdownReceived);
    handle_sack(context, &sack)
}

/// Handles a SHUTDOWN. It counts while an association is open, and is answered by SHUTDOWN ACK. That is sent
/// at once if a SHUTDOWN or a SHUTDOWN ACK was sent, else once all that was sent is acknowledged. With
/// `Options::follow_rfc` its cumulative TSN ack acknowledges, as that of a SACK does (RFC 9260, section 9.2);
/// else it isn't used (docs/design/decisions.md, Shutdown).
///
/// `Err`: an allocation failed; the first of its events may already have been added.
pub fn handle_shutdown<R: Rng>(
    context: &mut Context<R>,
    chunk: &ShutdownChunk,
) -> Result<(), AllocError>
    ensures { TakesOne R.stream (ReceivesShutdown chunk.now.cumulative_tsn_ack) context.old result
        context.new }
{
    let cumulative_tsn_ack = chunk.cumulative_tsn_ack;
    if heeds_shutdown(context, cumulative_tsn_ack) {
        acknowledge_and_receive(context, cumulative_tsn_ack)
    } else {
        receive_shutdown(context)
    }
}
