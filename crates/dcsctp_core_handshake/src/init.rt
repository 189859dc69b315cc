//! INIT (RFC 9260, sections 5.1, 5.2.1 and 5.2.2).

ghost use Rattle.dcsctp_core.specs.wire.Content.{init_content};
ghost use Rattle.dcsctp_core.specs.spec.Packet.{introduction_of_init};
ghost use Rattle.dcsctp_core.specs.Handling.{Tries, TriesDrawing};
ghost use Rattle.dcsctp_core_handshake.specs.Handshake.{DrawsTag, DrawsPair, init_answer_turn, closed_turn, init_reply_turn, init_turn, renewed_turn};

use crate::parameters::introduction;
use dcsctp_core::api::{Capabilities, Pair, StateCookie};
use dcsctp_core::wire::{Chunk, InitChunk};
use dcsctp_core::{Context, OpenPhase, State};
use dcsctp_core_ends::send_shutdown_ack;
use rand_core::Rng;
use std::alloc::AllocError;

/// How far a new first TSN is from those in use.
const TSN_GAP: u32 = 1_000_000;

/// Draws a tag, which is never 0, to go with this first TSN. The pair is kept.
fn draw_tag<R: Rng>(context: &mut Context<R>, first_tsn: u32) -> Result<Pair, AllocError>
    ensures { DrawsTag R.stream first_tsn context.old result context.new }
{
    let tag = 1 + context.draw_u32()? % (u32::MAX - 1);
    let pair = Pair { tag, first_tsn };
    context.keep_pair(pair)?;
    Ok(pair)
}

/// Draws a first TSN, and then the tag that goes with it. The pair is kept.
pub(crate) fn draw_pair<R: Rng>(context: &mut Context<R>) -> Result<Pair, AllocError>
    ensures { DrawsPair R.stream context.old result context.new }
{
    let first_tsn = context.draw_u32()? % u32::MAX;
    let pair = draw_tag(context, first_tsn)?;
    Ok(pair)
}

/// Answers an INIT with this pair: sends an INIT ACK with a state cookie under the INIT's initiate tag. It
/// has no checksum if zero checksum is negotiated (RFC 9653, section 5.2).
///
/// `Err`: an allocation failed, and nothing has changed.
fn send_init_ack<R: Rng>(
    context: &mut Context<R>,
    init: &InitChunk<'_>,
    pair: Pair,
    tie_tag: u64,
) -> Result<(), AllocError>
    ensures { Tries R.stream
        (init_answer_turn (introduction_of_init (init_content init.now)) pair tie_tag)
        context.old result context.new }
{
    let peer_capabilities = Capabilities::from_parameters(
        init.nbr_outbound_streams,
        init.nbr_inbound_streams,
        &init.parameters,
    );
    let capabilities = peer_capabilities.negotiate(&context.options);
    let cookie = StateCookie {
        peer_tag: init.initiate_tag,
        my_tag: pair.tag,
        peer_initial_tsn: init.initial_tsn,
        my_initial_tsn: pair.first_tsn,
        a_rwnd: init.a_rwnd,
        tie_tag,
        moment: StateCookie::moment_at(context.moment),
        peer_capabilities,
    };
    let cookie = cookie.serialize(context.alloc)?;
    let method = capabilities.zero_checksum_method.0;
    let init_ack = introduction(context.alloc, &context.options, pair, method, Some(&cookie))?;
    let chunk = Chunk::InitAck(init_ack);
    context.emit(init.initiate_tag, method == 0, &chunk)?;
    Ok(())
}

// Answers an INIT while an association is open. The answer has a tag that is drawn for it, a first TSN far
// from those in use, and the tie tag (RFC 9260, section 5.2.2). Without a peer nothing happens.
//
// `Err`: an allocation failed, and nothing has changed but the random words that were drawn.
fn answer_anew<R: Rng>(context: &mut Context<R>, init: &InitChunk<'_>) -> Result<(), AllocError>
    ensures { TriesDrawing R.stream
        (renewed_turn R.stream (introduction_of_init (init_content init.now)))
        context.old result context.new }
{
    match context.state.tcb() {
        None => {}
        Some(tcb) => {
            let first_tsn = tcb.transfer.next_tsn().wrapping_add(TSN_GAP);
            let tie_tag = tcb.tie_tag;
            let renewed = draw_tag(context, first_tsn)?;
            send_init_ack(context, init, renewed, tie_tag)?;
        }
    }
    Ok(())
}

// Answers an INIT where there is no association, with a pair that is drawn for it. The first one is the secret of our
// cookies.
//
// `Err`: an allocation failed, and nothing has changed but the random words that were drawn.
fn answer_closed<R: Rng>(context: &mut Context<R>, init: &InitChunk<'_>) -> Result<(), AllocError>
    ensures { TriesDrawing R.stream
        (closed_turn R.stream (introduction_of_init (init_content init.now)))
        context.old result context.new }
{
    let pair = draw_pair(context)?;
    let secret = context.secret_with(pair);
    send_init_ack(context, init, pair, secret)?;
    context.keep_secret(secret);
    Ok(())
}

// Answers an INIT. `Err`: an allocation failed, and nothing has changed but the random words that were drawn.
fn answer_init<R: Rng>(context: &mut Context<R>, init: &InitChunk<'_>) -> Result<(), AllocError>
    ensures { TriesDrawing R.stream
        (init_reply_turn R.stream (introduction_of_init (init_content init.now)))
        context.old result context.new }
{
    match &context.state {
        State::Closed => answer_closed(context, init)?,
        State::CookieWait(wait) => {
            let my = wait.my;
            let secret = context.secret();
            send_init_ack(context, init, my, secret)?;
        }
        State::CookieEchoed(echoed) => {
            let my = echoed.tcb.my;
            let secret = context.secret();
            send_init_ack(context, init, my, secret)?;
        }
        State::Open(opened) => match opened.phase {
            OpenPhase::ShutdownAckSent(_) => send_shutdown_ack(context)?,
            OpenPhase::Established | OpenPhase::ShutdownPending => answer_anew(context, init)?,
            OpenPhase::ShutdownSent(_) | OpenPhase::ShutdownReceived => {
                answer_anew(context, init)?;
            }
        },
    }
    Ok(())
}

/// Handles an INIT, which doesn't change the association. During a handshake the answer carries our own pair
/// (RFC 9260, section 5.2.1), else one that is drawn for it. While an association is open it also carries the
/// tie tag (RFC 9260, section 5.2.2). While a SHUTDOWN ACK waits for its answer, that is sent again instead,
/// and T2 runs on (RFC 9260, section 9.2). With `Options::follow_rfc` it is ignored, and no words are drawn, if
/// another chunk of its packet was answered.
///
/// `Err`: an allocation failed, and nothing has changed but the random words that were drawn.
pub fn handle_init<R: Rng>(context: &mut Context<R>, init: &InitChunk<'_>) -> Result<(), AllocError>
    ensures { TriesDrawing R.stream (init_turn R.stream (introduction_of_init
        (init_content init.now))) context.old result context.new }
{
    if !context.may_answer() {
        return Ok(());
    }
    answer_init(context, init)?;
    context.count_answer();
    Ok(())
}
