//! COOKIE ECHO (RFC 9260, sections 5.1, 5.1.5 and 5.2.4).

ghost use Rattle.std.specs.Prelude.{◌≡◌, [], ◌∷◌, IfOk, map};
ghost use Rattle.dcsctp_core.specs.wire.Content.{cause_content, cookie_received_while_shutting_down};
ghost use Rattle.dcsctp_core.specs.spec.endpoint.Cause.{stale_cookie};
ghost use Rattle.dcsctp_core.specs.api.Cookie.{cookie_of};
ghost use Rattle.dcsctp_core.specs.View.{core_of, transfer_of, view_of, endpoint_of};
ghost use Rattle.dcsctp_core.specs.Handling.{Tries, TakesOne, HandlesTurn, HandlesPossibleTurn};
ghost use Rattle.dcsctp_core_handshake.specs.Handshake.{ReceivesCookieEcho};
ghost use Rattle.dcsctp_core_handshake.specs.Echoes.{awaits_complete, holding, unheld, established_with, transfer_over, taken_over, AcknowledgesEcho, EstablishesAssociation, EstablishesFirst, OutlastsAssociation, CollidesWithPeer, ReplacesAssociation, RestartsAssociation, MaintainsAssociation, RestartsUnlessShuttingDown, refuse_turn, stale_sent_turn, stale_turn, refused_restart_turn};

use crate::cookie_resolution::{
    CookieResolution, outlasts, own_by_cookie, peer_by_cookie, resolve_now,
};
use crate::texts::{INVALID_TAG, SHUTTING_DOWN, STALE};
use dcsctp_core::api::{ErrorKind, SocketEvent, StateCookie};
use dcsctp_core::transfer::Transfer;
use dcsctp_core::wire::{Chunk, CookieEchoChunk, ErrorCause, ErrorChunk};
use dcsctp_core::{Context, Following, OpenPhase, OpenState, State, TransmissionControlBlock};
use dcsctp_core_ends::STALE_COOKIE;
use rand_core::Rng;
use std::alloc::{AllocError, Global};
use std::collections::VecDeque;

/// Sends COOKIE ACK to the peer, at the front of a flush.
///
/// `Err`: an allocation failed; the first of its events may already have been added.
fn send_cookie_ack<R: Rng>(context: &mut Context<R>) -> Result<(), AllocError>
    ensures { TakesOne R.stream AcknowledgesEcho context.old result context.new }
{
    let Some(tcb) = context.state.tcb() else {
        return Ok(());
    };
    let mut packet = tcb.new_packet(context.alloc, &context.options)?;
    packet.add(&Chunk::CookieAck);
    context.send_buffered_packets_with(packet)?;
    Ok(())
}

// Establishes this association. What belongs to the one before is dropped.
#[inline(always)]
fn hold<R: Rng>(context: &mut Context<R>, tcb: TransmissionControlBlock)
    ensures { view_of context.new ≡ record (view_of context.old) {
      endpoint = holding (endpoint_of context.old) tcb;
    } }
{
    context.state = State::Open(OpenState {
        phase: OpenPhase::Established,
        tcb,
    });
    context.left = VecDeque::new(context.alloc);
    context
        .tx_error_counter
        .begin_association(context.options.follow_rfc);
    context.heartbeat_sent = None;
    context.renewable = None;
    context.start_heartbeat_interval();
}

// Makes the association that a cookie shows. What waits to be sent is kept.
fn begin_association<R: Rng>(context: &mut Context<R>, cookie: &StateCookie, tie_tag: u64)
    ensures { view_of context.new ≡ record (view_of context.old) {
      endpoint = established_with
          (endpoint_of context.old)
          (cookie_of cookie.now)
          tie_tag;
    } }
{
    let peer = peer_by_cookie(&context.options, cookie);
    let my = own_by_cookie(cookie);
    let interleaving = peer.capabilities.message_interleaving;
    context
        .send_queue
        .enable_message_interleaving(interleaving, peer.a_rwnd);
    let tcb = TransmissionControlBlock::new(context.alloc, &context.options, my, &peer, tie_tag);
    hold(context, tcb);
}

// Takes what was sent out of the association, if there is one, to send it to the peer that a cookie shows. The state
// is `Closed` then.
fn take_transfer<R: Rng>(context: &mut Context<R>, cookie: &StateCookie) -> Transfer
    ensures transfer { result ≡ transfer_over (endpoint_of context.old) (cookie_of cookie.now)
        (transfer_of context.old.state) }
    ensures left { view_of context.new ≡ record (view_of context.old) {
      endpoint = unheld (endpoint_of context.old);
    } }
{
    let peer = peer_by_cookie(&context.options, cookie);
    let my = own_by_cookie(cookie);
    let theirs = peer.pair.first_tsn;
    let state = std::mem::replace(&mut context.state, State::Closed);
    match state.into_transfer() {
        None => Transfer::new(
            context.alloc,
            &context.options,
            my.first_tsn,
            theirs,
            peer.a_rwnd,
            &peer.capabilities,
        ),
        Some(mut transfer) => {
            transfer.keep_for_peer(context.moment, &context.options, theirs, peer.a_rwnd);
            transfer
        }
    }
}

// Makes the association that a cookie shows of the existing one: what was sent goes to its peer.
fn take_over<R: Rng>(context: &mut Context<R>, cookie: &StateCookie, tie_tag: u64)
    ensures { view_of context.new ≡ record (view_of context.old) {
      endpoint = taken_over
          (endpoint_of context.old)
          (cookie_of cookie.now)
          tie_tag;
    } }
{
    let peer = peer_by_cookie(&context.options, cookie);
    let my = own_by_cookie(cookie);
    let transfer = take_transfer(context, cookie);
    let tcb = TransmissionControlBlock::with_transfer(my, &peer, tie_tag, transfer);
    hold(context, tcb);
}

/// Makes the association that a cookie shows, and acknowledges it. What waits to be sent is kept.
///
/// `Err`: an allocation failed; the first of its events may already have been added.
fn establish<R: Rng>(context: &mut Context<R>, cookie: &StateCookie) -> Result<(), AllocError>
    ensures { TakesOne R.stream (EstablishesAssociation R.stream (cookie_of cookie.now)) context.old
        result context.new }
{
    let tie_tag = context.draw_u64()?;
    context.events.add(SocketEvent::OnConnected())?;
    begin_association(context, cookie, tie_tag);
    send_cookie_ack(context)?;
    Ok(())
}

/// Makes the association that a cookie shows instead of the existing one. What waits to be sent starts over.
///
/// `Err`: an allocation failed; the first of its events may already have been added.
fn replace<R: Rng>(context: &mut Context<R>, cookie: &StateCookie) -> Result<(), AllocError>
    ensures { TakesOne R.stream (ReplacesAssociation R.stream (cookie_of cookie.now)) context.old
        result context.new }
{
    context.send_queue.reset();
    establish(context, cookie)?;
    Ok(())
}

/// Makes the association that a cookie shows of the existing one, and acknowledges it. What was sent goes to its peer.
///
/// `Err`: an allocation failed; the first of its events may already have been added.
fn outlast<R: Rng>(context: &mut Context<R>, cookie: &StateCookie) -> Result<(), AllocError>
    ensures { TakesOne R.stream (OutlastsAssociation R.stream (cookie_of cookie.now)) context.old
        result context.new }
{
    let tie_tag = context.draw_u64()?;
    context.events.add(SocketEvent::OnConnected())?;
    take_over(context, cookie, tie_tag);
    send_cookie_ack(context)?;
    Ok(())
}

/// Makes the association that a cookie shows where both sides began at the same time. What was sent goes to its peer
/// if it outlasts the existing one; else what waits to be sent starts over.
///
/// `Err`: an allocation failed; the first of its events may already have been added.
fn collide<R: Rng>(context: &mut Context<R>, cookie: &StateCookie) -> Result<(), AllocError>
    ensures { TakesOne R.stream (CollidesWithPeer R.stream (cookie_of cookie.now)) context.old
        result context.new }
{
    if outlasts(context, cookie) {
        return outlast(context, cookie);
    }
    replace(context, cookie)
}

/// Makes the association that a cookie shows where there is none. What waits to be sent is kept; with
/// `Options::follow_rfc` its numbers start again (RFC 9260, section 6.5).
///
/// `Err`: an allocation failed; the first of its events may already have been added.
fn establish_new<R: Rng>(context: &mut Context<R>, cookie: &StateCookie) -> Result<(), AllocError>
    ensures { TakesOne R.stream (EstablishesFirst R.stream (cookie_of cookie.now)) context.old
        result context.new }
{
    if context.options.follow_rfc {
        replace(context, cookie)
    } else {
        establish(context, cookie)
    }
}

/// Restarts the association, since the peer restarted it.
///
/// `Err`: an allocation failed; the first of its events may already have been added.
fn restart<R: Rng>(context: &mut Context<R>, cookie: &StateCookie) -> Result<(), AllocError>
    ensures { TakesOne R.stream (RestartsAssociation R.stream (cookie_of cookie.now)) context.old
        result context.new }
{
    context.events.add(SocketEvent::OnConnectionRestarted())?;
    replace(context, cookie)?;
    Ok(())
}

// The ERROR of a restart that is refused (RFC 9260, section 3.3.10.10).
fn shutting_down_error(alloc: Global) -> Result<ErrorChunk<'static>, AllocError>
    ensures { IfOk result (λ error. map cause_content error.error_causes.items
        ≡ cookie_received_while_shutting_down ∷ []) }
{
    let mut error_causes = Vec::with_capacity(alloc, 1)?;
    error_causes.push(ErrorCause::CookieReceivedWhileShuttingDown)?;
    Ok(ErrorChunk { error_causes })
}

// Refuses a restart, since a SHUTDOWN ACK waits for its answer. SHUTDOWN ACK is sent again, with an ERROR of
// the cause Cookie Received While Shutting Down. The error is reported (RFC 9260, section 5.2.4, A). Without
// a peer nothing happens.
//
// `Err`: an allocation failed; the first of its events may already have been added.
fn refuse_restart<R: Rng>(context: &mut Context<R>) -> Result<Following, AllocError>
    ensures { HandlesTurn R.stream refused_restart_turn context.old result context.new }
{
    let Some(tcb) = context.state.tcb() else {
        return Ok(Following::NextChunk);
    };
    let text = String::from_str(context.alloc, SHUTTING_DOWN)?;
    let mut packet = tcb.new_packet(context.alloc, &context.options)?;
    let error = shutting_down_error(context.alloc)?;
    packet.add(&Chunk::ShutdownAck);
    packet.add(&Chunk::Error(error));
    context.send_unless_empty(packet)?;
    context.report(ErrorKind::WrongSequence, text)?;
    Ok(Following::DroppedRest)
}

// A SHUTDOWN ACK waits for its answer.
fn awaits_complete(state: &State) -> bool
    ensures { result ≡ awaits_complete (core_of state.now) }
{
    match state {
        State::Closed | State::CookieWait(_) | State::CookieEchoed(_) => false,
        State::Open(opened) => match opened.phase {
            OpenPhase::Established | OpenPhase::ShutdownPending => false,
            OpenPhase::ShutdownSent(_) | OpenPhase::ShutdownReceived => false,
            OpenPhase::ShutdownAckSent(_) => true,
        },
    }
}

// Restarts the association, unless a SHUTDOWN ACK waits for its answer.
//
// `Err`: an allocation failed; the first of its events may already have been added.
fn restart_where_open<R: Rng>(
    context: &mut Context<R>,
    cookie: &StateCookie,
) -> Result<Following, AllocError>
    ensures { HandlesPossibleTurn R.stream (RestartsUnlessShuttingDown R.stream
        (cookie_of cookie.now)) context.old result context.new }
{
    if awaits_complete(&context.state) {
        return refuse_restart(context);
    }
    restart(context, cookie)?;
    Ok(Following::NextChunk)
}

/// Acknowledges the existing association, and establishes it if its COOKIE ACK is awaited.
///
/// `Err`: an allocation failed; the first of its events may already have been added.
fn maintain<R: Rng>(context: &mut Context<R>) -> Result<(), AllocError>
    ensures { TakesOne R.stream MaintainsAssociation context.old result context.new }
{
    match context.state {
        State::CookieEchoed(_) => {
            context.events.add(SocketEvent::OnConnected())?;
            context.state.establish();
            context.start_heartbeat_interval();
            send_cookie_ack(context)?;
        }
        State::Open(_) => send_cookie_ack(context)?,
        State::Closed => {}
        State::CookieWait(_) => {}
    }
    Ok(())
}

/// Handles a COOKIE ECHO in a packet with this header tag. One that would make an association, and whose
/// cookie is stale or of the last association, is refused: that is reported, with `Options::follow_rfc` to the peer,
/// too, and nothing else changes. After one that is refused or discarded the rest of the packet is dropped.
///
/// `Err`: an allocation failed; the first of its events may already have been added.
pub fn handle_cookie_echo<R: Rng>(
    context: &mut Context<R>,
    header_tag: u32,
    chunk: &CookieEchoChunk<'_>,
) -> Result<Following, AllocError>
    ensures { HandlesPossibleTurn R.stream (ReceivesCookieEcho header_tag chunk.now.cookie.now)
        context.old result context.new }
{
    let cookie = match StateCookie::from_bytes(chunk.cookie) {
        Ok(cookie) => cookie,
        Err(text) => {
            refuse(context, text)?;
            return Ok(Following::DroppedRest);
        }
    };
    match resolve_now(context, header_tag, &cookie) {
        CookieResolution::EstablishNew => establish_new(context, &cookie)?,
        CookieResolution::RestartDetected => return restart_where_open(context, &cookie),
        CookieResolution::SimultaneousInit => collide(context, &cookie)?,
        CookieResolution::Discard => return Ok(Following::DroppedRest),
        CookieResolution::MaintainExisting => maintain(context)?,
        CookieResolution::InvalidTag => {
            refuse(context, INVALID_TAG)?;
            return Ok(Following::DroppedRest);
        }
        CookieResolution::Stale => return refuse_stale(context, cookie.peer_tag),
    }
    Ok(Following::NextChunk)
}

/// Reports that a COOKIE ECHO was refused, and why.
///
/// `Err`: an allocation failed, and nothing has changed.
fn refuse<R: Rng>(context: &mut Context<R>, text: &str) -> Result<(), AllocError>
    ensures { Tries R.stream (refuse_turn text.now) context.old result context.new }
{
    let text = String::from_str(context.alloc, text)?;
    context.report(ErrorKind::ParseFailed, text)?;
    Ok(())
}

// The cause Stale Cookie. It doesn't say for how long the cookie has been stale.
fn stale_cookie() -> ErrorCause<'static>
    ensures { cause_content result ≡ stale_cookie }
{
    ErrorCause::Unknown {
        code: STALE_COOKIE,
        value: &[0, 0, 0, 0],
    }
}

// Sends an ERROR with the cause Stale Cookie under this tag, if it fits `mtu`.
//
// `Err`: an allocation failed, and nothing has changed.
fn send_stale_cookie<R: Rng>(context: &mut Context<R>, tag: u32) -> Result<(), AllocError>
    ensures { Tries R.stream (stale_sent_turn tag) context.old result context.new }
{
    let mut error_causes = Vec::with_capacity(context.alloc, 1)?;
    error_causes.push(stale_cookie())?;
    context.emit(tag, true, &Chunk::Error(ErrorChunk { error_causes }))?;
    Ok(())
}

// Refuses a stale cookie of a peer with this tag: that is reported, and with `Options::follow_rfc` the peer gets an
// ERROR, if it fits `mtu` (RFC 9260, section 5.1.5).
//
// `Err`: an allocation failed; the first of its events may already have been added.
fn refuse_stale<R: Rng>(context: &mut Context<R>, tag: u32) -> Result<Following, AllocError>
    ensures { HandlesTurn R.stream (stale_turn tag) context.old result context.new }
{
    let tells_peer = context.options.follow_rfc;
    refuse(context, STALE)?;
    if tells_peer {
        send_stale_cookie(context, tag)?;
    }
    Ok(Following::DroppedRest)
}
