//! The handshake of the side that connects: connect, INIT ACK and COOKIE ACK (RFC 9260, section 5.1).

ghost use Rattle.std.specs.Prelude.{◌≡◌, false, None, IsOk};
ghost use Rattle.std.specs.Duration.{as_nanos};
ghost use Rattle.dcsctp_core.specs.wire.Content.{init_content};
ghost use Rattle.dcsctp_core.specs.spec.endpoint.Endpoint.{t1_settings};
ghost use Rattle.dcsctp_core.specs.spec.endpoint.Timers.{started_timer};
ghost use Rattle.dcsctp_core.specs.spec.Packet.{introduction_of_init, first_cookie};
ghost use Rattle.dcsctp_core.specs.spec.endpoint.HandshakeOutcomes.{implementation_of};
ghost use Rattle.dcsctp_core.specs.api.Calls.{is_closed};
ghost use Rattle.dcsctp_core.specs.View.{t2_of, core_of, view_of, endpoint_of};
ghost use Rattle.dcsctp_core.specs.Handling.{Tries, TriesDrawing, TakesTurn, TakesOne, HandlesPossibleTurn};
ghost use Rattle.dcsctp_core_handshake.specs.Handshake.{send_init_turn, awaiting, connect_turn, missing_cookie_turn, init_ack_refusal_turn, EchoesCookie, AcceptsInitAck, ReceivesInitAck, ReceivesCookieAck, peer_by_init_ack};

use crate::init::draw_pair;
use crate::parameters::{introduction, state_cookie};
use crate::texts::NO_COOKIE;
use dcsctp_core::api::{
    Capabilities, ErrorKind, Options, Pair, SctpImplementation, SocketEvent, SocketTime,
};
use dcsctp_core::send_timer::{BackoffAlgorithm, Timer, longest_wait};
use dcsctp_core::wire::{
    AbortChunk, Chunk, CookieEchoChunk, ErrorCause, InitChunk, parameter_type,
};
use dcsctp_core::{
    Context, CookieEchoState, CookieWaitState, Following, Peer, State, TransmissionControlBlock,
};
use rand_core::Rng;
use std::alloc::AllocError;
use std::collections::VecDeque;
use std::time::Duration;

/// T1-init or T1-cookie, started now.
fn started_t1(options: &Options, now: SocketTime, duration: Duration) -> Timer
    ensures { result ≡ record {
      running = started_timer now (t1_settings options.now (as_nanos duration));
      settings = t1_settings options.now (as_nanos duration);
    } }
{
    let mut timer = Timer::new(
        duration,
        BackoffAlgorithm::Exponential,
        options.max_init_retransmits,
        longest_wait(options),
    );
    timer.start(now);
    timer
}

/// Sends an INIT with this pair, under tag 0, if it fits `mtu`.
///
/// `Err`: an allocation failed, and nothing has changed.
pub(crate) fn send_init<R: Rng>(context: &mut Context<R>, my: Pair) -> Result<(), AllocError>
    ensures { Tries R.stream (send_init_turn my) context.old result context.new }
{
    let options = &context.options;
    let method = options.zero_checksum_alternate_error_detection_method.0;
    let init = introduction(context.alloc, options, my, method, None)?;
    context.emit(0, true, &Chunk::Init(init))?;
    Ok(())
}

/// Awaits the INIT ACK to an INIT with this pair, with T1-init from now on. Nothing is known of a peer then.
fn await_init_ack<R: Rng>(context: &mut Context<R>, my: Pair)
    ensures { view_of context.new ≡ record (view_of context.old) {
      endpoint = awaiting
          (endpoint_of context.old)
          my;
    } }
{
    let duration = context.options.t1_init_timeout;
    let t1_init = started_t1(&context.options, context.moment, duration);
    context.keep_secret(context.secret_with(my));
    context.state = State::CookieWait(CookieWaitState { t1_init, my });
}

/// Begins an association if there is none: draws a pair, sends an INIT and starts T1-init. A socket that
/// isn't closed is unchanged, and no allocation can fail.
///
/// `Err`: an allocation failed, and nothing has changed but the random words that were drawn.
pub fn do_connect<R: Rng>(context: &mut Context<R>) -> Result<(), AllocError>
    ensures turn { TriesDrawing R.stream (connect_turn R.stream) context.old result context.new }
    ensures open { is_closed (core_of context.old.state) ≡ false → IsOk result }
{
    match context.state {
        State::Closed => {
            let my = draw_pair(context)?;
            send_init(context, my)?;
            await_init_ack(context, my);
        }
        State::CookieWait(_) => {}
        State::CookieEchoed(_) => {}
        State::Open(_) => {}
    }
    Ok(())
}

/// Sends an ABORT under this tag, since the INIT ACK under it has no cookie.
///
/// `Err`: an allocation failed, and nothing has changed.
fn send_missing_cookie<R: Rng>(context: &mut Context<R>, tag: u32) -> Result<(), AllocError>
    ensures { Tries R.stream (missing_cookie_turn tag) context.old result context.new }
{
    let types = parameter_type::STATE_COOKIE.to_be_bytes();
    let mut error_causes = Vec::with_capacity(context.alloc, 1)?;
    error_causes.push(ErrorCause::MissingMandatoryParameter { types: &types })?;
    let abort = AbortChunk {
        tag_reflected: false,
        error_causes,
    };
    context.emit(tag, true, &Chunk::Abort(abort))?;
    Ok(())
}

/// Ends the association, since an INIT ACK of this tag has no cookie. An ABORT is sent under that tag.
///
/// `Err`: an allocation failed; the first of its events may already have been added.
fn refuse_init_ack<R: Rng>(context: &mut Context<R>, tag: u32) -> Result<(), AllocError>
    requires { is_closed (core_of context.old.state) ≡ false }
    ensures { TakesTurn R.stream (init_ack_refusal_turn tag) context.old result context.new }
{
    let message = String::from_str(context.alloc, NO_COOKIE)?;
    send_missing_cookie(context, tag)?;
    context.internal_close(ErrorKind::ProtocolViolation, message)?;
    Ok(())
}

/// The implementation that makes cookies like this one.
fn implementation_of(cookie: &[u8]) -> SctpImplementation
    ensures { result ≡ implementation_of cookie.now }
{
    if cookie.len() <= 8 {
        SctpImplementation::Unknown
    } else if cookie.starts_with(b"dcSCTP00") {
        SctpImplementation::DcsctpCc
    } else if cookie.starts_with(b"dcSCTPr0") {
        SctpImplementation::DcsctpRs
    } else if cookie.starts_with(b"KAME-BSD") {
        SctpImplementation::UsrSctp
    } else {
        SctpImplementation::Unknown
    }
}

/// Sends the COOKIE ECHO, if it fits `mtu`, at the front of a flush. In another state nothing is sent.
///
/// `Err`: an allocation failed; the first of its events may already have been added.
pub(crate) fn send_cookie_echo<R: Rng>(context: &mut Context<R>) -> Result<(), AllocError>
    ensures { TakesOne R.stream EchoesCookie context.old result context.new }
{
    let State::CookieEchoed(echoed) = &context.state else {
        return Ok(());
    };
    let packet = echoed.tcb.new_packet(context.alloc, &context.options)?;
    let mut packet = packet.write_checksum(true);
    let cookie = &echoed.cookie;
    let chunk = Chunk::CookieEcho(CookieEchoChunk { cookie });
    if packet.bytes_remaining() < chunk.serialized_size() {
        return Ok(());
    }
    packet.add(&chunk);
    drop(chunk);
    context.send_buffered_packets_with(packet)?;
    Ok(())
}

/// The peer that an INIT ACK shows.
fn peer_by_init_ack(options: &Options, init_ack: &InitChunk<'_>) -> Peer
    ensures { result ≡ peer_by_init_ack options.now (introduction_of_init
        (init_content init_ack.now)) }
{
    let offered = Capabilities::from_parameters(
        init_ack.nbr_outbound_streams,
        init_ack.nbr_inbound_streams,
        &init_ack.parameters,
    );
    Peer {
        pair: Pair {
            tag: init_ack.initiate_tag,
            first_tsn: init_ack.initial_tsn,
        },
        a_rwnd: init_ack.a_rwnd,
        capabilities: offered.negotiate(options),
    }
}

/// Makes the association that an INIT ACK with this cookie shows, and echoes the cookie.
///
/// `Err`: an allocation failed; the first of its events may already have been added.
fn echo_cookie<R: Rng>(
    context: &mut Context<R>,
    my: Pair,
    init_ack: &InitChunk<'_>,
    cookie: &[u8],
) -> Result<(), AllocError>
    requires { t2_of context.old.state ≡ None }
    ensures { TakesOne R.stream (AcceptsInitAck R.stream my (introduction_of_init
        (init_content init_ack.now)) cookie.now) context.old result context.new }
{
    let peer = peer_by_init_ack(&context.options, init_ack);
    let mut echoed = Vec::with_capacity(context.alloc, cookie.len())?;
    echoed.extend_from_slice(cookie)?;
    let tie_tag = context.draw_u64()?;
    context.peer_implementation = implementation_of(cookie);
    let interleaving = peer.capabilities.message_interleaving;
    context.send_queue.reset();
    context
        .send_queue
        .enable_message_interleaving(interleaving, peer.a_rwnd);
    let duration = context.options.t1_cookie_timeout;
    context.state = State::CookieEchoed(CookieEchoState {
        t1_cookie: started_t1(&context.options, context.moment, duration),
        cookie: echoed,
        tcb: TransmissionControlBlock::new(context.alloc, &context.options, my, &peer, tie_tag),
    });
    context.left = VecDeque::new(context.alloc);
    context
        .tx_error_counter
        .begin_association(context.options.follow_rfc);
    send_cookie_echo(context)?;
    Ok(())
}

/// Handles an INIT ACK, which counts only in CookieWait (RFC 9260, section 5.2.3). One without a cookie ends
/// the association, and the rest of its packet is dropped. One with a cookie makes the peer known, and the
/// cookie is echoed.
///
/// `Err`: an allocation failed; the first of its events may already have been added.
pub fn handle_init_ack<R: Rng>(
    context: &mut Context<R>,
    init_ack: &InitChunk<'_>,
) -> Result<Following, AllocError>
    ensures { HandlesPossibleTurn R.stream (ReceivesInitAck
        (introduction_of_init (init_content init_ack.now)) (first_cookie
        (init_content init_ack.now).parameters)) context.old result context.new }
{
    let my = match &context.state {
        State::CookieWait(wait) => wait.my,
        State::Closed | State::CookieEchoed(_) | State::Open(_) => {
            return Ok(Following::NextChunk);
        }
    };
    match state_cookie(&init_ack.parameters) {
        None => {
            refuse_init_ack(context, init_ack.initiate_tag)?;
            Ok(Following::DroppedRest)
        }
        Some(cookie) => {
            echo_cookie(context, my, init_ack, cookie)?;
            Ok(Following::NextChunk)
        }
    }
}

/// Handles a COOKIE ACK, which counts only in CookieEchoed (RFC 9260, section 5.2.5): the association is
/// established, and a flush follows.
///
/// `Err`: an allocation failed; the first of its events may already have been added.
pub fn handle_cookie_ack<R: Rng>(context: &mut Context<R>) -> Result<(), AllocError>
    ensures { TakesOne R.stream ReceivesCookieAck context.old result context.new }
{
    match context.state {
        State::CookieEchoed(_) => {
            context.events.add(SocketEvent::OnConnected())?;
            context.state.establish();
            context.start_heartbeat_interval();
            context.send_buffered_packets()?;
        }
        State::Closed => {}
        State::CookieWait(_) => {}
        State::Open(_) => {}
    }
    Ok(())
}
