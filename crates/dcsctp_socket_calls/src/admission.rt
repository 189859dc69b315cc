//! Which packets are handled, by their verification tag (RFC 9260, sections 8.4 and 8.5).

ghost use Rattle.std.specs.Prelude.{◌≡◌, ◌==◌, false, None, map, string_bytes, IfOk};
ghost use Rattle.dcsctp_core.specs.wire.Content.{chunk_content, packet_content};
ghost use Rattle.dcsctp_core.specs.spec.Admission.{first_abort, first_shutdown_complete, has_shutdown_ack, is_echo_in_front, is_single_init, bears_tag, all_chunks_or_none, admits_shutdown_ack, admits, eight_hex_digits, wrong_tag_text};
ghost use Rattle.dcsctp_core.specs.spec.Packet.{content_of_chunk, packet_of_content};
ghost use Rattle.dcsctp_core.specs.View.{core_of};
ghost use Rattle.dcsctp_socket_calls.specs.Admission.{admission_of, admission_refusal_text};

use crate::admission_texts::{
    EXPECTED, NOT_A_SINGLE_INIT, WRONG_ABORT_TAG, WRONG_SHUTDOWN_ACK_TAG,
    WRONG_SHUTDOWN_COMPLETE_TAG, WRONG_TAG,
};
use dcsctp_core::State;
use dcsctp_core::wire::{Chunk, SctpPacket};
use std::alloc::{AllocError, Global};

/// What is done with a packet.
#[derive(Clone, Copy, Debug)]
pub enum Admission {
    /// All chunks are handled.
    AllChunks,

    /// Its SHUTDOWN ACK chunks are, and nothing else of it.
    ShutdownAcksAlone,

    /// None is.
    Refused(Refusal),
}

/// Why a packet isn't handled.
#[derive(Clone, Copy, Debug)]
pub enum Refusal {
    /// It has an ABORT, and another tag than the ABORT's T bit asks for.
    WrongAbortTag,

    /// It has a SHUTDOWN COMPLETE, and another tag than the T bit of that asks for.
    WrongShutdownCompleteTag,

    /// It has a SHUTDOWN ACK, an association is open, and its tag isn't our own.
    WrongShutdownAckTag,

    /// Its tag is 0, and it isn't one INIT.
    NotASingleInit,

    /// Its tag isn't our own.
    WrongTag { header: u32, expected: u32 },
}

// The chunks of a packet that end an association: they decide about its tag.
#[derive(Clone, Copy)]
struct EndingChunks {
    // The T bit of the first ABORT, if there is one.
    abort: Option<bool>,

    // The T bit of the first SHUTDOWN COMPLETE, if there is one.
    shutdown_complete: Option<bool>,

    // Is there a SHUTDOWN ACK?
    shutdown_ack: bool,
}

// The chunks among these that end an association.
fn ending_chunks(chunks: &[Chunk<'_>]) -> EndingChunks
    ensures abort { result.abort
        ≡ first_abort (map content_of_chunk (map chunk_content chunks.now)) }
    ensures shutdown_complete { result.shutdown_complete
        ≡ first_shutdown_complete (map content_of_chunk (map chunk_content chunks.now)) }
    ensures shutdown_ack { result.shutdown_ack
        ≡ has_shutdown_ack (map content_of_chunk (map chunk_content chunks.now)) }
{
    let mut abort = None;
    let mut shutdown_complete = None;
    let mut shutdown_ack = false;
    for chunk in chunks {
        match chunk {
            Chunk::Abort(first) => abort = abort.or(Some(first.tag_reflected)),
            Chunk::ShutdownComplete(first) => {
                shutdown_complete = shutdown_complete.or(Some(first.tag_reflected));
            }
            Chunk::ShutdownAck => shutdown_ack = true,
            _ => {}
        }
    }
    EndingChunks {
        abort,
        shutdown_complete,
        shutdown_ack,
    }
}

// Is the first chunk a COOKIE ECHO?
fn is_echo_in_front(chunks: &[Chunk<'_>]) -> bool
    ensures { result ≡ is_echo_in_front (map content_of_chunk (map chunk_content chunks.now)) }
{
    match chunks {
        [Chunk::CookieEcho(_), ..] => true,
        _ => false,
    }
}

// Is it one chunk, an INIT?
fn is_single_init(chunks: &[Chunk<'_>]) -> bool
    ensures { result ≡ is_single_init (map content_of_chunk (map chunk_content chunks.now)) }
{
    match chunks {
        [Chunk::Init(_)] => true,
        _ => false,
    }
}

// Does the packet carry the tag that the T bit asks for (RFC 9260, section 8.5.1, B)? With the bit that is
// the peer's, if the peer is known, else our own.
fn bears_tag(state: &State, header: u32, tag_reflected: bool) -> bool
    ensures { result ≡ bears_tag (core_of state.now) header tag_reflected }
{
    if !tag_reflected {
        return header == state.verification_tag();
    }
    match state.tcb() {
        None => false,
        Some(tcb) => header == tcb.peer.tag,
    }
}

// All chunks if this holds, else none, for this reason.
fn admit_where(admitted: bool, refusal: Refusal) -> Admission
    ensures { admission_of result ≡ all_chunks_or_none admitted (admission_refusal_text refusal) }
{
    if admitted {
        return Admission::AllChunks;
    }
    Admission::Refused(refusal)
}

// Decides for a packet with a SHUTDOWN ACK. Before an association is open, that may belong to an earlier one.
// So it is handled under any tag, and the rest of its packet only under our own.
fn admit_shutdown_ack(state: &State, header: u32) -> Admission
    ensures { admission_of result ≡ admits_shutdown_ack (core_of state.now) header }
{
    let is_own = header == state.verification_tag();
    match state {
        State::Open(_) => return admit_where(is_own, Refusal::WrongShutdownAckTag),
        State::Closed => {}
        State::CookieWait(_) => {}
        State::CookieEchoed(_) => {}
    }
    if is_own && header != 0 {
        return Admission::AllChunks;
    }
    Admission::ShutdownAcksAlone
}

/// Decides by the header tag (RFC 9260, section 8.5.1). A packet with an ABORT or a SHUTDOWN COMPLETE is
/// judged by that chunk's T bit, one with a SHUTDOWN ACK by the state. A COOKIE ECHO in front is let in. Tag
/// 0 is for an INIT alone, and any other packet carries our own tag.
pub fn admit(state: &State, packet: &SctpPacket<'_>) -> Admission
    ensures { admission_of result ≡ admits (core_of state.now) (packet_of_content
        (packet_content packet.now)) }
{
    let header = packet.common_header.verification_tag;
    let ending = ending_chunks(&packet.chunks);
    if let Some(tag_reflected) = ending.abort {
        let admitted = bears_tag(state, header, tag_reflected);
        return admit_where(admitted, Refusal::WrongAbortTag);
    }
    if let Some(tag_reflected) = ending.shutdown_complete {
        let admitted = bears_tag(state, header, tag_reflected);
        return admit_where(admitted, Refusal::WrongShutdownCompleteTag);
    }
    if ending.shutdown_ack {
        return admit_shutdown_ack(state, header);
    }
    if is_echo_in_front(&packet.chunks) {
        return Admission::AllChunks;
    }
    if header == 0 {
        return admit_where(is_single_init(&packet.chunks), Refusal::NotASingleInit);
    }
    let expected = state.verification_tag();
    admit_where(header == expected, Refusal::WrongTag { header, expected })
}

impl Refusal {
    /// The text of the error.
    pub fn text(&self, alloc: Global) -> Result<String, AllocError>
        ensures { IfOk result (λ text. string_bytes text ≡ admission_refusal_text self.now) }
    {
        match self {
            Refusal::WrongAbortTag => String::from_str(alloc, WRONG_ABORT_TAG),
            Refusal::WrongShutdownCompleteTag => {
                String::from_str(alloc, WRONG_SHUTDOWN_COMPLETE_TAG)
            }
            Refusal::WrongShutdownAckTag => String::from_str(alloc, WRONG_SHUTDOWN_ACK_TAG),
            Refusal::NotASingleInit => String::from_str(alloc, NOT_A_SINGLE_INIT),
            Refusal::WrongTag { header, expected } => wrong_tag(alloc, *header, *expected),
        }
    }
}

// The text for a tag that isn't our own.
fn wrong_tag(alloc: Global, header: u32, expected: u32) -> Result<String, AllocError>
    ensures { IfOk result (λ text. string_bytes text ≡ wrong_tag_text header expected) }
{
    let header = hexadecimal(alloc, header)?;
    let expected = hexadecimal(alloc, expected)?;
    let mut text = String::from_str(alloc, WRONG_TAG)?;
    text.push_str(&header)?;
    text.push_str(EXPECTED)?;
    text.push_str(&expected)?;
    Ok(text)
}

// A tag in eight hexadecimal digits, lower case.
fn hexadecimal(alloc: Global, tag: u32) -> Result<String, AllocError>
    ensures { IfOk result (λ text. string_bytes text ≡ eight_hex_digits tag) }
{
    format!(in alloc; "{tag:08x}")
}
