//! What breaks the negotiated protocol (RFC 8260, section 2.2.1; RFC 3758, section 3.3.1).

ghost use Rattle.std.specs.Prelude.{◌≡◌};
ghost use Rattle.dcsctp_core.specs.wire.Content.{chunk_content};
ghost use Rattle.dcsctp_core.specs.spec.Packet.{content_of_chunk};
ghost use Rattle.dcsctp_core.specs.spec.endpoint.PlainOutcomes.{data_violation, i_data_violation, forward_tsn_violation, i_forward_tsn_violation};
ghost use Rattle.dcsctp_core.specs.View.{core_of};
ghost use Rattle.dcsctp_core_ends.specs.Ends.{violation_of_content};

use dcsctp_core::State;
use dcsctp_core::types::{Capabilities, Violation};
use dcsctp_core::wire::Chunk;

// How a DATA breaks it, if it does.
fn data_violation(capabilities: &Capabilities) -> Option<Violation>
    ensures { result ≡ data_violation capabilities.now.message_interleaving }
{
    if capabilities.message_interleaving {
        return Some(Violation::DataWithInterleaving);
    }
    None
}

// How an I-DATA does.
fn i_data_violation(capabilities: &Capabilities) -> Option<Violation>
    ensures { result ≡ i_data_violation capabilities.now.message_interleaving }
{
    if capabilities.message_interleaving {
        return None;
    }
    Some(Violation::InterleavedDataWithout)
}

// How a FORWARD-TSN does.
fn forward_tsn_violation(capabilities: &Capabilities) -> Option<Violation>
    ensures { result ≡ forward_tsn_violation capabilities.now.message_interleaving
        capabilities.now.partial_reliability }
{
    if capabilities.message_interleaving {
        return Some(Violation::DataWithInterleaving);
    }
    if capabilities.partial_reliability {
        return None;
    }
    Some(Violation::ForwardTsnWithout)
}

// How an I-FORWARD-TSN does.
fn i_forward_tsn_violation(capabilities: &Capabilities) -> Option<Violation>
    ensures { result ≡ i_forward_tsn_violation capabilities.now.message_interleaving
        capabilities.now.partial_reliability }
{
    if !capabilities.message_interleaving {
        return Some(Violation::InterleavedDataWithout);
    }
    if capabilities.partial_reliability {
        return None;
    }
    Some(Violation::ForwardTsnWithout)
}

/// How a chunk breaks what was negotiated, if the peer is known. Data, and what skips it, has the form of RFC
/// 8260 if and only if message interleaving is negotiated. Without partial reliability nothing is skipped.
/// Allocates nothing.
pub fn violation_of(state: &State, chunk: &Chunk<'_>) -> Option<Violation>
    ensures { result ≡ violation_of_content (core_of state.now)
        (content_of_chunk (chunk_content chunk.now)) }
{
    let tcb = state.tcb()?;
    match chunk {
        Chunk::Data(_) => data_violation(&tcb.capabilities),
        Chunk::IData(_) => i_data_violation(&tcb.capabilities),
        Chunk::ForwardTsn(_) => forward_tsn_violation(&tcb.capabilities),
        Chunk::IForwardTsn(_) => i_forward_tsn_violation(&tcb.capabilities),
        Chunk::Init(_) => None,
        Chunk::InitAck(_) => None,
        Chunk::Sack(_) => None,
        Chunk::HeartbeatRequest(_) => None,
        Chunk::HeartbeatAck(_) => None,
        Chunk::Abort(_) => None,
        Chunk::Shutdown(_) => None,
        Chunk::ShutdownAck => None,
        Chunk::Error(_) => None,
        Chunk::CookieEcho(_) => None,
        Chunk::CookieAck => None,
        Chunk::ShutdownComplete(_) => None,
        Chunk::ReConfig(_) => None,
        Chunk::Unknown(_) => None,
    }
}
