//! INIT and INIT ACK (RFC 9260, sections 3.3.2 and 3.3.3), which have the same fields.

ghost use Rattle.std.specs.Prelude.{◌≡◌, IfOk, IsErrOf};
ghost use Rattle.dcsctp_wire.specs.Content.{InitContent, init_content};
ghost use Rattle.dcsctp_wire.specs.Format.{IsInitValue};

use crate::bytes::{u16_at, u32_at};
use crate::packet::PacketError;
use crate::parameter::{Parameter, read_parameters};
use std::alloc::Global;

/// The smallest receive window that is accepted, in bytes (RFC 9260, section 3.3.2).
const MIN_A_RWND: u32 = 1500;

/// What an INIT or INIT ACK says.
///
/// | Offset in the value | Size | Field |
/// |---|---|---|
/// | 0 | 4 | Initiate Tag, not 0 |
/// | 4 | 4 | Advertised Receiver Window Credit in bytes, at least 1,500 |
/// | 8 | 2 | Number of Outbound Streams, not 0 |
/// | 10 | 2 | Number of Inbound Streams, not 0 |
/// | 12 | 4 | Initial TSN |
/// | 16 | | parameters |
#[derive(Debug, Drop)]
pub struct InitChunk<'a> {
    /// The verification tag that packets to the sender of this chunk carry.
    pub initiate_tag: u32,

    /// The sender's receive window in bytes.
    pub a_rwnd: u32,

    /// How many streams the sender wants to send on.
    pub nbr_outbound_streams: u16,

    /// How many streams the sender can receive on.
    pub nbr_inbound_streams: u16,

    /// The first TSN that the sender will use.
    pub initial_tsn: u32,

    /// The parameters, in their order.
    pub parameters: Vec<Parameter<'a>>,
}

/// The INIT or INIT ACK whose value this is (RFC 9260, section 3.3.2).
///
/// # Errors
///
/// `Malformed` if the value is cut off, if the tag or a number of streams is 0, or if the window is below
/// 1,500 bytes. So it is if the bytes after the fields aren't parameters. `OutOfMemory` if the list of
/// parameters can't grow.
pub(super) fn read_init(alloc: Global, value: &[u8]) -> Result<InitChunk<'_>, PacketError>
    ensures found { IfOk result (λ chunk. IsInitValue (init_content chunk) value.now) }
    ensures malformed { IsErrOf result PacketError.Malformed
        → (init : InitContent) → IsInitValue init value.now → ⊥ }
{
    if value.len() < 16 {
        return Err(PacketError::Malformed);
    }
    let initiate_tag = u32_at(value, 0);
    let a_rwnd = u32_at(value, 4);
    let nbr_outbound_streams = u16_at(value, 8);
    let nbr_inbound_streams = u16_at(value, 10);
    let initial_tsn = u32_at(value, 12);
    if initiate_tag == 0 || a_rwnd < MIN_A_RWND {
        return Err(PacketError::Malformed);
    }
    if nbr_outbound_streams == 0 || nbr_inbound_streams == 0 {
        return Err(PacketError::Malformed);
    }
    let parameters = read_parameters(alloc, &value[16..])?;
    Ok(InitChunk {
        initiate_tag,
        a_rwnd,
        nbr_outbound_streams,
        nbr_inbound_streams,
        initial_tsn,
        parameters,
    })
}
