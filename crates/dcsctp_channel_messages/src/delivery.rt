//! How a channel's messages are sent, as an OPEN says it (RFC 8832, section 5.1).

ghost use Rattle.std.specs.Prelude.{◌≡◌, ◌≤◌, length};
ghost use Rattle.dcsctp_channel_messages.specs.Format.{channel_type, reliability_parameter, reliability_of, delivery_of_bytes};

use dcsctp_channel_spec::{Delivery, Reliability};
use dcsctp_wire::{u16_at, u32_at};

// The channel type of an unordered channel is that of the ordered one, and this.
const UNORDERED: u8 = 0x80;

/// The channel type.
pub(crate) fn channel_type(delivery: Delivery) -> u8
    ensures { result ≡ channel_type delivery.ordered delivery.reliability }
{
    let ordered = match delivery.reliability {
        Reliability::Reliable => 0x00,
        Reliability::Retransmissions(_) => 0x01,
        Reliability::Lifetime(_) => 0x02,
    };
    if delivery.ordered {
        ordered
    } else {
        UNORDERED + ordered
    }
}

/// The reliability parameter: 0 for a reliable channel.
pub(crate) fn reliability_parameter(reliability: Reliability) -> u32
    ensures { result ≡ reliability_parameter reliability }
{
    match reliability {
        Reliability::Reliable => 0,
        Reliability::Retransmissions(limit) => limit,
        Reliability::Lifetime(limit) => limit,
    }
}

// The reliability by the channel type of the ordered channel. There is none for other types.
fn reliability_of(kind: u8, parameter: u32) -> Option<Reliability>
    ensures { result ≡ reliability_of kind parameter }
{
    match kind {
        0x00 => Some(Reliability::Reliable),
        0x01 => Some(Reliability::Retransmissions(parameter)),
        0x02 => Some(Reliability::Lifetime(parameter)),
        _ => None,
    }
}

/// How an OPEN with all its fixed fields says that messages are sent. There is none if its channel type is
/// unknown.
pub(crate) fn delivery_at(bytes: &[u8]) -> Option<Delivery>
    requires { 12 ≤ length bytes.now }
    ensures { result ≡ delivery_of_bytes bytes.now }
{
    let reliability = reliability_of(bytes[1] % UNORDERED, u32_at(bytes, 4))?;
    Some(Delivery {
        ordered: bytes[1] < UNORDERED,
        reliability,
        priority: u16_at(bytes, 2),
    })
}
