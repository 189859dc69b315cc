//! Reads and writes the two control messages (RFC 8832, section 5).

ghost use Rattle.std.specs.Prelude.{◌≡◌, ◌<◌, ◌≤◌, ◌^◌, length, IfOk, MatchResult, Ok, Err};
ghost use Rattle.dcsctp_channel_messages.specs.Contents.{control_content, opening_of_message};
ghost use Rattle.dcsctp_channel_messages.specs.Format.{control_of_bytes, open_of_bytes, open_bytes, ack_bytes};

use crate::delivery::{channel_type, delivery_at, reliability_parameter};
use dcsctp_channel_spec::Delivery;
use dcsctp_wire::u16_at;
use std::alloc::{AllocError, Global};

// Message types.
const ACK: u8 = 0x02;

const OPEN: u8 = 0x03;

// The fields of an OPEN before its label.
const FIXED_LEN: usize = 12;

/// What a DATA_CHANNEL_OPEN says. Label and protocol are borrowed, and should be UTF-8; this is the caller's to
/// test.
///
/// | Size | Field |
/// |---|---|
/// | 1 | 3 |
/// | 1 | channel type: 0 reliable, 1 so many retransmissions, 2 so many milliseconds; 0x80 more if unordered |
/// | 2 | priority |
/// | 4 | reliability parameter: the limit of the channel type, 0 if reliable |
/// | 2 | length of the label in bytes |
/// | 2 | length of the protocol in bytes |
/// | | label, protocol |
#[derive(Clone, Copy, Debug)]
pub struct OpenMessage<'a> {
    /// What the channel is called; may be empty.
    pub label: &'a [u8],

    /// A subprotocol by its registered name; may be empty.
    pub protocol: &'a [u8],

    /// How messages are sent, in both directions.
    pub delivery: Delivery,
}

/// A control message.
#[derive(Clone, Copy, Debug)]
pub enum Control<'a> {
    /// DATA_CHANNEL_OPEN (RFC 8832, section 5.1).
    Open(OpenMessage<'a>),

    /// DATA_CHANNEL_ACK (RFC 8832, section 5.2).
    Ack(),
}

/// Why bytes are no control message. The first that holds is given, in this order.
#[derive(Clone, Copy, Debug, PartialEq, Eq)]
pub enum ControlError {
    /// There are no bytes.
    Empty,

    /// The message type isn't 2 or 3.
    UnknownMessageType(u8),

    /// An OPEN has fewer bytes than its fixed fields, or than its lengths say.
    CutOff,

    /// The channel type of an OPEN is none of the six.
    UnknownChannelType(u8),
}

/// Reads a control message. Bytes after the protocol of an OPEN, and after the type of an ACK, are ignored: some
/// peers send ACKs of four bytes. So is the reliability parameter of a reliable channel. Allocates nothing.
#[tactic(auto, unfolding(crate::specs::Format::control_of_bytes))]
pub fn read_control(bytes: &[u8]) -> Result<Control<'_>, ControlError>
    ensures { MatchResult result (λ control. control_of_bytes bytes.now ≡ Ok
        (control_content control)) (λ error. control_of_bytes bytes.now ≡ Err error) }
{
    if bytes.is_empty() {
        return Err(ControlError::Empty);
    }
    if bytes[0] == ACK {
        return Ok(Control::Ack());
    }
    if bytes[0] != OPEN {
        return Err(ControlError::UnknownMessageType(bytes[0]));
    }
    if bytes.len() < FIXED_LEN {
        return Err(ControlError::CutOff);
    }
    read_open(bytes)
}

// Reads an OPEN with all its fixed fields.
#[tactic(auto, unfolding(crate::specs::Format::open_of_bytes))]
fn read_open(bytes: &[u8]) -> Result<Control<'_>, ControlError>
    requires { 12 ≤ length bytes.now }
    ensures { MatchResult result (λ control. open_of_bytes bytes.now ≡ Ok (control_content control))
        (λ error. open_of_bytes bytes.now ≡ Err error) }
{
    let Some(delivery) = delivery_at(bytes) else {
        return Err(ControlError::UnknownChannelType(bytes[1]));
    };
    let label_len = u16_at(bytes, 8) as usize;
    let protocol_len = u16_at(bytes, 10) as usize;
    if bytes.len() < FIXED_LEN + label_len + protocol_len {
        return Err(ControlError::CutOff);
    }
    Ok(Control::Open(OpenMessage {
        label: &bytes[FIXED_LEN..FIXED_LEN + label_len],
        protocol: &bytes[FIXED_LEN + label_len..FIXED_LEN + label_len + protocol_len],
        delivery,
    }))
}

/// Writes an OPEN, whose label and protocol have at most 65,535 bytes each.
///
/// `Err`: an allocation failed.
#[tactic(auto, unfolding(crate::specs::Format::open_bytes))]
pub fn write_open(alloc: Global, message: &OpenMessage<'_>) -> Result<Vec<u8>, AllocError>
    requires label { length message.now.label.now < 2 ^ 16 }
    requires protocol { length message.now.protocol.now < 2 ^ 16 }
    ensures { IfOk result (λ bytes. bytes.items ≡ open_bytes (opening_of_message message.now)) }
{
    let len = FIXED_LEN + message.label.len() + message.protocol.len();
    let mut bytes = Vec::with_capacity(alloc, len)?;
    bytes.extend_from_slice(&[OPEN, channel_type(message.delivery)])?;
    bytes.extend_from_slice(&message.delivery.priority.to_be_bytes())?;
    bytes.extend_from_slice(&reliability_parameter(message.delivery.reliability).to_be_bytes())?;
    bytes.extend_from_slice(&(message.label.len() as u16).to_be_bytes())?;
    bytes.extend_from_slice(&(message.protocol.len() as u16).to_be_bytes())?;
    bytes.extend_from_slice(message.label)?;
    bytes.extend_from_slice(message.protocol)?;
    Ok(bytes)
}

/// Writes an ACK.
///
/// `Err`: an allocation failed.
pub fn write_ack(alloc: Global) -> Result<Vec<u8>, AllocError>
    ensures { IfOk result (λ bytes. bytes.items ≡ ack_bytes) }
{
    Vec::from_slice(alloc, &[ACK])
}
