//! A channel as bytes.

ghost use Rattle.std.specs.Prelude.{◌≡◌, ◌++◌, OnOk};
ghost use Rattle.dcsctp_channel_bytes.specs.Channels.{retransmissions_said, lifetime_said, reliability_by_limits, delivery_bytes, channel_bytes, leading_delivery, leading_counts, leading_channel, FitsDelivery, FitsChannel};
ghost use Rattle.dcsctp_channel_bytes.specs.Gives.{ReadsFront};

use crate::reader::{ReadError, Reader};
use crate::writer::{write_flag, write_optional_u32, write_u16, write_u64};
use dcsctp_channel_calls::HandoverChannel;
use dcsctp_channel_calls::channel_messages::channel_spec::{Delivery, Reliability};
use std::alloc::AllocError;

// What was counted of a channel.
#[derive(Clone, Copy)]
struct ChannelCounts {
    messages_sent: u64,
    bytes_sent: u64,
    messages_received: u64,
    bytes_received: u64,
}

// ---- how messages are sent

fn retransmissions_said(reliability: Reliability) -> Option<u32>
    ensures { result ≡ retransmissions_said reliability }
{
    match reliability {
        Reliability::Reliable => None,
        Reliability::Retransmissions(limit) => Some(limit),
        Reliability::Lifetime(_) => None,
    }
}

fn lifetime_said(reliability: Reliability) -> Option<u32>
    ensures { result ≡ lifetime_said reliability }
{
    match reliability {
        Reliability::Reliable => None,
        Reliability::Retransmissions(_) => None,
        Reliability::Lifetime(millis) => Some(millis),
    }
}

fn reliability_by_limits(retransmissions: Option<u32>, lifetime: Option<u32>) -> Option<Reliability>
    ensures { result ≡ reliability_by_limits retransmissions lifetime }
{
    match (retransmissions, lifetime) {
        (None, None) => Some(Reliability::Reliable),
        (Some(limit), None) => Some(Reliability::Retransmissions(limit)),
        (None, Some(millis)) => Some(Reliability::Lifetime(millis)),
        (Some(_), Some(_)) => None,
    }
}

#[tactic(auto, unfolding(crate::specs::Channels::delivery_bytes))]
fn write_delivery(out: &mut Vec<u8>, delivery: &Delivery) -> Result<(), AllocError>
    ensures bytes { OnOk result (out.new.items ≡ out.old.items ++ delivery_bytes delivery.now) }
    ensures fits { OnOk result (FitsDelivery delivery.now) }
{
    write_flag(out, delivery.ordered)?;
    write_optional_u32(out, retransmissions_said(delivery.reliability))?;
    write_optional_u32(out, lifetime_said(delivery.reliability))?;
    write_u16(out, delivery.priority)
}

#[tactic(auto, unfolding(crate::specs::Channels::leading_delivery))]
fn read_delivery(reader: &mut Reader) -> Result<Delivery, ReadError>
    ensures { ReadsFront (λ delivery. delivery) leading_delivery reader.old.rest.now result
        reader.new.rest.now }
{
    let ordered = reader.flag()?;
    let retransmissions = reader.optional_u32()?;
    let lifetime = reader.optional_u32()?;
    let priority = reader.u16()?;
    match reliability_by_limits(retransmissions, lifetime) {
        Some(reliability) => Ok(Delivery {
            ordered,
            reliability,
            priority,
        }),
        None => Err(ReadError::Malformed),
    }
}

// ---- a channel

#[tactic(auto, unfolding(crate::specs::Channels::leading_counts))]
fn read_counts(reader: &mut Reader) -> Result<ChannelCounts, ReadError>
    ensures { ReadsFront (λ counts. counts) leading_counts reader.old.rest.now result
        reader.new.rest.now }
{
    Ok(ChannelCounts {
        messages_sent: reader.u64()?,
        bytes_sent: reader.u64()?,
        messages_received: reader.u64()?,
        bytes_received: reader.u64()?,
    })
}

/// Writes a channel at the end of bytes.
#[tactic(auto, unfolding(crate::specs::Channels::channel_bytes))]
pub(crate) fn write_channel(out: &mut Vec<u8>, channel: &HandoverChannel) -> Result<(), AllocError>
    ensures bytes { OnOk result (out.new.items ≡ out.old.items ++ channel_bytes channel.now) }
    ensures fits { OnOk result (FitsChannel channel.now) }
{
    write_u16(out, channel.stream)?;
    write_u64(out, channel.name)?;
    write_flag(out, channel.heard)?;
    write_delivery(out, &channel.delivery)?;
    write_u64(out, channel.messages_sent)?;
    write_u64(out, channel.bytes_sent)?;
    write_u64(out, channel.messages_received)?;
    write_u64(out, channel.bytes_received)
}

/// Reads a channel from the front of bytes.
#[tactic(auto, unfolding(crate::specs::Channels::leading_channel))]
pub(crate) fn read_channel(reader: &mut Reader) -> Result<HandoverChannel, ReadError>
    ensures { ReadsFront (λ channel. channel) leading_channel reader.old.rest.now result
        reader.new.rest.now }
{
    let stream = reader.u16()?;
    let name = reader.u64()?;
    let heard = reader.flag()?;
    let delivery = read_delivery(reader)?;
    let counts = read_counts(reader)?;
    Ok(HandoverChannel {
        stream,
        name,
        heard,
        delivery,
        messages_sent: counts.messages_sent,
        bytes_sent: counts.bytes_sent,
        messages_received: counts.messages_received,
        bytes_received: counts.bytes_received,
    })
}
