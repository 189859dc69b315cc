//! The channels of a socket as bytes.

ghost use Rattle.std.specs.Prelude.{◌≡◌, ◌++◌, OnOk, option_map};
ghost use Rattle.std.specs.List.{flat_map, AllByRecursion};
ghost use Rattle.dcsctp_channel_calls.specs.Handover.{channels_part};
ghost use Rattle.dcsctp_snapshot_bytes.specs.Fields.{flag_bytes, optional_bytes, element_list_bytes, leading_elements, leading_list};
ghost use Rattle.dcsctp_snapshot_bytes.specs.Fits.{FitsElements};
ghost use Rattle.dcsctp_channel_bytes.specs.Channels.{channel_bytes, channels_bytes, leading_channel, leading_role, leading_channels, is_client, role_of, FitsChannel, FitsPart};
ghost use Rattle.dcsctp_channel_bytes.specs.Gives.{ReadsFront};

use crate::channel::{read_channel, write_channel};
use crate::reader::{ReadError, Reader};
use crate::writer::{write_flag, write_u64};
use dcsctp_channel_calls::channel_messages::channel_spec::Role;
use dcsctp_channel_calls::{HandoverChannel, HandoverChannels};
use std::alloc::{AllocError, Global};

fn is_client(role: Role) -> bool
    ensures { result ≡ is_client role }
{
    matches!(role, Role::Client)
}

fn role_of(is_client: bool) -> Role
    ensures { result ≡ role_of is_client }
{
    if is_client {
        Role::Client
    } else {
        Role::Server
    }
}

// A role after a flag.
#[tactic(auto, unfolding(dcsctp_snapshot_bytes::specs::Fields::optional_bytes))]
fn write_role(out: &mut Vec<u8>, role: Option<Role>) -> Result<(), AllocError>
    ensures { OnOk result (out.new.items ≡ out.old.items
        ++ optional_bytes flag_bytes (option_map is_client role)) }
{
    write_flag(out, role.is_some())?;
    match role {
        None => Ok(()),
        Some(role) => write_flag(out, is_client(role)),
    }
}

#[tactic(auto, unfolding(crate::specs::Channels::leading_role, dcsctp_snapshot_bytes::specs::Fields::leading_optional))]
fn read_role(reader: &mut Reader) -> Result<Option<Role>, ReadError>
    ensures { ReadsFront (λ role. role) leading_role reader.old.rest.now result
        reader.new.rest.now }
{
    if reader.flag()? {
        Ok(Some(role_of(reader.flag()?)))
    } else {
        Ok(None)
    }
}

// Writes channels one after another.
#[tactic(auto, using(crate::proofs::ChannelLists::channel_written))]
fn write_elements(out: &mut Vec<u8>, channels: &[HandoverChannel]) -> Result<(), AllocError>
    ensures bytes { OnOk result (out.new.items ≡ out.old.items ++ flat_map channel_bytes
        channels.now) }
    ensures fits { OnOk result (AllByRecursion FitsChannel channels.now) }
{
    for channel in channels {
        write_channel(out, channel)?;
    }
    Ok(())
}

// Their count, and the channels.
#[tactic(auto, unfolding(dcsctp_snapshot_bytes::specs::Fields::element_list_bytes))]
fn write_list(out: &mut Vec<u8>, channels: &[HandoverChannel]) -> Result<(), AllocError>
    ensures bytes { OnOk result (out.new.items ≡ out.old.items
        ++ element_list_bytes channel_bytes channels.now) }
    ensures fits { OnOk result (FitsElements FitsChannel channels.now) }
{
    write_u64(out, channels.len() as u64)?;
    write_elements(out, channels)
}

/// Writes the channels at the end of bytes.
#[tactic(auto, unfolding(crate::specs::Channels::channels_bytes))]
pub(crate) fn write_channels(
    out: &mut Vec<u8>,
    channels: &HandoverChannels,
) -> Result<(), AllocError>
    ensures bytes { OnOk result (out.new.items ≡ out.old.items
        ++ channels_bytes (channels_part channels.now)) }
    ensures fits { OnOk result (FitsPart (channels_part channels.now)) }
{
    write_role(out, channels.role)?;
    write_u64(out, channels.named)?;
    write_list(out, &channels.channels)
}

// Reads that many channels. Each is pushed once it was read, so that a count that the bytes can't back takes no memory.
fn read_elements(
    alloc: Global,
    count: u64,
    reader: &mut Reader,
) -> Result<Vec<HandoverChannel>, ReadError>
    ensures { ReadsFront (λ channels. channels.items) (leading_elements leading_channel count)
        reader.old.rest.now result reader.new.rest.now }
{
    let mut channels = Vec::new(alloc);
    for _ in 0..count {
        channels.push(read_channel(reader)?)?;
    }
    Ok(channels)
}

#[tactic(auto, unfolding(dcsctp_snapshot_bytes::specs::Fields::leading_list))]
fn read_list(alloc: Global, reader: &mut Reader) -> Result<Vec<HandoverChannel>, ReadError>
    ensures { ReadsFront (λ channels. channels.items) (leading_list leading_channel)
        reader.old.rest.now result reader.new.rest.now }
{
    let count = reader.u64()?;
    read_elements(alloc, count, reader)
}

/// Reads the channels from the front of bytes.
#[tactic(auto, unfolding(crate::specs::Channels::leading_channels))]
pub(crate) fn read_channels(
    alloc: Global,
    reader: &mut Reader,
) -> Result<HandoverChannels, ReadError>
    ensures { ReadsFront channels_part leading_channels reader.old.rest.now result
        reader.new.rest.now }
{
    let role = read_role(reader)?;
    let named = reader.u64()?;
    let channels = read_list(alloc, reader)?;
    Ok(HandoverChannels {
        role,
        named,
        channels,
    })
}
