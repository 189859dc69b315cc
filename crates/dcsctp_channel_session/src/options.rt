//! The options of a channel, and what a peer may take, as C writes them. Each field is a whole number or bytes, so that
//! every value of its bytes is one.

ghost use Rattle.std.specs.Prelude.{◌≡◌, IfOk};
ghost use Rattle.dcsctp_channel_calls.specs.Notices.{opening_of};
ghost use Rattle.dcsctp_channel_session.specs.Options.{has_limits_size, limit_or, limits_said, has_channel_options_size, says_channel, has_long_text, reliability_said, opening_of_numbers, stream_said};

use dcsctp_channel_calls::channel_messages::channel_spec::{Delivery, Reliability};
use dcsctp_channel_calls::{ChannelOptions, Limits};
use std::alloc::{AllocError, Global};

// The bytes of a `LimitsRecord`.
const LIMITS_SIZE: usize = size_of::<LimitsRecord>();

// The bytes of a `ChannelOptionsRecord`.
const OPTIONS_SIZE: usize = size_of::<ChannelOptionsRecord>();

// How many bytes a label or a protocol may have.
const MOST_TEXT: usize = 65_535;

/// What a peer may take; 0 is the default. `size` says how many bytes the caller's record has.
#[repr(C)]
#[derive(Clone, Copy, Debug)]
pub struct LimitsRecord {
    pub size: usize,
    pub max_message_size: usize,
    pub max_text: usize,
    pub max_channels: usize,
}

// A limit, or its default.
fn or_default(limit: usize, default: usize) -> usize
    ensures { result ≡ limit_or limit default }
{
    if limit == 0 {
        return default;
    }
    limit
}

impl LimitsRecord {
    /// Is it a record of this library? The caller may have that of another version, of another size.
    pub fn is_sized(&self) -> bool
        ensures { result ≡ has_limits_size self.now }
    {
        self.size == LIMITS_SIZE
    }

    /// The limits that the numbers encode.
    pub fn limits(&self) -> Limits
        ensures { result ≡ limits_said self.now }
    {
        let standard = Limits::standard();
        Limits {
            channels: or_default(self.max_channels, standard.channels),
            text: or_default(self.max_text, standard.text),
            message: or_default(self.max_message_size, standard.message),
        }
    }
}

/// What a channel is opened with. Of `reliability` 0 is reliable, 1 says that `limit` counts retransmissions, and 2
/// that it counts milliseconds. 0 in a flag says no, and all else yes. `size` says how many bytes the caller's record
/// has.
#[repr(C)]
#[derive(Clone, Copy)]
pub struct ChannelOptionsRecord<'a> {
    pub size: usize,
    pub label: &'a [u8],
    pub protocol: &'a [u8],
    pub limit: u32,
    pub priority: u16,
    pub reliability: u16,
    pub is_unordered: u16,
    pub is_negotiated: u16,
    pub stream: u16,
    pub reserved: u16,
}

impl ChannelOptionsRecord<'_> {
    /// Is it a record of this library? The caller may have that of another version, of another size.
    pub fn is_sized(&self) -> bool
        ensures { result ≡ has_channel_options_size self.now }
    {
        self.size == OPTIONS_SIZE
    }

    /// Do the numbers encode options?
    pub fn is_valid(&self) -> bool
        ensures { result ≡ says_channel self.now }
    {
        self.reliability < 3 && self.reserved == 0
    }

    /// Is the label or the protocol longer than an OPEN can say?
    pub fn is_too_long(&self) -> bool
        ensures { result ≡ has_long_text self.now }
    {
        self.label.len() > MOST_TEXT || self.protocol.len() > MOST_TEXT
    }

    // How long messages are sent again.
    fn reliability(&self) -> Reliability
        ensures { result ≡ reliability_said self.now.reliability self.now.limit }
    {
        if self.reliability == 1 {
            return Reliability::Retransmissions(self.limit);
        }
        if self.reliability == 2 {
            return Reliability::Lifetime(self.limit);
        }
        Reliability::Reliable
    }

    // The stream, if both ends agreed on it.
    fn negotiated(&self) -> Option<u16>
        ensures { result ≡ stream_said self.now }
    {
        if self.is_negotiated == 0 {
            return None;
        }
        Some(self.stream)
    }

    /// The options that the numbers encode. `Err`: an allocation failed.
    pub fn options(&self, alloc: Global) -> Result<ChannelOptions, AllocError>
        ensures opening { IfOk result (λ options. opening_of options ≡ opening_of_numbers
            self.now) }
        ensures agreed { IfOk result (λ options. options.negotiated ≡ stream_said self.now) }
    {
        Ok(ChannelOptions {
            label: Vec::from_slice(alloc, self.label)?,
            protocol: Vec::from_slice(alloc, self.protocol)?,
            delivery: Delivery {
                ordered: self.is_unordered == 0,
                reliability: self.reliability(),
                priority: self.priority,
            },
            negotiated: self.negotiated(),
        })
    }
}
