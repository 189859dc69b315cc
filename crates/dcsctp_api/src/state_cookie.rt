//! The state cookie of an INIT ACK (RFC 9260, section 5.1.3), and its age.
//!
//! It has no authentication code: whoever can write 56 bytes can make one, of any age.

ghost use Rattle.std.specs.Prelude.{◌≡◌, ◌+◌, ◌≤◌, length};
ghost use Rattle.std.specs.Duration.{as_nanos};
ghost use Rattle.dcsctp_spec_lemmas.specs.spec.Cookie.{u64_at, cookie_fields, cookie_moment, is_stale};
ghost use Rattle.dcsctp_spec_lemmas.specs.types.Offer.{capabilities_offered};
ghost use Rattle.dcsctp_api.specs.Cookie.{cookie_of};

use dcsctp_spec_lemmas::types::{
    Capabilities, SocketTime, ZeroChecksumAlternateErrorDetectionMethod,
};
use dcsctp_spec_lemmas::wire::{u16_at, u32_at};
use std::alloc::{AllocError, Global};
use std::time::Duration;

/// The size of a cookie in bytes.
const COOKIE_SIZE: usize = 56;

/// `dcSC`.
const MAGIC_1: u32 = 0x6463_5343;

/// `TPr0`.
const MAGIC_2: u32 = 0x5450_7230;

/// What the maker of an INIT ACK needs again when the COOKIE ECHO comes, so that it keeps nothing in between.
/// All numbers are big-endian.
///
/// | Offset | Size | Field |
/// |---|---|---|
/// | 0 | 8 | `dcSCTPr0` |
/// | 8 | 4 | `peer_tag` |
/// | 12 | 4 | `my_tag` |
/// | 16 | 4 | `peer_initial_tsn` |
/// | 20 | 4 | `my_initial_tsn` |
/// | 24 | 4 | `a_rwnd` |
/// | 28 | 8 | `tie_tag` |
/// | 36 | 1 | partial reliability, written 0 or 1, any other byte reads as 1 |
/// | 37 | 1 | message interleaving, likewise |
/// | 38 | 1 | stream re-configuration, likewise |
/// | 39 | 1 | written 0, not looked at |
/// | 40 | 4 | the zero checksum method |
/// | 44 | 2 | incoming streams |
/// | 46 | 2 | outgoing streams |
/// | 48 | 8 | `moment` |
#[derive(Clone, Copy, Debug)]
pub struct StateCookie {
    /// The initiate tag of the INIT that the cookie answers.
    pub peer_tag: u32,

    /// The initiate tag of the INIT ACK that carries the cookie.
    pub my_tag: u32,

    /// The initial TSN of the INIT.
    pub peer_initial_tsn: u32,

    /// The initial TSN of the INIT ACK.
    pub my_initial_tsn: u32,

    /// The receive window of the INIT, in bytes.
    pub a_rwnd: u32,

    /// The tie tag of the association of the cookie's maker, 0 if it had none.
    pub tie_tag: u64,

    /// When the cookie was made, in nanoseconds on its maker's clock; a moment beyond `u64::MAX` is cut to that.
    pub moment: u64,

    /// What the INIT announced, before negotiation.
    pub peer_capabilities: Capabilities,
}

impl StateCookie {
    ghost use Rattle.std.specs.Prelude.{MatchResult, IfOk, Ok, Err};
    ghost use Rattle.dcsctp_spec_lemmas.specs.spec.Cookie.{cookie_bytes, cookie_of_bytes};

    /// Reads a cookie. Allocates nothing.
    ///
    /// The first fault decides: `Invalid state cookie size` unless there are 56 bytes. Then
    /// `Invalid state cookie magic` unless they begin with the magic. Then
    /// `Invalid verification tag in state cookie` if a tag is 0.
    #[tactic(auto, unfolding(crate::specs::Cookie::cookie_of_bytes))]
    pub fn from_bytes(bytes: &[u8]) -> Result<StateCookie, &'static str>
        ensures { MatchResult result (λ cookie. cookie_of_bytes bytes.now ≡ Ok (cookie_of cookie))
            (λ text. cookie_of_bytes bytes.now ≡ Err text.now) }
    {
        if bytes.len() != COOKIE_SIZE {
            return Err("Invalid state cookie size");
        }
        if u32_at(bytes, 0) != MAGIC_1 || u32_at(bytes, 4) != MAGIC_2 {
            return Err("Invalid state cookie magic");
        }
        if u32_at(bytes, 8) == 0 || u32_at(bytes, 12) == 0 {
            return Err("Invalid verification tag in state cookie");
        }
        let cookie = fields_at(bytes);
        Ok(cookie)
    }

    /// A moment as a cookie has it: in nanoseconds, at most `u64::MAX`. Allocates nothing.
    pub fn moment_at(now: SocketTime) -> u64
        ensures { result ≡ cookie_moment now }
    {
        now.as_nanos().min(u128::from(u64::MAX)) as u64
    }

    /// Is the cookie stale: older than `lifetime` at this moment of its maker's clock (RFC 9260, section
    /// 5.1.5)? One of exactly that age isn't, nor one of a later moment. A moment too great for a cookie is
    /// cut here as it was when the cookie was made. Allocates nothing.
    pub fn is_stale(&self, lifetime: Duration, now: SocketTime) -> bool
        ensures { result ≡ is_stale (as_nanos lifetime) now (cookie_of self.now) }
    {
        let age = StateCookie::moment_at(now).saturating_sub(self.moment);
        u128::from(age) > lifetime.as_nanos()
    }

    /// The 56 bytes of the cookie.
    #[tactic(auto, unfolding(crate::specs::Cookie::cookie_bytes))]
    pub fn serialize(&self, alloc: Global) -> Result<Vec<u8>, AllocError>
        ensures { IfOk result (λ bytes. bytes.items ≡ cookie_bytes (cookie_of self.now)) }
    {
        let mut bytes = Vec::with_capacity(alloc, COOKIE_SIZE)?;
        bytes.extend_from_slice(&MAGIC_1.to_be_bytes())?;
        bytes.extend_from_slice(&MAGIC_2.to_be_bytes())?;
        bytes.extend_from_slice(&self.peer_tag.to_be_bytes())?;
        bytes.extend_from_slice(&self.my_tag.to_be_bytes())?;
        bytes.extend_from_slice(&self.peer_initial_tsn.to_be_bytes())?;
        bytes.extend_from_slice(&self.my_initial_tsn.to_be_bytes())?;
        bytes.extend_from_slice(&self.a_rwnd.to_be_bytes())?;
        bytes.extend_from_slice(&self.tie_tag.to_be_bytes())?;
        let capabilities = self.peer_capabilities;
        bytes.extend_from_slice(&[
            capabilities.partial_reliability as u8,
            capabilities.message_interleaving as u8,
            capabilities.reconfig as u8,
            0,
        ])?;
        bytes.extend_from_slice(&capabilities.zero_checksum_method.0.to_be_bytes())?;
        bytes.extend_from_slice(
            &capabilities
                .negotiated_maximum_incoming_streams
                .to_be_bytes(),
        )?;
        bytes.extend_from_slice(
            &capabilities
                .negotiated_maximum_outgoing_streams
                .to_be_bytes(),
        )?;
        bytes.extend_from_slice(&self.moment.to_be_bytes())?;
        Ok(bytes)
    }
}

// The big-endian number in the eight bytes at a place.
fn u64_at(bytes: &[u8], at: usize) -> u64
    requires { at + 8 ≤ length bytes.now }
    ensures { result ≡ u64_at at bytes.now }
{
    let field = &bytes[at..at + 8];
    u64::from_be_bytes([
        field[0], field[1], field[2], field[3], field[4], field[5], field[6], field[7],
    ])
}

// The fields of a cookie, whose size was tested.
fn fields_at(bytes: &[u8]) -> StateCookie
    requires { length bytes.now ≡ 56 }
    ensures { cookie_fields bytes.now ≡ cookie_of result }
{
    StateCookie {
        peer_tag: u32_at(bytes, 8),
        my_tag: u32_at(bytes, 12),
        peer_initial_tsn: u32_at(bytes, 16),
        my_initial_tsn: u32_at(bytes, 20),
        a_rwnd: u32_at(bytes, 24),
        tie_tag: u64_at(bytes, 28),
        moment: u64_at(bytes, 48),
        peer_capabilities: capabilities_at(bytes),
    }
}

// The capabilities in a cookie, whose size was tested.
fn capabilities_at(bytes: &[u8]) -> Capabilities
    requires { length bytes.now ≡ 56 }
    ensures { result ≡ capabilities_offered (cookie_fields bytes.now).offer }
{
    Capabilities {
        partial_reliability: bytes[36] != 0,
        message_interleaving: bytes[37] != 0,
        reconfig: bytes[38] != 0,
        zero_checksum_method: ZeroChecksumAlternateErrorDetectionMethod(u32_at(bytes, 40)),
        negotiated_maximum_incoming_streams: u16_at(bytes, 44),
        negotiated_maximum_outgoing_streams: u16_at(bytes, 46),
    }
}
