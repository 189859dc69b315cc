//! What data that was received adds to the part of the receive window that is in use, and what it frees (RFC 9260,
//! section 6.2).

ghost use Rattle.std.specs.Prelude.{◌≡◌, ◌*◌};
ghost use Rattle.dcsctp_receive_reassembly.specs.Held.{capped_u128};

use dcsctp_api::types::Taken;

/// What data that was received led to, and what of the receive window is in use for it.
#[derive(Clone, Copy)]
pub struct Counted {
    pub taken: Taken,

    /// How much is in use now that wasn't before.
    pub added: u128,

    /// How much isn't in use any longer, at most `u128::MAX`.
    pub freed: u128,
}

/// Nothing was taken.
pub const NOTHING: Counted = Counted {
    taken: Taken {
        kept_bytes: 0,
        ready: 0,
    },
    added: 0,
    freed: 0,
};

/// A part is kept, or all of a message that waits.
#[inline(always)]
pub fn kept(size: usize, added: u128, freed: u128) -> Counted
    ensures taken { result.taken ≡ record { kept_bytes = size; ready = 0 } }
    ensures added { result.added ≡ added }
    ensures freed { result.freed ≡ freed }
{
    Counted {
        taken: Taken {
            kept_bytes: size,
            ready: 0,
        },
        added,
        freed,
    }
}

/// What that many messages count for themselves while they wait, at most `u128::MAX`.
#[inline(always)]
pub fn waiting_overhead(count: usize, overhead: usize) -> u128
    ensures { result ≡ capped_u128 (count * overhead) }
{
    (count as u128).saturating_mul(overhead as u128)
}
