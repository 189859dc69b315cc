//! Running numbers that wrap, numbered without wrap: the nearest to a reference (RFC 9260, section 1.6), or the
//! first from it on.

ghost use Rattle.std.specs.Prelude.{◌≡◌, ◌+◌, ◌%◌, ◌/◌, ◌^◌, ◌<◌, ◌≤◌};
ghost use Rattle.dcsctp_api.specs.spec.queues.Numbers.{number_near, short_number_near, short_number_from, fragment_place, is_tsn_beyond};

/// The unwrapped number of a 32-bit one, nearest to the reference. The two agree modulo 2^32.
pub fn number_near(reference: u64, number: u32) -> u64
    ensures { result ≡ number_near reference number }
{
    let ahead = u64::from(number.wrapping_sub((reference % 0x1_0000_0000) as u32));
    if ahead < 0x8000_0000 {
        reference.saturating_add(ahead)
    } else {
        reference.saturating_sub(0x1_0000_0000 - ahead)
    }
}

/// The unwrapped number of a 16-bit one, nearest to the reference. The two agree modulo 2^16.
pub fn short_number_near(reference: u64, number: u16) -> u64
    ensures { result ≡ short_number_near reference number }
{
    let ahead = u64::from(number.wrapping_sub((reference % 0x1_0000) as u16));
    if ahead < 0x8000 {
        reference.saturating_add(ahead)
    } else {
        reference.saturating_sub(0x1_0000 - ahead)
    }
}

/// The unwrapped number of a 16-bit one, the first from the reference on. The two agree modulo 2^16.
pub fn short_number_from(reference: u64, number: u16) -> u64
    ensures is { result ≡ short_number_from reference number }
    ensures from { reference ≤ result }
    ensures first { result < reference + 2 ^ 16 }
    ensures agrees { reference + 2 ^ 16 ≤ 2 ^ 64 → result % 2 ^ 16 ≡ number }
{
    let ahead = number.wrapping_sub((reference % 0x1_0000) as u16);
    reference.saturating_add(u64::from(ahead))
}

/// The place of a part of a message. Each message has places for the numbers of all TSNs (DATA), or for all
/// fragment numbers (I-DATA).
pub fn fragment_place(number: u64, offset: u64) -> u128
    ensures is { result ≡ fragment_place number offset }
    ensures number { result / 2 ^ 64 ≡ number }
{
    u128::from(number) * 0x1_0000_0000_0000_0000 + u128::from(offset)
}

/// Is the TSN beyond the other one?
pub fn is_tsn_beyond(tsn: u32, other: u32) -> bool
    ensures { result ≡ is_tsn_beyond tsn other }
{
    let ahead = tsn.wrapping_sub(other);
    0 < ahead && ahead < 0x8000_0000
}
