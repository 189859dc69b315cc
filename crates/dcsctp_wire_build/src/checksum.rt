//! The checksum of a packet that was built (RFC 9260, section 6.8 and appendix A): filling it in, and leaving it out.

ghost use Rattle.std.specs.Prelude.{◌≡◌, ◌≤◌, ◌++◌, length, take, drop};
ghost use Rattle.dcsctp_wire_build.specs.Checksums.{checksum_filled, checksum_cleared};

use dcsctp_wire_checksum::packet_checksum;

// Puts four bytes into the checksum field.
fn set_field(packet: &mut [u8], field: &[u8; 4])
    requires { 12 ≤ length packet.old }
    ensures { packet.new ≡ take 8 packet.old ++ field.now ++ drop 12 packet.old }
{
    packet[8..12].copy_from_slice(field);
}

/// Fills in the checksum of a packet. Bytes that are shorter than a header stay as they are.
pub fn fill_checksum(packet: &mut [u8])
    ensures { packet.new ≡ checksum_filled packet.old }
{
    if packet.len() >= 12 {
        let checksum = packet_checksum(packet);
        set_field(packet, &checksum.to_le_bytes());
    }
}

/// Puts 0 in the place of a packet's checksum. Bytes that are shorter than a header stay as they are.
pub fn clear_checksum(packet: &mut [u8])
    ensures { packet.new ≡ checksum_cleared packet.old }
{
    if packet.len() >= 12 {
        set_field(packet, &[0, 0, 0, 0]);
    }
}
