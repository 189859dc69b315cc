//! The laws.

ghost use Rattle.dcsctp_wire.specs.ReadsBack.{BuiltPacketReadsBack, BuiltPacketReadsAsItself};
ghost use Rattle.dcsctp_wire_laws.specs.ReadFits.{ReadPacketFits};

/// A law: a built packet, with a checksum or without, reads back as that packet (RFC 9260, section 3). Its
/// numbers must fit their fields, INIT and INIT ACK must have their minima, and a COOKIE ECHO must be the first
/// chunk. Without a checksum the reader must accept that.
pub fn built_packet_reads_back()
    ensures { BuiltPacketReadsBack }
{}

/// A law: whatever any reader reads of the bytes of a packet is that packet, where each number fits its field
/// (RFC 9260, section 3). It needs no premise about the reader: if it accepts nothing, nothing is read.
pub fn built_packet_reads_as_itself()
    ensures { BuiltPacketReadsAsItself }
{}

/// A law: in whatever packet a reader reads, each number fits its field (RFC 9260, section 3). So does the
/// length of each chunk, in 16 bits.
pub fn read_packet_fits()
    ensures { ReadPacketFits }
{}
