//! A law of packets that come in.

ghost use Rattle.dcsctp_session.specs.Offload.{ReadsAsChecked};

/// A law: a socket that looks at no checksum reads each packet as if its checksum were right (RFC 9260, section
/// 6.8). The socket of a caller who checks them is one.
pub fn packets_are_read_as_checked()
    ensures { ReadsAsChecked }
{}
