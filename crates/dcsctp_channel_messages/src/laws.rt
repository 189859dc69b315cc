//! What a caller may rely on of the format. The functions do nothing: their contracts are the laws.

ghost use Rattle.dcsctp_channel_messages.specs.Laws.{OpensReadBack, OpensAreCanonical, AcksAreRead};

/// An OPEN whose numbers fit their fields is read back from the bytes that are written, whatever follows them. And
/// what is read is written in its one canonical form: without what follows, and with 0 for the parameter that a
/// reliable channel ignores.
pub fn opens_read_back()
    ensures read_back { OpensReadBack }
    ensures canonical { OpensAreCanonical }
{}

/// Whatever begins with the type of an ACK is read as one, and nothing else is.
pub fn acks_are_read()
    ensures { AcksAreRead }
{}
