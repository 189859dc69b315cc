//! What a caller may rely on of the format. The functions do nothing: their contracts are the laws.

ghost use Rattle.dcsctp_snapshot_bytes.specs.Laws.{SnapshotReadsBack, HasOneSpelling, OpensAgain, OthersAreRefused, IdentifiesOptions};

/// A snapshot whose numbers fit their fields, as those of a `SocketHandoverState` do, is read back from the
/// bytes that `to_bytes` writes. No other bytes are read as the same snapshot.
pub fn snapshot_bytes_read_back()
    ensures read_back { SnapshotReadsBack }
    ensures one_spelling { HasOneSpelling }
{}

/// What was sealed is opened as it was by options with the same fingerprint, and refused by all others. Options
/// with the same fingerprint agree in all that it has.
pub fn sealed_bytes_open()
    ensures again { OpensAgain }
    ensures others { OthersAreRefused }
    ensures options { IdentifiesOptions }
{}
