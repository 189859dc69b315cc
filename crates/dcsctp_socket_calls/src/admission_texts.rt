//! Why a packet isn't handled, as the user sees it.

/// A packet has an ABORT, and the tag is wrong.
pub(crate) const WRONG_ABORT_TAG: &str = "ABORT chunk verification tag was wrong";

/// A packet has a SHUTDOWN COMPLETE, and the tag is wrong.
pub(crate) const WRONG_SHUTDOWN_COMPLETE_TAG: &str =
    "SHUTDOWN_COMPLETE chunk verification tag was wrong";

/// A packet has a SHUTDOWN ACK, and the tag is wrong.
pub(crate) const WRONG_SHUTDOWN_ACK_TAG: &str = "SHUTDOWN_ACK chunk verification tag was wrong";

/// A packet has tag 0 and isn't one INIT.
pub(crate) const NOT_A_SINGLE_INIT: &str =
    "Only a single INIT chunk can be present in packets sent on verification_tag = 0";

/// A packet has another tag than our own: this text, the tag, [`EXPECTED`], and our own tag.
pub(crate) const WRONG_TAG: &str = "Packet has invalid verification tag: ";

/// Between the two tags.
pub(crate) const EXPECTED: &str = ", expected ";
