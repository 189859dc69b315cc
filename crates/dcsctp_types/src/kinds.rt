//! Kinds of errors, of implementations, of checksums and of timers.

/// How an SCTP packet may be protected without its checksum (RFC 9653, section 3), by number.
#[derive(Clone, Copy, Debug, PartialEq, Eq)]
pub struct ZeroChecksumAlternateErrorDetectionMethod(pub u32);

/// No alternate error detection method. This is the default.
pub const ZERO_CHECKSUM_ALTERNATE_ERROR_DETECTION_METHOD_NONE: ZeroChecksumAlternateErrorDetectionMethod =
    ZeroChecksumAlternateErrorDetectionMethod(0);

/// The DTLS below SCTP detects errors (RFC 9653, section 6).
pub const ZERO_CHECKSUM_ALTERNATE_ERROR_DETECTION_METHOD_LOWER_LAYER_DTLS: ZeroChecksumAlternateErrorDetectionMethod =
    ZeroChecksumAlternateErrorDetectionMethod(1);

/// The SCTP implementations that can be recognized by their state cookie.
#[derive(Clone, Copy, Debug, PartialEq)]
pub enum SctpImplementation {
    /// Nothing is known of it.
    Unknown,

    /// This one, or dcSCTP in Rust, on which it is modelled.
    DcsctpRs,

    /// dcSCTP in C++.
    DcsctpCc,

    /// usrsctp.
    UsrSctp,

    /// Any other.
    Other,
}

/// The category of an error that an event reports.
#[derive(Clone, Copy, Debug, PartialEq)]
pub enum ErrorKind {
    /// No error; no event has this kind.
    NoError,

    /// Something was sent too often without an answer.
    TooManyRetries,

    /// A command or packet needs an association, and there is none.
    NotConnected,

    /// A packet, or a part of one, could not be read or was not meant for this association.
    ParseFailed,

    /// A chunk or command came in a state in which it cannot be handled.
    WrongSequence,

    /// The peer reported an error, whose causes the text names.
    PeerReported,

    /// The peer, or the caller, broke a rule of the protocol.
    ProtocolViolation,

    /// A buffer is full.
    ResourceExhaustion,

    /// The operation is not supported.
    UnsupportedOperation,
}

/// How long a timer runs after it has expired.
#[derive(Clone, Copy, Debug, PartialEq, Eq)]
pub enum BackoffAlgorithm {
    /// As long as before it expired first.
    Fixed,

    /// Twice as long as the last time (RFC 9260, section 6.3.3).
    Exponential,
}
