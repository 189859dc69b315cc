//! Why a socket aborts its association.

/// How a chunk breaks what was negotiated.
#[derive(Clone, Copy, Debug, PartialEq, Eq)]
pub enum Violation {
    /// DATA or FORWARD-TSN was received, and message interleaving is negotiated (RFC 8260, section 2.2.1).
    DataWithInterleaving,

    /// I-DATA or I-FORWARD-TSN was received, and message interleaving isn't negotiated.
    InterleavedDataWithout,

    /// FORWARD-TSN or I-FORWARD-TSN was received, and partial reliability isn't negotiated (RFC 3758, section
    /// 3.3.1).
    ForwardTsnWithout,
}

/// Why a socket aborts its association (RFC 9260, section 9.1).
#[derive(Clone, Copy, Debug, PartialEq, Eq)]
pub enum AbortReason {
    /// The user closed it.
    CloseCalled,

    /// The peer broke what was negotiated.
    Violation(Violation),

    /// The peer didn't answer often enough (RFC 9260, section 8.1).
    TooManyErrors,
}
