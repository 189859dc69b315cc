//! The numbers of chunks and parameters (RFC 9260, section 3.2), and of error causes (RFC 9260, section
//! 3.3.10).

/// Chunk types.
pub mod chunk_type {
    /// DATA (RFC 9260, section 3.3.1).
    pub const DATA: u8 = 0;

    /// INIT (RFC 9260, section 3.3.2).
    pub const INIT: u8 = 1;

    /// INIT ACK (RFC 9260, section 3.3.3).
    pub const INIT_ACK: u8 = 2;

    /// SACK (RFC 9260, section 3.3.4).
    pub const SACK: u8 = 3;

    /// HEARTBEAT (RFC 9260, section 3.3.5).
    pub const HEARTBEAT: u8 = 4;

    /// HEARTBEAT ACK (RFC 9260, section 3.3.6).
    pub const HEARTBEAT_ACK: u8 = 5;

    /// ABORT (RFC 9260, section 3.3.7).
    pub const ABORT: u8 = 6;

    /// SHUTDOWN (RFC 9260, section 3.3.8).
    pub const SHUTDOWN: u8 = 7;

    /// SHUTDOWN ACK (RFC 9260, section 3.3.9).
    pub const SHUTDOWN_ACK: u8 = 8;

    /// ERROR (RFC 9260, section 3.3.10).
    pub const ERROR: u8 = 9;

    /// COOKIE ECHO (RFC 9260, section 3.3.11).
    pub const COOKIE_ECHO: u8 = 10;

    /// COOKIE ACK (RFC 9260, section 3.3.12).
    pub const COOKIE_ACK: u8 = 11;

    /// SHUTDOWN COMPLETE (RFC 9260, section 3.3.13).
    pub const SHUTDOWN_COMPLETE: u8 = 14;

    /// I-DATA (RFC 8260, section 2.1).
    pub const I_DATA: u8 = 64;

    /// RE-CONFIG (RFC 6525, section 3.1).
    pub const RE_CONFIG: u8 = 130;

    /// FORWARD-TSN (RFC 3758, section 3.2).
    pub const FORWARD_TSN: u8 = 192;

    /// I-FORWARD-TSN (RFC 8260, section 2.3.1).
    pub const I_FORWARD_TSN: u8 = 194;
}

/// Parameter types.
pub mod parameter_type {
    /// Heartbeat Info (RFC 9260, section 3.3.5).
    pub const HEARTBEAT_INFO: u16 = 1;

    /// State Cookie (RFC 9260, section 3.3.3.1).
    pub const STATE_COOKIE: u16 = 7;

    /// Outgoing SSN Reset Request (RFC 6525, section 4.1).
    pub const OUTGOING_SSN_RESET_REQUEST: u16 = 13;

    /// Incoming SSN Reset Request (RFC 6525, section 4.2).
    pub const INCOMING_SSN_RESET_REQUEST: u16 = 14;

    /// Re-configuration Response (RFC 6525, section 4.4).
    pub const RECONFIGURATION_RESPONSE: u16 = 16;

    /// Zero Checksum Acceptable (RFC 9653, section 4).
    pub const ZERO_CHECKSUM_ACCEPTABLE: u16 = 0x8001;

    /// Supported Extensions.
    pub const SUPPORTED_EXTENSIONS: u16 = 0x8008;

    /// Forward-TSN-Supported (RFC 3758, section 3.1).
    pub const FORWARD_TSN_SUPPORTED: u16 = 0xc000;
}

/// Codes of error causes.
pub mod cause_code {
    /// Missing Mandatory Parameter (RFC 9260, section 3.3.10.2).
    pub const MISSING_MANDATORY_PARAMETER: u16 = 2;

    /// Unrecognized Chunk Type (RFC 9260, section 3.3.10.6).
    pub const UNRECOGNIZED_CHUNK_TYPE: u16 = 6;

    /// No User Data (RFC 9260, section 3.3.10.9).
    pub const NO_USER_DATA: u16 = 9;

    /// Cookie Received While Shutting Down (RFC 9260, section 3.3.10.10).
    pub const COOKIE_RECEIVED_WHILE_SHUTTING_DOWN: u16 = 10;

    /// User-Initiated Abort (RFC 9260, section 3.3.10.12).
    pub const USER_INITIATED_ABORT: u16 = 12;

    /// Protocol Violation (RFC 9260, section 3.3.10.13).
    pub const PROTOCOL_VIOLATION: u16 = 13;
}
