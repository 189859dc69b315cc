//! Whether a socket can be handed over to another process, and if not, why.

use std::fmt;
use std::ops::{BitAnd, BitOr};

/// Why a socket can't be handed over to another process now: the reasons are bits. With none it is ready.
#[derive(Clone, Copy, Default, PartialEq, Eq)]
pub struct HandoverReadiness(pub u32);

// Each reason with its name, by bits.
static NAMED_REASONS: [(HandoverReadiness, &str); 10] = [
    (
        HandoverReadiness::WRONG_CONNECTION_STATE,
        "wrong_connection_state",
    ),
    (
        HandoverReadiness::SEND_QUEUE_NOT_EMPTY,
        "send_queue_not_empty",
    ),
    (
        HandoverReadiness::PENDING_STREAM_RESET_REQUEST,
        "pending_stream_reset_request",
    ),
    (
        HandoverReadiness::DATA_TRACKER_TSN_BLOCKS_PENDING,
        "data_tracker_tsn_blocks_pending",
    ),
    (
        HandoverReadiness::PENDING_STREAM_RESET,
        "pending_stream_reset",
    ),
    (
        HandoverReadiness::STREAM_RESET_DEFERRED,
        "stream_reset_deferred",
    ),
    (
        HandoverReadiness::STREAM_HAS_UNASSEMBLED_CHUNKS,
        "stream_has_unassembled_chunks",
    ),
    (
        HandoverReadiness::RETRANSMISSION_QUEUE_OUTSTANDING_DATA,
        "retransmission_queue_outstanding_data",
    ),
    (
        HandoverReadiness::RETRANSMISSION_QUEUE_FAST_RECOVERY,
        "retransmission_queue_fast_recovery",
    ),
    (
        HandoverReadiness::RETRANSMISSION_QUEUE_NOT_EMPTY,
        "retransmission_queue_not_empty",
    ),
];

impl HandoverReadiness {
    ghost use Rattle.std.specs.Prelude.{◌≡◌, ◌==◌, map};
    ghost use Rattle.std.specs.Fmt.{WritesOnOk};
    ghost use Rattle.dcsctp_types.specs.Readiness.{has_reason, reasons_of_bits, names_of, row_of};

    /// No reason: a handover may take place.
    pub const READY: HandoverReadiness = HandoverReadiness(0);

    /// An association is being set up or shut down.
    pub const WRONG_CONNECTION_STATE: HandoverReadiness = HandoverReadiness(1);

    /// Messages wait to be sent.
    pub const SEND_QUEUE_NOT_EMPTY: HandoverReadiness = HandoverReadiness(2);

    /// An own request to reset streams isn't answered.
    pub const PENDING_STREAM_RESET_REQUEST: HandoverReadiness = HandoverReadiness(4);

    /// A TSN is missing before others that were received.
    pub const DATA_TRACKER_TSN_BLOCKS_PENDING: HandoverReadiness = HandoverReadiness(8);

    /// An own stream is to be reset, or its reset isn't answered.
    pub const PENDING_STREAM_RESET: HandoverReadiness = HandoverReadiness(16);

    /// A reset of the peer's streams is deferred.
    pub const STREAM_RESET_DEFERRED: HandoverReadiness = HandoverReadiness(64);

    /// Parts of messages wait for the rest, or whole ones for an earlier one.
    pub const STREAM_HAS_UNASSEMBLED_CHUNKS: HandoverReadiness = HandoverReadiness(128);

    /// Data isn't acknowledged.
    pub const RETRANSMISSION_QUEUE_OUTSTANDING_DATA: HandoverReadiness = HandoverReadiness(512);

    /// Fast recovery is under way.
    pub const RETRANSMISSION_QUEUE_FAST_RECOVERY: HandoverReadiness = HandoverReadiness(1024);

    /// Data waits to be sent again.
    pub const RETRANSMISSION_QUEUE_NOT_EMPTY: HandoverReadiness = HandoverReadiness(2048);

    /// Is there no reason?
    pub fn is_ready(&self) -> bool
        ensures { result ≡ (self.now.0 == 0) }
    {
        self.0 == 0
    }

    /// Is one of these reasons among its own?
    pub fn contains(&self, reason: HandoverReadiness) -> bool
        ensures { result ≡ has_reason self.now.0 reason.0 }
    {
        self.0 & reason.0 != 0
    }

    // Writes the names of those rows whose reason is among its own, joined by commas.
    fn write_names<W: fmt::Write>(
        &self,
        f: &mut fmt::Formatter<W>,
        rows: &[(HandoverReadiness, &str)],
    ) -> fmt::Result
        ensures { WritesOnOk W.write_str_gives f.old result
            (names_of (reasons_of_bits self.now.0 (map row_of rows.now))) f.new }
    {
        let mut separator = "";
        for (reason, name) in rows {
            if self.contains(*reason) {
                write!(f, "{separator}{name}")?;
                separator = ",";
            }
        }
        Ok(())
    }
}

/// The reasons of both.
impl BitOr for HandoverReadiness {
    ghost use Rattle.std.specs.Prelude.{◌≡◌, bit_or};

    type Output = HandoverReadiness;

    ghost bitor_gives = { λ a b both. both.0 ≡ bit_or a.0 b.0 };

    fn bitor(self, other: HandoverReadiness) -> HandoverReadiness {
        HandoverReadiness(self.0 | other.0)
    }
}

/// The reason where it holds, and `READY` elsewhere.
impl BitAnd<bool> for HandoverReadiness {
    ghost use Rattle.std.specs.Prelude.{◌≡◌};
    ghost use Rattle.dcsctp_types.specs.Readiness.{reason_if_true};

    type Output = HandoverReadiness;

    ghost bitand_gives = { λ reason holds kept. kept.0 ≡ reason_if_true holds reason.0 };

    fn bitand(self, holds: bool) -> HandoverReadiness {
        if holds {
            self
        } else {
            HandoverReadiness::READY
        }
    }
}

/// Writes the names of the reasons, joined by commas. Bits without a name are left out.
impl fmt::Display for HandoverReadiness {
    ghost use Rattle.std.specs.Prelude.{Some};
    ghost use Rattle.dcsctp_types.specs.Readiness.{readiness_text};

    ghost output = { λ readiness. Some (readiness_text readiness.0) };

    fn fmt<W: fmt::Write>(&self, f: &mut fmt::Formatter<W>) -> fmt::Result {
        self.write_names(f, &NAMED_REASONS)
    }
}

/// Writes the same.
impl fmt::Debug for HandoverReadiness {
    ghost use Rattle.std.specs.Prelude.{Some};
    ghost use Rattle.dcsctp_types.specs.Readiness.{readiness_text};

    ghost debug_output = { λ readiness. Some (readiness_text readiness.0) };

    fn fmt<W: fmt::Write>(&self, f: &mut fmt::Formatter<W>) -> fmt::Result {
        fmt::Display::fmt(self, f)
    }
}
