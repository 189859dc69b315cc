//! Laws of the definitions, each the contract of a function without a body.

ghost use Rattle.std.specs.Prelude.{◌≡◌, ◌<◌, ◌^◌, ◌||◌, ℕ, bit_or};
ghost use Rattle.dcsctp_spec_lemmas.specs.types.Readiness.{has_reason};
ghost use Rattle.dcsctp_spec_lemmas.specs.types.Settings.{FitsOptions};
ghost use Rattle.dcsctp_spec_runs.specs.Laws.{NegotiationIsMutual, AnswerKeepsAgreement, InitBringsOnePacket, InitPacketLeavesAssociation, OfferReadsBack, CapabilitiesHoldOffer, RefusedPacketAddsOneError, AdmittedPacketsMayBeHandled, PacketsAreControlled, DeliveriesAreControlled, FlushKeepsLimits, SocketsKeepOptions};
ghost use Rattle.dcsctp_spec_lemmas.specs.spec.CookieFits.{CookieReadsBack};
ghost use Rattle.dcsctp_spec_runs.specs.SoundRuns.{SocketsStaySound};
ghost use Rattle.dcsctp_spec_runs.specs.ReceivedReadBack.{TrackerReadsBack, SameTsnsAreNew, StreamsReadBack};

use dcsctp_spec_laws::chunks_are_controlled;
use dcsctp_spec_lemmas::types::Options;
use dcsctp_spec_lemmas::wire::one_reading;

/// Negotiation is mutual (RFC 9260, section 5.1): two ends agree on equal features, and the incoming streams
/// of one are the outgoing ones of the other.
pub fn negotiation_is_mutual()
    ensures { NegotiationIsMutual }
{}

/// An answer may leave out a method that isn't common: what is agreed is the same (RFC 9653, section 5.1).
pub fn answer_keeps_agreement()
    ensures { AnswerKeepsAgreement }
{}

/// A cookie reads back as what was written (RFC 9260, section 5.1.3), if no tag is 0.
pub fn cookie_reads_back()
    ensures { CookieReadsBack }
{}

/// An INIT brings at most one event, a packet, and changes nothing but the count of packets sent, in every
/// phase (RFC 9260, sections 5.1 and 5.2).
pub fn init_brings_one_packet()
    ensures { InitBringsOnePacket }
{}

/// A packet of one INIT leaves the association as it is, in every phase, and also where it is refused (RFC
/// 9260, sections 5.2 and 8.5.1). If an acknowledgement of earlier data was due, it is sent after the chunk.
/// With it an own request to reset streams may begin.
pub fn init_packet_leaves_association()
    ensures { InitPacketLeavesAssociation }
{}

/// What a socket announces is read back from its INIT or INIT ACK (RFC 9260, section 5.1). An offer is read
/// back from the capabilities in a cookie.
pub fn offer_reads_back()
    ensures announced { OfferReadsBack }
    ensures held { CapabilitiesHoldOffer }
{}

// A number of two bytes is one.
fn fits_two_bytes(number: u16)
    ensures { number < 2 ^ 16 }
{}

// A number of four bytes is one.
fn fits_four_bytes(number: u32)
    ensures { number < 2 ^ 32 }
{}

/// The numbers of options fit their types.
pub fn options_fit(options: &Options)
    ensures { FitsOptions options.now }
{
    fits_two_bytes(options.local_port);
    fits_two_bytes(options.remote_port);
    fits_two_bytes(options.announced_maximum_incoming_streams);
    fits_two_bytes(options.announced_maximum_outgoing_streams);
    fits_four_bytes(options.zero_checksum_alternate_error_detection_method.0);
}

/// A packet that can't be read, or that admission refuses, is counted, adds one error, and changes
/// nothing else (RFC 9260, section 8.5).
pub fn refused_packet_adds_one_error()
    ensures { RefusedPacketAddsOneError }
{
    one_reading();
}

/// Whatever admission lets in is let in by `World`, too (RFC 9260, sections 8.4 and 8.5.1): whole packets, or
/// only SHUTDOWN ACK chunks. The latter leave the association unchanged.
pub fn admitted_packets_may_be_worked()
    ensures { AdmittedPacketsMayBeHandled }
{}

/// The turns of a packet's chunks are a delivery to the association.
pub fn packets_are_controlled()
    ensures { PacketsAreControlled }
{
    chunks_are_controlled();
}

/// The outcome of a packet that was counted is a delivery to the association, or one error (RFC 9260,
/// sections 8.4 and 8.5).
pub fn deliveries_are_controlled()
    ensures { DeliveriesAreControlled }
{
    packets_are_controlled();
    admitted_packets_may_be_worked();
}

/// Whatever answers a flush gets, it sends at most as many packets as `max_burst` allows, none longer than
/// `mtu` (RFC 9260, section 6.1). Its other events are only of amounts and messages.
pub fn flush_keeps_limits()
    ensures { FlushKeepsLimits }
{}

/// The options of two sockets never change, except for the longest message that each takes.
pub fn sockets_keep_options()
    ensures { SocketsKeepOptions }
{}

/// `a | b` contains one of some reasons exactly where `a` or `b` does.
pub fn readiness_contains()
    ensures { (a b reasons : ℕ)
        → has_reason (bit_or a b) reasons ≡ (has_reason a reasons || has_reason b reasons) }
{}

/// What a snapshot has of what was received reads back. The restored tracker has the same last TSN, and the
/// same TSNs are new to it if none was missing before another. Each restored stream continues with the same
/// number, modulo 2^32, and nothing waits on it.
pub fn received_parts_read_back()
    ensures tracker { TrackerReadsBack }
    ensures tsns { SameTsnsAreNew }
    ensures streams { StreamsReadBack }
{}

/// Each socket of a run of two keeps that, whatever bytes it is handed.
pub fn sockets_stay_sound()
    ensures { SocketsStaySound }
{}
