//! The laws of this crate.

ghost use Rattle.dcsctp_delivery_sockets.specs.sockets.ShownDelivery.{UsersReadWhatWasSent};
ghost use Rattle.dcsctp_delivery_sockets.specs.sockets.Kinds.{FlightsAreAsNegotiated};
ghost use Rattle.dcsctp_delivery_sockets.specs.sockets.Shown.{ShownTagsSuffice};

use crate::sockets_deliver;
use dcsctp_spec_laws::{acts_are_controlled, chunks_are_controlled};
use dcsctp_spec_runs::{
    admitted_packets_may_be_worked, answer_keeps_agreement, offer_reads_back,
    packets_are_controlled,
};
use dcsctp_theorem_association::effects_mean;
use dcsctp_wire_laws::built_packet_reads_as_itself;

/// If each verification tag serves one association among those that two sockets show after each act, or with
/// `follow_rfc` one takes the place of another, so it is among all that they ever have. It is so over every schedule
/// that loses, repeats, delays and reorders packets, as long as no act comes from outside and no tag is drawn twice: no
/// association begins and ends in one act.
pub fn shown_tags_suffice()
    ensures { ShownTagsSuffice }
{
    effects_mean();
    acts_are_controlled();
    chunks_are_controlled();
    packets_are_controlled();
    admitted_packets_may_be_worked();
    offer_reads_back();
    built_packet_reads_as_itself();
    answer_keeps_agreement();
}

/// What a socket has in flight is sent as both have negotiated: as DATA or I-DATA (RFC 8260), and so that messages may
/// be abandoned or not (RFC 3758), as long as no act comes from outside and no tag is drawn twice.
pub fn flights_are_as_negotiated()
    ensures { FlightsAreAsNegotiated }
{
    effects_mean();
    acts_are_controlled();
    chunks_are_controlled();
    packets_are_controlled();
    admitted_packets_may_be_worked();
    offer_reads_back();
    built_packet_reads_as_itself();
    answer_keeps_agreement();
}

/// What a user reads is what its peer's user sent, and no message is read twice, in any association or after it has
/// ended. So it is at the end of each first part of a run that loses, repeats, delays and reorders packets, as long as
/// no act comes from outside and no tag is drawn twice; if each verification tag serves one association, as far as the
/// sockets show, or with `follow_rfc` one takes the place of another that the other socket never shows (RFC 9260, section
/// 5.2.4, action B); if fewer than 2^30 chunks of data and fewer than 2^32 - 1 requests to reset streams go to each,
/// each counted as often as it is sent; if a side sends fewer than 2^64 messages; and if none of these requests fails
/// in an association with interleaving (RFC 8260). It comes in order, stream by stream, and without gaps, as
/// `sockets_deliver` says.
pub fn users_read_what_was_sent()
    ensures { UsersReadWhatWasSent }
{
    sockets_deliver();
    shown_tags_suffice();
}
