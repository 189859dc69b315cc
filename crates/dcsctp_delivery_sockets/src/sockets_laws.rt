//! What two sockets send one another, over every list of honest acts: where a COOKIE ECHO goes,
//! and that data is handled in the association in which it was sent. Each law is the
//! contract of a function that only calls others. And which associations they show: each that begins is still
//! there when the act in which it began is over, so what delivery asks of verification tags can be seen from outside.

ghost use Rattle.dcsctp_delivery_sockets.specs.sockets.Acts.{ReceiversCall, ReceiversHandle, SendersAct};
ghost use Rattle.dcsctp_delivery_sockets.specs.sockets.Delivery.{SocketsDeliver};
ghost use Rattle.dcsctp_delivery_sockets.specs.sockets.Echoes.{EchoesGoToMakers};
ghost use Rattle.dcsctp_delivery_sockets.specs.sockets.Packets.{PacketsKeepEnds};

use dcsctp_spec_laws::{acts_are_controlled, chunks_are_controlled};
use dcsctp_spec_runs::{
    admitted_packets_may_be_worked, answer_keeps_agreement, offer_reads_back,
    packets_are_controlled,
};
use dcsctp_theorem_association::effects_mean;
use dcsctp_theorem_sockets::sockets_tell_effects;
use dcsctp_wire_laws::built_packet_reads_as_itself;

/// Each COOKIE ECHO that a socket sends goes to the tag that its cookie's maker had drawn, and is the first chunk
/// of its packet (RFC 9260, section 5.1). So it is over every schedule that loses, repeats, delays and reorders
/// packets, as long as no act comes from outside and no tag is drawn twice.
pub fn echoes_go_to_makers()
    ensures { EchoesGoToMakers }
{
    effects_mean();
    acts_are_controlled();
    packets_are_controlled();
    admitted_packets_may_be_worked();
    offer_reads_back();
    built_packet_reads_as_itself();
    answer_keeps_agreement();
}

/// The chunks of a packet that the other socket sent leave what is known of all associations: whatever data they have
/// was sent in the association that handles it (RFC 9260, section 8.5).
pub fn packets_keep_ends()
    ensures { PacketsKeepEnds }
{}

/// So does each act: whatever a socket does leaves what is known of all associations in which it sends. A call leaves
/// what is known of those in which it receives, and so do the bytes of a packet that the other socket sent.
pub fn acts_keep_ends()
    ensures sends { SendersAct }
    ensures calls { ReceiversCall }
    ensures handles { ReceiversHandle }
{}

/// What a user reads is what its peer's user sent, and no message is read twice, in any association or after it has
/// ended. So it is over every schedule that loses, repeats, delays and reorders packets, as long as no act comes from
/// outside, no tag is drawn twice, each verification tag serves one association, fewer than 2^30 chunks of data and
/// fewer than 2^32 - 1 requests to reset streams go to each, each counted as often as it is sent, a side sends fewer
/// than 2^64 messages, and none of these requests fails in an association with interleaving (RFC 8260). With `follow_rfc`
/// an own tag may serve two associations, the second of which takes the place of one that the other side never has
/// (RFC 9260, section 5.2.4, action B): both sides connect, the one after it answered the other's INIT, and fewer than
/// 2^30 chunks go to both peers' tags together. The ordered messages of a stream that are read in one association come
/// in the order in which they were sent, where the sender follows the RFC or has no other own tag, and messages
/// interleave, across resets of the stream, or no request to reset streams was sent, and no message may be abandoned or
/// few are ordered. Where the sender has no other own tag, those of a stream that its user never resets, and of which
/// none may be abandoned, are a prefix of what was sent, whatever happens on other streams. And each reset of streams
/// that a user is told is performed, the peer's user was told of, with the same streams. Where messages interleave, each
/// reset that a user is told its peer has made, the peer's user asked for by a call that was accepted: of a stream that
/// it names, the messages read before, or ready by then, were sent before that call, and those read later since. Where
/// the sender has no other own tag, what is read of the ordered messages without limits between two such calls is a
/// prefix of them; and if none of the stream waited at the later call, it is all of them. Messages with limits among
/// them make no difference. And such a call at which nothing of the stream waits is followed by a report, between what
/// is read of what was sent before it and of what is sent since, ordered or not, if the socket that reads is without
/// `follow_rfc`.
pub fn sockets_deliver()
    ensures { SocketsDeliver }
{
    effects_mean();
    acts_are_controlled();
    chunks_are_controlled();
    packets_are_controlled();
    admitted_packets_may_be_worked();
    offer_reads_back();
    built_packet_reads_as_itself();
    answer_keeps_agreement();
    sockets_tell_effects();
}
