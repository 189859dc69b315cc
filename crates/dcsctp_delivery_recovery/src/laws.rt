//! The laws of this crate.

ghost use Rattle.dcsctp_delivery_recovery.specs.Flights.{SocketsKeepFlightsSound};
ghost use Rattle.dcsctp_delivery_recovery.specs.Laws.{RecoveryLaws};
ghost use Rattle.dcsctp_delivery_recovery.specs.Received.{SocketsReceivePart};
ghost use Rattle.dcsctp_delivery_recovery.specs.Recovered.{SocketsRecoverLosses};

use dcsctp_delivery_sockets::shown_tags_suffice;
use dcsctp_spec_laws::{acts_are_controlled, chunks_are_controlled};
use dcsctp_spec_runs::{
    admitted_packets_may_be_worked, answer_keeps_agreement, offer_reads_back,
    packets_are_controlled, sockets_keep_options,
};
use dcsctp_theorem_association::effects_mean;
use dcsctp_theorem_sockets::sockets_tell_effects;
use dcsctp_theorem_transfer::{
    lost_data_comes_behind, lost_data_comes_through, lost_data_is_sent_again, sockets_fit_packets,
    sockets_track_received,
};
use dcsctp_wire_laws::built_packet_reads_as_itself;

/// What is outstanding at a socket of an honest run can be sent again and compared: each item has bytes, or it was
/// abandoned (RFC 3758, section 3.5), and fewer than 2^31 are outstanding (RFC 9260, section 1.6). What a SACK has
/// acknowledged doesn't wait for an acknowledgement again.
pub fn sockets_keep_flights_sound()
    ensures { SocketsKeepFlightsSound }
{
    effects_mean();
    acts_are_controlled();
    packets_are_controlled();
    admitted_packets_may_be_worked();
    offer_reads_back();
    built_packet_reads_as_itself();
}

/// Where two sockets are Established and crossed at the end of an honest run that allows delivery, the one has received
/// all TSNs before the lowest that the other has outstanding, and none that wasn't sent: acknowledgements are true (RFC
/// 9260, sections 6.2 and 6.2.1).
pub fn sockets_receive_part()
    ensures { SocketsReceivePart }
{
    effects_mean();
    acts_are_controlled();
    chunks_are_controlled();
    packets_are_controlled();
    admitted_packets_may_be_worked();
    offer_reads_back();
    built_packet_reads_as_itself();
    answer_keeps_agreement();
    sockets_tell_effects();
    shown_tags_suffice();
}

/// What was lost comes through, at the end of every honest run of two sockets that allows delivery (RFC 9260, sections
/// 6.2, 6.2.1 and 6.3.3). Both are Established and crossed, and have `Options::follow_rfc`. The first item that the one
/// has outstanding isn't acknowledged, no message that is outstanding has a limit, and no stream waits to be reset. T3
/// expires, and a flush follows: it sends a packet. The other one is handed the first packet, or, if the sender owes an
/// acknowledgement, the first or the second one. It may be at any moment, if it has room and received no more before. It
/// answers by a SACK, at once or after its delay. Once the sender has that, the lowest TSN is acknowledged. Nothing else
/// is asked of what the two have sent and received.
pub fn sockets_recover_losses()
    ensures { SocketsRecoverLosses }
{
    effects_mean();
    acts_are_controlled();
    chunks_are_controlled();
    packets_are_controlled();
    admitted_packets_may_be_worked();
    offer_reads_back();
    built_packet_reads_as_itself();
    answer_keeps_agreement();
    sockets_tell_effects();
    shown_tags_suffice();
    sockets_keep_options();
    sockets_fit_packets();
    sockets_track_received();
    lost_data_is_sent_again();
    lost_data_comes_through();
    lost_data_comes_behind();
    sockets_keep_flights_sound();
}

/// All that is known of what two sockets recover: the laws above.
pub fn recovery_laws()
    ensures { RecoveryLaws }
{
    sockets_keep_flights_sound();
    sockets_receive_part();
    sockets_recover_losses();
}
