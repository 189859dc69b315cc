//! The theorems on how two sockets connect.

ghost use Rattle.dcsctp_theorem_progress.specs.LostInits.{LostInitsAreMadeGood, LostInitsOfBothAreMadeGood};
ghost use Rattle.dcsctp_theorem_progress.specs.Connecting.{LostRoundsAreMadeGood, FreshSocketsConnect};
ghost use Rattle.dcsctp_theorem_progress.specs.Laws.{ProgressLaws};
ghost use Rattle.dcsctp_theorem_progress.specs.Restarts.{OlderAssociationsGiveWay, OlderAssociationsGiveWayToData, OlderAssociationsGiveWayToInits};
ghost use Rattle.dcsctp_theorem_progress.specs.Throughout.{RoundsConnectSockets};
ghost use Rattle.dcsctp_theorem_progress.specs.LossyRounds.{LossyRoundsLeadOn, LossyRoundsConnectSockets};
ghost use Rattle.dcsctp_theorem_progress.specs.OthersCookies.{CookiesAreTheOthers};
ghost use Rattle.dcsctp_theorem_progress.specs.Heartbeats.{LostAcksConnect, LostDataAcksConnect};
ghost use Rattle.dcsctp_theorem_progress.specs.Echoes.{LostEchoesAreMadeGood, LostAcksAreMadeGood};

use dcsctp_delivery_sockets::flights_are_as_negotiated;
use dcsctp_spec_laws::{acts_are_controlled, time_passes_quietly};
use dcsctp_spec_runs::{
    admitted_packets_may_be_worked, answer_keeps_agreement, cookie_reads_back, offer_reads_back,
    packets_are_controlled,
};
use dcsctp_theorem_association::effects_mean;
use dcsctp_wire_laws::{built_packet_reads_as_itself, built_packet_reads_back};

/// A socket whose INIT was lost connects with a closed one, whatever came before: T1 expires at the next moment,
/// and then the four packets are delivered in turn (RFC 9260, section 5.1).
pub fn lost_inits_are_made_good()
    ensures { LostInitsAreMadeGood }
{
    built_packet_reads_back();
    built_packet_reads_as_itself();
    offer_reads_back();
    answer_keeps_agreement();
    cookie_reads_back();
}

/// A socket whose COOKIE ECHO was lost connects with the closed one that made the cookie, while the cookie isn't
/// stale: T1 expires, and COOKIE ECHO and COOKIE ACK are delivered (RFC 9260, section 5.1).
pub fn lost_echoes_are_made_good()
    ensures { LostEchoesAreMadeGood }
{
    built_packet_reads_back();
    built_packet_reads_as_itself();
    offer_reads_back();
    answer_keeps_agreement();
    cookie_reads_back();
}

/// A socket whose COOKIE ACK was lost connects, however old the cookie is (RFC 9260, section 5.2.4, D).
pub fn lost_acks_are_made_good()
    ensures { LostAcksAreMadeGood }
{
    built_packet_reads_back();
    built_packet_reads_as_itself();
    offer_reads_back();
    answer_keeps_agreement();
    cookie_reads_back();
}

/// A socket whose INIT was lost connects with one that connects too and whose INIT was lost (RFC 9260, section
/// 5.2.1).
pub fn lost_inits_of_both_are_made_good()
    ensures { LostInitsOfBothAreMadeGood }
{
    built_packet_reads_back();
    built_packet_reads_as_itself();
    offer_reads_back();
    answer_keeps_agreement();
    cookie_reads_back();
}

/// Two sockets of which one connects and the other is closed, or of which both connect, after any run, with any messages
/// queued and no stream to be reset. After any number of rounds whose packets are all lost, each of which uses at most a
/// restart of T1, one quiet round connects them (RFC 9260, sections 5.1 and 5.2.1): both are Established and match,
/// and each that wasn't open has reported OnConnected once since. So it is where one awaits a COOKIE ACK: the other
/// is closed and still takes the cookie when T1 expires in the quiet round, or it is Established by the cookie,
/// however old that is, and none of its timers is due before (RFC 9260, section 5.2.4, D).
pub fn lost_rounds_are_made_good()
    ensures { LostRoundsAreMadeGood }
{
    built_packet_reads_back();
    built_packet_reads_as_itself();
    offer_reads_back();
    answer_keeps_agreement();
    cookie_reads_back();
    time_passes_quietly();
}

/// A socket that awaits a COOKIE ACK connects with one that is Established by its cookie, after any run. After any
/// number of rounds whose packets are all lost, each of which uses at most a restart of T1 and leaves at most one
/// HEARTBEAT without an answer, it does so in the quiet round in which T1 comes first (RFC 9260, sections 5.2.4, D,
/// and 8.3).
pub fn lost_acks_connect()
    ensures { LostAcksConnect }
{
    built_packet_reads_back();
    built_packet_reads_as_itself();
    offer_reads_back();
    answer_keeps_agreement();
    cookie_reads_back();
    time_passes_quietly();
}

/// So it does with messages queued and data in flight at both. Then T3 may expire at the other in each lost round too,
/// and the delay of an acknowledgement end (RFC 9260, sections 5.2.4, D, 6.2 and 6.3.3).
pub fn lost_data_acks_connect()
    ensures { LostDataAcksConnect }
{
    built_packet_reads_back();
    built_packet_reads_as_itself();
    offer_reads_back();
    answer_keeps_agreement();
    cookie_reads_back();
    time_passes_quietly();
}

/// In a lossy round each packet is delivered once, in order, or lost. Where one socket awaits an INIT ACK and the
/// other is closed, or it awaits a COOKIE ACK of one that takes the cookie or has it, such a round in which T1 comes
/// in time connects them, or leaves one of these states with a restart less (RFC 9260, section 5.1). Both may have
/// messages queued, and data in flight behind COOKIE ECHO and COOKIE ACK. Then timers of the one that has the cookie
/// may come before T1, while its errors allow that.
pub fn lossy_rounds_lead_on()
    ensures { LossyRoundsLeadOn }
{
    built_packet_reads_back();
    built_packet_reads_as_itself();
    offer_reads_back();
    answer_keeps_agreement();
    cookie_reads_back();
    time_passes_quietly();
}

/// However many such rounds follow one another, if T1 may restart once more than there are rounds, and comes in time
/// after them: one of them connects both sockets, or the quiet round after them does.
pub fn lossy_rounds_connect()
    ensures { LossyRoundsConnectSockets }
{
    lossy_rounds_lead_on();
    lost_rounds_are_made_good();
    built_packet_reads_back();
    built_packet_reads_as_itself();
    offer_reads_back();
    answer_keeps_agreement();
    cookie_reads_back();
    time_passes_quietly();
}

/// A socket that awaits a COOKIE ACK connects with one that still has an association of older tags, after any run, in
/// the quiet round in which T1 comes first: its cookie bears the tie tag of that association, which is restarted (RFC
/// 9260, section 5.2.4, A). Each has reported OnConnected once since.
pub fn older_associations_give_way()
    ensures { OlderAssociationsGiveWay }
{
    built_packet_reads_back();
    built_packet_reads_as_itself();
    offer_reads_back();
    answer_keeps_agreement();
    cookie_reads_back();
    time_passes_quietly();
}

/// So does a socket that has messages queued or in flight, whatever the other has queued, in flight or to be acknowledged.
pub fn older_associations_give_way_to_data()
    ensures { OlderAssociationsGiveWayToData }
{
    built_packet_reads_back();
    built_packet_reads_as_itself();
    offer_reads_back();
    answer_keeps_agreement();
    cookie_reads_back();
    time_passes_quietly();
}

/// A socket that awaits an INIT ACK connects with one that still has an association with another tag of the peer's,
/// after any run, with messages queued or in flight. After any number of rounds whose packets are all lost, it does so
/// in the quiet round in which T1 comes first: the other answers with a cookie that bears its tie tag, and begins
/// again when that is echoed (RFC 9260, sections 5.2.2 and 5.2.4, A). Each has reported OnConnected once since.
pub fn older_associations_give_way_to_inits()
    ensures { OlderAssociationsGiveWayToInits }
{
    built_packet_reads_back();
    built_packet_reads_as_itself();
    offer_reads_back();
    answer_keeps_agreement();
    cookie_reads_back();
    time_passes_quietly();
}

/// Two sockets that were just made, and fit each other, connect once one of them or both called `connect`, however
/// many of their INITs are lost, as long as T1 may restart.
pub fn fresh_sockets_connect()
    ensures { FreshSocketsConnect }
{
    built_packet_reads_back();
    built_packet_reads_as_itself();
    offer_reads_back();
    answer_keeps_agreement();
    cookie_reads_back();
    time_passes_quietly();
}

/// In an honest run in which no side draws a verification tag twice, a socket that awaits a COOKIE ACK echoes a
/// cookie that the other made for it (RFC 9260, section 5.1): it names both pairs, of which the other drew the
/// peer's, and what this socket offers; and both offers were negotiated. Data that it sends meanwhile is sent as was
/// negotiated. So the premises on the cookie, and on how data is sent, hold in such a run.
pub fn echoed_cookies_are_the_others()
    ensures { CookiesAreTheOthers }
{
    answer_keeps_agreement();
    effects_mean();
    acts_are_controlled();
    packets_are_controlled();
    admitted_packets_may_be_worked();
    offer_reads_back();
    built_packet_reads_as_itself();
    flights_are_as_negotiated();
}

/// Wherever a run has had such rounds, they have connected the two sockets, whatever came later.
pub fn rounds_connect_sockets()
    ensures { RoundsConnectSockets }
{
    lost_rounds_are_made_good();
    fresh_sockets_connect();
    lost_acks_connect();
    lost_data_acks_connect();
    lossy_rounds_lead_on();
    lossy_rounds_connect();
    older_associations_give_way();
    older_associations_give_way_to_data();
    older_associations_give_way_to_inits();
    echoed_cookies_are_the_others();
}

/// All that is known of how two sockets connect: the theorems above.
pub fn progress_laws()
    ensures { ProgressLaws }
{
    lost_inits_are_made_good();
    lost_inits_of_both_are_made_good();
    lost_echoes_are_made_good();
    lost_acks_are_made_good();
    lost_rounds_are_made_good();
    fresh_sockets_connect();
    lost_acks_connect();
    lost_data_acks_connect();
    lossy_rounds_lead_on();
    lossy_rounds_connect();
    older_associations_give_way();
    older_associations_give_way_to_data();
    older_associations_give_way_to_inits();
    echoed_cookies_are_the_others();
    rounds_connect_sockets();
}
