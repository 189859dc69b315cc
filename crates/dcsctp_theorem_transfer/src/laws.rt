//! The laws of this crate.

ghost use Rattle.dcsctp_theorem_transfer.specs.Deadlines.{RunningTimersCount};
ghost use Rattle.dcsctp_theorem_transfer.specs.DelayOver.{CallSendsDelayedSack};
ghost use Rattle.dcsctp_theorem_transfer.specs.Delaying.{SocketsAcknowledge};
ghost use Rattle.dcsctp_theorem_transfer.specs.Expiring.{CallsRecover};
ghost use Rattle.dcsctp_theorem_transfer.specs.Hearing.{SenderHears};
ghost use Rattle.dcsctp_theorem_transfer.specs.InOrder.{CallComesInOrder, SuchPacketsPass};
ghost use Rattle.dcsctp_theorem_transfer.specs.Laws.{TransferLaws};
ghost use Rattle.dcsctp_theorem_transfer.specs.Leaving.{DataLeaves};
ghost use Rattle.dcsctp_theorem_transfer.specs.Owing.{SocketsOweInTime};
ghost use Rattle.dcsctp_theorem_transfer.specs.Packing.{SocketsFitPackets};
ghost use Rattle.dcsctp_theorem_transfer.specs.Recovering.{LostDataComesBehind, LostDataComesThrough};
ghost use Rattle.dcsctp_theorem_transfer.specs.Resending.{LostDataIsSentAgain};
ghost use Rattle.dcsctp_theorem_transfer.specs.Retransmitting.{SocketsRunT3};
ghost use Rattle.dcsctp_theorem_transfer.specs.Taking.{DataIsTaken};
ghost use Rattle.dcsctp_theorem_transfer.specs.Ticking.{TimePassesReceiver};
ghost use Rattle.dcsctp_theorem_transfer.specs.Tracking.{SocketsTrackReceived};
ghost use Rattle.dcsctp_theorem_transfer.specs.Windows.{SocketsHoldPacket};

use dcsctp_spec_laws::{chunks_are_controlled, sacks_fit};
use dcsctp_spec_runs::sockets_keep_options;

/// Where data that a socket has sent isn't acknowledged, its retransmission timer runs (RFC 9260, section 6.3.2),
/// whatever is lost and whatever bytes it was handed. So the socket asks to be called again until the data is
/// acknowledged or given up.
pub fn sockets_run_t3()
    ensures { SocketsRunT3 }
{}

/// The congestion window of a socket is never less than a packet, if the options begin it so and a loss leaves so much
/// (RFC 9260, sections 7.2.1 and 7.2.3). It is so as long as no act comes from outside: a snapshot may bring any window.
pub fn sockets_hold_packet()
    ensures { SocketsHoldPacket }
{
    sockets_keep_options();
}

/// What a socket has received is acknowledged in time, whatever bytes it was handed (RFC 9260, section 6.2). An
/// acknowledgement that is delayed has a timer that runs. At the end of a packet nothing is owed but by this timer. With
/// `Options::follow_rfc` a SACK that is due is in front of the first packet, and always fits.
pub fn sockets_acknowledge()
    ensures { SocketsAcknowledge }
{
    sacks_fit();
}

/// Once an act is over, an open association owes no acknowledgement but by a timer that runs, with `Options::follow_rfc`
/// and if a flush may send a packet (RFC 9260, section 6.2). It is so whatever bytes it was handed, and also after a
/// restore.
pub fn sockets_owe_in_time()
    ensures { SocketsOweInTime }
{
    chunks_are_controlled();
}

/// A socket whose timers run where they must asks to be called when one of them expires at the latest: T1 while it
/// connects, and then T3 while data is outstanding, and the delay of an acknowledgement (RFC 9260, sections 5.1, 6.3.2
/// and 6.2).
pub fn running_timers_count()
    ensures { RunningTimersCount }
{}

/// What is lost is sent again: once T3 expires, the flush after it begins with the lowest TSN that isn't acknowledged
/// (RFC 9260, section 6.3.3, E3). Here of an open association that has nothing else to say, and whose messages have no
/// limit.
pub fn lost_data_is_sent_again()
    ensures { LostDataIsSentAgain }
{}

/// Both ends of an acknowledgement: data that is the next one expected moves the cumulative TSN past it, and as many
/// chunks leave what is outstanding as a SACK's cumulative TSN acknowledges (RFC 9260, sections 6.2 and 6.2.1).
pub fn data_leaves()
    ensures { DataLeaves }
{}

/// What each socket has received is a set of TSNs in its one form, and none is too far ahead for a SACK to name it (RFC
/// 9260, sections 6.2 and 3.3.4). It is so whatever bytes it was handed, and also after a restore.
pub fn sockets_track_received()
    ensures { SocketsTrackReceived }
{}

/// With `Options::follow_rfc` an open association takes the data that is the next one expected, if there is room: while
/// less than nine tenths of the receive window is in use, or less than twice the window where a later TSN came first.
/// The cumulative TSN moves past it, and an acknowledgement is owed. Data that came before brings a SACK at once (RFC
/// 9260, section 6.2).
pub fn data_is_taken()
    ensures { DataIsTaken }
{}

/// A SACK whose cumulative TSN ack is of the lowest outstanding TSN, or of a later one that was sent, leaves fewer items
/// outstanding. Once its turn is over, whatever that sends, the lowest outstanding TSN is the one after it, and no error
/// counts (RFC 9260, sections 6.2.1 and 8.1).
pub fn sender_hears()
    ensures { SenderHears }
{}

/// Each item that is outstanding fits a packet of the socket, header and padding included: nothing that was sent is too
/// long to be sent again (RFC 9260, section 6.1). It is so as long as no act comes from outside: a snapshot may bring
/// longer ones.
pub fn sockets_fit_packets()
    ensures { SocketsFitPackets }
{
    sockets_keep_options();
}

/// What was lost comes through (RFC 9260, sections 6.2, 6.2.1 and 6.3.3). T3 expires at a socket that has nothing but data
/// to say, and a flush follows. The other one is Established, has all before the lowest outstanding TSN and nothing that
/// wasn't sent, and is handed the first packet. It answers by a SACK, at once or after its delay. Once the first socket has
/// that, the lowest TSN is acknowledged.
pub fn lost_data_comes_through()
    ensures { LostDataComesThrough }
{
    sacks_fit();
}

/// The same of a socket that may owe an acknowledgement, if a flush may send two packets: a SACK may be in front of the
/// first, and the data behind it or in the second one.
pub fn lost_data_comes_behind()
    ensures { LostDataComesBehind }
{
    sacks_fit();
}

/// The call `advance_time` at T3's deadline, where neither T2 nor a request is due and the errors stay within the limit
/// (RFC 9260, sections 6.3.3, 8.1 and 8.3). Its turns are those of the clock, of a delayed acknowledgement, of T3, of
/// heartbeats, and a flush. The lowest outstanding TSN is in the first packet, or in the second behind a SACK alone; a
/// HEARTBEAT may precede both. Whichever socket awaits it answers it with a SACK that passes it.
pub fn calls_recover()
    ensures { CallsRecover }
{
    sacks_fit();
}

/// A packet of a HEARTBEAT or of a SACK alone passes a socket that awaits data: it awaits them as before, and has received
/// what it had, whatever it sends at the end of the packet (RFC 9260, sections 6.2, 6.2.1 and 8.3).
pub fn such_packets_pass()
    ensures { SuchPacketsPass }
{}

/// So does time: whatever timers expire in a call of `advance_time`, a socket that awaits data still does, unless T2 is
/// due or too many errors count.
pub fn time_passes_receiver()
    ensures { TimePassesReceiver }
{}

/// The packets of the call at T3's deadline, handed to the other socket in order. At most two are in front of the one
/// that brings the lowest outstanding TSN: a HEARTBEAT, and a SACK. The other socket passes these, and answers that one.
pub fn call_comes_in_order()
    ensures { CallComesInOrder }
{
    calls_recover();
}

/// A SACK that is delayed is sent by the call `advance_time` at the deadline of its delay, if no other timer is due: the
/// first packet begins with it (RFC 9260, section 6.2).
pub fn call_sends_delayed_sack()
    ensures { CallSendsDelayedSack }
{}

/// All that is known of the transfer layer of an association: the laws above.
pub fn transfer_laws()
    ensures { TransferLaws }
{
    sockets_run_t3();
    sockets_hold_packet();
    sockets_acknowledge();
    sockets_owe_in_time();
    running_timers_count();
    lost_data_is_sent_again();
    data_leaves();
    sockets_fit_packets();
    data_is_taken();
    sender_hears();
    sockets_track_received();
    lost_data_comes_through();
    lost_data_comes_behind();
    calls_recover();
    such_packets_pass();
    time_passes_receiver();
    call_comes_in_order();
    call_sends_delayed_sack();
}
