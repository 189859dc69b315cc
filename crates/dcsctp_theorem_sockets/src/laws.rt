//! Theorems on the runs of two sockets.

ghost use Rattle.dcsctp_theorem_sockets.specs.Agreement.{SocketsAgree};
ghost use Rattle.dcsctp_theorem_sockets.specs.Deadlines.{SocketsRunT1};
ghost use Rattle.dcsctp_theorem_sockets.specs.Handshake.{FittingSocketsConnect};
ghost use Rattle.dcsctp_theorem_sockets.specs.Laws.{SocketLaws};
ghost use Rattle.dcsctp_theorem_sockets.specs.OneSocket.{SocketEffectsInPlace, SocketRequestsEndByAnswers, SocketsReportEnds, SocketsKeepSizes, SocketsKeepBursts, SocketsWaitQuietly};
ghost use Rattle.dcsctp_theorem_sockets.specs.Restores.{SnapshotsBringBack, RestoredSocketsBeginNothing};
ghost use Rattle.dcsctp_theorem_sockets.specs.Telling.{SocketsReportEffects, SocketsHaveRecorded, SocketsRecordOnlyNew};

use dcsctp_spec_laws::{acts_are_controlled, chunks_are_controlled, time_passes_quietly};
use dcsctp_spec_runs::{
    admitted_packets_may_be_worked, answer_keeps_agreement, cookie_reads_back, offer_reads_back,
    packets_are_controlled,
};
use dcsctp_theorem_association::{
    answers_end_requests, effects_in_place, effects_mean, ends_once, past_is_state, sides_agree,
};
use dcsctp_wire_laws::{built_packet_reads_as_itself, built_packet_reads_back};

/// Two sockets agree, over every schedule that loses, repeats, delays and reorders their packets, as long as
/// no act comes from outside. When one reports OnConnected, its peer has, or had, the matching association
/// with what the two have in common. When a request of one to reset streams was performed, the other
/// performed one of that number, if it is one of the first 2^32 - 1 of a lifetime.
pub fn sockets_agree()
    ensures { SocketsAgree }
{
    sides_agree();
    effects_mean();
    acts_are_controlled();
    packets_are_controlled();
    admitted_packets_may_be_worked();
    offer_reads_back();
    built_packet_reads_as_itself();
}

/// The four packets of the handshake, delivered in turn, connect two fresh sockets that fit each other (RFC
/// 9260, section 5.1). Each has connected once, and the two are Established and match.
pub fn fitting_sockets_connect()
    ensures { FittingSocketsConnect }
{
    built_packet_reads_back();
    built_packet_reads_as_itself();
    offer_reads_back();
    answer_keeps_agreement();
    cookie_reads_back();
}

/// The effects that each socket of a run recorded are in order, whatever bytes it was handed (RFC 6525, section
/// 4.1). In one lifetime an association connects at most once, and the numbers of requests go up by one. Each
/// accepted request is performed at most once.
pub fn socket_effects_in_place()
    ensures { SocketEffectsInPlace }
{
    effects_in_place();
    chunks_are_controlled();
    acts_are_controlled();
}

/// A socket's own request ends in the turn of an answer with its number, and in no other (RFC 6525, section
/// 5.2.7).
pub fn socket_requests_end_by_answers()
    ensures { SocketRequestsEndByAnswers }
{
    answers_end_requests();
    acts_are_controlled();
}

/// A turn of a socket that leads to the closed state from another adds one event, OnClosed or OnAborted. No
/// other turn adds one (RFC 9260, section 9).
pub fn sockets_tell_ends()
    ensures { SocketsReportEnds }
{
    ends_once();
    acts_are_controlled();
}

/// The events of a socket's turn report what it recorded of its association: each connection, each end, each of
/// its requests that was performed or failed, and each performed request of the peer. They come in the order of
/// the records.
pub fn sockets_tell_effects()
    ensures { SocketsReportEffects }
{
    chunks_are_controlled();
    acts_are_controlled();
}

/// The association of a socket, with its numbers of requests, is the one that its turns recorded last.
pub fn sockets_hold_noted()
    ensures { SocketsHaveRecorded }
{
    past_is_state();
    chunks_are_controlled();
    acts_are_controlled();
}

/// When a socket records an association that a handshake made, it had none before, or a different one.
pub fn sockets_note_anew()
    ensures { SocketsRecordOnlyNew }
{
    past_is_state();
    chunks_are_controlled();
    acts_are_controlled();
}

/// At each socket of a run that awaits an INIT ACK or a COOKIE ACK, T1 runs (RFC 9260, section 5.1). So it
/// has a next deadline, whatever is lost and whatever bytes it was handed.
pub fn sockets_run_t1()
    ensures { SocketsRunT1 }
{}

/// No packet that a socket of a run ever emits is longer than its `mtu`, rounded down to a multiple of 4,
/// whatever bytes it was handed.
pub fn sockets_keep_sizes()
    ensures { SocketsKeepSizes }
{}

/// No turn of a socket of a run sends more packets than its input allows, and no flush more of them than
/// `max_burst` allows: none if that is 0 or below, and one while its COOKIE ECHO isn't answered (RFC 9260,
/// sections 5.1 and 6.1).
pub fn sockets_keep_bursts()
    ensures { SocketsKeepBursts }
{}

/// Time that passes before a socket's next deadline only moves its clock, except while it awaits a COOKIE ACK.
/// An earlier moment changes nothing.
pub fn sockets_wait_quietly()
    ensures { SocketsWaitQuietly }
{
    time_passes_quietly();
}

/// The snapshot of an established socket brings back both pairs, what both ends support, the numbers of
/// requests to reset streams, and the tie tag.
pub fn snapshots_bring_back()
    ensures { SnapshotsBringBack }
{}

/// A socket that is restored begins no request to reset streams by itself: its next number is that of the
/// snapshot (RFC 6525, section 4.1).
pub fn restored_sockets_begin_nothing()
    ensures { RestoredSocketsBeginNothing }
{}

/// All that holds of the sockets of a run: the theorems above.
pub fn socket_laws()
    ensures { SocketLaws }
{
    sockets_agree();
    fitting_sockets_connect();
    socket_effects_in_place();
    socket_requests_end_by_answers();
    sockets_tell_ends();
    sockets_tell_effects();
    sockets_hold_noted();
    sockets_note_anew();
    sockets_run_t1();
    sockets_keep_sizes();
    sockets_keep_bursts();
    sockets_wait_quietly();
}
