//! Each turn of a socket is a list of actions on its queues, and these are steps of both directions of its
//! association: of the one on which it sends, and of the one on which it receives.

ghost use Rattle.dcsctp_delivery_sockets.specs.turns.Actions.{TurnsAreActions};
ghost use Rattle.dcsctp_delivery_sockets.specs.turns.Addressed.{DataGoesToPeer, AddressedTagsAreOwn};
ghost use Rattle.dcsctp_delivery_sockets.specs.turns.Completing.{CompletesOwn};
ghost use Rattle.dcsctp_delivery_sockets.specs.turns.PeerRequests.{CalmAsksNothing, EndsAskNothing, PeersTurn, UnlinkedAsksNothing};
ghost use Rattle.dcsctp_delivery_sockets.specs.turns.Reporting.{TurnsReport};
ghost use Rattle.dcsctp_delivery_sockets.specs.turns.Rules.{FreshTakesTurns, TurnsStayByOption};
ghost use Rattle.dcsctp_delivery_sockets.specs.turns.Runs.{ReceiversBegin, ReceiversGoOn, SendersBegin, SendersBeginAgain, SendersGoOn};
ghost use Rattle.dcsctp_delivery_sockets.specs.turns.Sides.{StepsGoOn, ActionsSend, ActionsReceive};
ghost use Rattle.dcsctp_delivery_sockets.specs.turns.Tags.{TagsAreOwn, EchoesBearOwnTag, FlushesGoToPeer};
ghost use Rattle.dcsctp_delivery_sockets.specs.turns.ToldResets.{TurnsReportRequests, TurnsReportResets};
ghost use Rattle.dcsctp_delivery_sockets.specs.turns.Unbegun.{FreshIsAtZero, StaysAtZero, UnbegunBeginsAtZero, UnbegunBeginsWaiting};

/// A flush goes to the peer's tag, and a packet with data is handled only under our own tag (RFC 9260, sections 5.2.4
/// and 8.5).
pub fn tags_are_own()
    ensures admitted { TagsAreOwn }
    ensures echoed { EchoesBearOwnTag }
    ensures sent { FlushesGoToPeer }
{}

/// Each turn of a socket is a list of actions, by which its association continues, ends, or is replaced by another.
pub fn turns_are_actions()
    ensures { TurnsAreActions }
{}

/// Each SACK and each SHUTDOWN that a turn sends reports a TSN that was received: the cumulative TSN that its
/// association's tracker has when it is made, or had earlier in the turn. It goes to the association's peer. All other
/// packets report none.
pub fn turns_report()
    ensures { TurnsReport }
{}

/// These actions are steps of the direction on which the socket sends, where each TSN that is acknowledged to it was
/// reached, and of the one on which it receives.
pub fn actions_are_steps()
    ensures more { StepsGoOn }
    ensures sends { ActionsSend }
    ensures receives { ActionsReceive }
{}

/// All data of an association goes to its peer's tag, in packets that are admitted only under the receiver's own tag,
/// except one that begins with a COOKIE ECHO.
pub fn data_goes_to_peer()
    ensures sent { DataGoesToPeer }
    ensures admitted { AddressedTagsAreOwn }
{}

/// Every turn of either side continues a run of a direction; or the association ends, or is replaced by another. A SACK
/// or a SHUTDOWN that the sender handles reports a TSN that the receiver has reached.
pub fn runs_go_on()
    ensures made { SendersBegin }
    ensures sends { SendersGoOn }
    ensures anew { SendersBeginAgain }
    ensures receives { ReceiversGoOn }
    ensures idle { ReceiversBegin }
{}

/// A request of ours to reset streams that ends as performed is the one that had no end, of the association that the
/// socket holds (RFC 6525, section 5.2.7). The user is told of its streams.
pub fn own_requests_complete()
    ensures { CompletesOwn }
{}

/// What a turn does with the peer's requests to reset streams (RFC 6525, section 5.2.2): one is performed, or one is in
/// progress, or nothing is asked. No request is accepted or performed where no RE-CONFIG is handled, where there is no
/// association, or where one ends.
pub fn peers_requests_turn()
    ensures turns { PeersTurn }
    ensures calm { CalmAsksNothing }
    ensures unlinked { UnlinkedAsksNothing }
    ensures ends { EndsAskNothing }
{}

/// The user is told of each reset of streams that the peer has asked for and that is performed (RFC 6525, section 5.2.2),
/// in that turn, or before where the request came again under the next number. And of no other, where one is performed.
pub fn turns_tell_resets()
    ensures told { TurnsReportResets }
    ensures asked { TurnsReportRequests }
{}

/// A socket that has had no association has begun no message: each stream is at number 0 and not to be reset, whatever
/// is queued, until the first association begins, and so that one begins with number 0 on each stream (RFC 9260, section 6.5), with
/// `follow_rfc` or without. All that was queued waits for it, unless the user resets streams before.
pub fn unbegun_numbers_stay()
    ensures made { FreshIsAtZero }
    ensures stays { StaysAtZero }
    ensures begins { UnbegunBeginsAtZero }
    ensures kept { UnbegunBeginsWaiting }
{}

/// Streams of equal priority take turns if the socket has `follow_rfc` (RFC 8260, sections 3.2 and 3.5). No turn
/// changes that.
pub fn rules_stay()
    ensures made { FreshTakesTurns }
    ensures stays { TurnsStayByOption }
{}
