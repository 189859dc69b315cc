//! The log of an association: which piece of which message each TSN carries that its sender assigns. What waits in
//! the send queue was queued, what is in flight and what a packet carries is in the log. TSNs are counted.

ghost use Rattle.dcsctp_delivery_directions.specs.sending.Acknowledged.{AcknowledgingKeeps, LosingKeeps};
ghost use Rattle.dcsctp_delivery_directions.specs.sending.ChunkCounts.{FlushesAssignFew};
ghost use Rattle.dcsctp_delivery_directions.specs.sending.Flushes.{FlushesSendPieces};
ghost use Rattle.dcsctp_delivery_directions.specs.sending.Losing.{FlushingLosesNone};
ghost use Rattle.dcsctp_delivery_directions.specs.sending.Marking.{AllAreMarked, AllMarkedFit, AllMarkedKeep, GoneAreMarked, MarkedIsSpent, MarkingFits, MarkingKeeps};
ghost use Rattle.dcsctp_delivery_directions.specs.sending.Numbers.{LogsAreUnambiguous};
ghost use Rattle.dcsctp_delivery_directions.specs.sending.Pieces.{PiecesFollow};
ghost use Rattle.dcsctp_delivery_directions.specs.sending.Queueing.{QueueingKeeps, KeptQueuesHold, RestartedQueuesHold, SettingKeeps, PreparingKeeps, CommittingKeeps, RollingBackKeeps};
ghost use Rattle.dcsctp_delivery_directions.specs.sending.Stages.{PacketsBearPieces, GivingUpKeeps};

/// What the send queue hands out is the next piece of a message that was queued: the pieces of a message come in order,
/// with none of its stream between them, and messages of a stream are begun in the order in which they were queued.
pub fn pieces_follow()
    ensures { PiecesFollow }
{}

/// A packet that is filled carries pieces of what was queued, each under its TSN.
pub fn packets_bear_pieces()
    ensures { PacketsBearPieces }
{}

/// Messages that are abandoned leave in flight what the log has (RFC 3758, section 3.5).
pub fn giving_up_keeps()
    ensures { GivingUpKeeps }
{}

/// A SACK, or a retransmission timer that expires, leaves in flight what the log has.
pub fn acknowledging_keeps()
    ensures acknowledged { AcknowledgingKeeps }
    ensures lost { LosingKeeps }
{}

/// All data of a flush carries pieces of what was queued, each under its TSN. A FORWARD-TSN passes TSNs that were
/// assigned, and a request to reset streams is that of a reset that was begun (RFC 6525, section 5.1.2). A message of
/// such a stream is never passed together with TSNs after the reset. Streams that wait for the end of a reset send
/// nothing. An I-FORWARD-TSN names each message of which it passes a TSN that isn't acknowledged, or a later one of its
/// stream that is ordered or unordered as it is; and it names only such as may be abandoned, of which it passes a TSN
/// (RFC 8260, section 2.3.1).
pub fn flushes_send_pieces()
    ensures { FlushesSendPieces }
{}

/// With interleaving no two messages of a stream have one number in an association (RFC 8260, section 2.1). Numbers are
/// counted without wrap, and never begin at 0 again.
pub fn numbers_tell_apart()
    ensures { LogsAreUnambiguous }
{}

/// A message that is queued waits after the others of its stream, under the next identifier. What waits outlasts
/// settings, resets of our streams, and the association. After a reset the numbers of a stream continue from a new
/// floor.
pub fn queueing_keeps()
    ensures added { QueueingKeeps }
    ensures kept { KeptQueuesHold }
    ensures restarted { RestartedQueuesHold }
    ensures setting { SettingKeeps }
    ensures prepared { PreparingKeeps }
    ensures committed { CommittingKeeps }
    ensures rolled_back { RollingBackKeeps }
{}

/// A message that no longer waits may be marked as spent where an association begins. No piece of it is sent then.
pub fn marking_keeps()
    ensures marked { MarkingKeeps }
    ensures spent { MarkedIsSpent }
    ensures fits { MarkingFits }
    ensures all { AllMarkedKeep }
    ensures all_fit { AllMarkedFit }
    ensures same { AllAreMarked }
    ensures gone { GoneAreMarked }
{}

/// A flush assigns at most two TSNs for each chunk of data that it sends: that of the chunk, and one for the end of a
/// message that is abandoned, which is never sent (RFC 3758, section 3.5).
pub fn flushes_assign_few()
    ensures { FlushesAssignFew }
{}

/// Where no message that was queued has a lifetime or a limit on retransmissions, a flush leaves out none: each was
/// sent, or waits (RFC 9260, section 6.9).
pub fn flushing_loses_none()
    ensures { FlushingLosesNone }
{}
