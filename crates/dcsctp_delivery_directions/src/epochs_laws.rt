//! Epochs of a stream, from one reset that its user asks for to the next (RFC 6525): over every schedule, what is sent
//! and what is read in each, where messages interleave. Each law is the contract of an empty function.

ghost use Rattle.dcsctp_delivery_directions.specs.epochs.Asked.{DirectionsCutAsAsked};
ghost use Rattle.dcsctp_delivery_directions.specs.epochs.Cuts.{DirectionsDeliverByEpoch};
ghost use Rattle.dcsctp_delivery_directions.specs.epochs.Directions.{DirectionsSendByEpoch};
ghost use Rattle.dcsctp_delivery_directions.specs.epochs.InTurn.{DirectionsSendAsAsked, DirectionsSplitInTurn, DirectionsSplitAsAsked};
ghost use Rattle.dcsctp_delivery_directions.specs.epochs.Reports.{DirectionsCutByCalls};

/// With interleaving what was queued on a stream before its user asked for a reset is sent before the reset, or never,
/// and what was queued since is sent after it (RFC 6525, section 5.1.2). Of a stream that was open where the
/// association began it is known at each time for how many messages that is.
pub fn directions_send_by_epoch()
    ensures { DirectionsSendByEpoch }
{}

/// With interleaving each reset of a stream that the receiver performs separates the messages of the stream, ordered or
/// not: those that were read or are ready then were queued before the reset was asked for, and those that come later since
/// (RFC 6525, section 5.2.2). A request that is sent again under another number, and performed twice, separates them
/// twice at the same message. Where the sender began with all that was queued, no ordered message without limits is left
/// out before another of its epoch that is read. If nothing of the stream waited when the reset was asked for, each
/// ordered message of its epoch without limits is read or ready when it is performed. Both hold whatever limits other
/// messages have, if the receive window is of 2^63 bytes or less.
pub fn directions_deliver_by_epoch()
    ensures { DirectionsDeliverByEpoch }
{}

/// With interleaving each reset of a stream that the receiver performs was asked for by the sender's user (RFC 6525,
/// section 5.1.2): of the messages of the stream, ordered or not, those that were read or are ready then were queued
/// before that, and those that come later since. Between two requests no ordered one without
/// limits is left out.
pub fn directions_cut_as_asked()
    ensures { DirectionsCutAsAsked }
{}

/// With interleaving each reset that the sender's user asks for is performed before the receiver's user reads what was
/// queued on the stream since (RFC 6525, sections 5.1.2 and 5.2.2). Take two messages of a stream that are both read,
/// ordered or not, with limits or without, and a call between them by which the user resets the stream, when nothing of it
/// waits. Then the receiver has performed a reset of it that was asked for between them: it separates them.
pub fn directions_cut_by_calls()
    ensures { DirectionsCutByCalls }
{}

/// With interleaving and without, what was queued on a stream before its user asked for a reset is sent before the reset,
/// or never, and what was queued since is sent after it, on later TSNs (RFC 6525, section 5.1.2). It is so also where a
/// request fails: then the stream goes on as it was.
pub fn directions_send_as_asked()
    ensures { DirectionsSendAsAsked }
{}

/// Without interleaving each reset of a stream that the receiver performs was asked for by the sender's user (RFC 6525,
/// section 5.1.2): of the messages of the stream, ordered or not, those that were read or are ready then were queued
/// before that, and those that come later since. This is shown where each request ends only once its reset was performed,
/// none fails, and only the newest is performed, once. Messages may have limits, and TSNs may be passed.
pub fn directions_split_as_asked()
    ensures any_run { DirectionsSplitAsAsked }
    ensures in_turn { DirectionsSplitInTurn }
{}
