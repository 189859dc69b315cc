//! All associations of two sockets, in the direction from one to the other. For each verification tag there is what
//! the sender has sent to it and what the receiver has received under it; a tag serves one association. Turn by turn
//! of either side, what was read was sent, and nothing was read twice, in any association.

ghost use Rattle.dcsctp_delivery_sockets.specs.associations.Split.{EndsSplitAsAsked};
ghost use Rattle.dcsctp_delivery_sockets.specs.associations.InOrder.{EndsArrive, EndsCutAsAsked, EndsCutWithoutGaps, EndsDeliverByStream, EndsDeliverOnStreams, EndsDeliverDataInOrder, EndsDeliverWithoutGaps, EndsDeliverInOrder};
ghost use Rattle.dcsctp_delivery_sockets.specs.associations.Laws.{EndsBegin, EndsDeliver, ReceiversTurn, SendersResets, SendersTurn};

/// Two sockets that were just made have nothing between them.
pub fn ends_begin()
    ensures { EndsBegin }
{}

/// A turn of the sender leaves what is known of all associations, if one that begins is of a tag of its own, or takes
/// the place of one that the receiver never had (RFC 9260, section 5.2.4, action B), and the receiver's of that tag is
/// the matching one; if few requests to reset streams went to each tag, and none fails with interleaving; and if one
/// that ends as performed was performed by the receiver.
pub fn senders_turn()
    ensures { SendersTurn }
{}

/// So does a turn of the receiver, where what it handles was sent in the association that handles it, and few requests
/// to reset streams went to each tag.
pub fn receivers_turn()
    ensures { ReceiversTurn }
{}

/// Where a reset of streams ends as performed at the sender, the receiver's user was told of one of the same streams (RFC
/// 6525, section 5.2), if few requests went to each tag.
pub fn senders_resets()
    ensures { SendersResets }
{}

/// Each message that was read, in any association or after it has ended, was queued, and none was read twice, if fewer
/// than 2^30 chunks of data went to each verification tag, and to that whose place it took together. An association
/// assigns at most two TSNs for each.
pub fn ends_deliver()
    ensures { EndsDeliver }
{}

/// What was read in one association comes in the order in which it was queued, stream by stream: so the ordered
/// messages do, where the numbers of each stream begin at 0. Without interleaving it takes that no message may be
/// abandoned, or that few ordered ones were queued on each stream, and that no request to reset streams was sent.
pub fn ends_deliver_in_order()
    ensures interleaved { EndsDeliverInOrder }
    ensures plain { EndsDeliverDataInOrder }
{}

/// Where messages interleave, and the numbers of each stream begin at 0, each reset of streams that the receiver has
/// performed was asked for by the sender's user, and separates what was queued before from what was queued since (RFC
/// 6525, sections 5.1.2 and 5.2.2). Where the sender had one own tag, no message without limits is left out between two
/// resets. And each call by which the user resets a stream, when nothing of it waits, is followed by a reset that is
/// performed before what is queued since is read.
pub fn ends_cut_as_asked()
    ensures asked { EndsCutAsAsked }
    ensures without_gaps { EndsCutWithoutGaps }
{}

/// With interleaving and without, each reset of streams that the receiver has performed was asked for by the sender's
/// user, and separates what was queued before from what was queued since (RFC 6525, sections 5.1.2 and 5.2.2), where no
/// request of the sender fails and the numbers of each stream begin at 0.
pub fn ends_split_as_asked()
    ensures { EndsSplitAsAsked }
{}

/// Where the sender had one own tag, what was read of a stream's ordered messages is a prefix of what was queued: none
/// is missing before one that was read. That takes no reset of the stream, and no limits on its messages, whatever
/// happens on other streams.
pub fn ends_deliver_without_gaps()
    ensures streams { EndsDeliverByStream }
    ensures reliable { EndsDeliverOnStreams }
    ensures all { EndsDeliverWithoutGaps }
{}

/// What was acknowledged has arrived: without interleaving all ordered messages of such streams were read once the
/// sender has nothing left that waits or is in flight, and the receiver has no message ready.
pub fn ends_arrive()
    ensures { EndsArrive }
{}
