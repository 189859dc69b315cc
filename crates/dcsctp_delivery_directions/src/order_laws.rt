//! Order over one direction of an association: ordered messages of a stream are read in the order in which they were
//! queued (RFC 9260, section 6.6).

ghost use Rattle.dcsctp_delivery_directions.specs.order.Complete.{PlainStreamsArrive};
ghost use Rattle.dcsctp_delivery_directions.specs.order.Delivered.{ReadIsWithoutGaps, ReadIsInOrder};
ghost use Rattle.dcsctp_delivery_directions.specs.order.Directions.{DirectionsDeliverWithoutGaps, DirectionsDeliverInOrder};
ghost use Rattle.dcsctp_delivery_directions.specs.order.Gaps.{FilledLeavesNoGap, NewStreamsAreFilled, RowsFill};
ghost use Rattle.dcsctp_delivery_directions.specs.order.Incoming.{BeginningInOrder, GrowingInOrder, OrderedWasRead, ReadyInOrder, ResettingInOrder, SkippingInOrder, TakingInOrder};
ghost use Rattle.dcsctp_delivery_directions.specs.order.Order.{NewStreamsInOrder, OthersStayInOrder, PartsStayInOrder, ResetsComeBetween, ResetsStayInOrder, SkipsStayInOrder};
ghost use Rattle.dcsctp_delivery_directions.specs.order.PlainDirections.{PlainDirectionsDeliverWithoutGaps, PlainDirectionsDeliverInOrder, PlainFewDeliverInOrder};
ghost use Rattle.dcsctp_delivery_directions.specs.order.Queue.{HandingFollows};
ghost use Rattle.dcsctp_delivery_directions.specs.order.Reach.{SkippedSsnsAreReadRight, SsnsAreReadRight};
ghost use Rattle.dcsctp_delivery_directions.specs.order.Reading.{MidsAreReadRight, NumbersAreFresh, PartsStayInReach, SkipsStayInReach};
ghost use Rattle.dcsctp_delivery_directions.specs.order.Runs.{OneIsMissing, PartsLeaveHeld, PartsLieApart};
ghost use Rattle.dcsctp_delivery_directions.specs.order.Sending.{HandingLosesNone, LosingNoneSendsInTurn};
ghost use Rattle.dcsctp_delivery_directions.specs.order.Streams.{PlainStreamsDeliverWithoutGaps, StreamsDeliverWithoutGaps};
ghost use Rattle.dcsctp_delivery_directions.specs.order.Rising.{PartsDeliverRows, SkipsDeliverRising, StreamsDeliverRising, StreamsDeliverRows};

/// What the receiver makes ready on a stream are messages with rising numbers. A skip goes forward only, and without
/// one the numbers are in a row.
pub fn streams_deliver_rising()
    ensures parts { PartsDeliverRows }
    ensures skips { SkipsDeliverRising }
    ensures rising { StreamsDeliverRising }
    ensures rows { StreamsDeliverRows }
{}

/// Where numbers are read right, and messages with higher numbers were queued later, the ordered messages of a stream
/// become ready in the order in which they were queued. Skips, other messages and resets of the stream keep it so.
pub fn streams_stay_in_order()
    ensures new { NewStreamsInOrder }
    ensures parts { PartsStayInOrder }
    ensures skips { SkipsStayInOrder }
    ensures others { OthersStayInOrder }
    ensures between { ResetsComeBetween }
    ensures resets { ResetsStayInOrder }
{}

/// With interleaving the messages of a stream are numbered in the order in which they were queued (RFC 8260, section
/// 2.1).
pub fn numbers_follow_queue()
    ensures { HandingFollows }
{}

/// Message identifiers are read right where those of their stream begin at 0 and fewer than 2^31 were given. So no two
/// messages wait under one number.
pub fn mids_are_read_right()
    ensures read { MidsAreReadRight }
    ensures fresh { NumbersAreFresh }
    ensures parts { PartsStayInReach }
    ensures skips { SkipsStayInReach }
{}

/// Stream sequence numbers of data are read right within the window of TSNs (RFC 9260, section 6.6). Those of a
/// FORWARD-TSN are if fewer than 2^15 ordered messages of the stream are in flight (RFC 3758, section 3.6).
pub fn ssns_are_read_right()
    ensures data { SsnsAreReadRight }
    ensures skipped { SkippedSsnsAreReadRight }
{}

/// With interleaving, what is received, skipped, reset, sent or read leaves each message once, and the ordered messages
/// of a stream in order.
pub fn incoming_stays_in_order()
    ensures begins { BeginningInOrder }
    ensures data { ReadyInOrder }
    ensures skips { SkippingInOrder }
    ensures resets { ResettingInOrder }
    ensures grows { GrowingInOrder }
    ensures takes { TakingInOrder }
    ensures read { OrderedWasRead }
{}

/// Where nothing is skipped, all ordered messages of a stream before one that becomes ready became ready before it.
pub fn rows_leave_no_gap()
    ensures new { NewStreamsAreFilled }
    ensures rows { RowsFill }
    ensures no_gap { FilledLeavesNoGap }
{}

/// Where no message may expire, none that was queued is left out, and the messages of a stream are sent in turn.
pub fn sending_loses_none()
    ensures handing { HandingLosesNone }
    ensures in_turn { LosingNoneSendsInTurn }
{}

/// What a user reads is in order where the numbers of each stream begin at 0. Where nothing that was sent has limits, and
/// nothing is reset, it is a prefix of what was queued.
pub fn read_is_in_order()
    ensures ordered { ReadIsInOrder }
    ensures without_gaps { ReadIsWithoutGaps }
{}

/// Runs of parts that are held lie apart: none is whole, and none continues the one before it. So a part is missing of
/// each message that isn't whole.
pub fn runs_lie_apart()
    ensures apart { PartsLieApart }
    ensures held { PartsLeaveHeld }
    ensures missing { OneIsMissing }
{}

/// One direction of an association, over every schedule that loses, repeats, delays and reorders what was sent: the
/// ordered messages of a stream are read in the order in which they were queued, whatever resets of streams the sender
/// asks for. This is shown with interleaving, where the numbers of each stream begin at 0.
pub fn directions_deliver_in_order()
    ensures { DirectionsDeliverInOrder }
{}

/// What is read of each stream's ordered messages is a prefix of what was queued: none is left out before another. This
/// is shown with interleaving, where no message may be abandoned, and the sender begins with number 0 on each stream,
/// keeps all that was queued, and begins no reset.
pub fn directions_deliver_without_gaps()
    ensures { DirectionsDeliverWithoutGaps }
{}

/// Ordered messages are read in order without interleaving too, where the sender begins no reset and passes no TSNs
/// with a FORWARD-TSN. Stream sequence numbers are read right within the window of TSNs, though they have 16 bits.
pub fn plain_directions_deliver_in_order()
    ensures { PlainDirectionsDeliverInOrder }
{}

/// They are read in order also where the sender passes TSNs with a FORWARD-TSN, if fewer than 2^15 ordered messages are
/// queued on each stream: then their stream sequence numbers don't repeat within the half of 16 bits.
pub fn plain_few_deliver_in_order()
    ensures { PlainFewDeliverInOrder }
{}

/// Where no message has a limit either, and the sender keeps all that was queued, none is left out: what is read of
/// each stream's ordered messages is a prefix of what was queued.
pub fn plain_directions_deliver_without_gaps()
    ensures { PlainDirectionsDeliverWithoutGaps }
{}

/// With interleaving, what is read of the ordered messages of a stream that is never reset is a prefix of what was
/// queued on it, whatever happens on other streams.
pub fn streams_deliver_without_gaps()
    ensures { StreamsDeliverWithoutGaps }
{}

/// Without interleaving it is so too of each stream that is never reset and on which no message may be abandoned,
/// whatever happens on other streams. For that SACKs must say what their receiver has reached: else a sender might pass
/// TSNs that weren't received (RFC 3758, section 3.5).
pub fn plain_streams_deliver_without_gaps()
    ensures { PlainStreamsDeliverWithoutGaps }
{}

/// What was acknowledged has arrived. Without interleaving all ordered messages of such a stream were read once the
/// sender has nothing left and the receiver has none ready (RFC 9260, section 6.2).
pub fn plain_streams_arrive()
    ensures { PlainStreamsArrive }
{}
