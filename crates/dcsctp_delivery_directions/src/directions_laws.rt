//! One direction of an association: one side queues and sends, the other receives, and its user reads. Over every
//! schedule each message that is read was queued, and none is read twice.

ghost use Rattle.dcsctp_delivery_directions.specs.directions.Directions.{DirectionsDeliver};
ghost use Rattle.dcsctp_delivery_directions.specs.directions.Forwards.{UnlimitedForwardNothing};
ghost use Rattle.dcsctp_delivery_directions.specs.directions.Losing.{KeptAskNothing, UnlimitedLeaveOutNone};
ghost use Rattle.dcsctp_delivery_directions.specs.directions.Marking.{DirectionsDeliverForGood};
ghost use Rattle.dcsctp_delivery_directions.specs.directions.Reached.{AcknowledgementsAreTrue};
ghost use Rattle.dcsctp_delivery_directions.specs.directions.Requests.{RequestsWereBegun, RequestsAreSent};

/// One direction of an association, over every schedule that loses, repeats, delays and reorders what was sent: each
/// message that a user reads is one that the other user queued, and none is read twice.
pub fn directions_deliver()
    ensures { DirectionsDeliver }
{}

/// What was read no longer waits to be sent, and it wasn't marked as spent. So it may be marked where a later
/// association begins, and isn't read there.
pub fn directions_deliver_for_good()
    ensures { DirectionsDeliverForGood }
{}

/// A SACK says what its receiver has reached, whether it comes soon or late. So a sender knows no TSN as acknowledged
/// cumulatively that its receiver hasn't reached (RFC 9260, section 6.2.1).
pub fn acknowledgements_are_true()
    ensures { AcknowledgementsAreTrue }
{}

/// Each request to reset streams that a sender sends is one that it has begun (RFC 6525, section 5.1.2), and at least
/// as many were sent as were begun.
pub fn requests_are_begun()
    ensures begun { RequestsWereBegun }
    ensures sent { RequestsAreSent }
{}

/// Where all messages were queued without a lifetime and without a limit on retransmissions, none is abandoned: no
/// FORWARD-TSN is sent, and no I-FORWARD-TSN (RFC 3758, section 3.5).
pub fn unlimited_forward_nothing()
    ensures { UnlimitedForwardNothing }
{}

/// A sender that began with all that was queued before, and drops nothing for a reset of a stream, asks for no reset
/// (RFC 6525, section 5.1.2).
pub fn kept_ask_nothing()
    ensures { KeptAskNothing }
{}

/// Where all messages were queued without a lifetime and without a limit on retransmissions, and the sender drops
/// nothing for a reset of a stream, none is left out: each message was sent, or waits (RFC 9260, section 6.9).
pub fn unlimited_leave_out_none()
    ensures { UnlimitedLeaveOutNone }
{}
