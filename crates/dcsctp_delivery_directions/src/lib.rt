//! What goes over one direction of an association, from `send` of one side to the reads of the other. What waits in the
//! send queue was queued, and each TSN carries a piece of it; what is received is put together again, and read in
//! order, without gaps, and by resets of its stream.
#![tactic(auto)]

mod directions_laws;
mod epochs_laws;
mod order_laws;
mod receiving_laws;
mod sending_laws;

pub use directions_laws::{
    acknowledgements_are_true, directions_deliver, directions_deliver_for_good, kept_ask_nothing,
    requests_are_begun, unlimited_forward_nothing, unlimited_leave_out_none,
};
pub use epochs_laws::{
    directions_cut_as_asked, directions_cut_by_calls, directions_deliver_by_epoch,
    directions_send_as_asked, directions_send_by_epoch, directions_split_as_asked,
};
pub use order_laws::{
    directions_deliver_in_order, directions_deliver_without_gaps, incoming_stays_in_order,
    mids_are_read_right, numbers_follow_queue, plain_directions_deliver_in_order,
    plain_directions_deliver_without_gaps, plain_few_deliver_in_order, plain_streams_arrive,
    plain_streams_deliver_without_gaps, read_is_in_order, rows_leave_no_gap, runs_lie_apart,
    sending_loses_none, ssns_are_read_right, streams_deliver_rising, streams_deliver_without_gaps,
    streams_stay_in_order,
};
pub use receiving_laws::{
    chunks_carry_pieces, ready_was_queued, receiving_keeps, resets_clear, resetting_keeps,
    skipping_keeps, streams_stay_clear, tsns_are_told_apart,
};
pub use sending_laws::{
    acknowledging_keeps, flushes_assign_few, flushes_send_pieces, flushing_loses_none,
    giving_up_keeps, marking_keeps, numbers_tell_apart, packets_bear_pieces, pieces_follow,
    queueing_keeps,
};
