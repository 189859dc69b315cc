//! The laws of this crate.

ghost use Rattle.dcsctp_channel_runs.specs.Runs.{ChannelsRunSockets};

use dcsctp_channel_calls::channel_messages::channel_spec::contents_read_back;
use dcsctp_channel_calls::channel_messages::opens_read_back;
use dcsctp_delivery_sockets::users_read_what_was_sent;
use dcsctp_spec_runs::sockets_keep_options;

/// What two ends with channels do is what two sockets do, over every schedule that loses, repeats, delays and reorders
/// packets. So what is promised of sockets holds of channels.
///
/// A channel that one end reports as incoming was opened by the other's user, with this label, protocol and rules, and
/// two that come in were opened as two (RFC 8832, section 6). It carries what is sent on it, both ways: each message that
/// is read on it was sent on it, once. But a stream may be given to one channel after another (RFC 8831, section 6.7). So
/// a message may have been sent on another channel while this one had no stream at the sender: before it was opened, or
/// after it was closed. There is none such while no channel of the sender is closed. What is read on channels that both
/// ends agreed on was sent on channels.
///
/// That has the premises of `users_read_what_was_sent`: no tag is drawn twice, each serves one association, or with
/// `follow_rfc` one takes the place of another, and not too much is sent.
///
/// What is read on a channel comes in the order in which it was sent, if besides both sockets keep order (`AllowsOrder`:
/// with interleaving, streams may be reset), no message is sent unordered, and all is read in one association. Then the
/// other end has read on a channel nothing but what was sent on it, while the channel isn't closed at the end that opened
/// it, whatever channels its stream had before.
///
/// - `hands_on`: an end drops nothing that it reads for an open channel. What it has reported on a channel of the peer is
///   each message of a user that it has read on the stream since the channel's OPEN.
/// - `by_rules`: on an ordered channel what was sent on it is read in order, also where other channels are unordered, if
///   none that had its stream before is.
/// - `whole`: if that channel is reliable, too, messages interleave, and the sender had one own tag, what is read on it is
///   a prefix of what was sent on it. The reading socket must have known the stream whenever it had an association.
pub fn channels_run_sockets()
    ensures { ChannelsRunSockets }
{
    users_read_what_was_sent();
    sockets_keep_options();
    opens_read_back();
    contents_read_back();
}
