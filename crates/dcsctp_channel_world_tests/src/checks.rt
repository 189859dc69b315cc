//! What must hold of two ends with channels, by plain code over what they show.

use crate::play::{Play, number_of, other};
use dcsctp_channel_world::{ChannelMessage, NamedChannel};
use dcsctp_channels::channel_calls::ChannelId;
use dcsctp_channels::channel_calls::api::DcSctpSocket;
use dcsctp_channels::channel_calls::api::types::Side;
use dcsctp_channels::channel_calls::channel_messages::channel_spec::{ChannelEnd, Reliability};
use std::process::Abort;

// The name of the channel of this number at this end.
fn id_of<S: DcSctpSocket + Drop>(play: &Play<S>, side: Side, number: u32) -> Option<ChannelId> {
    for channel in play.world.opened(side) {
        if number_of(channel.options.label.as_slice()) == number {
            return Some(channel.id);
        }
    }
    for channel in play.world.incoming(side) {
        if number_of(channel.options.label.as_slice()) == number {
            return Some(channel.id);
        }
    }
    None
}

// How many of these are of this number, and say the same as this one.
fn count_same(channels: &[NamedChannel], one: &NamedChannel) -> (u32, u32) {
    let number = number_of(one.options.label.as_slice());
    let mut of_number = 0u32;
    let mut same = 0u32;
    for channel in channels {
        if number_of(channel.options.label.as_slice()) == number {
            of_number = of_number.saturating_add(1);
            if channel.options.protocol.as_slice() == one.options.protocol.as_slice()
                && channel.options.delivery == one.options.delivery
            {
                same = same.saturating_add(1);
            }
        }
    }
    (of_number, same)
}

// Each channel that came in was opened by the other, with these rules, once.
fn incoming_were_opened<S: DcSctpSocket + Drop>(rt: &impl Abort, play: &Play<S>, side: Side) {
    for channel in play.world.incoming(side) {
        let (opened, same) = count_same(play.world.opened(other(side)), channel);
        assert!(rt; opened == 1 && same == 1, "a channel that nobody opened so");
        let (came, _) = count_same(play.world.incoming(side), channel);
        assert!(rt; came == 1, "a channel that came twice");
    }
}

// The place of the message with these bytes among those of this channel, if there is one.
fn place_of(messages: &[ChannelMessage], id: ChannelId, one: &ChannelMessage) -> Option<u32> {
    let mut place = 0u32;
    for message in messages {
        if message.id == id {
            if message.is_text == one.is_text && message.bytes.as_slice() == one.bytes.as_slice() {
                return Some(place);
            }
            place = place.saturating_add(1);
        }
    }
    None
}

fn count_on(messages: &[ChannelMessage], id: ChannelId) -> u32 {
    let mut count = 0u32;
    for message in messages {
        if message.id == id {
            count = count.saturating_add(1);
        }
    }
    count
}

// What this end read on a channel was sent on it at the other, once; in order and without gaps where the channel is
// ordered and reliable.
fn heard_were_said<S: DcSctpSocket + Drop>(
    rt: &impl Abort,
    play: &Play<S>,
    side: Side,
    channel: &NamedChannel,
    id: ChannelId,
) {
    let number = number_of(channel.options.label.as_slice());
    let theirs = id_of(play, other(side), number);
    let is_prefix = channel.options.delivery.ordered
        && channel.options.delivery.reliability == Reliability::Reliable;
    let heard = play.world.read(side);
    let mut index = 0u32;
    for message in heard {
        if message.id == id {
            let there = theirs.expect(rt, "a message on a channel of nobody");
            let place = place_of(play.world.sent(other(side)), there, message).expect(
                rt,
                "a message that nobody sent on this channel",
            );
            let first = place_of(heard, id, message).expect(rt, "it is there");
            assert!(rt; first == index, "a message that came twice");
            assert!(rt; !is_prefix || place == index, "a gap, or another order");
            index = index.saturating_add(1);
        }
    }
}

// A reliable channel that the other end alone has closed has brought all.
fn all_came<S: DcSctpSocket + Drop>(
    rt: &impl Abort,
    play: &Play<S>,
    side: Side,
    channel: &NamedChannel,
    id: ChannelId,
) {
    if channel.options.delivery.reliability != Reliability::Reliable || play.has_closed(side, id) {
        return;
    }
    let number = number_of(channel.options.label.as_slice());
    for end in play.world.ended(side) {
        if end.id == id && end.why == ChannelEnd::Closed {
            let there = id_of(play, other(side), number).expect(rt, "a channel of nobody");
            let said = count_on(play.world.sent(other(side)), there);
            let heard = count_on(play.world.read(side), id);
            assert!(rt; said == heard, "something is missing");
        }
    }
}

/// All that the ends show is so at this end.
pub fn holds_at<S: DcSctpSocket + Drop>(rt: &impl Abort, play: &Play<S>, side: Side) {
    incoming_were_opened(rt, play, side);
    for channel in play.world.opened(side) {
        heard_were_said(rt, play, side, channel, channel.id);
        all_came(rt, play, side, channel, channel.id);
    }
    for channel in play.world.incoming(side) {
        heard_were_said(rt, play, side, channel, channel.id);
        all_came(rt, play, side, channel, channel.id);
    }
}
