//! What was sent under one TSN.

ghost use Rattle.std.specs.Prelude.{◌≡◌, ◌≤◌};
ghost use Rattle.dcsctp_api.specs.spec.queues.Outstanding.{header_of};

use dcsctp_api::SocketTime;
use dcsctp_api::types::Progress;
use dcsctp_send_queue::DataToSend;
use std::marker::Model;

/// What was sent under one TSN.
#[derive(Drop)]
pub struct Item {
    /// What its chunk says. The payload is empty if the item only marks the end of an abandoned message.
    pub fragment: DataToSend,

    /// How far it is.
    pub progress: Progress,

    /// When it was sent first.
    pub sent_at: SocketTime,

    /// Were streams reset before it was sent? No FORWARD-TSN reaches across that.
    pub begins_after_reset: bool,
}

impl Model for Item {
    ghost use Rattle.dcsctp_api.specs.spec.queues.Items.{Item};

    ghost Value = { Item };

    ghost view = { λ item. record {
      fragment = item.fragment;
      progress = item.progress;
      sent_at = item.sent_at;
      begins_after_reset = item.begins_after_reset;
    } };
}

impl Item {
    ghost use Rattle.dcsctp_api.specs.spec.queues.Items.{item_size};

    /// How long its chunk is, as I-DATA or as DATA, with its header and padding. No payload is above 65,535
    /// bytes.
    pub fn size(&self, interleaving: bool) -> usize
        ensures { result ≡ item_size (header_of interleaving) self.now }
    {
        header_of(interleaving) + (self.fragment.payload.len().min(65535) + 3) / 4 * 4
    }
}

// How long the header of a chunk with data is (RFC 9260, section 3.3.1; RFC 8260, section 2.1).
pub(crate) fn header_of(interleaving: bool) -> usize
    ensures value { result ≡ header_of interleaving }
    ensures limit { result ≤ 20 }
{
    if interleaving { 20 } else { 16 }
}
