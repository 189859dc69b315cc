//! Sizes that a receive window is compared with, and what it counts for a part.

ghost use Rattle.std.specs.Prelude.{◌≡◌};
ghost use Rattle.dcsctp_send_retransmission.specs.types.Settings.{packet_size_limit};
ghost use Rattle.dcsctp_send_retransmission.specs.spec.endpoint.DataOutcomes.{open_window};
ghost use Rattle.dcsctp_send_retransmission.specs.spec.queues.Transfer.{part_overhead};

use dcsctp_send_retransmission::types::Options;

/// The size of the longest packet that is sent: `mtu`, rounded down to a multiple of 4.
pub fn packet_size_limit(options: &Options) -> usize
    ensures { result ≡ packet_size_limit options.now }
{
    let size = options.mtu.min(65535);
    size - size % 4
}

// The receive window from which on a SACK reports to the peer that it has opened: a packet, or half of the
// window if that is less.
pub(crate) fn open_window(options: &Options) -> usize
    ensures { result ≡ open_window options.now }
{
    packet_size_limit(options).min(options.max_receiver_window_buffer_size / 2)
}

// What each part that is kept, and each whole message that waits, counts in the receive window beside its bytes.
// With `Options::follow_rfc` it is 256, so that small parts can't take much more memory than the window has.
pub(crate) fn part_overhead(options: &Options) -> usize
    ensures { result ≡ part_overhead options.now }
{
    if options.follow_rfc { 256 } else { 0 }
}
