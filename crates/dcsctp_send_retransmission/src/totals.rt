//! The sums over all items that are asked for with each packet.

ghost use Rattle.std.specs.Prelude.{◌≡◌};
ghost use Rattle.dcsctp_api.specs.spec.queues.Items.{number_or_zero};

use dcsctp_api::types::Progress;

/// The sums.
#[derive(Clone, Copy, Debug)]
pub struct Totals {
    /// The bytes in flight.
    pub in_flight_bytes: usize,

    /// The bytes that are neither acknowledged nor abandoned.
    pub unacknowledged_bytes: usize,

    /// How many items are neither acknowledged nor abandoned.
    pub unacknowledged_items: usize,

    /// How many items no SACK has acknowledged, abandoned or not.
    pub never_acknowledged_items: usize,

    /// How many items wait to be sent again.
    pub marked_items: usize,
}

fn counted(test: bool, number: usize) -> usize
    ensures { result ≡ number_or_zero test number }
{
    if test { number } else { 0 }
}

impl Totals {
    ghost use Rattle.dcsctp_api.specs.types.queues.Progress.{just_sent};
    ghost use Rattle.dcsctp_send_retransmission.specs.Totals.{no_totals, HasOne, HasRoomInTotals, total_with, total_without};

    /// Those of no items.
    pub fn none() -> Totals
        ensures { result ≡ no_totals }
    {
        Totals {
            in_flight_bytes: 0,
            unacknowledged_bytes: 0,
            unacknowledged_items: 0,
            never_acknowledged_items: 0,
            marked_items: 0,
        }
    }

    /// Counts an item of this size that was just sent.
    pub fn add_sent(&mut self, size: usize)
        requires { HasRoomInTotals size self.old }
        ensures { self.new ≡ total_with just_sent size self.old }
    {
        self.in_flight_bytes += size;
        self.unacknowledged_bytes += size;
        self.unacknowledged_items += 1;
        self.never_acknowledged_items += 1;
    }

    /// Counts an item that is so far, of this size.
    pub fn add(&mut self, progress: Progress, size: usize)
        requires { HasRoomInTotals size self.old }
        ensures { self.new ≡ total_with progress size self.old }
    {
        let state = progress.state;
        self.in_flight_bytes += counted(state.is_in_flight(), size);
        self.unacknowledged_bytes += counted(state.is_unacknowledged(), size);
        self.unacknowledged_items += counted(state.is_unacknowledged(), 1);
        self.never_acknowledged_items += counted(!progress.was_acknowledged, 1);
        self.marked_items += counted(state.is_marked(), 1);
    }

    /// Counts such an item no more.
    pub fn remove(&mut self, progress: Progress, size: usize)
        requires { HasOne progress size self.old }
        ensures { self.new ≡ total_without progress size self.old }
    {
        let state = progress.state;
        self.in_flight_bytes -= counted(state.is_in_flight(), size);
        self.unacknowledged_bytes -= counted(state.is_unacknowledged(), size);
        self.unacknowledged_items -= counted(state.is_unacknowledged(), 1);
        self.never_acknowledged_items -= counted(!progress.was_acknowledged, 1);
        self.marked_items -= counted(state.is_marked(), 1);
    }
}
