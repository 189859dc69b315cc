//! What was received is acknowledged to the peer (RFC 9260, section 6.2).

ghost use Rattle.std.specs.Prelude.{IsOk, OnOk};
ghost use Rattle.dcsctp_core.specs.View.{transfer_of};
ghost use Rattle.dcsctp_core.specs.Flushing.{AcknowledgesInQueues, WantsNone};

use crate::state::State;
use dcsctp_transfer::wire_build::SctpPacketBuilder;
use std::alloc::AllocError;

impl State {
    /// Puts a SACK into a packet to the peer, if one is asked for and fits. A delayed one counts if
    /// `also_if_delayed`.
    pub fn acknowledge(
        &mut self,
        also_if_delayed: bool,
        packet: &mut SctpPacketBuilder,
    ) -> Result<(), AllocError>
        ensures ok { OnOk result
            (AcknowledgesInQueues (transfer_of self.old) also_if_delayed self.old packet.old
            self.new packet.new) }
        ensures idle { WantsNone (transfer_of self.old) also_if_delayed → IsOk result }
    {
        match self.tcb_mut() {
            None => Ok(()),
            Some(tcb) => tcb.transfer.acknowledge(also_if_delayed, packet),
        }
    }
}
