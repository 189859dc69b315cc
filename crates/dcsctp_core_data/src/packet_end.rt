//! The end of a packet: its data is acknowledged (RFC 9260, section 6.2).

ghost use Rattle.dcsctp_core.specs.Handling.{TakesOne};
ghost use Rattle.dcsctp_core_data.specs.Data.{EndsPacket, AcknowledgesIfDue};

use dcsctp_core::{Context, take_spare};
use rand_core::Rng;
use std::alloc::AllocError;

// Sends a SACK to the peer, with what waits after it.
//
// `Err`: an allocation failed; the first of its events may already have been added.
fn acknowledge<R: Rng>(context: &mut Context<R>) -> Result<(), AllocError>
    ensures { AcknowledgesIfDue R.stream context.old result context.new }
{
    match context.state.tcb() {
        None => {}
        Some(tcb) => {
            let block = take_spare(&context.events);
            let mut packet = tcb.new_packet_in(context.alloc, block, &context.options)?;
            context.state.acknowledge(false, &mut packet)?;
            context.send_buffered_packets_with(packet)?;
        }
    }
    Ok(())
}

/// Call it once all of a packet was handled. Its data is acknowledged after a delay, or at once, by a SACK
/// with what waits after it (RFC 9260, section 6.2).
///
/// `Err`: an allocation failed; the first of its events may already have been added.
pub fn end_packet<R: Rng>(context: &mut Context<R>) -> Result<(), AllocError>
    ensures { TakesOne R.stream EndsPacket context.old result context.new }
{
    let Some(tcb) = context.state.tcb_mut() else {
        return Ok(());
    };
    tcb.transfer.end_packet(context.moment);
    if tcb.transfer.is_acknowledgement_due() {
        acknowledge(context)?;
    }
    Ok(())
}
