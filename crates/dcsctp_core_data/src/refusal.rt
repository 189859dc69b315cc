//! Data that is refused: without a payload, and without an association.

ghost use Rattle.dcsctp_core.specs.spec.endpoint.DataOutcomes.{not_connected_text, no_user_data_text};
ghost use Rattle.dcsctp_core.specs.Handling.{TakesTurn, Tries, report_turn};
ghost use Rattle.dcsctp_core_data.specs.Data.{empty_data_turn, no_user_data_turn};

use dcsctp_core::Context;
use dcsctp_core::api::ErrorKind;
use dcsctp_core::wire::{Chunk, ErrorCause, ErrorChunk};
use rand_core::Rng;
use std::alloc::AllocError;

const NO_USER_DATA: &str = "Received DATA chunk with no user data";

const NOT_CONNECTED: &str = "Received unexpected commands on socket that is not connected";

// Reports data without an association. `Err`: an allocation failed, and nothing has changed.
pub(crate) fn report_not_connected<R: Rng>(context: &mut Context<R>) -> Result<(), AllocError>
    ensures { Tries R.stream (report_turn ErrorKind.NotConnected not_connected_text) context.old
        result context.new }
{
    let text = String::from_str(context.alloc, NOT_CONNECTED)?;
    context.report(ErrorKind::NotConnected, text)?;
    Ok(())
}

// Reports data without a payload to the user. `Err`: an allocation failed, and nothing has changed.
fn report_no_user_data<R: Rng>(context: &mut Context<R>) -> Result<(), AllocError>
    ensures { Tries R.stream (report_turn ErrorKind.ProtocolViolation no_user_data_text) context.old
        result context.new }
{
    let text = String::from_str(context.alloc, NO_USER_DATA)?;
    context.report(ErrorKind::ProtocolViolation, text)?;
    Ok(())
}

// Reports to the peer, if it is known, that its data has no payload: by an ERROR of the cause No User Data, if it
// fits `mtu`. `Err`: an allocation failed, and nothing has changed.
fn tell_no_user_data<R: Rng>(context: &mut Context<R>, tsn: u32) -> Result<(), AllocError>
    ensures { Tries R.stream (empty_data_turn tsn) context.old result context.new }
{
    let Some(_) = context.state.tcb() else {
        return Ok(());
    };
    let mut error_causes = Vec::with_capacity(context.alloc, 1)?;
    error_causes.push(ErrorCause::NoUserData { tsn })?;
    let error = ErrorChunk { error_causes };
    context.emit_to_peer(&Chunk::Error(error))?;
    Ok(())
}

// Refuses data without a payload, whose TSN is this (RFC 9260, section 3.3.10.9). `Err`: an allocation
// failed; the first of its events may already have been added.
pub(crate) fn refuse_empty<R: Rng>(context: &mut Context<R>, tsn: u32) -> Result<(), AllocError>
    ensures { TakesTurn R.stream (no_user_data_turn tsn) context.old result context.new }
{
    report_no_user_data(context)?;
    tell_no_user_data(context, tsn)?;
    Ok(())
}
