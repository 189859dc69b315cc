//! HEARTBEAT ACK (RFC 9260, sections 3.3.6 and 8.3).

ghost use Rattle.std.specs.Prelude.{◌≡◌, map};
ghost use Rattle.std.specs.Option.{option_map};
ghost use Rattle.dcsctp_core.specs.wire.Content.{parameter_content};
ghost use Rattle.dcsctp_core.specs.spec.endpoint.HeartbeatOutcomes.{first_heartbeat_info, counter_of, invalid_info_text};
ghost use Rattle.dcsctp_core.specs.Handling.{Tries, report_turn};
ghost use Rattle.dcsctp_core_heartbeat.specs.Heartbeats.{heartbeat_ack_turn};

use dcsctp_core::Context;
use dcsctp_core::api::ErrorKind;
use dcsctp_core::wire::{HeartbeatAckChunk, Parameter, u32_at};
use rand_core::Rng;
use std::alloc::AllocError;

const INVALID_INFO: &str = "Failed to parse HEARTBEAT-ACK; Invalid info parameter";

// What the HEARTBEAT carried: the first Heartbeat Info counts.
fn heartbeat_info<'a>(parameters: &[Parameter<'a>]) -> Option<&'a [u8]>
    ensures { option_map (λ bytes. bytes.now) result
        ≡ first_heartbeat_info (map parameter_content parameters.now) }
{
    for parameter in parameters {
        if let Parameter::HeartbeatInfo { info } = parameter {
            return Some(*info);
        }
    }
    None
}

// The counter that the HEARTBEAT carried, in four bytes.
fn counter_in(parameters: &[Parameter<'_>]) -> Option<u32>
    ensures { result ≡ counter_of (first_heartbeat_info (map parameter_content parameters.now)) }
{
    match heartbeat_info(parameters) {
        Some(info) if info.len() == 4 => Some(u32_at(info, 0)),
        Some(_) | None => None,
    }
}

// Reports an answer without a counter. `Err`: an allocation failed, and nothing has changed.
fn report_invalid_info<R: Rng>(context: &mut Context<R>) -> Result<(), AllocError>
    ensures { Tries R.stream (report_turn ErrorKind.ParseFailed invalid_info_text) context.old
        result context.new }
{
    let text = String::from_str(context.alloc, INVALID_INFO)?;
    context.report(ErrorKind::ParseFailed, text)?;
    Ok(())
}

/// Handles a HEARTBEAT ACK. One with the counter of the last HEARTBEAT shows that the peer is there: no
/// answer is awaited, and no error counts. One without a counter of four bytes is reported.
///
/// `Err`: an allocation failed, and nothing has changed.
pub fn handle_heartbeat_ack<R: Rng>(
    context: &mut Context<R>,
    chunk: &HeartbeatAckChunk<'_>,
) -> Result<(), AllocError>
    ensures { Tries R.stream (heartbeat_ack_turn (map parameter_content chunk.now.parameters.items))
        context.old result context.new }
{
    match counter_in(&chunk.parameters) {
        None => report_invalid_info(context)?,
        Some(counter) => {
            if counter == context.heartbeat_counter() {
                context.end_heartbeat();
            }
        }
    }
    Ok(())
}
