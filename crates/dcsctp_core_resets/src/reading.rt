//! What the parameters of a RE-CONFIG name.

ghost use Rattle.std.specs.Prelude.{◌≡◌, IfOk};
ghost use Rattle.std.specs.Option.{option_map};
ghost use Rattle.dcsctp_core.specs.types.Ids.{stream_numbers};
ghost use Rattle.dcsctp_core.specs.spec.Reconfiguration.{streams_of_bytes};
ghost use Rattle.dcsctp_core.specs.spec.endpoint.ResetOutcomes.{first_reset_request, first_request_number};
ghost use Rattle.dcsctp_core_resets.specs.Requests.{reset_parameters};
ghost use Rattle.dcsctp_core_resets.specs.Resets.{asked_number, reset_of_request};

use dcsctp_core::api::StreamId;
use dcsctp_core::wire::{OutgoingSsnResetRequestParameter, Parameter};
use std::alloc::{AllocError, Global};

/// The first Outgoing SSN Reset Request, if there is one: no other of its chunk is handled.
pub(crate) fn requested<'a>(
    parameters: &[Parameter<'a>],
) -> Option<OutgoingSsnResetRequestParameter<'a>>
    ensures wanted { option_map reset_of_request result ≡ first_reset_request
        (reset_parameters parameters.now) }
    ensures number { option_map asked_number result
        ≡ first_request_number (reset_parameters parameters.now) }
{
    for parameter in parameters {
        if let Parameter::OutgoingSsnResetRequest(request) = parameter {
            return Some(*request);
        }
    }
    None
}

/// The streams that a request names.
pub(crate) fn streams_of(
    alloc: Global,
    request: &OutgoingSsnResetRequestParameter<'_>,
) -> Result<Vec<StreamId>, AllocError>
    ensures { IfOk result
        (λ streams. stream_numbers streams.items ≡ streams_of_bytes request.now.streams.now) }
{
    let mut streams = Vec::new(alloc);
    for index in 0..request.stream_count() {
        streams.push(StreamId(request.stream(index)))?;
    }
    Ok(streams)
}

/// The numbers of the streams that a request names.
pub(crate) fn numbers_of(
    alloc: Global,
    request: &OutgoingSsnResetRequestParameter<'_>,
) -> Result<Vec<u16>, AllocError>
    ensures { IfOk result (λ numbers. numbers.items ≡ (reset_of_request request.now).streams) }
{
    let mut numbers = Vec::new(alloc);
    for index in 0..request.stream_count() {
        numbers.push(request.stream(index))?;
    }
    Ok(numbers)
}
