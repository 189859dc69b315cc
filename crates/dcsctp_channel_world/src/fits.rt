//! What a step hands over fits its fields, by its types.

ghost use Rattle.std.specs.Prelude.{◌<◌, ◌^◌, length};
ghost use Rattle.std.specs.List.{AllByRecursion};
ghost use Rattle.dcsctp_channel_calls.specs.messages.Format.{reliability_parameter};
ghost use Rattle.dcsctp_channel_calls.specs.Notices.{opening_of};
ghost use Rattle.dcsctp_channel_runs.specs.Acts.{IsInMemory};
ghost use Rattle.dcsctp_channel_world.specs.Fitting.{FitsChannelStep};

use crate::step::{ChannelStep, EndCall};
use dcsctp_channels::channel_calls::ChannelOptions;
use dcsctp_channels::channel_calls::channel_messages::channel_spec::Reliability;

// Each of these bytes is one: what is read has its type.
fn bytes_fit(bytes: &[u8])
    ensures { AllByRecursion (λ byte. byte < 2 ^ 8) bytes.now }
{
    for byte in bytes {
        let _byte = *byte;
    }
}

// No object in memory has 2^63 bytes.
fn length_fits(bytes: &[u8])
    ensures { length bytes.now < 2 ^ 63 }
{}

// A number of two bytes is one.
fn priority_fits(priority: u16)
    ensures { priority < 2 ^ 16 }
{}

// A number of four bytes is one.
fn limit_fits(limit: u32)
    ensures { limit < 2 ^ 32 }
{}

fn reliability_fits(reliability: Reliability)
    ensures { reliability_parameter reliability < 2 ^ 32 }
{
    match reliability {
        Reliability::Reliable => {}
        Reliability::Retransmissions(limit) => limit_fits(limit),
        Reliability::Lifetime(limit) => limit_fits(limit),
    }
}

fn options_fit(options: &ChannelOptions)
    ensures { IsInMemory (opening_of options.now) }
{
    bytes_fit(&options.label);
    bytes_fit(&options.protocol);
    priority_fits(options.delivery.priority);
    reliability_fits(options.delivery.reliability);
}

/// Does nothing: whatever a step hands over fits.
pub(crate) fn step_fits(step: &ChannelStep)
    ensures { FitsChannelStep step.now }
{
    match step {
        ChannelStep::Call(_, EndCall::Open(options)) => options_fit(options),
        ChannelStep::Call(_, EndCall::Send(_, _, bytes)) => {
            bytes_fit(bytes);
            length_fits(bytes);
        }
        _ => {}
    }
}
