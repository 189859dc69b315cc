//! What an INIT or INIT ACK announces (RFC 9260, section 3.3.2).

ghost use Rattle.std.specs.Prelude.{◌≡◌, ◌<◌, ◌^◌, ◌++◌, map, IfOk};
ghost use Rattle.std.specs.Option.{option_map};
ghost use Rattle.dcsctp_core.specs.wire.Content.{parameter_content, init_content};
ghost use Rattle.dcsctp_core.specs.types.Offer.{offer_of, offer_parameters, announced_extensions};
ghost use Rattle.dcsctp_core.specs.spec.Packet.{introduction_out, cookie_parameters, first_cookie};

use dcsctp_core::api::{Options, Pair};
use dcsctp_core::wire::{InitChunk, Parameter, chunk_type};
use std::alloc::{AllocError, Global};

/// The chunk types of the optional features that these options offer.
fn extensions(options: &Options) -> &'static [u8]
    ensures { result.now ≡ announced_extensions (offer_of options.now) }
{
    match (
        options.enable_partial_reliability,
        options.enable_message_interleaving,
    ) {
        (false, false) => &[chunk_type::RE_CONFIG],
        (true, false) => &[chunk_type::RE_CONFIG, chunk_type::FORWARD_TSN],
        (false, true) => &[
            chunk_type::RE_CONFIG,
            chunk_type::I_DATA,
            chunk_type::I_FORWARD_TSN,
        ],
        (true, true) => &[
            chunk_type::RE_CONFIG,
            chunk_type::FORWARD_TSN,
            chunk_type::I_DATA,
            chunk_type::I_FORWARD_TSN,
        ],
    }
}

/// What is offered, with this method, and the cookie if there is one.
fn parameters<'a>(
    alloc: Global,
    options: &Options,
    method: u32,
    cookie: Option<&'a [u8]>,
) -> Result<Vec<Parameter<'a>>, AllocError>
    ensures { IfOk result (λ parameters. map parameter_content parameters.items ≡ offer_parameters
        (record (offer_of options.now) { zero_checksum_method = method }) ++ cookie_parameters
        (option_map (λ bytes. bytes.now) cookie.entry)) }
{
    let mut parameters = Vec::with_capacity(alloc, 4)?;
    if options.enable_partial_reliability {
        parameters.push(Parameter::ForwardTsnSupported)?;
    }
    if method != 0 {
        parameters.push(Parameter::ZeroChecksumAcceptable { method })?;
    }
    let chunk_types = extensions(options);
    parameters.push(Parameter::SupportedExtensions { chunk_types })?;
    if let Some(cookie) = cookie {
        parameters.push(Parameter::StateCookie { cookie })?;
    }
    Ok(parameters)
}

/// What a socket with these options and this pair says in an INIT, or in an INIT ACK with a cookie. The
/// method is the one that is announced.
pub(crate) fn introduction<'a>(
    alloc: Global,
    options: &Options,
    pair: Pair,
    method: u32,
    cookie: Option<&'a [u8]>,
) -> Result<InitChunk<'a>, AllocError>
    requires { options.now.max_receiver_window_buffer_size < 2 ^ 32 }
    ensures { IfOk result (λ chunk. init_content chunk ≡ introduction_out (record {
      pair = pair;
      offer = record (offer_of options.now) { zero_checksum_method = method };
      window = options.now.max_receiver_window_buffer_size;
    }) (option_map (λ bytes. bytes.now) cookie.entry)) }
{
    Ok(InitChunk {
        initiate_tag: pair.tag,
        a_rwnd: options.max_receiver_window_buffer_size as u32,
        nbr_outbound_streams: options.announced_maximum_outgoing_streams,
        nbr_inbound_streams: options.announced_maximum_incoming_streams,
        initial_tsn: pair.first_tsn,
        parameters: parameters(alloc, options, method, cookie)?,
    })
}

/// The cookie: the first State Cookie counts.
pub(crate) fn state_cookie<'a>(parameters: &[Parameter<'a>]) -> Option<&'a [u8]>
    ensures { option_map (λ bytes. bytes.now) result ≡ first_cookie (map parameter_content
        parameters.now) }
{
    for parameter in parameters {
        if let Parameter::StateCookie { cookie } = parameter {
            return Some(*cookie);
        }
    }
    None
}
