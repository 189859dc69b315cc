//! What an association supports (RFC 9260, section 5.1).

ghost use Rattle.std.specs.Prelude.{◌≡◌, map};
ghost use Rattle.std.specs.List.{list_any};
ghost use Rattle.dcsctp_wire.specs.Content.{parameter_content};
ghost use Rattle.dcsctp_types.specs.Offer.{extensions_of, method_of, is_forward_tsn_supported, supports_type};

use crate::kinds::{
    ZERO_CHECKSUM_ALTERNATE_ERROR_DETECTION_METHOD_NONE, ZeroChecksumAlternateErrorDetectionMethod,
};
use crate::options::Options;
use dcsctp_wire::{Parameter, chunk_type};

/// What both ends of an association support; or, before negotiation, what one end announced.
#[derive(Clone, Copy, Debug)]
pub struct Capabilities {
    /// Partial reliability (RFC 3758).
    pub partial_reliability: bool,

    /// Message interleaving (RFC 8260).
    pub message_interleaving: bool,

    /// Stream re-configuration (RFC 6525).
    pub reconfig: bool,

    /// The alternate error detection method (RFC 9653); 0 for none.
    pub zero_checksum_method: ZeroChecksumAlternateErrorDetectionMethod,

    /// The number of incoming streams.
    pub negotiated_maximum_incoming_streams: u16,

    /// The number of outgoing streams.
    pub negotiated_maximum_outgoing_streams: u16,
}

impl Default for Capabilities {
    ghost use Rattle.std.specs.Prelude.{◌≡◌};
    ghost use Rattle.dcsctp_types.specs.Offer.{no_capabilities};

    ghost is_default = { λ value. value ≡ no_capabilities };

    /// Nothing, and no streams.
    fn default() -> Capabilities {
        Capabilities {
            partial_reliability: false,
            message_interleaving: false,
            reconfig: false,
            zero_checksum_method: ZERO_CHECKSUM_ALTERNATE_ERROR_DETECTION_METHOD_NONE,
            negotiated_maximum_incoming_streams: 0,
            negotiated_maximum_outgoing_streams: 0,
        }
    }
}

impl Capabilities {
    ghost use Rattle.std.specs.Prelude.{◌≢◌, ◌↔◌, IsTrue};
    ghost use Rattle.dcsctp_types.specs.Offer.{offer_of, offer_of_capabilities, negotiated_capabilities, capabilities_offered, offer_announced};

    /// What a peer announces by the stream counts and parameters of its INIT or INIT ACK. The streams that it
    /// sends on are incoming ones. The first Supported Extensions and the first Zero Checksum Acceptable
    /// count.
    pub fn from_parameters(
        nbr_outbound_streams: u16,
        nbr_inbound_streams: u16,
        parameters: &[Parameter<'_>],
    ) -> Capabilities
        ensures { result ≡ capabilities_offered (offer_announced nbr_outbound_streams
            nbr_inbound_streams (map parameter_content parameters.now)) }
    {
        let extensions = supported_extensions(parameters);
        let forward_tsn = has_forward_tsn_supported(parameters);
        Capabilities {
            partial_reliability: forward_tsn || supports(extensions, chunk_type::FORWARD_TSN),
            message_interleaving: supports(extensions, chunk_type::I_DATA),
            reconfig: supports(extensions, chunk_type::RE_CONFIG),
            zero_checksum_method: zero_checksum_method(parameters),
            negotiated_maximum_incoming_streams: nbr_outbound_streams,
            negotiated_maximum_outgoing_streams: nbr_inbound_streams,
        }
    }

    /// What an end with these options and a peer that announced `self` both support. That is what both offer,
    /// the method if it is the same, and the smaller count of streams each way.
    pub fn negotiate(&self, options: &Options) -> Capabilities
        ensures { result ≡ negotiated_capabilities (offer_of options.now)
            (offer_of_capabilities self.now) }
    {
        let mine = options.zero_checksum_alternate_error_detection_method;
        let incoming = options.announced_maximum_incoming_streams;
        let outgoing = options.announced_maximum_outgoing_streams;
        Capabilities {
            partial_reliability: options.enable_partial_reliability && self.partial_reliability,
            message_interleaving: options.enable_message_interleaving && self.message_interleaving,
            reconfig: self.reconfig,
            zero_checksum_method: if mine.0 == self.zero_checksum_method.0 {
                mine
            } else {
                ZERO_CHECKSUM_ALTERNATE_ERROR_DETECTION_METHOD_NONE
            },
            negotiated_maximum_incoming_streams: incoming.min(
                self.negotiated_maximum_incoming_streams,
            ),
            negotiated_maximum_outgoing_streams: outgoing.min(
                self.negotiated_maximum_outgoing_streams,
            ),
        }
    }

    /// May packets go without a checksum (RFC 9653)?
    pub fn zero_checksum_enabled(&self) -> bool
        ensures { IsTrue result ↔ (self.now.zero_checksum_method.0 ≢ 0) }
    {
        self.zero_checksum_method.0 != 0
    }
}

// The chunk types of the first Supported Extensions.
fn supported_extensions<'a>(parameters: &[Parameter<'a>]) -> &'a [u8]
    ensures { result.now ≡ extensions_of (map parameter_content parameters.now) }
{
    for parameter in parameters {
        if let Parameter::SupportedExtensions { chunk_types } = parameter {
            return chunk_types;
        }
    }
    &[]
}

// Is the chunk type among these?
fn supports(chunk_types: &[u8], chunk_type: u8) -> bool
    ensures { result ≡ supports_type chunk_type chunk_types.now }
{
    chunk_types.contains(&chunk_type)
}

// The method of the first Zero Checksum Acceptable.
fn zero_checksum_method(parameters: &[Parameter<'_>]) -> ZeroChecksumAlternateErrorDetectionMethod
    ensures { result.0 ≡ method_of (map parameter_content parameters.now) }
{
    for parameter in parameters {
        if let Parameter::ZeroChecksumAcceptable { method } = parameter {
            return ZeroChecksumAlternateErrorDetectionMethod(*method);
        }
    }
    ZERO_CHECKSUM_ALTERNATE_ERROR_DETECTION_METHOD_NONE
}

// Is there a Forward-TSN-Supported?
fn has_forward_tsn_supported(parameters: &[Parameter<'_>]) -> bool
    ensures { result ≡ list_any is_forward_tsn_supported (map parameter_content parameters.now) }
{
    for parameter in parameters {
        if let Parameter::ForwardTsnSupported = parameter {
            return true;
        }
    }
    false
}
