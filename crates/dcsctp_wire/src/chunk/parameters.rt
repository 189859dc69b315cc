//! The chunks whose value is parameters alone: HEARTBEAT and HEARTBEAT ACK (RFC 9260, sections 3.3.5 and 3.3.6),
//! and RE-CONFIG (RFC 6525, section 3.1).

use crate::parameter::Parameter;

/// What a HEARTBEAT says.
#[derive(Debug, Drop)]
pub struct HeartbeatRequestChunk<'a> {
    /// The parameters, in their order, of which one is a Heartbeat Info.
    pub parameters: Vec<Parameter<'a>>,
}

/// What a HEARTBEAT ACK says.
#[derive(Debug, Drop)]
pub struct HeartbeatAckChunk<'a> {
    /// The parameters of the HEARTBEAT that is answered.
    pub parameters: Vec<Parameter<'a>>,
}

/// What a RE-CONFIG says.
#[derive(Debug, Drop)]
pub struct ReConfigChunk<'a> {
    /// The requests and answers, in their order.
    pub parameters: Vec<Parameter<'a>>,
}
