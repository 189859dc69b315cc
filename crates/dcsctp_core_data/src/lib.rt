//! Data (RFC 9260, section 6; RFC 3758; RFC 8260): the handlers of DATA, FORWARD-TSN, SACK and SHUTDOWN, the end of a
//! packet, and what the timers of data bring. They work on the parts that `dcsctp_core` shares.
#![tactic(auto)]

mod arrival;
mod forward;
mod packet_end;
mod refusal;
mod sack;
mod shutdown;
mod timers;

pub use arrival::{DataPart, handle_data};
pub use forward::{handle_forward_tsn, handle_i_forward_tsn};
pub use packet_end::end_packet;
pub use sack::handle_sack;
pub use shutdown::handle_shutdown;
pub use timers::{handle_acknowledgement_delay, handle_retransmission};
