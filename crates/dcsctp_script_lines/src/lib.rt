//! The lines of a script: what a text says as one, and the numbers, the bytes and the options in it; and what a script
//! prints, a line each: the events of a socket, its packets among them, and what it shows of itself.
#![tactic(auto)]

mod bytes;
mod line;
mod messages;
mod numbers;
mod packet_text;
mod printing;
mod settings;
mod showing;

pub use line::{Command, Line, parse_line};
pub use messages::{print_handover_refusal, print_refusal, print_reset_refusal, print_taken};
pub use numbers::number;
pub use printing::print_event;
pub use settings::set_option;
pub use showing::{print_association, print_state, print_timeout};
