//! Tests of what is sent and received, below the socket: the send queue, what is in flight, received data, and a
//! simulation of both ends. Their values come from the standards, or were computed by hand.
#![tactic(auto)]

#[cfg(test)]
mod both_ends;
#[cfg(test)]
mod receive;
#[cfg(test)]
mod retransmission;
#[cfg(test)]
mod send_queue;
