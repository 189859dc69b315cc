//! The texts of refusals.

use crate::checks::same;
use dcsctp_socket::{BatchSendError, ResetStreamsError, SendError};
use std::alloc::Global;
use std::fmt::Display;
use std::process::Abort;

// `Display` must write this text.
fn is_displayed_as<T: Display>(rt: &impl Abort, alloc: Global, value: &T, expected: &str) {
    let text = format!(in alloc; "{value}").expect(rt, "memory for the text");
    same(rt, "Display", text.as_str(), expected);
}

const TOO_LARGE: SendError = SendError::MessageTooLarge { len: 4, limit: 3 };

static REFUSALS: [(SendError, &str); 4] = [
    (SendError::EmptyPayload, "message payload cannot be empty"),
    (
        TOO_LARGE,
        "message size (4) exceeds configured max_message_size (3)",
    ),
    (SendError::ResourceExhaustion, "send queue is full"),
    (SendError::ShuttingDown, "socket is shutting down or closed"),
];

static RESET_REFUSALS: [(ResetStreamsError, &str); 2] = [
    (ResetStreamsError::NotConnected, "socket is not connected"),
    (
        ResetStreamsError::NotSupported,
        "peer does not support stream resetting",
    ),
];

#[test]
fn refusals_are_displayed(rt: HostRuntime) {
    let alloc = rt.alloc();
    for (error, text) in &REFUSALS {
        is_displayed_as(&rt, alloc, error, text);
    }
    for (error, text) in &RESET_REFUSALS {
        is_displayed_as(&rt, alloc, error, text);
    }
    let refused = [(0, SendError::EmptyPayload), (2, TOO_LARGE)];
    let refused = Vec::from_array(alloc, refused).expect(&rt, "no list");
    is_displayed_as(
        &rt,
        alloc,
        &BatchSendError(refused),
        "batch send failed with errors: [(0, EmptyPayload), (2, MessageTooLarge { len: 4, limit: 3 })]",
    );
}
