//! What is read, and what is refused.

use dcsctp_channel_messages::channel_spec::Reliability;
use dcsctp_channel_messages::{Control, ControlError, read_control};

// "ab", no protocol, reliable, ordered, priority 256.
const PLAIN: [u8; 14] = [3, 0x00, 1, 0, 0, 0, 0, 0, 0, 2, 0, 0, 97, 98];

fn is_open(bytes: &[u8], ordered: bool, reliability: Reliability, priority: u16) -> bool {
    match read_control(bytes) {
        Ok(Control::Open(message)) => {
            message.delivery.ordered == ordered
                && message.delivery.reliability == reliability
                && message.delivery.priority == priority
        }
        _ => false,
    }
}

fn error_of(bytes: &[u8]) -> Option<ControlError> {
    match read_control(bytes) {
        Ok(_) => None,
        Err(error) => Some(error),
    }
}

#[test]
fn each_channel_type_is_read(rt: HostRuntime) {
    let rows = [
        ("reliable", 0x00u8, true, Reliability::Reliable),
        (
            "retransmissions",
            0x01,
            true,
            Reliability::Retransmissions(0x0102_0304),
        ),
        ("lifetime", 0x02, true, Reliability::Lifetime(0x0102_0304)),
        ("unordered", 0x80, false, Reliability::Reliable),
        (
            "unordered retransmissions",
            0x81,
            false,
            Reliability::Retransmissions(0x0102_0304),
        ),
        (
            "unordered lifetime",
            0x82,
            false,
            Reliability::Lifetime(0x0102_0304),
        ),
    ];
    for (name, kind, ordered, reliability) in rows {
        let bytes = [3, kind, 2, 0, 1, 2, 3, 4, 0, 0, 0, 0];
        assert!(rt; is_open(&bytes, ordered, reliability, 512), "{name}");
    }
}

#[test]
fn label_and_protocol_are_read(rt: HostRuntime) {
    let bytes = [3, 0, 1, 0, 0, 0, 0, 0, 0, 2, 0, 1, 97, 98, 112, 9, 9];
    let read = match read_control(&bytes) {
        Ok(Control::Open(message)) => {
            message.label == b"ab".as_slice() && message.protocol == b"p".as_slice()
        }
        _ => false,
    };
    assert!(rt; read, "bytes behind the protocol are ignored");
}

#[test]
fn acks_of_any_length_are_read(rt: HostRuntime) {
    assert!(rt;
        matches!(read_control(&[2]), Ok(Control::Ack())),
        "one byte"
    );
    assert!(rt;
        matches!(read_control(&[2, 0, 0, 0]), Ok(Control::Ack())),
        "four bytes"
    );
}

#[test]
fn malformed_messages_are_refused(rt: HostRuntime) {
    assert!(rt; error_of(&[]) == Some(ControlError::Empty), "no bytes");
    let unknown = Some(ControlError::UnknownMessageType(1));
    assert!(rt; error_of(&[1, 0, 0, 0]) == unknown, "reserved type");
    let reserved = [3, 0x7f, 1, 0, 0, 0, 0, 0, 0, 0, 0, 0];
    let unknown = Some(ControlError::UnknownChannelType(0x7f));
    assert!(rt; error_of(&reserved) == unknown, "reserved channel type");
}

#[test]
fn each_cut_is_refused(rt: HostRuntime) {
    for length in 1..14usize {
        let cut = error_of(&PLAIN[..length]);
        assert!(rt; cut == Some(ControlError::CutOff), "{length} bytes");
    }
    assert!(rt; error_of(&PLAIN) == None, "whole");
}
