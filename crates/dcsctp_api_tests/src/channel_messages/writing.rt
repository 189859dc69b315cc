//! What is written.

use dcsctp_channel_messages::channel_spec::{Delivery, Reliability};
use dcsctp_channel_messages::{OpenMessage, write_ack, write_open};

#[test]
fn opens_are_written(rt: HostRuntime) {
    let message = OpenMessage {
        label: b"a",
        protocol: b"p",
        delivery: Delivery {
            ordered: false,
            reliability: Reliability::Lifetime(3000),
            priority: 512,
        },
    };
    let expected = [3u8, 0x82, 2, 0, 0, 0, 11, 184, 0, 1, 0, 1, 97, 112];
    match write_open(rt.alloc(), &message) {
        Ok(bytes) => assert!(rt;
            bytes.as_slice() == expected.as_slice(),
            "unordered, 3,000 ms"
        ),
        Err(_) => assert!(rt; false, "out of memory"),
    }
}

#[test]
fn acks_are_written(rt: HostRuntime) {
    match write_ack(rt.alloc()) {
        Ok(bytes) => assert!(rt; bytes.as_slice() == [2u8].as_slice(), "one byte"),
        Err(_) => assert!(rt; false, "out of memory"),
    }
}
