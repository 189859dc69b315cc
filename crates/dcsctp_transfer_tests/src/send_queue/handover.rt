//! What a snapshot has of a queue.

use crate::send_queue::script::run;

#[test]
fn snapshots_have_what_was_worked_out_by_hand(rt: HostRuntime) {
    run(&rt, TEXT);
}

const TEXT: &str = "\
# what a snapshot had before is replaced
begin 0 0
write next-message 9
write stream id 1 ssn 2 mid 3 unordered-mid 4 priority 5
write message stream 1 message 8 sent 0 ssn 0 mid 0 fsn 0 x
snapshot has next-message 9 streams 1 messages 1
hand-over 1
snapshot has next-message 0 streams 0 messages 0

# messages are given by stream, and in their order there
begin 0 0
add 7 first
unordered
times 3
name 21
add 2 second
add 7 third
hand-over 1
snapshot has next-message 3 streams 2 messages 3
snapshot stream 0 id 2 ssn 0 mid 0 unordered-mid 0 priority 256
snapshot stream 1 id 7 ssn 0 mid 0 unordered-mid 0 priority 256
snapshot message 0 stream 2 protocol 53 message 1 sent 0 has-ssn 0 has-mid 0 fsn 0 unordered 1 times 3 name 21 second
snapshot message 1 stream 7 protocol 53 message 0 sent 0 has-ssn 0 has-mid 0 fsn 0 unordered 0 times 65535 name 0 first
snapshot message 2 stream 7 protocol 53 message 2 sent 0 has-ssn 0 has-mid 0 fsn 0 unordered 0 times 65535 name 0 third
snapshot expires 0 None

# the message under way says how far it has come
begin 0 0
add 3 x
fragment 9 stream 3 ssn 0 x
add 3 abcdefgh
add 3 next
fragment 3 stream 3 ssn 1 fsn 0 abc
fragment 2 stream 3 ssn 1 fsn 1 de
add 1 other
hand-over 1
snapshot has next-message 4 streams 2 messages 3
snapshot stream 0 id 1 ssn 0 mid 0 unordered-mid 0
snapshot stream 1 id 3 ssn 2 mid 0 unordered-mid 0
snapshot message 0 stream 1 message 3 sent 0 has-ssn 0 has-mid 0 fsn 0 other
snapshot message 1 stream 3 message 1 sent 5 has-ssn 1 ssn 1 has-mid 1 mid 0 fsn 2 abcdefgh
snapshot message 2 stream 3 message 2 sent 0 has-ssn 0 has-mid 0 fsn 0 next

# with interleaving it says its message identifier
begin 0 0
interleave
add 3 x
fragment 9 stream 3 mid 0 x
unordered
add 3 y
fragment 9 stream 3 mid 0 y
add 3 z
fragment 9 stream 3 mid 1 z
unordered
add 3 abc
fragment 1 stream 3 mid 1 fsn 0 a
hand-over 1
snapshot has next-message 4 streams 1 messages 1
snapshot stream 0 id 3 ssn 0 mid 2 unordered-mid 2
snapshot message 0 stream 3 message 3 sent 1 has-ssn 1 ssn 0 has-mid 1 mid 1 fsn 1 unordered 1 abc

# without messages it has the numbers and the priorities
begin 0 0
priority 5 300
add 3 abc
add 3 d
fragment 1 stream 3 a
hand-over 0
snapshot has next-message 2 streams 2 messages 0
snapshot stream 0 id 3 ssn 1 mid 0 unordered-mid 0 priority 256
snapshot stream 1 id 5 ssn 0 mid 0 unordered-mid 0 priority 300

# milliseconds ahead are rounded down, and those behind up
begin 0 0
lifetime 2
add 1 x
hand-over 1
snapshot expires 0 Some(2)
later 1
hand-over 1
snapshot expires 0 Some(1)
now 1
hand-over 1
snapshot expires 0 Some(1)
later 1
hand-over 1
snapshot expires 0 Some(0)
now 2
hand-over 1
snapshot expires 0 Some(0)
later 1
hand-over 1
snapshot expires 0 Some(-1)
now 3
hand-over 1
snapshot expires 0 Some(-1)
later 1
hand-over 1
snapshot expires 0 Some(-2)

# milliseconds stop at the least and the greatest number of 32 bits
begin 0 0
lifetime 2147483646
add 1 a
lifetime 2147483647
add 1 b
lifetime 2147483648
add 1 c
lifetime 0
add 1 d
hand-over 1
snapshot expires 0 Some(2147483646)
snapshot expires 1 Some(2147483647)
snapshot expires 2 Some(2147483647)
snapshot expires 3 Some(0)
now 2147483647
hand-over 1
snapshot expires 3 Some(-2147483647)
now 2147483648
hand-over 1
snapshot expires 3 Some(-2147483648)
now 2147483649
hand-over 1
snapshot expires 3 Some(-2147483648)
";
