//! What is in flight, handed over to another process.

use crate::retransmission::script::run;

#[test]
fn what_is_in_flight_is_handed_over_as_worked_out_by_hand(rt: HostRuntime) {
    run(&rt, TEXT);
}

const TEXT: &str = "\
# each item is handed over as far as it is
# each item is handed over as far as it is: The first TSN is the greatest. A payload of 4 bytes makes a chunk of 20, the others make chunks of 24
begin 4294967295 20000 1 0
lifetime 600
add 3 4
lifetime 5000
name 41
add 4 5
times 2
add 5 6
unordered
add 6 7
send 1000 [4294967295, 0, 1, 2]
now 100
sack-block 4 4 4294967294 30000 valid 1
now 1000
time-out is-over 1
# each item is handed over as far as it is: The first is over and so abandoned, the second goes out again, and the third doesn't fit
send 24 [0]
now 1500
hand-over 1
snapshot next-tsn 3 cwnd 1000 rwnd 30000 ssthresh 4000 partial-bytes 0 last-ack 4294967294 items 4
part 0 stream 3 ssn 0 mid 0 fsn 0 ppid 51 size 4 begins 1 ends 1 is-unordered 0 message 0 name 0 times 65535 again 0 ago 1500 acked 0 abandoned 1 nacked 0 lost 0
part 1 stream 4 ssn 0 mid 0 fsn 0 ppid 51 size 5 begins 1 ends 1 is-unordered 0 message 1 name 41 times 65535 again 1 ago 1500 acked 0 abandoned 0 nacked 0 lost 0
part 2 stream 5 ssn 0 mid 0 fsn 0 ppid 51 size 6 begins 1 ends 1 is-unordered 0 message 2 name 0 times 2 again 0 ago 1500 acked 0 abandoned 0 nacked 1 lost 1
part 3 stream 6 ssn 0 mid 0 fsn 0 ppid 51 size 7 begins 1 ends 1 is-unordered 1 message 3 name 0 times 65535 again 0 ago 1500 acked 1 abandoned 0 nacked 0 lost 0
part-expires 0 Some(-900)
part-expires 1 Some(3500)
part-expires 2 None
# each item is handed over as far as it is: The other clock shows 70 seconds, and 24 bytes are in flight
restore 70000 1 0
state cwnd 1000 rwnd 29976 next-tsn 3 last-tsn 2 unacked 2 rtx-packets 0 rtx-bytes 0 can-send 1 has-fast 0 has-timer 1 expires 71000
chunk 4294967295 stream 3 fsn 0 size 4 begins 1 ends 1
chunk 1 stream 5 fsn 0 size 6 begins 1 ends 1
chunk 3 size 0
hand-over 1
snapshot next-tsn 3 cwnd 1000 rwnd 30000 ssthresh 4000 partial-bytes 0 last-ack 4294967294 items 4
part 0 stream 3 name 0 times 65535 again 0 ago 1500 acked 0 abandoned 1 nacked 0 lost 0
part 1 stream 4 name 41 times 65535 again 1 ago 1500 acked 0 abandoned 0 nacked 0 lost 0
part 2 stream 5 name 0 times 2 again 0 ago 1500 acked 0 abandoned 0 nacked 1 lost 1
part 3 stream 6 name 0 times 65535 again 0 ago 1500 acked 1 abandoned 0 nacked 0 lost 0
part-expires 0 Some(-900)
part-expires 1 Some(3500)
forward due 1
skip ForwardTsn { new_cumulative_tsn: 4294967295, skipped: Streams([SkippedStream { stream_id: 3, ssn: 0 }]) }
send 1000 [1]
state rtx-packets 1 rtx-bytes 24
# each item is handed over as far as it is: Both that this acknowledges were sent more than once, or never arrived
now 70100
sack 0 25000 valid 1
tells OnLifecycleMessageDelivered(41)
tells OnLifecycleEnd(41)
tells
state rwnd 24976 next-tsn 3 unacked 1 has-timer 1 expires 71100 is-new 1 has-rtt 0
sack 2 25000 valid 1
state unacked 0 has-timer 0 is-new 1 has-rtt 0
add 7 4
send 1000 [3]

# the timer runs anew
begin 10 8000 0 0
add 1 100
send 1000 [10]
now 900
hand-over 1
restore 500 0 0
state has-timer 1 expires 1500
now 1499
time-out is-over 0
send 1000 []
now 1500
time-out is-over 1
send 1000 [10]
state next-tsn 11 rtx-packets 1

# the round trip goes on
begin 10 8000 0 0
add 1 100
send 1000 [10]
now 300
hand-over 1
part 0 ago 300
restore 70000 0 0
now 70050
sack 10 8000 valid 1
state unacked 0 has-timer 0 is-new 1 has-rtt 1 rtt 350000000

# a younger clock cuts ages off at its first moment
begin 10 8000 0 0
add 1 100
send 1000 [10]
now 900
hand-over 1
part 0 ago 900
restore 500 0 0
hand-over 1
part 0 ago 500

# a lost item goes out again first
begin 10 8000 0 0
add-many 2 100
send 1000 [10, 11]
now 1000
time-out is-over 1
hand-over 1
restore 0 0 0
state rwnd 8000 unacked 2
add 1 100
send 1000 [10, 11, 12]
state rtx-packets 1 rtx-bytes 232

# numbers go along without data
begin 10 8000 0 0
add 1 100
send 1000 [10]
sack 10 9000 valid 1
hand-over 0
snapshot next-tsn 11 cwnd 4000 rwnd 9000 ssthresh 8000 partial-bytes 0 last-ack 10 items 0
restore 0 0 0
state cwnd 4000 rwnd 9000 next-tsn 11 unacked 0 has-timer 0
add 1 100
send 1000 [11]

# congestion avoidance goes on
# congestion avoidance goes on: The threshold is the peer's first window. A payload of 984 bytes makes a chunk of 1,000
begin 1000 3000 0 0
add-many 2 984
send 1000 [1000]
send 1000 [1001]
sack 1000 50000 valid 1
hand-over 1
snapshot next-tsn 1002 cwnd 4000 rwnd 50000 ssthresh 3000 partial-bytes 1000 last-ack 1000 items 1
restore 0 0 0
hand-over 1
snapshot next-tsn 1002 cwnd 4000 rwnd 50000 ssthresh 3000 partial-bytes 1000 last-ack 1000 items 1
add-many 4 984
send 1000 [1002]
send 1000 [1003]
send 1000 [1004]
send 1000 []
# congestion avoidance goes on: 1,000 bytes from before and 3,000 from now are a whole window
sack 1003 50000 valid 1
state cwnd 5000

# an I-DATA chunk stays one
begin 10 8000 1 1
add 1 4
send 1000 [10]
state rwnd 7976
hand-over 1
restore 0 1 1
state rwnd 7976
";
