//! What another queue does once it is restored from a snapshot.

use crate::send_queue::script::run;

#[test]
fn what_waits_goes_on_as_worked_out_by_hand(rt: HostRuntime) {
    run(&rt, TEXT);
}

const TEXT: &str = "\
# a message under way goes on with its numbers, and the others follow
begin 0 0
add 3 x
fragment 9 stream 3 ssn 0 x
times 4
name 21
add 3 abcdefgh
add 3 next
fragment 3 stream 3 message 1 ssn 1 fsn 0 abc
fragment 2 stream 3 message 1 ssn 1 fsn 1 de
add 1 other
hand-over 1
another 0 0 256
now 7
restore
state 1 amount 5 total 12 has-data 1
state 3 amount 7 total 12
fragment 2 stream 3 message 1 ssn 1 mid 0 fsn 2 begins 0 ends 0 protocol 53 unordered 0 times 4 name 21 fg
fragment 9 stream 3 message 1 ssn 1 mid 0 fsn 3 begins 0 ends 1 protocol 53 unordered 0 times 4 name 21 h
state 3 amount 4 total 9
fragment 9 stream 1 message 3 ssn 0 mid 0 fsn 0 begins 1 ends 1 protocol 53 name 0 other
fragment 9 stream 3 message 2 ssn 2 mid 0 fsn 0 begins 1 ends 1 protocol 53 name 0 next
state 3 amount 0 total 0 has-data 0
fragment 9 size 0
tells OnLifecycleMessageFullySent(21)
tells OnBufferedAmountLow(1)
tells OnBufferedAmountLow(3)
tells OnTotalBufferedAmountLow
tells

# with interleaving its message identifier goes on
begin 0 0
interleave
unordered
add 3 x
fragment 9 stream 3 mid 0 x
unordered
add 3 abcd
unordered
add 3 e
fragment 1 stream 3 message 1 ssn 0 mid 1 fsn 0 a
hand-over 1
another 0 0 256
interleave
restore
fragment 9 stream 3 message 1 ssn 0 mid 1 fsn 1 begins 0 ends 1 unordered 1 bcd
fragment 9 stream 3 message 2 ssn 0 mid 2 fsn 0 begins 1 ends 1 unordered 1 e

# each kind of number goes on, without messages too
begin 0 0
use-up 3
interleave
use-up 2
unordered
add 1 x
fragment 9 stream 1 mid 0 x
add 1 left-behind
hand-over 0
another 0 0 256
restore
state 1 amount 0 total 0 has-data 0
fragment 9 size 0
add 1 a
fragment 9 stream 1 message 7 ssn 3 fsn 0 a
interleave
add 1 b
unordered
add 1 c
fragment 9 stream 1 message 8 mid 2 fsn 0 b
fragment 9 stream 1 message 9 mid 1 fsn 0 c

# the greatest numbers are restored whole
begin 0 0
write next-message 18446744073709551615
write stream id 65535 ssn 65535 mid 4294967295 unordered-mid 4294967294 priority 65535
restore
state 65535 priority 65535
add 65535 a
add 65535 b
fragment 9 stream 65535 message 18446744073709551615 ssn 65535 a
fragment 9 stream 65535 message 0 ssn 0 b
interleave
add 65535 c
unordered
add 65535 d
add 65535 e
fragment 9 stream 65535 mid 4294967295 c
fragment 9 stream 65535 mid 4294967294 d
fragment 9 stream 65535 mid 0 e

# a message whose lifetime is over is never started
begin 0 0
now 10
lifetime 5
name 8
add 1 abc
now 16
add 1 d
hand-over 1
snapshot expires 0 Some(-1)
another 0 0 256
later 1
restore
state 1 amount 4 total 4 has-data 1
fragment 9 stream 1 message 1 ssn 0 d
fragment 9 size 0
tells OnLifecycleMessageExpired(8)
tells OnLifecycleEnd(8)
tells OnBufferedAmountLow(1)
tells OnTotalBufferedAmountLow
tells
another 0 0 256
now 1000
restore
fragment 9 stream 1 message 1 ssn 0 d
fragment 9 size 0

# a message with time left expires by the other clock
begin 0 0
now 500
lifetime 30
add 1 x
now 510
hand-over 1
snapshot expires 0 Some(20)
another 0 0 256
now 5
restore
now 25
fragment 9 stream 1 expires-at-25 1 x
another 0 0 256
now 5
restore
now 25
later 1
fragment 9 size 0
state 1 amount 0 total 0 has-data 0

# a message that was begun goes on though its lifetime is over
begin 0 0
lifetime 5
add 1 abc
fragment 1 stream 1 a
now 100
hand-over 1
snapshot expires 0 Some(-95)
another 0 0 256
now 100
restore
fragment 9 stream 1 message 0 ssn 0 fsn 1 ends 1 bc

# no limit, no lifetime and no name are none again, and the greatest limit is too
begin 0 0
add 1 a
times 65535
add 1 b
times 65534
name 18446744073709551615
add 1 c
times 0
add 1 d
hand-over 1
snapshot message 0 times 65535 name 0 a
snapshot message 1 times 65535 name 0 b
snapshot message 2 times 65534 name 18446744073709551615 c
snapshot message 3 times 0 name 0 d
another 9 9 256
now 9000
restore
now 4000000000
fragment 9 stream 1 has-limit 0 name 0 a
fragment 9 stream 1 has-limit 0 name 0 b
fragment 9 stream 1 times 65534 has-limit 1 name 18446744073709551615 c
fragment 9 stream 1 times 0 has-limit 1 name 0 d
tells OnLifecycleMessageFullySent(18446744073709551615)
tells

# streams that are named have their priorities, others keep theirs, and thresholds stay
begin 11 22
priority 2 10
threshold 2 33
add 4 x
hand-over 0
another 44 55 600
priority 2 700
priority 3 800
threshold 2 66
restore
state 2 threshold 66 priority 10
state 3 threshold 44 priority 800
state 4 threshold 44 priority 256
state 5 threshold 44 priority 600
add 2 a
add 3 b
add 4 c
add 5 d
fragment 9 stream 3 b
fragment 9 stream 5 d
fragment 9 stream 4 c
fragment 9 stream 2 a

# messages that are restored leave in the order of the priorities
begin 0 0
add 1 a
add 2 b
add 3 c
priority 3 300
priority 1 100
hand-over 1
another 0 0 256
restore
fragment 9 stream 3 c
fragment 9 stream 2 b
fragment 9 stream 1 a

# amounts fall to the thresholds of the other queue
begin 0 0
add 1 abcd
fragment 1 stream 1 a
hand-over 1
another 2 1 256
restore
state 1 amount 3 total 3
fragment 1 stream 1 b
tells OnBufferedAmountLow(1)
tells
fragment 1 stream 1 c
tells OnTotalBufferedAmountLow
tells

# what waited in the other queue is dropped, and its numbers and pauses end
begin 0 0
add 5 new
hand-over 1
another 0 0 256
add 1 abc
fragment 9 stream 1 ssn 0 abc
tells OnBufferedAmountLow(1)
tells OnTotalBufferedAmountLow
add 1 de
add 2 f
add 5 g
fragment 1 stream 1 ssn 1 d
prepare 7
state 5 amount 1 total 3 has-data 1 has-ready 1
restore
state 1 amount 0 total 3 has-data 1 has-ready 0
state 2 amount 0
state 5 amount 3
tells
hand-out 9 []
fragment 9 stream 5 message 0 ssn 0 new
fragment 9 size 0
add 1 h
add 7 i
fragment 9 stream 1 message 1 ssn 0 h
fragment 9 stream 7 message 2 ssn 0 i

# of two messages that were begun the first goes on, and the other begins again
begin 0 0
write next-message 9
write stream id 2 ssn 3 mid 0 unordered-mid 0 priority 256
write stream id 4 ssn 6 mid 0 unordered-mid 0 priority 256
write message stream 4 message 7 sent 1 ssn 5 mid 8 fsn 1 fghi
write message stream 2 message 5 sent 2 ssn 2 mid 8 fsn 1 abcde
restore
state 4 amount 3 total 8
state 2 amount 5 total 8
fragment 9 stream 4 message 7 ssn 5 mid 8 fsn 1 begins 0 ends 1 ghi
fragment 2 stream 2 message 5 ssn 3 mid 0 fsn 0 begins 1 ends 0 ab
fragment 9 stream 2 message 5 ssn 3 mid 0 fsn 1 begins 0 ends 1 cde
add 4 j
fragment 9 stream 4 message 9 ssn 6 j

# a message behind another begins again, and one of another stream goes on
begin 0 0
write message stream 2 message 0 sent 0 ssn 0 mid 0 fsn 0 abc
write message stream 2 message 1 sent 2 ssn 8 mid 9 fsn 4 defg
write message stream 3 message 2 sent 1 ssn 8 mid 9 fsn 4 hij
restore
state 2 amount 7 total 9
state 3 amount 2 total 9
fragment 9 stream 3 message 2 ssn 8 mid 9 fsn 4 begins 0 ends 1 ij
fragment 9 stream 2 message 0 ssn 0 mid 0 fsn 0 begins 1 ends 1 abc
fragment 9 stream 2 message 1 ssn 1 mid 0 fsn 0 begins 1 ends 1 defg
fragment 9 size 0

# what is left of a message that goes on can be discarded
begin 0 0
add 1 abcde
add 1 fg
fragment 2 stream 1 ab
hand-over 1
another 0 0 256
restore
state 1 amount 5 total 5
discard 1 1 done 0
discard 1 0 done 1
state 1 amount 2 total 2
fragment 9 stream 1 message 1 ssn 1 fsn 0 fg
";
