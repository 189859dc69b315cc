//! Resets of streams (RFC 6525, section 5.1.2), and of the whole queue.

use crate::send_queue::script::run;

#[test]
fn resets_go_as_worked_out_by_hand(rt: HostRuntime) {
    run(&rt, TEXT);
}

const TEXT: &str = "\
# a stream that was never used can be prepared
begin 0 0
state 1 has-ready 0
prepare 7
state 1 has-ready 1
hand-out 9 [7]
state 1 has-ready 0
hand-out 9 []

# messages that are not begun are dropped
begin 1 0
name 5
add 1 ab
add 1 cd
name 6
add 1 ef
fragment 1 stream 1 a
prepare 1
tells OnBufferedAmountLow(1)
tells OnLifecycleMessageExpired(6)
tells OnLifecycleEnd(6)
tells
state 1 amount 1 total 1
state 1 has-ready 0
state 1 has-data 1
fragment 9 stream 1 b
state 1 has-ready 1
state 1 has-data 0

# a paused stream takes messages and gives none
begin 0 0
add 1 x
fragment 9 stream 1 x
prepare 1
add 1 y
state 1 amount 1 total 1
fragment 1 size 0
prepare 1
state 1 amount 1 total 1
hand-out 9 [1]
fragment 1 size 0
commit
fragment 9 stream 1 ssn 0 mid 0 fsn 0

# message identifiers go on where a reset failed, and begin at 0 where it was done
begin 0 0
interleave
add 1 x
unordered
add 1 x
fragment 9 stream 1 mid 0 fsn 0
fragment 9 stream 1 mid 0 fsn 0
prepare 1
add 1 y
unordered
add 1 y
hand-out 9 [1]
roll-back
fragment 9 stream 1 mid 1 fsn 0
fragment 9 stream 1 mid 1 fsn 0
prepare 1
add 1 z
unordered
add 1 z
hand-out 9 [1]
commit
fragment 9 stream 1 mid 0 fsn 0
fragment 9 stream 1 mid 0 fsn 0

# numbers go on where a reset failed
begin 0 0
add 1 x
unordered
add 1 x
fragment 9 stream 1 ssn 0 mid 0 fsn 0
fragment 9 stream 1 ssn 0 mid 0 fsn 0
prepare 1
add 1 y
unordered
add 1 y
hand-out 9 [1]
roll-back
fragment 9 stream 1 ssn 1 mid 0 fsn 0
fragment 9 stream 1 ssn 0 mid 0 fsn 0

# the least streams are handed out first
begin 0 0
prepare 9
prepare 2
prepare 65535
prepare 4
prepare 0
hand-out 0 []
hand-out 2 [0, 2]
roll-back
hand-out 9 [4, 9, 65535]

# a commit is of the streams that are handed out alone
begin 0 0
add 1 x
fragment 9 stream 1 ssn 0 mid 0 fsn 0
add 2 x
fragment 9 stream 2 ssn 0 mid 0 fsn 0
add 3 x
fragment 9 stream 3 ssn 0 mid 0 fsn 0
prepare 1
hand-out 9 [1]
prepare 2
add 1 y
add 2 y
add 3 y
commit
fragment 9 stream 1 ssn 0 mid 0 fsn 0
fragment 9 stream 3 ssn 1 mid 0 fsn 0
fragment 1 size 0
hand-out 9 [2]

# a new association begins all again
begin 0 0
add 1 x
fragment 9 stream 1 x
add 1 abc
add 1 d
prepare 3
prepare 2
hand-out 1 [2]
add 2 e
fragment 2 stream 1 ssn 1 mid 0 fsn 0
tells OnBufferedAmountLow(1)
tells OnTotalBufferedAmountLow
tells
state 1 amount 2 total 3
reset
tells
state 1 amount 4 total 5
state 1 has-ready 0
fragment 2 stream 1 ssn 0 mid 0 fsn 0
fragment 2 stream 1 c
fragment 2 stream 1 d
fragment 2 stream 2 ssn 0 mid 0 fsn 0
commit
add 2 f
fragment 2 stream 2 ssn 1 mid 0 fsn 0
";
