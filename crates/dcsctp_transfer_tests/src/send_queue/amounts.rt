//! Amounts, thresholds, and the events that follow a message.

use crate::send_queue::script::run;

#[test]
fn amounts_and_events_are_as_worked_out_by_hand(rt: HostRuntime) {
    run(&rt, TEXT);
}

const TEXT: &str = "\
# amounts are what neither left nor was dropped
begin 0 0
state 1 amount 0 total 0
add 1 abcdef
add 2 gh
state 1 amount 6 total 8
fragment 4 stream 1 abcd
state 1 amount 2 total 4
fragment 4 stream 1 ef
state 1 amount 0 total 2
state 2 amount 2 total 2

# an amount that falls to its threshold is told once
begin 3 1
add 1 abcdef
tells
fragment 2 stream 1 ab
tells
fragment 1 stream 1 c
tells OnBufferedAmountLow(1)
tells
fragment 3 stream 1 def
tells OnTotalBufferedAmountLow
tells

# the stream is told before the total and both before the message
begin 0 0
name 17
add 4 ab
fragment 2 stream 4 ab
tells OnBufferedAmountLow(4)
tells OnTotalBufferedAmountLow
tells OnLifecycleMessageFullySent(17)
tells

# a message is fully sent with its last fragment
begin 9 9
name 17
add 4 ab
fragment 1 stream 4 a
tells
fragment 1 stream 4 b
tells OnLifecycleMessageFullySent(17)
tells

# a threshold of its own tells nothing by itself
begin 5 0
state 1 threshold 5
add 1 abcdef
threshold 1 8
state 1 threshold 8
tells
fragment 1 stream 1 a
tells
threshold 1 4
fragment 1 stream 1 b
tells OnBufferedAmountLow(1)
tells

# expired messages are told as they are dropped
begin 0 0
lifetime 5
name 8
add 1 ab
lifetime 5
add 2 cd
now 6
fragment 9 size 0
tells OnBufferedAmountLow(1)
tells OnLifecycleMessageExpired(8)
tells OnLifecycleEnd(8)
tells OnBufferedAmountLow(2)
tells OnTotalBufferedAmountLow
tells

# only the message under way can be discarded
begin 0 0
name 8
add 1 abc
add 1 de
discard 1 0 done 0
fragment 1 stream 1
discard 2 0 done 0
discard 1 1 done 0
discard 1 0 done 1
discard 1 0 done 0
state 1 amount 2 total 2
tells OnLifecycleMessageExpired(8)
tells OnLifecycleEnd(8)
tells
fragment 9 stream 1 ssn 1 mid 0 fsn 0
";
