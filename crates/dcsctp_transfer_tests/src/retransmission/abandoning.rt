//! Messages that are abandoned (RFC 3758).

use crate::retransmission::script::run;

#[test]
fn messages_are_given_up_as_worked_out_by_hand(rt: HostRuntime) {
    run(&rt, TEXT);
}

const TEXT: &str = "\
# a message is sent again as often as it may
begin 10 8000 1 0
times 1
name 41
add 3 100
send 1000 [10]
now 1000
time-out is-over 1
forward due 0
send 1000 [10]
now 3000
time-out is-over 1
send 1000 []
state unacked 0
tells OnBufferedAmountLow(3)
tells OnLifecycleMessageFullySent(41)
tells OnLifecycleMessageMaybeExpired(41)
tells OnLifecycleEnd(41)
forward due 1
skip ForwardTsn { new_cumulative_tsn: 10, skipped: Streams([SkippedStream { stream_id: 3, ssn: 0 }]) }
now 3100
sack 10 100000 valid 1
tells
forward due 0
state has-timer 0

# a message is given up with its rest
begin 10 8000 1 0
times 0
name 41
add 3 3000
add 4 100
send 1000 [10]
now 1000
time-out is-over 1
forward due 1
# a message is given up with its rest: The rest never went out: 11 stands for the end of the message
tells OnBufferedAmountLow(3)
tells OnLifecycleMessageExpired(41)
tells OnLifecycleEnd(41)
tells
state next-tsn 12
state unacked 0
skip ForwardTsn { new_cumulative_tsn: 11, skipped: Streams([SkippedStream { stream_id: 3, ssn: 0 }]) }
send 1000 [12]

# a message is abandoned though the windows are full
# a message is abandoned though the windows are full: The timeout leaves a congestion window of 1,000. What was sent first fills it, and the packet. The other message may not be sent again
begin 100 8000 1 0
add 3 984
times 0
name 7
add 4 984
send 1000 [100]
send 1000 [101]
tells OnBufferedAmountLow(3)
tells OnBufferedAmountLow(4)
tells OnLifecycleMessageFullySent(7)
tells
now 1000
time-out is-over 1
state cwnd 1000
forward due 0
tells
send 1000 [100]
tells OnLifecycleMessageMaybeExpired(7)
tells OnLifecycleEnd(7)
tells
send 1000 []
sack 100 100000 valid 1
forward due 1
skip ForwardTsn { new_cumulative_tsn: 101, skipped: Streams([SkippedStream { stream_id: 4, ssn: 0 }]) }

# a message is given up after its lifetime
begin 10 8000 1 0
lifetime 1000
name 5
add 3 100
send 1000 [10]
now 5000
forward due 0
now 1000
time-out is-over 1
forward due 0
begin 10 8000 1 0
lifetime 999
name 5
add 3 100
send 1000 [10]
now 5000
forward due 0
now 1000
time-out is-over 1
forward due 1

# nothing is given up unless it was negotiated
begin 10 8000 0 0
times 0
name 41
add 3 100
send 1000 [10]
now 1000
time-out is-over 1
forward due 0
send 1000 [10]

# a row of skipped items ends at one that is awaited
begin 10 8000 1 0
times 0
name 41
add 3 100
times 0
name 42
add 5 100
times 0
name 43
add 3 100
add 4 100
times 0
name 44
add 3 100
send 1000 [10, 11, 12, 13, 14]
# a row of skipped items ends at one that is awaited: 13 has arrived: the row of those that are given up ends before it
now 10
sack-block 4 4 9 100000 valid 1
now 1000
time-out is-over 1
forward due 1
skip ForwardTsn { new_cumulative_tsn: 12, skipped: Streams([SkippedStream { stream_id: 3, ssn: 2 }]) }
skip-bytes [0, 3, 0, 2]
now 1010
sack 13 100000 valid 1
forward due 1
skip ForwardTsn { new_cumulative_tsn: 14, skipped: Streams([SkippedStream { stream_id: 5, ssn: 0 }]) }

# what was given up is acknowledged once, by the cumulative TSN or by a block
begin 10 8000 1 0
times 0
add 3 100
times 0
add 3 100
times 0
add 3 100
send 1000 [10, 11, 12]
now 1000
time-out is-over 1
forward due 1
now 1010
sack-block 2 2 9 100000 valid 1
state is-new 1
sack-block 2 2 9 100000 valid 1
state is-new 0
sack 10 100000 valid 1
state is-new 1
sack 10 100000 valid 1
state is-new 0
sack 11 100000 valid 1
state is-new 0
sack 12 100000 valid 1
state is-new 1
sack 12 100000 valid 1
state is-new 0

# what a block reported before it was given up is acknowledged already
begin 10 8000 1 0
times 0
add 3 1500
send 1000 [10]
send 1000 [11]
sack-block 2 2 9 100000 valid 1
state is-new 1
now 1000
time-out is-over 1
forward due 1
skip ForwardTsn { new_cumulative_tsn: 11, skipped: Streams([SkippedStream { stream_id: 3, ssn: 0 }]) }
sack 10 100000 valid 1
state is-new 1
sack 11 100000 valid 1
state is-new 0

# no forward tsn reaches across a reset
begin 10 8000 1 0
times 0
name 41
add 3 100
send 1000 [10]
begin-reset
times 0
name 42
add 3 100
send 1000 [11]
now 1000
time-out is-over 1
forward due 1
skip ForwardTsn { new_cumulative_tsn: 10, skipped: Streams([SkippedStream { stream_id: 3, ssn: 0 }]) }
now 1010
sack 10 100000 valid 1
forward due 1
skip ForwardTsn { new_cumulative_tsn: 11, skipped: Streams([SkippedStream { stream_id: 3, ssn: 1 }]) }

# interleaved messages are skipped by their identifiers
begin 10 8000 1 1
times 0
name 41
add 3 100
unordered
times 0
name 42
add 3 100
send 1000 [10, 11]
now 1000
time-out is-over 1
forward due 1
# interleaved messages are skipped by their identifiers: Stream, U and message identifier: ordered and unordered messages are counted apart, from 0
skip ForwardTsn { new_cumulative_tsn: 11, skipped: Messages([SkippedMessages { stream_id: 3, is_unordered: false, mid: 0 }, SkippedMessages { stream_id: 3, is_unordered: true, mid: 0 }]) }
# interleaved messages are skipped by their identifiers: The same in eight bytes each (RFC 8260, section 2.3.1)
skip-bytes [0, 3, 0, 0, 0, 0, 0, 0, 0, 3, 0, 1, 0, 0, 0, 0]
";
