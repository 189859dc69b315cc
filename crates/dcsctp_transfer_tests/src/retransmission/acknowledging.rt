//! SACKs: those that are taken and those that aren't, gaps, and the wrap of TSNs.

use crate::retransmission::script::run;

#[test]
fn sacks_are_taken_as_worked_out_by_hand(rt: HostRuntime) {
    run(&rt, TEXT);
}

const TEXT: &str = "\
# stale and impossible ones change nothing: the one before the first
begin 1000 8000 1 0
add-many 3 984
send 1000 [1000]
send 1000 [1001]
send 1000 [1002]
send 1000 []
now 5
sack 999 5000 valid 1
state rwnd 2000 unacked 3

# stale and impossible ones change nothing: behind
begin 1000 8000 1 0
add-many 3 984
send 1000 [1000]
send 1000 [1001]
send 1000 [1002]
send 1000 []
now 5
sack 998 5000 valid 0
state rwnd 5000 unacked 3

# stale and impossible ones change nothing: the last
begin 1000 8000 1 0
add-many 3 984
send 1000 [1000]
send 1000 [1001]
send 1000 [1002]
send 1000 []
now 5
sack 1002 5000 valid 1
state rwnd 5000 unacked 0

# stale and impossible ones change nothing: never sent
begin 1000 8000 1 0
add-many 3 984
send 1000 [1000]
send 1000 [1001]
send 1000 [1002]
send 1000 []
now 5
sack 1003 5000 valid 0
state rwnd 5000 unacked 3

# stale and impossible ones change nothing: far ahead
begin 1000 8000 1 0
add-many 3 984
send 1000 [1000]
send 1000 [1001]
send 1000 [1002]
send 1000 []
now 5
sack 2147483648 5000 valid 0
state rwnd 5000 unacked 3

# stale and impossible ones change nothing: across the wrap
begin 4294967295 8000 1 0
add-many 3 984
send 1000 [4294967295]
send 1000 [0]
send 1000 [1]
send 1000 []
now 5
sack 1 5000 valid 1
state rwnd 5000 unacked 0

# stale and impossible ones change nothing: behind the wrap
begin 0 8000 1 0
add-many 3 984
send 1000 [0]
send 1000 [1]
send 1000 [2]
send 1000 []
now 5
sack 4294967295 5000 valid 1
state rwnd 2000 unacked 3

# stale and impossible ones change nothing: two behind the wrap
begin 0 8000 1 0
add-many 3 984
send 1000 [0]
send 1000 [1]
send 1000 [2]
send 1000 []
now 5
sack 4294967294 5000 valid 0
state rwnd 5000 unacked 3

# gaps are acknowledged for good
begin 4294967294 8000 1 0
add-many 4 984
send 1000 [4294967294]
send 1000 [4294967295]
send 1000 [0]
send 1000 [1]
send 1000 []
state next-tsn 2
state last-tsn 1
# gaps are acknowledged for good: TSNs -2, -1, 0, 1: 0 arrives first
now 30
sack-block 3 3 4294967293 100000 valid 1
state has-rtt 1 rtt 30000000
state is-new 1
state unacked 3
state rwnd 97000
state has-timer 1 expires 1000
now 40
sack-block 3 3 4294967293 100000 valid 1
state has-rtt 0
state is-new 0
now 50
sack 4294967293 100000 valid 1
state unacked 3
now 60
sack-block 2 900 4294967294 100000 valid 1
state unacked 1
state has-timer 1 expires 1060
now 70
sack 1 100000 valid 1
state unacked 0
state has-timer 0

# round trips are those of chunks sent once
begin 1 8000 1 0
add-many 3 984
send 1000 [1]
send 1000 [2]
send 1000 [3]
send 1000 []
now 300
sack 1 100000 valid 1
state has-rtt 1 rtt 300000000
now 2000
time-out is-over 1
send 1000 [2]
now 2200
sack 2 100000 valid 1
state has-rtt 0
state is-new 1
now 2300
sack 3 100000 valid 1
state has-rtt 0

# the end of a message tells that it was delivered
begin 1 8000 1 0
times 9
name 41
add 1 1500
times 9
name 42
add 1 100
send 1000 [1]
send 1000 [2, 3]
tells OnLifecycleMessageFullySent(41)
tells OnBufferedAmountLow(1)
tells OnLifecycleMessageFullySent(42)
now 10
sack-block 2 2 1 100000 valid 1
tells
now 20
sack 3 100000 valid 1
tells OnLifecycleMessageDelivered(41)
tells OnLifecycleEnd(41)
tells OnLifecycleMessageDelivered(42)
tells OnLifecycleEnd(42)
tells

# chunks are what was given
begin 4294967295 8000 1 0
times 9
name 41
add 7 1500
send 1000 [4294967295]
send 1000 [0]
chunk 4294967295 stream 7 fsn 0 size 984 begins 1 ends 0
chunk 0 stream 7 fsn 1 size 516 begins 0 ends 1
chunk 1 size 0
chunk 4294967294 size 0
";
