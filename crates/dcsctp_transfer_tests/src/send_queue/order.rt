//! Which message is sent next, in which fragments and with which numbers.

use crate::send_queue::script::run;

#[test]
fn messages_leave_in_the_order_worked_out_by_hand(rt: HostRuntime) {
    run(&rt, TEXT);
}

const TEXT: &str = "\
# an empty queue gives nothing
begin 0 0
state 1 has-data 0
fragment 1 size 0
tells

# messages of a stream leave in order
begin 0 0
add 1 first
add 1 second
state 1 has-data 1
fragment 100 stream 1 first
fragment 6 stream 1 second
state 1 has-data 0
fragment 1 size 0

# the least stream of greatest priority is first
begin 0 0
add 7 x
add 3 x
add 5 x
add 9 x
add 1 x
priority 5 300
priority 9 300
priority 3 10
priority 2 400
fragment 100 stream 5 x
fragment 100 stream 9 x
fragment 100 stream 1 x
fragment 100 stream 7 x
fragment 100 stream 3 x
fragment 1 size 0

# streams of equal priority take turns by the RFC
begin 0 0 by-rfc
add 1 a
add 1 b
add 1 c
add 2 d
add 2 e
add 2 f
fragment 9 stream 1 ssn 0 a
fragment 9 stream 2 ssn 0 d
fragment 9 stream 1 ssn 1 b
fragment 9 stream 2 ssn 1 e
fragment 9 stream 1 ssn 2 c
fragment 9 stream 2 ssn 2 f
fragment 9 size 0

# a stream of greater priority is first by the RFC too
begin 0 0 by-rfc
priority 3 257
add 1 a
add 1 b
add 2 c
add 2 d
fragment 9 stream 1 a
add 3 e
add 3 f
fragment 9 stream 3 e
fragment 9 stream 3 f
fragment 9 stream 2 c
fragment 9 stream 1 b
fragment 9 stream 2 d

# without that the least stream sends all before the next
begin 0 0
priority 3 257
add 1 a
add 1 b
add 1 c
add 2 d
add 2 e
add 2 f
add 3 g
fragment 9 stream 3 g
fragment 9 stream 1 a
fragment 9 stream 1 b
fragment 9 stream 1 c
fragment 9 stream 2 d
fragment 9 stream 2 e
fragment 9 stream 2 f

# a turn is a whole message
begin 0 0 by-rfc
add 1 abc
add 1 d
add 2 ef
fragment 1 stream 1 a
fragment 1 stream 1 b
fragment 1 stream 1 c
fragment 1 stream 2 e
fragment 1 stream 2 f
fragment 1 stream 1 d

# a stream keeps its last turn while it has no message, and one that had none is first
begin 0 0 by-rfc
add 2 a
fragment 9 stream 2 a
add 1 b
fragment 9 stream 1 b
add 1 c
add 2 d
add 9 e
fragment 9 stream 9 e
fragment 9 stream 2 d
fragment 9 stream 1 c

# a message that expired takes no turn
begin 0 0 by-rfc
lifetime 5
add 1 a
add 1 b
add 2 c
now 6
fragment 9 stream 1 b
fragment 9 stream 2 c

# a priority stays where there is none of its own
begin 0 0
state 3 priority 256
priority 3 7
state 3 priority 7
state 4 priority 256

# a message under way goes on before any other
begin 0 0
interleave
add 5 abcdefgh
fragment 3 stream 5 abc
add 1 x
priority 1 999
fragment 3 stream 5 def
fragment 3 stream 5 gh
fragment 3 stream 1 x

# fragments are marked and counted
begin 0 0
add 2 0
now 5
unordered
lifetime 20
times 3
add 2 abcde
now 0
fragment 100 stream 2 0
now 9
fragment 2 message 1 ssn 0 mid 0 fsn 0 size 2 begins 1 ends 0 protocol 53 unordered 1 times 3 expires-at-25 1
fragment 1 message 1 ssn 0 mid 0 fsn 1 size 1 begins 0 ends 0 protocol 53 unordered 1 times 3 expires-at-25 1
fragment 3 message 1 ssn 0 mid 0 fsn 2 size 2 begins 0 ends 1 protocol 53 unordered 1 times 3 expires-at-25 1

# without interleaving the stream sequence numbers of ordered messages count alone
begin 0 0
add 1 a
unordered
add 1 b
add 1 cc
unordered
add 1 d
add 2 e
fragment 1 stream 1 ssn 0 mid 0 fsn 0
fragment 1 stream 1 ssn 0 mid 0 fsn 0
fragment 1 stream 1 ssn 1 mid 0 fsn 0
fragment 1 stream 1 ssn 1 mid 0 fsn 1
fragment 1 stream 1 ssn 0 mid 0 fsn 0
fragment 1 stream 2 ssn 0 mid 0 fsn 0

# with interleaving message identifiers count alone, those of ordered and of unordered messages apart
begin 0 0
interleave
add 1 a
unordered
add 1 b
add 1 cc
unordered
add 1 d
add 2 e
fragment 1 stream 1 ssn 0 mid 0 fsn 0
fragment 1 stream 1 ssn 0 mid 0 fsn 0
fragment 1 stream 1 ssn 0 mid 1 fsn 0
fragment 1 stream 1 ssn 0 mid 1 fsn 1
fragment 1 stream 1 ssn 0 mid 1 fsn 0
fragment 1 stream 2 ssn 0 mid 0 fsn 0

# stream sequence numbers wrap and message identifiers go on
begin 0 0
use-up 65535
add 1 x
fragment 1 stream 1 ssn 65535 fsn 0
add 1 x
fragment 1 stream 1 ssn 0 fsn 0
interleave
use-up 65535
add 1 x
fragment 1 stream 1 mid 65535 fsn 0
add 1 x
fragment 1 stream 1 mid 65536 fsn 0

# each kind goes on where it stood when it counted last
begin 0 0
add 1 a
add 1 b
fragment 9 stream 1 ssn 0 a
fragment 9 stream 1 ssn 1 b
interleave
add 1 c
unordered
add 1 d
fragment 9 stream 1 mid 0 c
fragment 9 stream 1 mid 0 d
interleave
add 1 e
fragment 9 stream 1 mid 1 e
interleave-no-more
add 1 f
fragment 9 stream 1 ssn 2 f
interleave
add 1 g
unordered
add 1 h
fragment 9 stream 1 mid 2 g
fragment 9 stream 1 mid 1 h

# the rest of a message has a number of its own where the other kind counts
begin 0 0
add 1 ab
add 1 c
fragment 1 stream 1 ssn 0 fsn 0 a
interleave
state 1 amount 2 total 2
fragment 9 stream 1 message 0 mid 0 fsn 1 b
fragment 9 stream 1 message 1 mid 1 fsn 0 c
begin 0 0
interleave
unordered
add 1 ab
unordered
add 1 c
fragment 1 stream 1 mid 0 fsn 0 a
interleave-no-more
fragment 1 stream 1 message 0 ssn 0 fsn 1 b
interleave
fragment 9 stream 1 message 1 mid 1 fsn 0 c
begin 0 0
add 1 abc
add 1 d
fragment 1 stream 1 ssn 0 fsn 0 a
interleave
fragment 1 stream 1 message 0 mid 0 fsn 1 b
interleave-no-more
fragment 1 stream 1 message 0 ssn 1 fsn 2 c
fragment 9 stream 1 message 1 ssn 2 fsn 0 d

# a message may be begun up to the end of its lifetime
begin 0 0
now 10
lifetime 0
add 1 x
now 10
fragment 1 stream 1
state 1 has-data 0
state 1 amount 0 total 0
begin 0 0
now 10
lifetime 0
add 1 x
now 11
fragment 1 size 0
state 1 has-data 0
state 1 amount 0 total 0
begin 0 0
now 10
lifetime 5
add 1 x
now 15
fragment 1 stream 1
state 1 has-data 0
state 1 amount 0 total 0
begin 0 0
now 10
lifetime 5
add 1 x
now 16
fragment 1 size 0
state 1 has-data 0
state 1 amount 0 total 0

# a message that was begun does not expire
begin 0 0
lifetime 5
add 1 ab
fragment 1 stream 1 a
now 1000
fragment 1 stream 1

# messages that expired are passed over, and have no number
begin 0 0
lifetime 5
add 1 a
lifetime 5
add 1 b
lifetime 5
add 2 c
add 2 d
now 6
fragment 9 stream 2 message 3 ssn 0 mid 0
";
