//! Messages of several streams under way at a time (RFC 8260). A packet of 36 bytes has 4 bytes of payload in its
//! I-DATA chunk, so a turn is of 4 bytes.

use crate::send_queue::script::run;

#[test]
fn messages_interleave_as_worked_out_by_hand(rt: HostRuntime) {
    run(&rt, TEXT);
}

const TEXT: &str = "\
# streams of equal priority take turns by fragments of a full packet
begin 0 0 mtu 36
interleave
add 1 abcdefghij
add 2 klmnopqr
fragment 4 stream 1 message 0 mid 0 fsn 0 begins 1 ends 0 abcd
fragment 4 stream 2 message 1 mid 0 fsn 0 begins 1 ends 0 klmn
fragment 4 stream 1 message 0 mid 0 fsn 1 begins 0 ends 0 efgh
fragment 4 stream 2 message 1 mid 0 fsn 1 begins 0 ends 1 opqr
fragment 4 stream 1 message 0 mid 0 fsn 2 begins 0 ends 1 ij
fragment 4 size 0

# a short message waits for a turn of each other stream, not for their messages
begin 0 0 mtu 36
interleave
add 1 abcdefghijkl
add 2 mnopqrstuvwx
fragment 4 stream 1 abcd
fragment 4 stream 2 mnop
fragment 4 stream 1 efgh
add 3 z
fragment 4 stream 3 z
fragment 4 stream 2 qrst
fragment 4 stream 1 ijkl
fragment 4 stream 2 uvwx
fragment 4 size 0

# a turn has bytes: two messages of 2 bytes are one
begin 0 0 mtu 36
interleave
add 1 abcdefgh
add 2 kl
add 2 mn
add 2 op
add 2 qr
fragment 4 stream 1 abcd
fragment 4 stream 2 mid 0 kl
fragment 4 stream 2 mid 1 mn
fragment 4 stream 1 efgh
fragment 4 stream 2 mid 2 op
fragment 4 stream 2 mid 3 qr

# what is sent beyond a turn counts for the next
begin 0 0 mtu 36
interleave
add 1 abc
add 1 def
add 1 ghi
add 1 jkl
add 2 mno
add 2 pqr
add 2 stu
add 2 vwx
fragment 4 stream 1 abc
fragment 4 stream 1 def
fragment 4 stream 2 mno
fragment 4 stream 2 pqr
fragment 4 stream 1 ghi
fragment 4 stream 2 stu
fragment 4 stream 1 jkl
fragment 4 stream 2 vwx

# so its next turn is over sooner
begin 0 0 mtu 36
interleave
add 1 abc
add 1 def
add 1 gh
add 1 ij
add 2 klmn
add 2 opqr
fragment 4 stream 1 abc
fragment 4 stream 1 def
fragment 4 stream 2 klmn
fragment 4 stream 1 gh
fragment 4 stream 2 opqr
fragment 4 stream 1 ij

# a greater priority goes first, also between the fragments of a message
begin 0 0 mtu 36
interleave
add 1 abcdefgh
fragment 4 stream 1 abcd
priority 2 512
add 2 klmnopqrst
fragment 4 stream 2 klmn
fragment 4 stream 2 opqr
fragment 4 stream 2 st
fragment 4 stream 1 efgh

# a priority that changes counts from the next fragment on
begin 0 0 mtu 36
interleave
add 1 abcdefghijkl
add 2 mnopqrst
fragment 4 stream 1 abcd
fragment 4 stream 2 mnop
priority 1 100
fragment 4 stream 2 qrst
fragment 4 stream 1 efgh

# messages of one stream don't interleave
begin 0 0 mtu 36
interleave
add 1 abcdefgh
unordered
add 1 klmn
fragment 4 stream 1 message 0 unordered 0 abcd
fragment 4 stream 1 message 0 unordered 0 efgh
fragment 4 stream 1 message 1 mid 0 unordered 1 klmn

# a stream that is reset sends its message under way to its end, and others don't wait
begin 0 0 mtu 36
interleave
name 5
add 1 abcdefgh
name 6
add 1 zz
add 2 klmnopqr
fragment 4 stream 1 abcd
prepare 1
tells OnLifecycleMessageExpired(6)
tells OnLifecycleEnd(6)
tells
state 1 amount 4 total 12 has-data 1 has-ready 0
hand-out 9 []
add 1 y
fragment 4 stream 2 klmn
fragment 4 stream 1 message 0 fsn 1 ends 1 efgh
tells OnLifecycleMessageFullySent(5)
state 1 amount 1 total 5 has-data 1 has-ready 1
hand-out 9 [1]
fragment 4 stream 2 opqr
fragment 4 size 0
commit
fragment 4 stream 1 message 3 mid 0 y

# a stream with nothing under way is reset while others are under way
begin 0 0 mtu 36
interleave
add 1 abcdefgh
add 3 klmnopqr
fragment 4 stream 1 abcd
fragment 4 stream 3 klmn
prepare 1
prepare 2
prepare 4
hand-out 9 [2, 4]
state 1 has-ready 0
fragment 4 stream 1 efgh
state 1 has-ready 1
hand-out 9 [1]
fragment 4 stream 3 opqr

# what isn't begun expires while another is under way
begin 0 0 mtu 36
interleave
add 2 klmnopqr
fragment 4 stream 2 klmn
lifetime 5
add 1 abcd
lifetime 5
add 1 efgh
fragment 4 stream 1 abcd
now 6
fragment 4 stream 2 opqr
fragment 4 size 0

# a message with limits goes to its end before any other, but waits for none that is under way
begin 0 0 mtu 36
interleave
add 1 abcdefghijkl
fragment 4 stream 1 abcd
lifetime 5
add 2 klmnopqr
priority 3 512
fragment 4 stream 2 klmn
now 6
add 3 stuvwxyz
fragment 4 stream 2 opqr
fragment 4 stream 3 stuv
times 3
add 1 w
fragment 4 stream 3 wxyz
fragment 4 stream 1 efgh
fragment 4 stream 1 ijkl
fragment 4 stream 1 w

# its rest is dropped while another is under way, which goes on
begin 0 0 mtu 36
interleave
add 1 abcdefgh
fragment 4 stream 1 abcd
times 0
name 7
add 2 klmnopqr
fragment 4 stream 2 klmn
discard 1 1 done 0
discard 2 0 done 0
discard 2 1 done 1
tells OnBufferedAmountLow(2)
tells OnLifecycleMessageExpired(7)
tells OnLifecycleEnd(7)
tells
state 1 amount 4 total 4
state 2 amount 0 total 4
fragment 4 stream 1 message 0 fsn 1 ends 1 efgh
fragment 4 size 0

# what is left of a message is dropped while another goes on
begin 0 0 mtu 36
interleave
add 1 abcdefgh
add 2 klmnopqr
fragment 4 stream 1 abcd
fragment 4 stream 2 klmn
discard 1 0 done 1
state 1 amount 0 total 4
fragment 4 stream 2 opqr
fragment 4 size 0

# a new association begins each again
begin 0 0 mtu 36
interleave
add 1 abcdefgh
add 2 klmnopqr
fragment 4 stream 1 mid 0 abcd
fragment 4 stream 2 mid 0 klmn
state 1 amount 4 total 8
state 2 amount 4 total 8
reset
state 1 amount 8 total 16
state 2 amount 8 total 16
fragment 4 stream 1 message 0 mid 0 fsn 0 begins 1 abcd
fragment 4 stream 2 message 1 mid 0 fsn 0 begins 1 klmn
fragment 4 stream 1 message 0 mid 0 fsn 1 ends 1 efgh
fragment 4 stream 2 message 1 mid 0 fsn 1 ends 1 opqr

# without interleaving each begins again, and is sent whole
begin 0 0 mtu 36
interleave
add 1 abcdefgh
add 2 klmnopqr
fragment 4 stream 1 abcd
fragment 4 stream 2 klmn
reset
interleave-no-more
fragment 4 stream 1 ssn 0 abcd
fragment 4 stream 1 ssn 0 efgh
fragment 4 stream 2 ssn 0 klmn
fragment 4 stream 2 ssn 0 opqr

# of a window of 2,000 bytes 1,750 are shared: a message of 8 bytes takes 528 at first, and 252 more with a part of 4
begin 0 0 mtu 36
window 2000
add 1 abcdefgh
add 2 klmnopqr
add 3 stuvwxyz
fragment 4 stream 1 abcd
fragment 4 stream 2 klmn
fragment 4 stream 1 efgh
fragment 4 stream 3 stuv
fragment 4 stream 2 opqr
fragment 4 stream 3 wxyz
fragment 4 size 0

# a message that one fragment holds waits for no room
begin 0 0 mtu 36
window 2000
add 1 abcdefgh
add 2 klmnopqr
add 3 stuv
fragment 4 stream 1 abcd
fragment 4 stream 2 klmn
fragment 4 stream 3 stuv
fragment 4 stream 1 efgh
fragment 4 stream 2 opqr

# once parts take more than the 1,400 bytes that are shared, the stream that sends goes to its end: 788 and 780 of 12 and 8
begin 0 0 mtu 36
window 1600
add 1 abcdefghijkl
add 2 mnopqrst
fragment 4 stream 1 abcd
fragment 4 stream 2 mnop
fragment 4 stream 1 efgh
fragment 4 stream 1 ijkl
fragment 4 stream 2 qrst

# one that the window doesn't hold is begun where no other is under way
begin 0 0 mtu 36
window 100
add 1 abcdefgh
add 2 klmnopqr
fragment 4 stream 1 abcd
fragment 4 stream 1 efgh
fragment 4 stream 2 klmn
fragment 4 stream 2 opqr

# what is handed over takes as much where it goes on, and a dropped message nothing more
begin 0 0 mtu 36
window 2000
add 2 klmnopqr
add 3 stuvwxyz
fragment 4 stream 2 klmn
fragment 4 stream 3 stuv
hand-over 1
another 0 0 256 mtu 36
window 2000
restore
add 1 abcdefgh
fragment 4 stream 2 opqr
fragment 4 stream 1 abcd
discard 3 1 done 1
add 2 ijklmnop
fragment 4 stream 2 ijkl
fragment 4 stream 1 efgh

# each goes on where it is handed over
begin 0 0 mtu 36
interleave
add 1 abcdefgh
add 2 klmnopqr
add 2 st
fragment 4 stream 1 mid 0 abcd
fragment 4 stream 2 mid 0 klmn
hand-over 1
another 0 0 256 mtu 36
interleave
restore
state 1 amount 4 total 10
state 2 amount 6 total 10
fragment 4 stream 1 message 0 mid 0 fsn 1 begins 0 ends 1 efgh
fragment 4 stream 2 message 1 mid 0 fsn 1 begins 0 ends 1 opqr
fragment 4 stream 2 message 2 mid 1 fsn 0 begins 1 ends 1 st

# so they do, one after the other, where the RFC isn't followed
another 0 0 256
interleave
restore
fragment 2 stream 1 message 0 mid 0 fsn 1 begins 0 ends 0 ef
fragment 2 stream 1 message 0 mid 0 fsn 2 begins 0 ends 1 gh
fragment 2 stream 2 message 1 mid 0 fsn 1 begins 0 ends 0 op
fragment 2 stream 2 message 1 mid 0 fsn 2 begins 0 ends 1 qr
fragment 2 stream 2 message 2 mid 1 fsn 0 begins 1 ends 1 st

# the RFC alone interleaves, and so does I-DATA alone
begin 0 0 mtu 36
add 1 abcdefgh
add 2 klmnopqr
fragment 4 stream 1 ssn 0 abcd
fragment 4 stream 1 ssn 0 efgh
fragment 4 stream 2 ssn 0 klmn
fragment 4 stream 2 ssn 0 opqr
begin 0 0
interleave
add 1 abcdefgh
add 2 klmnopqr
fragment 4 stream 1 mid 0 abcd
fragment 4 stream 1 mid 0 efgh
fragment 4 stream 2 mid 0 klmn
fragment 4 stream 2 mid 0 opqr
";
