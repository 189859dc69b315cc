//! The congestion window and the peer's, number by number.

use crate::retransmission::script::run;
use dcsctp_send_retransmission::RetransmissionQueue;
use dcsctp_send_retransmission::types::Options;
use std::alloc::Global;
use std::process::Abort;

// How many MTUs the options say, and the congestion window that a queue begins with.
static BEGINS: &[(usize, usize)] = &[(10, 11_910), (0, 0), (usize::MAX, usize::MAX)];

// Asserts with which windows a queue begins whose options say that many MTUs.
fn begins(rt: &impl Abort, alloc: Global, mtus: usize, cwnd: usize) {
    let mut options = Options::default();
    options.cwnd_mtus_initial = mtus;
    let first = 0xffff_ffff;
    let sent = RetransmissionQueue::new(alloc, &options, first, 131_072, false, false);
    let found = (sent.cwnd(), sent.rwnd(), sent.next_tsn());
    assert!(rt; found == (cwnd, 131_072, first), "{mtus} MTUs");
}

#[test]
fn windows_begin_as_options_and_peer_say(rt: HostRuntime) {
    for (mtus, cwnd) in BEGINS {
        begins(&rt, rt.alloc(), *mtus, *cwnd);
    }
}

#[test]
fn windows_grow_and_shrink_as_worked_out_by_hand(rt: HostRuntime) {
    run(&rt, TEXT);
}

const TEXT: &str = "\
# slow start turns into congestion avoidance
# slow start turns into congestion avoidance: A payload of 984 bytes makes a chunk of 1,000. The threshold is the peer's first window
begin 1000 8000 1 0
add-many 60 984
state cwnd 4000
send 1000 [1000]
send 1000 [1001]
send 1000 [1002]
send 1000 [1003]
send 1000 []
# slow start turns into congestion avoidance: By at most one MTU for each SACK
sack 1001 100000 valid 1
state cwnd 5000
send 1000 [1004]
send 1000 [1005]
send 1000 [1006]
send 1000 []
sack 1002 100000 valid 1
state cwnd 6000
send 1000 [1007]
send 1000 [1008]
send 1000 []
sack 1003 100000 valid 1
state cwnd 7000
send 1000 [1009]
send 1000 [1010]
send 1000 []
sack 1004 100000 valid 1
state cwnd 8000
send 1000 [1011]
send 1000 [1012]
send 1000 []
sack 1005 100000 valid 1
state cwnd 9000
send 1000 [1013]
send 1000 [1014]
send 1000 []
# slow start turns into congestion avoidance: From here on one MTU for each window, of 9,000 and then 10,000 bytes
sack 1008 100000 valid 1
state cwnd 9000
send 1000 [1015]
send 1000 [1016]
send 1000 [1017]
send 1000 []
sack 1011 100000 valid 1
state cwnd 9000
send 1000 [1018]
send 1000 [1019]
send 1000 [1020]
send 1000 []
sack 1014 100000 valid 1
state cwnd 10000
send 1000 [1021]
send 1000 [1022]
send 1000 [1023]
send 1000 [1024]
send 1000 []
sack 1019 100000 valid 1
state cwnd 10000
send 1000 [1025]
send 1000 [1026]
send 1000 [1027]
send 1000 [1028]
send 1000 [1029]
send 1000 []
sack 1024 100000 valid 1
state cwnd 11000
send 1000 [1030]
send 1000 [1031]
send 1000 [1032]
send 1000 [1033]
send 1000 [1034]
send 1000 [1035]
send 1000 []

# a window that is not full stays
begin 1000 8000 1 0
add-many 3 984
send 1000 [1000]
send 1000 [1001]
send 1000 [1002]
send 1000 []
sack 1002 100000 valid 1
state cwnd 4000

# three misses lead to fast recovery
begin 1000 20000 1 0
add-many 30 984
send 1000 [1000]
send 1000 [1001]
send 1000 [1002]
send 1000 [1003]
send 1000 []
sack 1000 100000 valid 1
send 1000 [1004]
send 1000 [1005]
send 1000 []
sack 1001 100000 valid 1
send 1000 [1006]
send 1000 [1007]
send 1000 []
sack 1002 100000 valid 1
send 1000 [1008]
send 1000 [1009]
send 1000 []
sack 1003 100000 valid 1
send 1000 [1010]
send 1000 [1011]
send 1000 []
sack 1004 100000 valid 1
send 1000 [1012]
send 1000 [1013]
send 1000 []
sack 1005 100000 valid 1
send 1000 [1014]
send 1000 [1015]
send 1000 []
# three misses lead to fast recovery: In flight: 1006 to 1015. 1006 is lost
state cwnd 10000
state next-tsn 1016
now 10
sack-block 2 2 1005 100000 valid 1
now 20
sack-block 2 3 1005 100000 valid 1
state has-fast 0
state cwnd 10000
now 25
sack-block 2 3 1005 100000 valid 1
state has-fast 0
now 30
sack-block 2 4 1005 100000 valid 1
state has-fast 1
state cwnd 5000
send-fast 1000 [1006]
state has-fast 0
state rtx-packets 1
state rtx-bytes 1000
state has-timer 1 expires 1030
# three misses lead to fast recovery: The window stays until 1015 is acknowledged
now 40
sack 1010 100000 valid 1
state cwnd 5000
now 50
sack 1015 100000 valid 1
state cwnd 6000

# what is lost again is sent again fast
begin 1000 20000 1 0
add-many 30 984
send 1000 [1000]
send 1000 [1001]
send 1000 [1002]
send 1000 [1003]
send 1000 []
sack 1000 100000 valid 1
send 1000 [1004]
send 1000 [1005]
send 1000 []
sack 1001 100000 valid 1
send 1000 [1006]
send 1000 [1007]
send 1000 []
sack 1002 100000 valid 1
send 1000 [1008]
send 1000 [1009]
send 1000 []
sack 1003 100000 valid 1
send 1000 [1010]
send 1000 [1011]
send 1000 []
sack 1004 100000 valid 1
send 1000 [1012]
send 1000 [1013]
send 1000 []
sack 1005 100000 valid 1
send 1000 [1014]
send 1000 [1015]
send 1000 []
# what is lost again is sent again fast: In flight: 1006 to 1015. 1006 is lost
sack-block 2 2 1005 100000 valid 1
sack-block 2 3 1005 100000 valid 1
sack-block 2 4 1005 100000 valid 1
state cwnd 5000
state has-fast 1
send-fast 1000 [1006]
# what is lost again is sent again fast: 1006 is lost again. Three SACKs of what was sent before it don't count
sack-block 2 7 1005 100000 valid 1
send 1000 [1016]
send 1000 []
sack-block 2 8 1005 100000 valid 1
send 1000 [1017]
send 1000 []
sack-block 2 10 1005 100000 valid 1
send 1000 [1018]
send 1000 [1019]
send 1000 []
# what is lost again is sent again fast: three SACKs of 1016, 1017 and 1018, which were sent behind it
sack-block 2 11 1005 100000 valid 1
send 1000 [1020]
send 1000 []
sack-block 2 12 1005 100000 valid 1
send 1000 [1021]
send 1000 []
sack-block 2 13 1005 100000 valid 1
send 1000 [1006]
state rtx-packets 2
state rtx-bytes 2000
# what is lost again is sent again fast: the window is lowered once in a fast recovery
state cwnd 5000
sack 1018 100000 valid 1
state cwnd 5000

# the timer marks all
begin 1000 20000 1 0
add-many 10 984
state has-timer 0
send 1000 [1000]
send 1000 [1001]
send 1000 [1002]
send 1000 [1003]
send 1000 []
state has-timer 1 expires 1000
now 999
time-out is-over 0
state cwnd 4000
now 1000
time-out is-over 1
state cwnd 1000
state unacked 4
state has-timer 1 expires 3000
send 1000 [1000]
send 1000 []
now 1100
sack 1000 100000 valid 1
state cwnd 2000
state has-timer 1 expires 2100
send 1000 [1001]
send 1000 [1002]
send 1000 []
# the timer marks all: The threshold is 4,000 after a window of 4,000
now 1200
sack 1003 100000 valid 1
state cwnd 3000
state has-timer 0

# the peer window bounds what is in flight
begin 1000 1500 1 0
add-many 10 984
state rwnd 1500
send 1000 [1000]
send 1000 [1001]
send 1000 []
state rwnd 0
state can-send 0
now 10
sack 1001 0 valid 1
state can-send 1
now 0
send 1000 [1002]
send 1000 []
now 10
sack 1001 0 valid 1
state can-send 0

# chunks fill a packet: one byte
begin 1 8000 1 0
add 1 1
add 1 1
send 20 [1]

# chunks fill a packet: no byte
begin 1 8000 1 0
add 1 1
add 1 1
send 19 []

# chunks fill a packet: padded
begin 1 8000 1 0
add 1 5
add 1 5
send 43 [1]

# chunks fill a packet: two
begin 1 8000 1 0
add 1 8
add 1 8
send 48 [1, 2]

# chunks fill a packet: cut off
begin 1 8000 1 0
add 1 8
add 1 8
send 47 [1, 2]

# chunks fill a packet: I-DATA has 20 bytes in front
begin 1 8000 1 1
add 1 1
send 23 []
send 24 [1]
";
