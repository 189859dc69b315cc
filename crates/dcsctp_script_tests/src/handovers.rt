//! The command `handover`, lines that aren't it, and how a refusal is printed.

use crate::checks::same;
use dcsctp_api::types::Side;
use dcsctp_api::{HandoverError, HandoverReadiness};
use dcsctp_script::run_script;
use dcsctp_script_lines::print_handover_refusal;
use std::alloc::Global;
use std::process::Abort;
use std::str;

// A script's name, its text, the lines that it prints, and the status.
static SCRIPTS: [(&str, &str, &str, u8); 7] = [
    (
        "closed sockets",
        "handover A\nhandover B\nstate A\n",
        "A Closed\n",
        0,
    ),
    (
        "a socket that connects",
        "connect B\nhandover B\nstate B\n",
        "B packet 1 00000000 INIT\nB refused E8 wrong_connection_state\nB Connecting\n",
        0,
    ),
    (
        "no side",
        "state A\nhandover\n",
        "A Closed\nline 2: bad\n",
        2,
    ),
    ("another side", "handover C\n", "line 1: bad\n", 2),
    ("a field too many", "handover A 1\n", "line 1: bad\n", 2),
    ("another word", "hand-over A\n", "line 1: bad\n", 2),
    (
        "an option behind it",
        "handover A\nopt A mtu 64\n",
        "line 2: bad\n",
        2,
    ),
];

// Runs a script, which must print these lines and end with this status.
fn prints(rt: &impl Abort, alloc: Global, name: &str, script: &str, lines: &str, code: u8) {
    let mut printed = Vec::new(alloc);
    let ended = run_script(alloc, &mut script.as_bytes(), &mut printed);
    let printed = str::from_utf8(&printed).expect(rt, "no text was printed");
    same(rt, name, printed, lines);
    same(rt, name, ended.code(), code);
}

#[test]
fn handovers_are_lines_of_a_script(rt: HostRuntime) {
    for (name, script, lines, code) in &SCRIPTS {
        prints(&rt, rt.alloc(), name, script, lines, *code);
    }
}

// Reasons, and the line that a refusal for them is printed by. Two bits have no name.
static REFUSALS: [(u32, &str); 4] = [
    (1, "B refused E8 wrong_connection_state\n"),
    (
        2 + 4 + 16 + 512 + 2048,
        "B refused E8 send_queue_not_empty,pending_stream_reset_request,pending_stream_reset,\
         retransmission_queue_outstanding_data,retransmission_queue_not_empty\n",
    ),
    (
        8 + 64 + 128 + 1024,
        "B refused E8 data_tracker_tsn_blocks_pending,stream_reset_deferred,\
         stream_has_unassembled_chunks,retransmission_queue_fast_recovery\n",
    ),
    (32 + 64 + 256, "B refused E8 stream_reset_deferred\n"),
];

// A refusal for these reasons must be printed by this line.
fn is_printed(rt: &impl Abort, alloc: Global, reasons: u32, line: &str) {
    let mut printed = Vec::new(alloc);
    let refusal = HandoverError::NotReady(HandoverReadiness(reasons));
    print_handover_refusal(Side::B, &refusal, &mut printed).expect(rt, line);
    same(rt, line, printed.as_slice(), line.as_bytes());
}

#[test]
fn refusals_are_printed_with_their_reasons(rt: HostRuntime) {
    for (reasons, line) in &REFUSALS {
        is_printed(&rt, rt.alloc(), *reasons, line);
    }
}
