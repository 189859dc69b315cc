//! Lines with letters that no script has. The other scripts are cases of the program (crates/dcsctp_run).

use crate::checks::same;
use dcsctp_script::{Status, run_script};
use std::alloc::Global;
use std::process::Abort;
use std::str;

// A script's name, its text, and the lines that it prints before it ends at a bad one.
static SCRIPTS: [(&str, &str, &str); 3] = [
    ("a byte above 126", "words A 1\x7f\n", "line 1: bad\n"),
    ("a byte below 32", "state A\r\n", "line 1: bad\n"),
    (
        "a letter that is no byte",
        "state A\nstate \u{e4}\nstate A",
        "A Closed\nline 2: bad\n",
    ),
];

// Runs a script, which must print these lines and end at a bad one.
fn ends_at_a_bad_line(rt: &impl Abort, alloc: Global, name: &str, script: &str, lines: &str) {
    let mut printed = Vec::new(alloc);
    let ended = run_script(alloc, &mut script.as_bytes(), &mut printed);
    let printed = str::from_utf8(&printed).expect(rt, "no text was printed");
    same(rt, name, printed, lines);
    same(rt, name, ended, Status::BadLine);
}

#[test]
fn letters_that_no_script_has_end_the_run(rt: HostRuntime) {
    for (name, script, lines) in &SCRIPTS {
        ends_at_a_bad_line(&rt, rt.alloc(), name, script, lines);
    }
}
