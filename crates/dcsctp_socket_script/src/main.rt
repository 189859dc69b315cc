//! The program `dcsctp-socket-script`: it reads a text of tests from standard input, and does to two sockets what
//! their lines say. `run` says what a text is. It writes each test that fails to standard output, and at the end how
//! many passed and failed. The exit status is 0 if all tests passed, 1 if one failed or a line isn't understood, 2 if
//! the text has no test, and 3 if reading or writing failed.
#![tactic(auto)]

mod commands;
mod notes;
mod packets;
mod questions;
mod report;
mod run;
mod settings;
mod stage;
mod told;

use crate::report::Report;
use crate::run::run_text;
use std::io;
use std::process::ExitCode;

fn main(rt: HostRuntime) -> ExitCode {
    match run_input(&rt) {
        Ok(report) => ExitCode::from(report.status()),
        Err(_) => ExitCode::from(3),
    }
}

// Runs the text that comes in, and writes what came of it.
fn run_input(rt: &(impl Input + Print + AllocGlobal)) -> io::Result<Report> {
    let text = io::read_to_string(rt.alloc(), rt.reader())?;
    let report = run_text(rt.alloc(), &text);
    let (passed, failed) = report.counts();
    rt.print(report.failures())?;
    println!(rt; "{passed} passed, {failed} failed")?;
    Ok(report)
}
