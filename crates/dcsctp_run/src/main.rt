//! The program `dcsctp-run`: it reads a script from standard input, runs it on two sockets, and writes its
//! result to standard output. `dcsctp_script` says what a script is. The exit status is 0 if the script was
//! run, 1 if reading or writing failed, 2 at a bad line, and 3 if an allocation failed.
#![tactic(auto)]

use dcsctp_script::run_script;
use std::io;
use std::process::ExitCode;

fn main(rt: HostRuntime) -> ExitCode {
    let mut reader = rt.reader();
    let mut writer = io::writer(&rt);
    ExitCode::from(run_script(rt.alloc(), &mut reader, &mut writer).code())
}
