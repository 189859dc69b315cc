//! Running a whole script: buffers at both ends, and the last line of a run that failed.

ghost use Rattle.std.specs.Prelude.{OnOk};
ghost use Rattle.std.specs.Io.KnownBytes.{Appends};
ghost use Rattle.dcsctp_script.specs.Ending.{last_line};

use crate::commands::Run;
use crate::failure::{Failure, Status, written};
use crate::script::Script;
use crate::setup::Setup;
use std::alloc::Global;
use std::io::{self, BufRead, BufReader, BufWriter, Read, Write};

/// Runs the script that the reader gives, and writes its lines to the writer.
///
/// The answer says how the run ended:
/// - `Done`: every line was run, and all that it prints was written and flushed.
/// - `BadLine`: a line is no line of a script, or comes at the wrong place. The lines before it were
///   run and printed, and then `line n: bad` with its number, counted from 1, empty lines too.
/// - `OutOfMemory`: an allocation failed, or the reader failed with `io::ErrorKind::OutOfMemory`. The
///   commands before were run and printed; of the one that met it nothing is printed, and the last
///   line is `out of memory`.
/// - `Broken`: the reader failed in another way, and the commands before were run and printed; or the
///   writer failed in any way, also at the last line of the two failures above, and has taken a front
///   part of the lines, which may end within one. No line says so.
pub fn run_script<R: Read, W: Write>(alloc: Global, reader: &mut R, writer: &mut W) -> Status {
    let outcome = run_buffered(alloc, reader, writer);
    match outcome {
        Ok(()) => Status::Done,
        Err(failure) => match report(writer, &failure) {
            Ok(()) => failure.status(),
            Err(_) => Status::Broken,
        },
    }
}

// Runs the script, with a buffer at each end. What was printed is flushed even if the run fails.
fn run_buffered<R: Read, W: Write>(
    alloc: Global,
    reader: &mut R,
    writer: &mut W,
) -> Result<(), Failure> {
    let mut script = Script::new(alloc, BufReader::new(alloc, reader)?);
    let mut output = BufWriter::new(alloc, writer)?;
    let outcome = run_lines(alloc, &mut script, &mut output);
    written(output.flush())?;
    outcome
}

// Runs the lines of a script, and writes their result.
//
// `BadLine`: a line isn't one of a script, or an option or words come after a command; the lines before it
// were run. `OutOfMemory`: an allocation failed, perhaps the reader's; nothing is written of that command.
// `Broken`: the reader failed in another way, or the writer failed. What a failed writer has taken may end
// within a line.
fn run_lines<R: BufRead, W: Write>(
    alloc: Global,
    script: &mut Script<R>,
    output: &mut W,
) -> Result<(), Failure> {
    let mut setup = Setup::new(alloc);
    let Some(first) = setup.read(alloc, script)? else {
        return Ok(());
    };
    let mut run = Run::new(setup.make_world(alloc)?);
    run.obey_all(alloc, first, script, output)
}

// Writes the last line of a run that failed, if it has one.
fn report<W: Write>(writer: &mut W, failure: &Failure) -> io::Result<()>
    ensures { OnOk result (Appends (W.contents writer.old) (W.contents writer.new)
        (last_line failure.now)) }
{
    match failure {
        Failure::BadLine(number) => writeln!(writer, "line {number}: bad")?,
        Failure::OutOfMemory => writeln!(writer, "out of memory")?,
        Failure::Broken => {}
    }
    writer.flush()
}
