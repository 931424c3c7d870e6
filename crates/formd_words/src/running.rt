use crate::declarations::check_file;
use crate::demonstration::serve_demonstration;
use crate::explaining::explain_as_asked;
use crate::exporting::export_file;
use crate::failure::{Failure, finish};
use crate::judging::judge_file;
use crate::rehearsing::{Rehearsal, rehearse};
use crate::serving::serve_files;
use clap::Error;
use clap::error::ErrorKind;
use formd_task::{Task, VERSION, task_of};
use fv_engine::Clock;
use fv_registry::RuleSet;
use std::io::{Read, Write};

/// Writes why the words aren't taken, and gives the exit status.
fn report_words<E: Write>(refused: &Error, error: &mut E) -> u8 {
    if refused.kind() == ErrorKind::OutOfMemory {
        return Failure::Memory.report(error);
    }
    let _ = write!(error, "{refused}");
    2
}

/// Writes the line that tells the version, and flushes.
fn say_version<W: Write>(output: &mut W) -> Result<(), Failure> {
    if writeln!(output, "formd {VERSION}").is_err() || output.flush().is_err() {
        return Err(Failure::Write);
    }
    Ok(())
}

/// Does what the words ask, without the program's name: without words it serves the demonstration's
/// declarations over a database in memory at the moment 0, the reader to the output writer;
/// `declarations F` prints `ok` where the declarations of the file F are taken;
/// `serve --declarations F --database G [--now N]` serves the database at the path G, at the moment N
/// or at those of the clock, under its own declarations; under those of the file F where it is empty;
/// `judge --declarations F [--now N]` answers lines as where there is no record, and keeps nothing;
/// `explain F [--json]` writes what the declarations of the file F declare, or where their first fault
/// is, `--database G` in place of F those in force in a database; `--text` writes their text alone,
/// `--schema N` the JSON Schema of the form N, `--over O` or `--over-database O` what they add, change
/// and remove over others; `export --database G` writes the declarations in force and the records of a
/// database as command lines; `rehearse --declarations F [--now N]` serves a database in memory, and
/// tells on the error writer where lines are wrong; `version` prints which version this is.
///
/// Gives the exit status: 0 done; 2 the words weren't understood, or call for help, with a text on
/// the error writer; 3 where the declarations are refused and 4 for any other failure, with a line
/// there.
pub fn run_words<R: RuleSet + Drop, I: Read, W: Write, E: Write, C: Clock>(
    rt: &HostRuntime,
    words: &[String],
    registry: R,
    reader: &mut I,
    output: &mut W,
    error: &mut E,
    clock: &mut C,
) -> u8
    requires { R.means registry }
{
    let alloc = rt.alloc();
    let task = match task_of(alloc, words) {
        Ok(task) => task,
        Err(refused) => return report_words(&refused, error),
    };
    let done = match task {
        Task::Demonstration => serve_demonstration(alloc, registry, reader, output),
        Task::Declarations(path) => check_file(alloc, rt, path, &registry, output),
        Task::Explain(asked) => explain_as_asked(rt, asked, &registry, output),
        Task::Export(path) => export_file(rt, path, registry, output),
        Task::Rehearse(service) => match Rehearsal::new(rt, service.declarations, registry, error) {
            Ok(rehearsal) => rehearse(alloc, rehearsal, service.clock, reader, output, clock),
            Err(failure) => Err(failure),
        },
        Task::Judge(service) => judge_file(rt, service, registry, reader, output, clock),
        Task::Serve(service) => serve_files(rt, service, registry, reader, output, clock),
        Task::Version => say_version(output),
    };
    finish(done, error)
}
