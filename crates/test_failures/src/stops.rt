//! Runs over files of which one fails from one of its calls on: how each ends, and what then stands there.
use crate::engines::{Database, Service, opened_over, replies};
use crate::files::{Disks, NEVER, Side, are_whole, closed, connected, copied};
use sqlite_disk::Crash;
use std::alloc::Global;
use std::process::Abort;
use std::test::Fail;
use test_commands::{QUESTIONS, Script};

/// More calls than a run makes of either file.
pub(crate) const MOST: u64 = 400;

/// How a run ends.
#[derive(Clone, Copy)]
pub(crate) enum End {
    /// The files aren't opened.
    Unopened,
    /// They are, and the service refuses to open over them.
    Refused,
    /// So many commands are answered, and the next, if there is one, is refused.
    Answered(usize),
}

/// Whether a reply tells that the store or the memory has failed.
fn is_failure(reply: &str) -> bool {
    reply == "{\"error\":\"C11\",\"name\":\"Store\"}\n"
        || reply == "{\"error\":\"C12\",\"name\":\"Memory\"}\n"
}

/// Whether the reply to a line is the one that is wanted. Any other tells that the store or the memory has
/// failed.
fn is_answered(
    rt: &impl Abort,
    alloc: Global,
    engine: &mut Service,
    (line, wanted): (&str, &str),
) -> Result<bool, Fail> {
    let reply = replies(alloc, engine, line)?;
    if reply.as_str().trim_end() == wanted {
        return Ok(true);
    }
    assert!(rt; is_failure(reply.as_str()), "{line}: {reply}");
    Ok(false)
}

/// How many of the commands are answered, up to the first that meets a failure.
fn answered(
    rt: &impl Abort,
    alloc: Global,
    engine: &mut Service,
    script: &Script,
) -> Result<usize, Fail> {
    for (number, command) in script.commands.iter().enumerate() {
        if !is_answered(rt, alloc, engine, (command.line, command.reply))? {
            return Ok(number);
        }
    }
    Ok(script.commands.len())
}

/// Runs the commands over a database: how it ends, and the files.
fn ran_over(
    rt: &impl Abort,
    alloc: Global,
    connection: Database,
    script: &Script,
) -> Result<(End, Disks), Fail> {
    match opened_over(alloc, script.declarations, connection) {
        Ok(mut engine) => {
            let count = answered(rt, alloc, &mut engine, script)?;
            Ok((End::Answered(count), closed(engine.into_connection())))
        }
        Err((fault, connection)) => {
            let name = fault.name();
            assert!(rt; name == "Store" || name == "Memory", "{name}");
            Ok((End::Refused, closed(connection)))
        }
    }
}

/// The same over files.
pub(crate) fn ran(
    rt: &impl Abort,
    alloc: Global,
    files: Disks,
    script: &Script,
) -> Result<(End, Disks), Fail> {
    match connected(alloc, files) {
        Ok(connection) => ran_over(rt, alloc, connection, script),
        Err(files) => Ok((End::Unopened, files)),
    }
}

/// The files as they are on the disk, without a failure to come.
pub(crate) fn mended(alloc: Global, files: &Disks) -> Result<Database, Fail> {
    match connected(alloc, copied(alloc, files, (Side::Log, NEVER))?) {
        Ok(connection) => Ok(connection),
        Err(_) => Err(Fail::new("files that can't be used")),
    }
}

/// What the questions show over a database.
fn shown_over(alloc: Global, declarations: &str, connection: Database) -> Result<String, Fail> {
    match opened_over(alloc, declarations, connection) {
        Ok(mut engine) => Ok(replies(alloc, &mut engine, QUESTIONS)?),
        Err((fault, _)) => Err(Fail::from(fault)),
    }
}

/// Whether this is what stands behind a run: what its last answered command left, or what the refused one
/// makes.
fn may_stand(script: &Script, end: End, text: &str) -> bool {
    match end {
        End::Unopened | End::Refused => script.is_behind(0, text),
        End::Answered(count) => {
            script.is_behind(count, text) || script.is_behind(count.saturating_add(1), text)
        }
    }
}

/// Whether all commands are answered.
pub(crate) fn are_answered(script: &Script, end: End) -> bool {
    match end {
        End::Answered(count) => count == script.commands.len(),
        _ => false,
    }
}

/// A run over files of which one fails from one of its calls on: how it ends, the files, and whether neither
/// has failed.
pub(crate) struct Stopped {
    pub(crate) end: End,
    pub(crate) files: Disks,
    pub(crate) is_whole: bool,
}

/// Runs the commands over copies of the files, of which one fails after so many calls. All commands are
/// answered where neither has failed.
pub(crate) fn run_stopped(
    rt: &impl Abort,
    alloc: Global,
    script: &Script,
    files: &Disks,
    stop: (Side, u64),
) -> Result<Stopped, Fail> {
    let (end, mut files) = ran(rt, alloc, copied(alloc, files, stop)?, script)?;
    let is_whole = are_whole(&mut files);
    assert!(rt; !is_whole || are_answered(script, end), "{stop:?}");
    Ok(Stopped {
        end,
        files,
        is_whole,
    })
}

/// What stands on the disk is what may stand there.
pub(crate) fn check_left(
    rt: &impl Abort,
    alloc: Global,
    script: &Script,
    files: &Disks,
    (end, stop): (End, (Side, u64)),
) -> Result<(), Fail> {
    let text = shown_over(alloc, script.declarations, mended(alloc, files)?)?;
    assert!(rt; may_stand(script, end, text.as_str()), "{stop:?}: {text}");
    Ok(())
}

/// What stands behind such a run is looked at as it was written, and then without what wasn't synced. Tells
/// how the run ended, and whether no file has failed.
fn looked_at(
    rt: &impl Abort,
    alloc: Global,
    script: &Script,
    files: &Disks,
    stop: (Side, u64),
) -> Result<(End, bool), Fail> {
    let Stopped {
        end,
        mut files,
        is_whole,
    } = run_stopped(rt, alloc, script, files, stop)?;
    check_left(rt, alloc, script, &files, (end, stop))?;
    files.log.crash();
    files.db.crash();
    check_left(rt, alloc, script, &files, (end, stop))?;
    Ok((end, is_whole))
}

/// Whether a command met the failure.
fn is_in_command(script: &Script, end: End) -> bool {
    match end {
        End::Answered(count) => count < script.commands.len(),
        _ => false,
    }
}

/// One of the files fails from its first call on, then from its second, and so on until a run meets no
/// failure. Tells whether a command met one.
pub(crate) fn check_stops(
    rt: &impl Abort,
    alloc: Global,
    script: &Script,
    files: &Disks,
    side: Side,
) -> Result<bool, Fail> {
    let mut is_met = false;
    for calls in 0..MOST {
        let (end, is_whole) = looked_at(rt, alloc, script, files, (side, calls))?;
        if is_whole {
            return Ok(is_met);
        }
        is_met = is_met || is_in_command(script, end);
    }
    Err(Fail::new("a run that doesn't come to its end"))
}
