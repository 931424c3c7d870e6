//! Each of the ten commands by a reader and a writer of one byte a call, which fail at each call in turn: what
//! is written, and what then stands, all records and the declarations in force. The contracts let a command be
//! answered with C12 at any time, and a reader that never fails be given up; with ample memory neither may
//! come, as is seen here.
use crate::engines::{Service, opened_over, replies};
use crate::files::empty;
use crate::stops::mended;
use crate::streams::{NEVER, Reader, Writer};
use fv_engine::{FixedClock, ServeFault, serve};
use std::alloc::Global;
use std::process::Abort;
use std::str;
use std::test::Fail;
use test_commands::{ALL_COMMANDS, QUESTIONS};

/// How many lines have their end in the bytes.
fn whole_lines(bytes: &[u8]) -> usize {
    bytes.iter().filter(|byte| **byte == 10).count()
}

/// The lines of all commands, and the replies to them, each with its end.
fn lines_and_replies(alloc: Global) -> Result<(String, String), Fail> {
    let mut lines = String::new(alloc);
    let mut replies = String::new(alloc);
    for command in ALL_COMMANDS.commands {
        lines.push_str(command.line)?;
        lines.push('\n')?;
        replies.push_str(command.reply)?;
        replies.push('\n')?;
    }
    Ok((lines, replies))
}

/// How serving ends, what is written, and what stands then.
#[derive(Drop)]
struct Served {
    ended: Result<(), ServeFault>,
    written: Vec<u8>,
    shown: String,
}

/// An engine of the commands' declarations over empty files.
fn opened(alloc: Global) -> Result<Service, Fail> {
    match opened_over(
        alloc,
        ALL_COMMANDS.declarations,
        mended(alloc, &empty(alloc))?,
    ) {
        Ok(engine) => Ok(engine),
        Err((fault, _)) => Err(Fail::from(fault)),
    }
}

/// Serves the lines at the moment 0 to a reader and a writer that fail at those calls.
fn served_and_shown(
    alloc: Global,
    lines: &str,
    (reads, writes): (usize, usize),
) -> Result<Served, Fail> {
    let mut engine = opened(alloc)?;
    let mut reader = Reader {
        bytes: lines.as_bytes(),
        calls: 0,
        fails_at: reads,
    };
    let mut writer = Writer {
        taken: Vec::new(alloc),
        calls: 0,
        fails_at: writes,
    };
    let mut clock = FixedClock::new(0);
    let ended = serve(alloc, &mut engine, &mut reader, &mut writer, &mut clock);
    let shown = replies(alloc, &mut engine, QUESTIONS)?;
    Ok(Served {
        ended,
        written: writer.taken,
        shown,
    })
}

/// A reader fails at a call: the whole lines that came before are answered, and what they make stands.
fn check_read(
    rt: &impl Abort,
    alloc: Global,
    (lines, replies): (&str, &str),
    reads: usize,
) -> Result<(), Fail> {
    let found = served_and_shown(alloc, lines, (reads, NEVER))?;
    let given = whole_lines(&lines.as_bytes()[..reads.min(lines.len())]);
    assert_eq!(rt; found.ended, Err(ServeFault::Read), "{reads}");
    assert!(rt; replies.as_bytes().starts_with(&found.written), "{reads}");
    assert_eq!(rt; whole_lines(&found.written), given, "{reads}");
    assert!(rt;
        found.written.is_empty() || found.written.ends_with(b"\n"),
        "{reads}"
    );
    assert!(rt;
        ALL_COMMANDS.is_behind(given, found.shown.as_str()),
        "{reads}"
    );
    Ok(())
}

/// The last call is the one that tells the end.
#[test]
fn a_reader_fails_at_each_call_under_each_command(rt: HostRuntime) -> Result<(), Fail> {
    let (lines, replies) = lines_and_replies(rt.alloc())?;
    for reads in 0..lines.len() + 1 {
        check_read(&rt, rt.alloc(), (lines.as_str(), replies.as_str()), reads)?;
    }
    Ok(())
}

/// A writer fails at a call: what is written is a front of the replies, and what stands is what the commands
/// answered make, or one more.
fn check_write(
    rt: &impl Abort,
    alloc: Global,
    (lines, replies): (&str, &str),
    writes: usize,
) -> Result<(), Fail> {
    let found = served_and_shown(alloc, lines, (NEVER, writes))?;
    let answered = whole_lines(&found.written);
    let shown = found.shown.as_str();
    assert_eq!(rt; found.ended, Err(ServeFault::Write), "{writes}");
    assert!(rt; replies.as_bytes().starts_with(&found.written), "{writes}");
    assert!(rt;
        ALL_COMMANDS.is_behind(answered, shown)
            || ALL_COMMANDS.is_behind(answered.saturating_add(1), shown),
        "{writes}"
    );
    Ok(())
}

/// A write of each byte, and a flush behind each reply.
#[test]
fn a_writer_fails_at_each_call_under_each_command(rt: HostRuntime) -> Result<(), Fail> {
    let (lines, replies) = lines_and_replies(rt.alloc())?;
    let flushes = ALL_COMMANDS.commands.len();
    for writes in 0..replies.len().saturating_add(flushes) {
        check_write(&rt, rt.alloc(), (lines.as_str(), replies.as_str()), writes)?;
    }
    Ok(())
}

/// The calls behind the last would fail.
#[test]
fn each_command_is_served_byte_by_byte(rt: HostRuntime) -> Result<(), Fail> {
    let (lines, replies) = lines_and_replies(rt.alloc())?;
    let count = ALL_COMMANDS.commands.len();
    let calls = (
        lines.len().saturating_add(1),
        replies.len().saturating_add(count),
    );
    let found = served_and_shown(rt.alloc(), lines.as_str(), calls)?;
    assert_eq!(rt; found.ended, Ok(()));
    assert_eq!(rt; str::from_utf8(&found.written), Ok(replies.as_str()));
    assert!(rt; ALL_COMMANDS.is_behind(count, found.shown.as_str()));
    Ok(())
}
