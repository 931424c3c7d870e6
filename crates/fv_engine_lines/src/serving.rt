ghost use Rattle.std.specs.Prelude.{◌≡◌, ◌≢◌, ◌⊎◌, ℕ, List, [], ◌++◌, Option, OnOk, OnErr, IsErrOf, ◌<◌, length};
ghost use Rattle.std.specs.Io.KnownBytes.{Consumes, IsAtEnd};
ghost use Rattle.fv_datum.specs.Moments.{IsMoment};
ghost use Rattle.fv_engine_lines.specs.Buffering.{kept, Buffered, Broken, Taken};
ghost use Rattle.fv_engine_lines.specs.FaultNames.{serve_fault_name};
ghost use Rattle.fv_engine_lines.specs.Lines.{IsOpen, ended, WholeLines, AllLines};
ghost use Rattle.fv_engine_lines.specs.Reads.{ReadAtMost, ReadFails, ReadsThen};
ghost use Rattle.fv_engine_lines.specs.Runs.{Session, Answered, Served, Stopped};
ghost use Rattle.fv_engine_lines.specs.Writes.{Breaks, Sends};

use crate::clock::Clock;
use crate::input::Input;
use crate::line::Line;
use crate::output::{Output, WriteFailed, write_line};
use crate::responder::{LIMIT, Responder, Text};
use memchr::memchr;
use std::alloc::Global;
use thiserror::Error;

/// Why serving ended before the input did.
#[derive(Clone, Copy, Debug, PartialEq, Eq, Error)]
pub enum ServeFault {
    /// A read failed, or there were too many of them.
    #[error("a read failed")]
    Read,
    /// A write or a flush failed, or a write took nothing.
    #[error("a write failed")]
    Write,
    /// The room for a line was refused. Nothing was read.
    #[error("out of memory")]
    Memory,
}

impl ServeFault {
    /// The fault's name.
    pub fn name(&self) -> &str
        ensures { result.now ≡ serve_fault_name self.now }
    {
        match self {
            ServeFault::Read => "Read",
            ServeFault::Write => "Write",
            ServeFault::Memory => "Memory",
        }
    }
}

/// The reply to a line of which the front is kept.
fn reply_to<P: Responder>(alloc: Global, responder: &mut P, line: &Line, now: i64) -> P::Reply
    requires { IsMoment now }
    ensures { (whole : List ℕ) → line.now ≡ kept whole
        → P.step responder.old whole now (P.Reply.bytes result) responder.new }
{
    let bytes = line.bytes();
    if bytes.len() > LIMIT {
        return responder.answer_long(now);
    }
    responder.answer_line(alloc, bytes, now)
}

/// Answers one line.
fn answer<P: Responder, W: Output, C: Clock>(
    alloc: Global,
    responder: &mut P,
    writer: &mut W,
    clock: &mut C,
    line: &Line,
) -> Result<(), WriteFailed>
    ensures ok { OnOk result ((whole : List ℕ) → line.now ≡ kept whole
        → Answered P.step C.ticks (Sends W.contents W.takes W.flushes) (responder.old, clock.old, writer.old) whole
        (responder.new, clock.new, writer.new)) }
    ensures err { OnErr result ((whole : List ℕ) → line.now ≡ kept whole
        → Answered P.step C.ticks (Breaks W.contents W.takes W.fails) (responder.old, clock.old, writer.old) whole
        (responder.new, clock.new, writer.new)) }
{
    let now = clock.now();
    let reply = reply_to(alloc, responder, line, now);
    write_line(writer, reply.line().as_bytes())
}

/// Takes the last bytes of a line and its end, and answers it.
fn end_line<P: Responder, W: Output, C: Clock>(
    alloc: Global,
    responder: &mut P,
    writer: &mut W,
    clock: &mut C,
    line: &mut Line,
    last: &[u8],
) -> Result<(), WriteFailed>
    requires { IsOpen last.now }
    ensures ok { OnOk result ((start : Session P C W) (before : List ℕ) →
        Buffered P.step C.ticks (Sends W.contents W.takes W.flushes) start before line.old (responder.old, clock.old, writer.old) →
        Buffered P.step C.ticks (Sends W.contents W.takes W.flushes) start (before ++ ended last.now) line.new (responder.new, clock.new, writer.new)) }
    ensures err { OnErr result ((start : Session P C W) (before : List ℕ) →
        Buffered P.step C.ticks (Sends W.contents W.takes W.flushes) start before line.old (responder.old, clock.old, writer.old) →
        Broken P.step C.ticks (Sends W.contents W.takes W.flushes) (Breaks W.contents W.takes W.fails) start (before ++ ended last.now) (responder.new, clock.new, writer.new)) }
{
    line.add_all(last);
    answer(alloc, responder, writer, clock, line)?;
    line.clear();
    Ok(())
}

/// Takes the next bytes of the input.
fn take_bytes<P: Responder, W: Output, C: Clock>(
    alloc: Global,
    responder: &mut P,
    writer: &mut W,
    clock: &mut C,
    line: &mut Line,
    bytes: &[u8],
) -> Result<(), WriteFailed>
    ensures ok { OnOk result ((start : Session P C W) (before : List ℕ) →
        Buffered P.step C.ticks (Sends W.contents W.takes W.flushes) start before line.old (responder.old, clock.old, writer.old) →
        Buffered P.step C.ticks (Sends W.contents W.takes W.flushes) start (before ++ bytes.now) line.new (responder.new, clock.new, writer.new)) }
    ensures err { OnErr result ((start : Session P C W) (before : List ℕ) →
        Buffered P.step C.ticks (Sends W.contents W.takes W.flushes) start before line.old (responder.old, clock.old, writer.old) →
        Broken P.step C.ticks (Sends W.contents W.takes W.flushes) (Breaks W.contents W.takes W.fails) start (before ++ bytes.now) (responder.new, clock.new, writer.new)) }
{
    let mut rest = bytes;
    'lines: while let Some(end) = memchr(b'\n', rest) {
        end_line(alloc, responder, writer, clock, line, &rest[..end])?;
        rest = &rest[end + 1..];
    }
    line.add_all(rest);
    Ok(())
}

/// Answers the last line, where there is one without its end.
fn finish<P: Responder, W: Output, C: Clock>(
    alloc: Global,
    responder: &mut P,
    writer: &mut W,
    clock: &mut C,
    line: &Line,
) -> Result<(), WriteFailed>
    ensures ok { OnOk result ((r q : Option (List ℕ)) (start : Session P C W) → IsAtEnd q →
        Taken P.step C.ticks (Sends W.contents W.takes W.flushes) r q line.now start (responder.old, clock.old, writer.old) →
        Served P.step C.ticks (Sends W.contents W.takes W.flushes) (AllLines r q) start (responder.new, clock.new, writer.new)) }
    ensures err { OnErr result ((r q : Option (List ℕ)) (start : Session P C W) → IsAtEnd q →
        Taken P.step C.ticks (Sends W.contents W.takes W.flushes) r q line.now start (responder.old, clock.old, writer.old) →
        Stopped P.step C.ticks (Sends W.contents W.takes W.flushes) (Breaks W.contents W.takes W.fails) r q start (responder.new, clock.new, writer.new)) }
{
    if line.bytes().is_empty() {
        return Ok(());
    }
    answer(alloc, responder, writer, clock, line)
}

/// How a read went.
#[derive(Clone, Copy, Debug, PartialEq, Eq)]
enum Turn {
    /// Bytes came, and were served.
    More,
    /// No byte is left.
    End,
    ReadFailed,
    WriteFailed,
}

/// Reads once, and serves what came.
fn read_once<P: Responder, R: Input, W: Output, C: Clock>(
    alloc: Global,
    responder: &mut P,
    reader: &mut R,
    writer: &mut W,
    clock: &mut C,
    line: &mut Line,
) -> Turn
    ensures read { R.reads reader.old reader.new }
    ensures gave { result ≡ Turn.More → R.gives reader.old reader.new }
    ensures gave_last { result ≡ Turn.WriteFailed → R.gives reader.old reader.new }
    ensures failed { result ≡ Turn.ReadFailed → R.fails reader.old reader.new }
    ensures end { result ≡ Turn.End → IsAtEnd (R.remaining reader.new) }
    ensures ended { result ≡ Turn.End → R.ends reader.old reader.new }
    ensures more { result ≡ Turn.More → (bytes : List ℕ) × (0 < length bytes)
        × Consumes (R.remaining reader.old) (R.remaining reader.new) bytes }
    ensures taken { result ≢ Turn.WriteFailed → (r : Option (List ℕ)) (start : Session P C W) →
        Taken P.step C.ticks (Sends W.contents W.takes W.flushes) r (R.remaining reader.old) line.old start (responder.old, clock.old, writer.old) →
        Taken P.step C.ticks (Sends W.contents W.takes W.flushes) r (R.remaining reader.new) line.new start (responder.new, clock.new, writer.new) }
    ensures stopped { result ≡ Turn.WriteFailed → (r : Option (List ℕ)) (start : Session P C W) →
        Taken P.step C.ticks (Sends W.contents W.takes W.flushes) r (R.remaining reader.old) line.old start (responder.old, clock.old, writer.old) →
        Stopped P.step C.ticks (Sends W.contents W.takes W.flushes) (Breaks W.contents W.takes W.fails) r (R.remaining reader.new) start (responder.new, clock.new, writer.new) }
{
    let mut chunk = [0u8; 4096];
    match reader.fill(&mut chunk) {
        Err(_) => Turn::ReadFailed,
        Ok(0) => Turn::End,
        Ok(count) => match take_bytes(alloc, responder, writer, clock, line, &chunk[..count]) {
            Ok(()) => Turn::More,
            Err(_) => Turn::WriteFailed,
        },
    }
}

/// The most reads of one call.
const READS: u64 = 4294967296;

/// Serves until the input ends.
fn serve_lines<P: Responder, R: Input, W: Output, C: Clock>(
    alloc: Global,
    responder: &mut P,
    reader: &mut R,
    writer: &mut W,
    clock: &mut C,
    line: &mut Line,
) -> Result<(), ServeFault>
    requires { line.old ≡ [] }
    ensures reads { ReadAtMost R.reads 4294967296 reader.old reader.new }
    ensures ended { OnOk result (ReadsThen R.gives R.ends 4294967296 reader.old reader.new) }
    ensures ok { OnOk result (Served P.step C.ticks (Sends W.contents W.takes W.flushes) (AllLines (R.remaining reader.old) (R.remaining reader.new))
        (responder.old, clock.old, writer.old) (responder.new, clock.new, writer.new)) }
    ensures read { IsErrOf result ServeFault.Read
        → Taken P.step C.ticks (Sends W.contents W.takes W.flushes) (R.remaining reader.old) (R.remaining reader.new) line.new
        (responder.old, clock.old, writer.old) (responder.new, clock.new, writer.new) }
    ensures read_cause { IsErrOf result ServeFault.Read
        → ReadFails R.gives R.fails 4294967296 reader.old reader.new }
    ensures write { IsErrOf result ServeFault.Write
        → Stopped P.step C.ticks (Sends W.contents W.takes W.flushes) (Breaks W.contents W.takes W.fails) (R.remaining reader.old) (R.remaining reader.new)
        (responder.old, clock.old, writer.old) (responder.new, clock.new, writer.new) }
    ensures write_reads { IsErrOf result ServeFault.Write
        → ReadsThen R.gives (λ x y. R.gives x y ⊎ R.ends x y) 4294967296 reader.old reader.new }
    ensures memory { IsErrOf result ServeFault.Memory → ⊥ }
{
    for _turn in 0..READS {
        match read_once(alloc, responder, reader, writer, clock, line) {
            Turn::More => {}
            Turn::End => {
                return match finish(alloc, responder, writer, clock, line) {
                    Ok(()) => Ok(()),
                    Err(_) => Err(ServeFault::Write),
                };
            }
            Turn::ReadFailed => return Err(ServeFault::Read),
            Turn::WriteFailed => return Err(ServeFault::Write),
        }
    }
    Err(ServeFault::Read)
}

/// Answers each line of the input by a line, until the input ends: lines are ended by byte 10, the
/// last also without its end. The clock is asked once a line. Each reply is written whole, with its
/// end, and flushed.
///
/// `Memory` where the room for a line was refused; `Read` where a read failed or there were 2^32
/// reads; `Write` where a write or a flush failed or a write took nothing.
pub fn answer_lines<P: Responder, R: Input, W: Output, C: Clock>(
    alloc: Global,
    responder: &mut P,
    reader: &mut R,
    writer: &mut W,
    clock: &mut C,
) -> Result<(), ServeFault>
    // It read at most 2^32 times, however it ended.
    ensures reads { ReadAtMost R.reads 4294967296 reader.old reader.new }
    // All lines of the input were answered, each reply written with its end and flushed.
    ensures ok { OnOk result (Served P.step C.ticks (Sends W.contents W.takes W.flushes) (AllLines (R.remaining reader.old) (R.remaining reader.new))
        (responder.old, clock.old, writer.old) (responder.new, clock.new, writer.new)) }
    // Each read gave bytes, but the last, which gave nothing.
    ensures ended { OnOk result (ReadsThen R.gives R.ends 4294967296 reader.old reader.new) }
    // The same for the whole lines that were read.
    ensures read { IsErrOf result ServeFault.Read
        → Served P.step C.ticks (Sends W.contents W.takes W.flushes) (WholeLines (R.remaining reader.old) (R.remaining reader.new))
        (responder.old, clock.old, writer.old) (responder.new, clock.new, writer.new) }
    // A read failed behind those that gave bytes, or there were 2^32 of these.
    ensures read_cause { IsErrOf result ServeFault.Read
        → ReadFails R.gives R.fails 4294967296 reader.old reader.new }
    // The same for some lines of these, the last reply whole, in part or missing, and then a call failed.
    ensures write { IsErrOf result ServeFault.Write
        → Stopped P.step C.ticks (Sends W.contents W.takes W.flushes) (Breaks W.contents W.takes W.fails) (R.remaining reader.old) (R.remaining reader.new)
        (responder.old, clock.old, writer.old) (responder.new, clock.new, writer.new) }
    // Each read gave bytes, but perhaps the last, which may have given nothing.
    ensures write_reads { IsErrOf result ServeFault.Write
        → ReadsThen R.gives (λ x y. R.gives x y ⊎ R.ends x y) 4294967296 reader.old reader.new }
    // Nothing was read.
    ensures memory { IsErrOf result ServeFault.Memory → (reader.new ≡ reader.old) × (writer.new ≡ writer.old)
        × (responder.new ≡ responder.old) × (clock.new ≡ clock.old) }
{
    match Line::new(alloc) {
        Err(_) => Err(ServeFault::Memory),
        Ok(mut line) => serve_lines(alloc, responder, reader, writer, clock, &mut line),
    }
}
