//! Rehearsing: lines answered over a database in memory, and in words where they are refused.
ghost use Rattle.std.specs.Prelude.{◌≡◌, ℕ, List, OnOk};
ghost use Rattle.fv_datum.specs.Moments.{IsMoment};
ghost use Rattle.fv_engine_lines.specs.Reads.{ReadsThen};
ghost use Rattle.formd_words.specs.Rehearsals.{Asks, Rehearses};

use crate::answering::answer_at;
use crate::demonstration::in_memory;
use crate::failure::Failure;
use formd_task::read_file;
use fv_engine::{Clock, Engine, FixedClock, Reply};
use fv_engine_lines::{Input, Output, Responder, Text};
use fv_explain_line::{Untold, explain_refusal, records_asked};
use fv_registry::RuleSet;
use sqlite::{Alter, MemStore};
use std::alloc::Global;
use std::io::Write;

/// What tells in words why it refused a line.
pub(crate) trait Explains: Responder {
    /// Why a line was refused, in words: by the reply to it, and those to gets of the records that are
    /// needed.
    fn refusal_words(
        &self,
        alloc: Global,
        line: &[u8],
        reply: &str,
        records: &[String],
    ) -> Result<String, Untold>;
}

impl<R: RuleSet + Drop, S: Alter> Explains for Engine<R, S> {
    fn refusal_words(
        &self,
        alloc: Global,
        line: &[u8],
        reply: &str,
        records: &[String],
    ) -> Result<String, Untold> {
        explain_refusal(alloc, self.rules(), self.schema(), line, reply, records)
    }
}

/// An engine, and where it tells in words why it refuses a line.
pub(crate) struct Rehearsal<'e, R: RuleSet, S: Alter, E: Write> {
    engine: Engine<R, S>,
    error: &'e mut E,
    /// How many lines were answered.
    lines: u64,
}

impl<'e, R: RuleSet + Drop, S: Alter + Drop, E: Write> Drop for Rehearsal<'e, R, S, E> {
    fn drop(self) {
        let Rehearsal {
            engine: _,
            error: _,
            lines: _,
        } = self;
    }
}

impl<'e, R: RuleSet + Drop, E: Write> Rehearsal<'e, R, MemStore, E> {
    /// One over an empty database in memory under the declarations of the file at a path, that tells on
    /// an error writer.
    ///
    /// Refused as declarations not readable, then by their fault; for want of memory at any place.
    pub(crate) fn new(
        rt: &HostRuntime,
        path: &str,
        registry: R,
        error: &'e mut E,
    ) -> Result<Rehearsal<'e, R, MemStore, E>, Failure>
        requires { R.means registry }
    {
        let alloc = rt.alloc();
        let declarations = read_file(alloc, rt, path)?;
        let engine = in_memory(alloc, registry, &declarations)?;
        Ok(Rehearsal {
            engine,
            error,
            lines: 0,
        })
    }
}

/// The reply to a get of a record, with its end.
fn record<P: Responder>(alloc: Global, engine: &mut P, id: &str, now: i64) -> Result<String, Untold>
    requires { IsMoment now }
    ensures { (ids : List (List ℕ)) × Asks P.step now engine.old ids engine.new }
{
    let get = format!(in alloc; "{{\"do\":\"get\",\"id\":\"{id}\"}}")?;
    let record = engine.answer_line(alloc, get.as_bytes(), now);
    Ok(String::from_str(alloc, record.line())?)
}

/// The replies to gets of the records that are needed to tell why a line was refused.
fn records<P: Responder>(
    alloc: Global,
    engine: &mut P,
    line: &[u8],
    reply: &str,
    now: i64,
) -> Result<Vec<String>, Untold>
    requires { IsMoment now }
    ensures { (ids : List (List ℕ)) × Asks P.step now engine.old ids engine.new }
{
    let mut shown = Vec::new(alloc);
    'asked: for id in records_asked(alloc, line, reply)? {
        shown.push(record(alloc, engine, &id, now)?)?;
    }
    Ok(shown)
}

/// Why a line was refused, in words.
fn words<P: Explains>(
    alloc: Global,
    engine: &mut P,
    line: &[u8],
    reply: &str,
    now: i64,
) -> Result<String, Untold>
    requires { IsMoment now }
    ensures { (ids : List (List ℕ)) × Asks P.step now engine.old ids engine.new }
{
    let records = records(alloc, engine, line, reply, now)?;
    engine.refusal_words(alloc, line, reply, &records)
}

/// The reply to a line. Why the line was refused is written first, but where there is nothing to tell, or no
/// memory to tell it with.
fn answered<P: Explains, E: Write>(
    alloc: Global,
    engine: &mut P,
    error: &mut E,
    number: u64,
    line: &[u8],
    now: i64,
) -> P::Reply
    requires { IsMoment now }
    ensures { Rehearses P.step engine.old line.now now (P.Reply.bytes result) engine.new }
{
    let reply = engine.answer_line(alloc, line, now);
    if let Ok(words) = words(alloc, engine, line, reply.line(), now) {
        let _ = writeln!(error, "line {number}: {words}");
    }
    reply
}

impl<'e, R: RuleSet + Drop, S: Alter + Drop, E: Write> Responder for Rehearsal<'e, R, S, E> {
    type Reply = Reply;

    ghost use Rattle.fv_engine.specs.Steps.{AnswersLine};
    ghost use Rattle.fv_store.specs.Stock.{stock_state};

    // The engine answers the line, and is then asked for records.
    ghost step = { λ old line moment text new.
        Rehearses (AnswersLine (stock_state S.Store) R.meaning) old.engine line moment text new.engine };

    fn answer_line(&mut self, alloc: Global, line: &[u8], now: i64) -> Reply {
        self.lines = self.lines.saturating_add(1);
        let number = self.lines;
        answered(alloc, &mut self.engine, self.error, number, line, now)
    }

    fn answer_long(&mut self, now: i64) -> Reply {
        self.lines = self.lines.saturating_add(1);
        self.engine.answer_long(now)
    }
}

/// Answers lines in a rehearsal, until the reader's end, as a service over an empty database would, at
/// the fixed clock's moment where there is one, and tells on the error writer in one line of words why
/// each line with C2 to C9, C13 or C14 was refused. Nothing is kept.
///
/// Refused as not read or not written, or for want of memory.
pub(crate) fn rehearse<
    'e,
    R: RuleSet + Drop,
    S: Alter + Drop,
    I: Input,
    W: Output,
    E: Write,
    C: Clock,
>(
    alloc: Global,
    mut rehearsal: Rehearsal<'e, R, S, E>,
    fixed: Option<FixedClock>,
    reader: &mut I,
    output: &mut W,
    clock: &mut C,
) -> Result<(), Failure>
    ensures ended { OnOk result (ReadsThen I.gives I.ends 4294967296 reader.old reader.new) }
{
    Ok(answer_at(alloc, &mut rehearsal, fixed, reader, output, clock)?)
}
