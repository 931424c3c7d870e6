//! Exporting: the declarations in force and all records, as command lines.
ghost use Rattle.std.specs.Prelude.{◌≡◌, ◌≢◌, ◌<◌, ◌≤◌, ℕ, List, IfErr, IfOk, IfSome, IsUtf8, MatchResult, None, OnErr, OnOk, false, length, map, option_map, string_bytes};
ghost use Rattle.std.specs.Io.KnownBytes.{Appends, Keeps};
ghost use Rattle.serde_json.specs.View.{view as json_view};
ghost use Rattle.serde_json.specs.Written.{compact_text, has_float};
ghost use Rattle.sqlite.specs.State.{HasCleanDisk};
ghost use Rattle.fv_engine.specs.Exports.{Exports, ExportsFront, IsSameService, declarations_line, put_json, record_line, redeclare_json};
ghost use Rattle.fv_engine.specs.ExportSteps.{AllDone, AllFails, FirstDone, FirstFails, Grows, NextDone, NextFails, OneDone, OneFails, PageDone, PageFails, StoreDone, StoreFails, TellsWrite, WritesLine, of_json, of_store};
ghost use Rattle.fv_engine.specs.FaultNames.{export_fault_name};
ghost use Rattle.fv_engine.specs.declared.exporting.ExportFault.TheVariants.{Memory};
ghost use Rattle.fv_engine_pending.specs.Passes.{OnlyReads, last_of};
ghost use Rattle.fv_engine_pending.specs.Rejudging.{HasFewIds};
ghost use Rattle.fv_engine_lines.specs.Lines.{ended};
ghost use Rattle.fv_engine_lines.specs.Writes.{AppendsFront, Breaks, Sends};
ghost use Rattle.fv_engine_machine.specs.Services.{ServiceKeeps};
ghost use Rattle.fv_bundle.specs.Types.{has_deep};
ghost use Rattle.fv_bundle.specs.TypesView.{types_view};
ghost use Rattle.fv_store.specs.Causes.{HasFailed};
ghost use Rattle.fv_store.specs.Records.{Kept, Records};
ghost use Rattle.fv_store.specs.Stands.{Frame, Stays};
ghost use Rattle.fv_store.specs.Stock.{stock_state};
ghost use Rattle.fv_store.specs.Stored.{untyped, written_view};

use crate::engine::Engine;
use fv_bundle::Types;
use fv_datum::{JsonFault, read_text};
use fv_engine_lines::{Output, write_bytes};
use fv_registry::RuleSet;
use fv_store::{Store, StoreFault, Written};
use serde_json::{Value, json};
use sqlite::Alter;
use std::alloc::{AllocError, Global};
use std::str;
use thiserror::Error;

/// How many ids are asked for at once.
const PAGE: u32 = 1_000;

/// How many pages of ids are looked at, at most.
const MOST_PAGES: u64 = 1 << 32;

/// Why not all is exported.
#[derive(Clone, Copy, Debug, PartialEq, Eq, Error)]
pub enum ExportFault {
    /// The store couldn't do it, or the text of the declarations isn't UTF-8.
    #[error("the store failed")]
    Store,
    /// A write or a flush failed, or a write took nothing.
    #[error("a write failed")]
    Write,
    /// An allocation was refused.
    #[error("out of memory")]
    Memory,
}

impl ExportFault {
    /// The fault's name.
    pub fn name(&self) -> &str
        ensures { result.now ≡ export_fault_name self.now }
    {
        match self {
            ExportFault::Store => "Store",
            ExportFault::Write => "Write",
            ExportFault::Memory => "Memory",
        }
    }
}

impl From<StoreFault> for ExportFault {
    ghost from_gives = { λ e fault. fault ≡ of_store e };

    fn from(fault: StoreFault) -> ExportFault {
        match fault {
            StoreFault::Store => ExportFault::Store,
            StoreFault::Memory => ExportFault::Memory,
        }
    }
}

impl From<JsonFault> for ExportFault {
    ghost from_gives = { λ e fault. fault ≡ of_json e };

    fn from(fault: JsonFault) -> ExportFault {
        match fault {
            JsonFault::NotJson => ExportFault::Store,
            JsonFault::Memory => ExportFault::Memory,
        }
    }
}

impl From<AllocError> for ExportFault {
    ghost from_gives = { λ _ fault. fault ≡ Memory };

    fn from(_e: AllocError) -> ExportFault {
        ExportFault::Memory
    }
}

/// Writes all of the bytes.
fn write_all<O: Output>(out: &mut O, bytes: &[u8]) -> Result<(), ExportFault>
    ensures wrote { MatchResult result (λ _. Appends (O.contents out.old) (O.contents out.new) bytes.now)
        (λ f. (f ≡ ExportFault.Write) × AppendsFront (O.contents out.old) (O.contents out.new) bytes.now) }
    ensures grew { OnOk result (Grows O.contents O.takes out.old out.new) }
    ensures cause { IfErr result (TellsWrite O.contents O.takes O.fails out.old out.new) }
{
    match write_bytes(out, bytes) {
        Ok(()) => Ok(()),
        Err(_) => Err(ExportFault::Write),
    }
}

/// Flushes what was written.
fn flush<O: Output>(out: &mut O) -> Result<(), ExportFault>
    ensures kept { Keeps (O.contents out.old) (O.contents out.new) }
    ensures flushed { OnOk result (O.flushes out.old out.new) }
    ensures cause { IfErr result (λ f. (f ≡ ExportFault.Write) × O.fails out.old out.new) }
{
    match out.flush_all() {
        Ok(()) => Ok(()),
        Err(_) => Err(ExportFault::Write),
    }
}

/// The compact text of JSON without floats, as a line.
fn line_of(alloc: Global, value: &Value) -> Result<String, AllocError>
    ensures { IfOk result (λ s. has_float (json_view value.now) ≡ false
        → string_bytes s ≡ ended (compact_text (json_view value.now))) }
{
    let mut line = value.to_string(alloc)?;
    line.push('\n')?;
    Ok(line)
}

fn put_value(alloc: Global, id: &str, form: &str, bundle: Value) -> Result<Value, AllocError>
    ensures { IfOk result (λ v. json_view v ≡ put_json id.now form.now (json_view bundle)) }
{
    json!(in alloc; {"bundle": bundle, "do": "put", "form": form, "id": id})
}

fn redeclare_value(alloc: Global, text: &str) -> Result<Value, AllocError>
    ensures { IfOk result (λ v. json_view v ≡ redeclare_json text.now) }
{
    json!(in alloc; {"do": "redeclare", "text": text})
}

/// The line that puts a record of which this is written. `Store` where that is no JSON.
fn put_line(alloc: Global, id: &str, written: Written) -> Result<String, ExportFault>
    ensures line { (k : Kept) → written_view written ≡ untyped k → MatchResult result
        (λ s. string_bytes s ≡ record_line id.now k) (λ f. f ≡ ExportFault.Memory) }
    ensures unwritten { IfErr result (λ f. f ≢ ExportFault.Write) }
{
    let bundle = read_text(alloc, written.bundle.as_str())?;
    let value = put_value(alloc, id, written.form.as_str(), bundle)?;
    Ok(line_of(alloc, &value)?)
}

/// The line that asks for the declarations of a text. `Store` where it isn't UTF-8.
fn redeclare_line(alloc: Global, text: &[u8]) -> Result<String, ExportFault>
    ensures line { MatchResult result (λ s. string_bytes s ≡ declarations_line text.now)
        (λ f. f ≡ ExportFault.Store → IsUtf8 text.now → ⊥) }
    ensures unwritten { IfErr result (λ f. f ≢ ExportFault.Write) }
{
    let Ok(text) = str::from_utf8(text) else {
        return Err(ExportFault::Store);
    };
    let value = redeclare_value(alloc, text)?;
    Ok(line_of(alloc, &value)?)
}

/// Writes the line that puts a record of which this is written.
fn write_record<O: Output>(
    alloc: Global,
    id: &str,
    written: Written,
    out: &mut O,
) -> Result<(), ExportFault>
    ensures wrote { (k : Kept) → written_view written ≡ untyped k
        → WritesLine (O.contents out.old) (O.contents out.new) (record_line id.now k) result }
    ensures grew { OnOk result (Grows O.contents O.takes out.old out.new) }
    ensures cause { IfErr result (TellsWrite O.contents O.takes O.fails out.old out.new) }
{
    let line = put_line(alloc, id, written)?;
    write_all(out, line.as_bytes())
}

/// Writes the line that asks for the declarations of a text.
fn write_declarations<O: Output>(alloc: Global, text: &[u8], out: &mut O) -> Result<(), ExportFault>
    ensures wrote { MatchResult result
        (λ _. Appends (O.contents out.old) (O.contents out.new) (declarations_line text.now))
        (λ f. (f ≡ ExportFault.Store → IsUtf8 text.now → ⊥)
        × AppendsFront (O.contents out.old) (O.contents out.new) (declarations_line text.now)) }
    ensures grew { OnOk result (Grows O.contents O.takes out.old out.new) }
    ensures cause { IfErr result (TellsWrite O.contents O.takes O.fails out.old out.new) }
{
    let line = redeclare_line(alloc, text)?;
    write_all(out, line.as_bytes())
}

/// Writes the record of an id.
fn export_one<S: Alter, O: Output>(
    store: &mut Store<S>,
    alloc: Global,
    id: &str,
    out: &mut O,
) -> Result<(), ExportFault>
    ensures reads { OnlyReads (stock_state S.Store store.old) (stock_state S.Store store.new) }
    ensures text { store.new.text ≡ store.old.text }
    ensures wrote { MatchResult result
        (λ _. OneDone (stock_state S.Store store.old) (stock_state S.Store store.new)
        (O.contents out.old) (O.contents out.new) id.now)
        (λ f. OneFails (stock_state S.Store store.old) (stock_state S.Store store.new)
        (O.contents out.old) (O.contents out.new) id.now f) }
    ensures grew { OnOk result (Grows O.contents O.takes out.old out.new) }
    ensures cause { IfErr result (TellsWrite O.contents O.takes O.fails out.old out.new) }
{
    match store.written(alloc, id)? {
        Some(written) => write_record(alloc, id, written, out),
        None => Err(ExportFault::Store),
    }
}

/// Writes the record of the empty id, which no page lists, if there is one.
fn export_first<S: Alter, O: Output>(
    store: &mut Store<S>,
    alloc: Global,
    out: &mut O,
) -> Result<(), ExportFault>
    ensures reads { OnlyReads (stock_state S.Store store.old) (stock_state S.Store store.new) }
    ensures text { store.new.text ≡ store.old.text }
    ensures wrote { MatchResult result
        (λ _. FirstDone (stock_state S.Store store.old) (stock_state S.Store store.new)
        (O.contents out.old) (O.contents out.new))
        (λ f. FirstFails (stock_state S.Store store.old) (stock_state S.Store store.new)
        (O.contents out.old) (O.contents out.new) f) }
    ensures grew { OnOk result (Grows O.contents O.takes out.old out.new) }
    ensures cause { IfErr result (TellsWrite O.contents O.takes O.fails out.old out.new) }
{
    match store.written(alloc, "")? {
        Some(written) => write_record(alloc, "", written, out),
        None => Ok(()),
    }
}

/// Writes the records of a page.
fn export_page<S: Alter, O: Output>(
    store: &mut Store<S>,
    alloc: Global,
    ids: &[String],
    out: &mut O,
) -> Result<(), ExportFault>
    ensures reads { OnlyReads (stock_state S.Store store.old) (stock_state S.Store store.new) }
    ensures text { store.new.text ≡ store.old.text }
    ensures wrote { MatchResult result
        (λ _. PageDone (stock_state S.Store store.old) (stock_state S.Store store.new)
        (O.contents out.old) (O.contents out.new) (map string_bytes ids.now))
        (λ f. PageFails (stock_state S.Store store.old) (stock_state S.Store store.new)
        (O.contents out.old) (O.contents out.new) (map string_bytes ids.now) f) }
    ensures grew { OnOk result (Grows O.contents O.takes out.old out.new) }
    ensures cause { IfErr result (TellsWrite O.contents O.takes O.fails out.old out.new) }
{
    for id in ids {
        export_one(store, alloc, id.as_str(), out)?;
    }
    Ok(())
}

/// The last id of a page that is full.
fn full_page(ids: Vec<String>) -> Option<String>
    ensures last { IfSome result (λ s. (above : List ℕ) → string_bytes s ≡ last_of above (map string_bytes ids.items)) }
    ensures full { IfSome result (λ _. 1000 ≤ length ids.items) }
    ensures few { result ≡ None → length ids.items < 1000 }
{
    let mut ids = ids;
    if ids.len() < PAGE as usize {
        return None;
    }
    ids.pop()
}

/// Writes the records of the next page, whose ids are above one. The last id of the page where it is
/// full.
fn export_next_page<S: Alter, O: Output>(
    store: &mut Store<S>,
    alloc: Global,
    above: &str,
    out: &mut O,
) -> Result<Option<String>, ExportFault>
    ensures reads { OnlyReads (stock_state S.Store store.old) (stock_state S.Store store.new) }
    ensures text { store.new.text ≡ store.old.text }
    ensures wrote { MatchResult result
        (λ o. NextDone (stock_state S.Store store.old) (stock_state S.Store store.new)
        (O.contents out.old) (O.contents out.new) above.now (option_map string_bytes o))
        (λ f. NextFails (stock_state S.Store store.old) (stock_state S.Store store.new)
        (O.contents out.old) (O.contents out.new) above.now f) }
    ensures grew { OnOk result (Grows O.contents O.takes out.old out.new) }
    ensures cause { IfErr result (TellsWrite O.contents O.takes O.fails out.old out.new) }
{
    let ids = store.ids(alloc, Some(above), PAGE)?;
    export_page(store, alloc, &ids, out)?;
    Ok(full_page(ids))
}

/// Writes all records, by id. One page of ids and one record are in memory at a time.
fn export_records<S: Alter, O: Output>(
    store: &mut Store<S>,
    alloc: Global,
    out: &mut O,
) -> Result<(), ExportFault>
    ensures reads { OnlyReads (stock_state S.Store store.old) (stock_state S.Store store.new) }
    ensures text { store.new.text ≡ store.old.text }
    ensures wrote { MatchResult result
        (λ _. AllDone (stock_state S.Store store.old) (stock_state S.Store store.new)
        (O.contents out.old) (O.contents out.new))
        (λ f. AllFails (stock_state S.Store store.old) (stock_state S.Store store.new)
        (O.contents out.old) (O.contents out.new) f) }
    ensures grew { OnOk result (Grows O.contents O.takes out.old out.new) }
    ensures cause { IfErr result (TellsWrite O.contents O.takes O.fails out.old out.new) }
{
    export_first(store, alloc, out)?;
    let mut above = String::new(alloc);
    for _ in 0..MOST_PAGES {
        match export_next_page(store, alloc, above.as_str(), out)? {
            Some(last) => above = last,
            None => return Ok(()),
        }
    }
    Err(ExportFault::Store)
}

/// Writes the declarations in force and then all records, by id, and flushes.
fn export_store<S: Alter, O: Output>(
    store: &mut Store<S>,
    alloc: Global,
    out: &mut O,
) -> Result<(), ExportFault>
    ensures reads { OnlyReads (stock_state S.Store store.old) (stock_state S.Store store.new) }
    ensures text { store.new.text ≡ store.old.text }
    ensures wrote { MatchResult result
        (λ _. StoreDone (stock_state S.Store store.old) (stock_state S.Store store.new)
        (O.contents out.old) (O.contents out.new) store.old.text)
        (λ f. StoreFails (stock_state S.Store store.old) (stock_state S.Store store.new)
        (O.contents out.old) (O.contents out.new) store.old.text f) }
    ensures cause { IfErr result (TellsWrite O.contents O.takes O.fails out.old out.new) }
    ensures flushed { OnOk result ((bs : List ℕ) × Sends O.contents O.takes O.flushes out.old out.new bs) }
{
    write_declarations(alloc, store.declarations(), out)?;
    export_records(store, alloc, out)?;
    flush(out)
}

/// No type has another in it deeper than is written back.
fn are_shallow(_types: &Types)
    ensures { has_deep (types_view _types.now) ≡ false }
{}

impl<R: RuleSet + Drop, S: Alter> Engine<R, S> {
    /// Writes the declarations in force and all records as command lines: first
    /// `{"do":"redeclare","text":..}`, then `{"bundle":..,"do":"put","form":..,"id":..}` for each
    /// record, ascending by the bytes of the ids, each with its end; and flushes. One page of ids and one
    /// record are in memory at a time. It changes neither records nor declarations.
    ///
    /// `Write` where a write or the flush failed or a write took nothing; `Memory` at any place; `Store`
    /// only where the disk has failed during the call or the connection was shut before, behind 2^32
    /// pages of ids, or where the text of the declarations isn't UTF-8, if the database keeps records. After
    /// a refusal a front of the same text was written.
    pub fn export<O: Output>(&mut self, alloc: Global, out: &mut O) -> Result<(), ExportFault>
        ensures same { IsSameService self.old self.new }
        ensures frame { Frame (stock_state S.Store self.old.machine.records)
            (stock_state S.Store self.new.machine.records) }
        ensures keeps { (m : Records) → ServiceKeeps (stock_state S.Store) self.old m
            → ServiceKeeps (stock_state S.Store) self.new m }
        // The database is as it was.
        ensures untouched { (m : Records) → ServiceKeeps (stock_state S.Store) self.old m
            → Stays (stock_state S.Store self.old.machine.records) (stock_state S.Store self.new.machine.records) }
        // The declarations and all records were written, each record once, by id.
        ensures exported { HasCleanDisk (stock_state S.Store self.new.machine.records) → OnOk result ((m : Records)
            → ServiceKeeps (stock_state S.Store) self.old m
            → Exports self.old.text m (O.contents out.old) (O.contents out.new)) }
        // A front of the same.
        ensures front { HasCleanDisk (stock_state S.Store self.new.machine.records) → OnErr result ((m : Records)
            → ServiceKeeps (stock_state S.Store) self.old m
            → ExportsFront self.old.text m (O.contents out.old) (O.contents out.new)) }
        // What was written was flushed.
        ensures flushed { OnOk result ((bs : List ℕ) × Sends O.contents O.takes O.flushes out.old out.new bs) }
        // A call of the output failed, behind a front of the bytes.
        ensures write_cause { IfErr result (λ f. f ≡ ExportFault.Write
            → (bs : List ℕ) × Breaks O.contents O.takes O.fails out.old out.new bs) }
        ensures cause { HasCleanDisk (stock_state S.Store self.new.machine.records)
            → IfErr result (λ f. f ≡ ExportFault.Store → (m : Records) → ServiceKeeps (stock_state S.Store) self.old m
            → HasFewIds m → IsUtf8 self.old.text
            → HasFailed (stock_state S.Store self.old.machine.records) (stock_state S.Store self.new.machine.records)) }
    {
        are_shallow(self.schema().types());
        export_store(&mut self.store, alloc, out)
    }
}
