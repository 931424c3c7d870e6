//! Transcripts: blocks with an empty line between them, over a database that is empty at first.
//!
//! A block is lines of SQL; `reopen`, where the database's files are closed and opened again; `faults`, which
//! asks for the texts of a store's faults; or `open [DECLARATIONS]` and behind it lines to the store that is
//! opened with them, which is closed at the block's end. A line that begins with "= " is an answer to the
//! line before it.
use crate::database::{Database, ask_database, connected, reopened};
use crate::report::Report;
use crate::store::{ask_store, tell_faults};
use crate::texts::{expanded, filled};
use crate::types::item_and_note;
use anyhow::{Context, Result};
use fv_bundle::Types;
use fv_store::Store;
use sqlite::{Alter, Connection};
use sqlite_disk::Memory;
use std::alloc::Global;

/// Tells a line that is asked.
fn tell_line(told: &mut String, line: &str) -> Result<()> {
    write!(told, "{line}\n")?;
    Ok(())
}

/// Tells the lines that a database is asked, and its answers.
fn tell_database<S: Alter>(
    told: &mut String,
    connection: &mut Connection<S>,
    lines: &str,
) -> Result<()> {
    for line in lines.lines() {
        if !line.starts_with("= ") {
            tell_line(told, line)?;
            ask_database(told, connection, line)?;
        }
    }
    Ok(())
}

/// Tells the lines that a store is asked, and its answers.
fn tell_store<S: Alter>(
    told: &mut String,
    alloc: Global,
    store: &mut Store<S>,
    types: &Types,
    lines: &str,
) -> Result<()> {
    for line in lines.lines() {
        if !line.starts_with("= ") {
            tell_line(told, line)?;
            ask_store(told, alloc, store, types, line)?;
        }
    }
    Ok(())
}

/// The same of a store that is opened over a database, or the fault's name. The connection comes back.
fn tell_opened<S: Alter + Drop>(
    told: &mut String,
    alloc: Global,
    connection: Connection<S>,
    types: &Types,
    (declarations, lines): (&str, &str),
) -> Result<Connection<S>> {
    match Store::open(alloc, connection, declarations.as_bytes()) {
        Ok(mut store) => {
            tell_store(told, alloc, &mut store, types, lines)?;
            Ok(store.into_connection())
        }
        Err((fault, connection)) => {
            let name = fault.name();
            write!(told, "= {name}\n")?;
            Ok(connection)
        }
    }
}

/// Tells what a block asks, and the answers. The database comes back.
fn tell_block(
    told: &mut String,
    alloc: Global,
    mut database: Database,
    types: &Types,
    block: &str,
) -> Result<Database> {
    if let Some(opened) = block.strip_prefix("open [") {
        let (declarations, lines) = opened.split_once("]\n").context("no declarations")?;
        write!(told, "open [{declarations}]\n")?;
        return tell_opened(told, alloc, database, types, (declarations, lines));
    }
    if block == "reopen" {
        tell_line(told, block)?;
        return reopened(alloc, database);
    }
    if let Some(_) = block.strip_prefix("faults\n") {
        tell_line(told, "faults")?;
        tell_faults(told)?;
        return Ok(database);
    }
    tell_database(told, &mut database, block)?;
    Ok(database)
}

/// What a database that is empty at first answers to what a transcript asks, as a transcript.
fn told_of(alloc: Global, transcript: &str) -> Result<String> {
    let types = item_and_note(alloc)?;
    let mut told = String::new(alloc);
    let mut database = connected(alloc, Memory::new(alloc))?;
    for block in transcript.split("\n\n") {
        database = tell_block(&mut told, alloc, database, &types, block)?;
        told.push('\n')?;
    }
    Ok(told)
}

/// Compares a transcript with what is told.
fn compare(
    alloc: Global,
    names: &str,
    title: &str,
    transcript: &str,
    report: &mut Report,
) -> Result<()> {
    let mut wanted = expanded(alloc, names, transcript.trim())?;
    let told = told_of(alloc, wanted.as_str())?;
    wanted.push_str("\n\n")?;
    report.compare(title, wanted.as_str(), told.as_str())
}

/// The same of a transcript for each row of a table, whose first line has the names that the others' texts
/// stand for.
fn compare_each(
    alloc: Global,
    names: &str,
    table: &str,
    transcript: &str,
    report: &mut Report,
) -> Result<()> {
    let mut rows = table.lines();
    let heads = rows.next().unwrap_or("");
    for row in rows {
        let text = filled(alloc, transcript, heads, row)?;
        compare(alloc, names, row, text.as_str(), report)?;
    }
    Ok(())
}

/// Compares the transcripts of a text: each begins with a line `## TITLE`, and behind that may have a table,
/// each line of which begins with a bar, and an empty line.
pub(crate) fn run_text(alloc: Global, names: &str, text: &str, report: &mut Report) -> Result<()> {
    for part in text.split("\n## ").skip(1) {
        let (title, text) = part.split_once('\n').context("no transcript")?;
        if text.starts_with("| ") {
            let (table, transcript) = text.split_once("\n\n").context("no transcript")?;
            compare_each(alloc, names, table, transcript, report)?;
        } else {
            compare(alloc, names, title, text, report)?;
        }
    }
    Ok(())
}
