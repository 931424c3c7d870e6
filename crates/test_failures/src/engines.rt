//! Engines without rules over files, and what they answer.
use fv_engine::{Engine, OpenFault};
use sqlite::{Connection, FileStore};
use sqlite_disk::{Fuse, Memory};
use std::alloc::{AllocError, Global};
use test_commands::NoRules;

pub(crate) type Database = Connection<FileStore<Fuse<Memory>>>;

pub(crate) type Service = Engine<NoRules, FileStore<Fuse<Memory>>>;

/// An engine of these declarations over a database, or why none is opened, and the database.
pub(crate) fn opened_over(
    alloc: Global,
    declarations: &str,
    connection: Database,
) -> Result<Service, (OpenFault, Database)> {
    Engine::open(alloc, NoRules, declarations.as_bytes(), connection)
}

/// The replies to lines at the moment 0, each with its end.
pub(crate) fn replies(
    alloc: Global,
    engine: &mut Service,
    lines: &str,
) -> Result<String, AllocError> {
    let mut text = String::new(alloc);
    for line in lines.lines() {
        let reply = engine.run(alloc, line.as_bytes(), 0);
        text.push_str(reply.text())?;
        text.push('\n')?;
    }
    Ok(text)
}
