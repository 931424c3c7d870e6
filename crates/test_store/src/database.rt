//! Databases of files that are held in memory, and what they answer to a line.
use anyhow::{Error, Result, bail};
use sqlite::{Alter, Connection, FileStore, Files, Options};
use sqlite_disk::Memory;
use std::alloc::Global;

pub(crate) type Database = Connection<FileStore<Memory>>;

/// With room for 64 pages: the usual room takes longer to make than all else.
fn options() -> Options {
    Options {
        cache_pages: 64,
        ..Options::new(1)
    }
}

/// The database of a file, with an empty log.
pub(crate) fn connected(alloc: Global, file: Memory) -> Result<Database> {
    let files = Files {
        log: Memory::new(alloc),
        db: file,
    };
    if !files.may_be_used() {
        bail!("a file that can't be used");
    }
    match Connection::open_files(alloc, files, options()) {
        Ok(database) => Ok(database),
        Err((error, _)) => Err(Error::from(error)),
    }
}

/// The file of a database, all of it written there.
fn closed(database: Database) -> Result<Memory> {
    match database.close_files() {
        Ok(Files { log: _, db }) => Ok(db),
        Err((error, _)) => Err(Error::from(error)),
    }
}

/// A database whose files are closed, so that all of it is in the one, and which is opened again.
pub(crate) fn reopened(alloc: Global, database: Database) -> Result<Database> {
    connected(alloc, closed(database)?)
}

/// Tells what a database answers to a line: the texts that a query shows, or nothing of statements.
pub(crate) fn ask_database<S: Alter>(
    told: &mut String,
    connection: &mut Connection<S>,
    line: &str,
) -> Result<()> {
    if !line.starts_with("SELECT") {
        connection.execute_batch(line)?;
        return Ok(());
    }
    for row in &connection.query_all(line, &[])? {
        let text: String = row.get(0)?;
        write!(told, "= {text}\n")?;
    }
    Ok(())
}
