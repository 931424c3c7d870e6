//! Databases that are only read: the file is there before, and no record and no declaration is changed in it.
use crate::failure::Failure;
use formd_task::{Absent, absent_at, close_refused, open_database};
use sqlite::{Connection, File, FileStore};
use std::fs;
use std::io::{self, ErrorKind};

/// Whether what can't be looked at isn't there: yes, unless it is for want of memory.
fn is_missing(refused: &io::Error) -> Result<bool, Failure> {
    if refused.kind() == ErrorKind::OutOfMemory {
        return Err(Failure::Memory);
    }
    Ok(true)
}

/// Whether no file is at a path, or one that has no byte.
fn is_empty(rt: &HostRuntime, path: &str) -> Result<bool, Failure> {
    match fs::metadata(rt, path) {
        Ok(found) => Ok(found.len() == 0),
        Err(refused) => is_missing(&refused),
    }
}

/// Whether no database can stand at a path: no file is there, or one without a byte and without a log
/// in which it may stand. An opening would make one there.
fn is_unmade(rt: &HostRuntime, path: &str) -> Result<bool, Failure> {
    let real = match fs::canonicalize(rt, path) {
        Ok(real) => real,
        Err(refused) => return is_missing(&refused),
    };
    let alloc = rt.alloc();
    match format!(in alloc; "{}-wal", real.as_str()) {
        Ok(log) => Ok(is_empty(rt, path)? && is_empty(rt, log.as_str())?),
        Err(_) => Err(Failure::Memory),
    }
}

/// Whether a database has no table, index or view: nothing was served over it.
fn is_blank(connection: &Connection<FileStore<File>>) -> bool {
    let schema = connection.schema();
    schema.tables.is_empty() && schema.indexes.is_empty() && schema.views.is_empty()
}

/// Opens the database at a path as it is to be served, where one stands there, and tells which of its
/// files aren't there.
///
/// Refused as a database not opened where no file is there, where it is empty, or where it can't be
/// opened; for want of memory at any place. No file is made.
pub(crate) fn open_standing(
    rt: &HostRuntime,
    path: &str,
) -> Result<(Connection<FileStore<File>>, Absent), Failure> {
    if is_unmade(rt, path)? {
        return Err(Failure::CannotOpen);
    }
    let absent = absent_at(rt, path)?;
    let connection = open_database(rt, path, &absent)?;
    if is_blank(&connection) {
        close_refused(rt, &absent, connection);
        return Err(Failure::CannotOpen);
    }
    Ok((connection, absent))
}

/// Closes a database that was read, and leaves no file that wasn't there.
pub(crate) fn close_standing(
    rt: &HostRuntime,
    absent: &Absent,
    connection: Connection<FileStore<File>>,
) {
    close_refused(rt, absent, connection);
}
