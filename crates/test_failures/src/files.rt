//! The two files of a database, its log and the database file, on disks in memory that fail from one of
//! their calls on, or never.
use crate::engines::Database;
use sqlite::{Connection, Files, Options};
use sqlite_disk::{Disk, Fuse, Memory};
use std::alloc::Global;
use std::test::Fail;

pub(crate) type Disks = Files<Fuse<Memory>>;

/// More calls than a run makes.
pub(crate) const NEVER: u64 = 1000000;

/// One of the two files.
#[derive(Clone, Copy, Debug)]
pub(crate) enum Side {
    Log,
    Database,
}

/// A file with these bytes, which a crash leaves, that fails after so many calls.
fn file_of(alloc: Global, bytes: &[u8], calls: u64) -> Result<Fuse<Memory>, Fail> {
    let mut file = Memory::new(alloc);
    file.write_at(0, bytes)?;
    file.sync()?;
    Ok(Fuse::new(file, calls))
}

/// Empty files that don't fail.
pub(crate) fn empty(alloc: Global) -> Disks {
    Files {
        log: Fuse::new(Memory::new(alloc), NEVER),
        db: Fuse::new(Memory::new(alloc), NEVER),
    }
}

/// Copies of the files as they are on the disk, of which one fails after so many calls.
pub(crate) fn copied(
    alloc: Global,
    files: &Disks,
    (side, calls): (Side, u64),
) -> Result<Disks, Fail> {
    let (log_calls, db_calls) = match side {
        Side::Log => (calls, NEVER),
        Side::Database => (NEVER, calls),
    };
    Ok(Files {
        log: file_of(alloc, files.log.inner().bytes(), log_calls)?,
        db: file_of(alloc, files.db.inner().bytes(), db_calls)?,
    })
}

/// The files of a database, all of it written there if the disk lets it.
pub(crate) fn closed(connection: Database) -> Disks {
    match connection.close_files() {
        Ok(files) => files,
        Err((_, store)) => store.close(),
    }
}

/// How files are opened: with room for 64 pages, more than any file here has. The usual room takes longer to
/// make than all else.
fn options() -> Options {
    Options {
        cache_pages: 64,
        ..Options::new(1)
    }
}

/// The database of files, or the files where it isn't opened.
pub(crate) fn connected(alloc: Global, files: Disks) -> Result<Database, Disks> {
    if !files.may_be_used() {
        return Err(files);
    }
    match Connection::open_files(alloc, files, options()) {
        Ok(connection) => Ok(connection),
        Err((_, left)) => Err(left.into_files()),
    }
}

/// Whether a disk still answers.
fn answers(disk: &mut Fuse<Memory>) -> bool {
    disk.may_be_used() && disk.len().is_ok()
}

/// Whether neither file has failed.
pub(crate) fn are_whole(files: &mut Disks) -> bool {
    answers(&mut files.log) && answers(&mut files.db)
}
