//! The files that a start makes, which go again where it is refused.
ghost use Rattle.std.specs.Prelude.{◌≡◌, ◌≢◌, ◌⊎◌, Option, IfErr, IfNone, IfOk, IfSome, string_bytes};
ghost use Rattle.std.specs.declared.fs.Metadata.{Metadata};
ghost use Rattle.std.specs.declared.io.ErrorKind.{ErrorKind};
ghost use Rattle.std.specs.declared.io.ErrorKind.TheVariants.{NotFound};
ghost use Rattle.formd_task.specs.FaultNames.{not_opened_name};
ghost use Rattle.formd_task.specs.Removing.{Cleared, ClearedIfNew, EmptyRemoved, NotOpenedBy, Removed, Undone};

use crate::location::Location;
use sqlite::{Connection, Error, ErrorCode, File, FileStore};
use std::alloc::{AllocError, Global};
use std::io::ErrorKind;

/// How many milliseconds the locks stay behind the names: whoever found a name just before finds it
/// locked.
const BEHIND: u64 = 20;

/// The paths of a database's files that aren't there before a start, the database's own and its
/// log's.
#[derive(Drop)]
pub struct Absent {
    database: Option<String>,
    log: Option<String>,
}

/// Why a database isn't opened.
#[derive(Clone, Copy, Debug, PartialEq, Eq, thiserror::Error)]
pub enum NotOpened {
    /// An allocation was refused.
    #[error("out of memory")]
    Memory,
    /// Its file can't be opened or made, is in use, or holds no sound database.
    #[error("a database that can't be opened")]
    Refused,
}

impl NotOpened {
    /// The fault's name.
    pub fn name(&self) -> &str
        ensures { result.now ≡ not_opened_name self.now }
    {
        match self {
            NotOpened::Memory => "Memory",
            NotOpened::Refused => "Refused",
        }
    }
}

impl From<AllocError> for NotOpened {
    fn from(_e: AllocError) -> NotOpened {
        NotOpened::Memory
    }
}

/// The path, where nothing is there.
fn if_absent<P: Location>(place: &P, path: String) -> Option<String>
    ensures absent { IfSome result (λ p. (p ≡ path) × P.fails place.now (string_bytes path) NotFound) }
    ensures other { IfNone result (((found : Metadata) × P.finds place.now (string_bytes path) found)
        ⊎ (kind : ErrorKind) × (kind ≢ NotFound) × P.fails place.now (string_bytes path) kind) }
{
    match place.look(path.as_str()) {
        Err(error) if error.kind() == ErrorKind::NotFound => Some(path),
        _ => None,
    }
}

/// Which files of the database at a path aren't there. The log lies beside the file to which a link
/// leads.
fn absent_in<P: Location>(place: &P, alloc: Global, path: &str) -> Result<Absent, NotOpened>
    ensures database { IfOk result (λ absent. IfSome absent.database (λ p.
        (string_bytes p ≡ path.now) × P.fails place.now path.now NotFound)) }
    ensures log { IfOk result (λ absent. IfSome absent.log (λ p. P.fails place.now (string_bytes p) NotFound)) }
{
    match place.lead(alloc, path) {
        Ok(real) => {
            let log = format!(in alloc; "{}-wal", real.as_str())?;
            Ok(Absent {
                database: None,
                log: if_absent(place, log),
            })
        }
        Err(_) => {
            let log = format!(in alloc; "{path}-wal")?;
            let database = String::from_str(alloc, path)?;
            Ok(Absent {
                database: if_absent(place, database),
                log: if_absent(place, log),
            })
        }
    }
}

/// Which files of the database at a path aren't there, as the files of the machine answer.
pub fn absent_at(rt: &HostRuntime, path: &str) -> Result<Absent, NotOpened> {
    absent_in(rt, rt.alloc(), path)
}

/// Removes the file at a path, if one is named.
fn remove_named<P: Location>(place: &mut P, path: &Option<String>)
    ensures { Removed P.Location path.now place.old place.new }
{
    if let Some(path) = path {
        place.remove(path.as_str());
    }
}

/// Removes the file at a path, if one is named and it has no byte.
fn remove_empty<P: Location>(place: &mut P, path: &Option<String>)
    ensures { EmptyRemoved P.Location path.now place.old place.new }
{
    if let Some(path) = path {
        if let Ok(found) = place.look(path.as_str()) {
            if found.is_file() && found.len() == 0 {
                place.remove(path.as_str());
            }
        }
    }
}

/// Removes what wasn't there. The caller has the files open, so that nobody else has.
fn remove_locked<P: Location>(place: &mut P, absent: &Absent)
    ensures { Cleared P.Location absent.now place.old place.new }
{
    if absent.database.is_none() && absent.log.is_none() {
        return;
    }
    remove_named(place, &absent.log);
    remove_named(place, &absent.database);
    place.wait(BEHIND);
}

/// Why a database isn't opened, by the error of the opening.
fn not_opened(error: Error) -> NotOpened
    ensures { NotOpenedBy error result }
{
    if error == Error::SqliteFailure(ErrorCode::OutOfMemory) {
        return NotOpened::Memory;
    }
    NotOpened::Refused
}

/// Closes what is left of a database that wasn't opened, and leaves no file that wasn't there. A log
/// that wasn't there has nothing that the database lacks, since it was never opened.
fn leave<P: Location>(place: &mut P, absent: &Absent, error: Error, left: Option<P::Left>)
    ensures { Undone P.Location absent.now error left place.old place.new }
{
    match left {
        Some(left) => {
            remove_locked(place, absent);
            drop(left);
        }
        None if error == Error::SqliteFailure(ErrorCode::DatabaseBusy) => {}
        None => {
            remove_empty(place, &absent.log);
            remove_empty(place, &absent.database);
        }
    }
}

/// Opens the database at a path in a place. Where that is refused, no file is left that wasn't there.
fn open_in<P: Location>(place: &mut P, path: &str, absent: &Absent) -> Result<P::Opened, NotOpened>
    ensures opened { IfOk result (λ opened. P.opens place.old path.now opened place.new) }
    ensures refused { IfErr result (λ fault. (error : Error) × (left : Option P.Left) × (mid : P)
        × P.refuses place.old path.now error left mid × Undone P.Location absent.now error left mid place.new
        × NotOpenedBy error fault) }
{
    match place.open(path) {
        Ok(opened) => Ok(opened),
        Err((error, left)) => {
            leave(place, absent, error, left);
            Err(not_opened(error))
        }
    }
}

/// Opens the database at a path, or makes it. Where that is refused, no file is left that wasn't
/// there.
pub fn open_database(
    rt: &HostRuntime,
    path: &str,
    absent: &Absent,
) -> Result<Connection<FileStore<File>>, NotOpened> {
    let mut place = *rt;
    open_in(&mut place, path, absent)
}

/// Closes a database. The files that weren't there go, a log only where all that it has is in the
/// database, or with the database.
fn close_in<P: Location>(place: &mut P, absent: &Absent, opened: P::Opened)
    ensures { (mid : P) × ((P.closes place.old opened mid × Cleared P.Location absent.now mid place.new)
        ⊎ (P.breaks place.old opened mid × ClearedIfNew P.Location absent.now mid place.new)) }
{
    match place.close(opened) {
        Ok(files) => {
            remove_locked(place, absent);
            drop(files);
        }
        Err(files) => {
            if absent.database.is_some() {
                remove_locked(place, absent);
            }
            drop(files);
        }
    }
}

/// Closes a database under which no service was opened, and leaves no file that wasn't there. A log
/// goes only where all that it has is in the database, or with the database.
pub fn close_refused(rt: &HostRuntime, absent: &Absent, connection: Connection<FileStore<File>>) {
    let mut place = *rt;
    close_in(&mut place, absent, connection);
}
