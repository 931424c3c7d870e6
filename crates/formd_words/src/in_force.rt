//! The declarations in force in a database.
use crate::failure::Failure;
use crate::standing::{close_standing, open_standing};
use fv_store::{OpenStoreFault, kept_declarations};

impl From<OpenStoreFault> for Failure {
    ghost use Rattle.formd_words.specs.Failures.{IsOfStore};

    ghost from_gives = { IsOfStore };

    fn from(fault: OpenStoreFault) -> Failure {
        match fault {
            OpenStoreFault::Memory => Failure::Memory,
            other => Failure::Store(other),
        }
    }
}

/// The text of the declarations in force in the database at a path, which is opened as `serve` opens
/// it. They aren't read, and a database of version 1 isn't migrated.
///
/// Refused as a database not opened, also where no file is there or it is empty, then by the fault of
/// the database; for want of memory at any place. No file is left that wasn't there.
pub(crate) fn declarations_in(rt: &HostRuntime, path: &str) -> Result<Vec<u8>, Failure> {
    let (mut connection, absent) = open_standing(rt, path)?;
    let kept = kept_declarations(&mut connection);
    close_standing(rt, &absent, connection);
    Ok(kept?)
}
