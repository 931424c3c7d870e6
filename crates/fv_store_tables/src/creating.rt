//! The tables are made, a statement each.
ghost use Rattle.std.specs.Prelude.{◌≡◌, [], IfErr, List, None, OnOk};
ghost use Rattle.sqlite.specs.State.{KeepsCommit};
ghost use Rattle.sqlite.specs.Held.{state};
ghost use Rattle.sqlite.specs.Order.{Row};
ghost use Rattle.fv_store_tables.specs.Causes.{IsExcused, IsShortAbout};
ghost use Rattle.fv_store_tables.specs.Creating.{Builds, IsBare, IsBlank, IsEmpty, IsHalf, IsMade, Leads};
ghost use Rattle.fv_store_tables.specs.Stands.{Frame};
ghost use Rattle.fv_store_tables.specs.Steps.{Advances, Inside};

use sqlite::{Alter, Error, Transaction, params};

const CREATE_ABOUT: &str =
    "CREATE TABLE about (one INTEGER PRIMARY KEY CHECK (one = 1), version INTEGER NOT NULL, declarations BLOB NOT NULL)";

const CREATE_RECORD: &str =
    "CREATE TABLE record (id TEXT NOT NULL PRIMARY KEY, form TEXT NOT NULL, root TEXT NOT NULL)";

const CREATE_OBJECT: &str =
    "CREATE TABLE object (rec TEXT NOT NULL REFERENCES record (id) ON DELETE CASCADE, \
    name TEXT NOT NULL, kind TEXT NOT NULL, fields TEXT NOT NULL, PRIMARY KEY (rec, name))";

/// The one row of `about`, of version 2.
const INSERT_ABOUT: &str = "INSERT INTO about (one, version, declarations) VALUES (1, 2, ?1)";

fn create_about<S: Alter>(tx: &mut Transaction<'_, S>) -> Result<usize, Error>
    ensures same_reference { tx.new.conn.ghost_name ≡ tx.old.conn.ghost_name }
    ensures frame { Frame (state S.Store tx.old.conn.now) (state S.Store tx.new.conn.now) }
    ensures limit { tx.new.conn.now.step_limit ≡ tx.old.conn.now.step_limit }
    ensures kept { Inside S.Store tx.old.conn.now tx.new.conn.now KeepsCommit }
    ensures done { Inside S.Store tx.old.conn.now tx.new.conn.now (λ old new. OnOk result (Advances old new (Leads IsBlank (IsBare [])))) }
    ensures cause { Inside S.Store tx.old.conn.now tx.new.conn.now (λ old new. tx.old.conn.now.step_limit ≡ None
        → IfErr result (λ e. IsBlank old.now → IsExcused old new e)) }
{
    tx.execute(CREATE_ABOUT, &[])
}

/// Makes `record` where `about` stands alone. Whatever rows `about` has, they stay.
pub(crate) fn create_record<S: Alter>(tx: &mut Transaction<'_, S>) -> Result<usize, Error>
    ensures same_reference { tx.new.conn.ghost_name ≡ tx.old.conn.ghost_name }
    ensures frame { Frame (state S.Store tx.old.conn.now) (state S.Store tx.new.conn.now) }
    ensures limit { tx.new.conn.now.step_limit ≡ tx.old.conn.now.step_limit }
    ensures kept { Inside S.Store tx.old.conn.now tx.new.conn.now KeepsCommit }
    ensures done { Inside S.Store tx.old.conn.now tx.new.conn.now
        (λ old new. OnOk result (Advances old new (Builds IsBare IsHalf))) }
    ensures cause { Inside S.Store tx.old.conn.now tx.new.conn.now (λ old new. tx.old.conn.now.step_limit ≡ None
        → IfErr result (λ e. (rows : List Row) → IsBare rows old.now → IsExcused old new e)) }
{
    tx.execute(CREATE_RECORD, &[])
}

/// Makes `object` beside `about` and `record`. Whatever rows `about` has, they stay.
pub(crate) fn create_object<S: Alter>(tx: &mut Transaction<'_, S>) -> Result<usize, Error>
    ensures same_reference { tx.new.conn.ghost_name ≡ tx.old.conn.ghost_name }
    ensures frame { Frame (state S.Store tx.old.conn.now) (state S.Store tx.new.conn.now) }
    ensures limit { tx.new.conn.now.step_limit ≡ tx.old.conn.now.step_limit }
    ensures kept { Inside S.Store tx.old.conn.now tx.new.conn.now KeepsCommit }
    ensures done { Inside S.Store tx.old.conn.now tx.new.conn.now
        (λ old new. OnOk result (Advances old new (Builds IsHalf IsMade))) }
    ensures cause { Inside S.Store tx.old.conn.now tx.new.conn.now (λ old new. tx.old.conn.now.step_limit ≡ None
        → IfErr result (λ e. (rows : List Row) → IsHalf rows old.now → IsExcused old new e)) }
{
    tx.execute(CREATE_OBJECT, &[])
}

fn insert_about<S: Alter>(tx: &mut Transaction<'_, S>, declarations: &[u8]) -> Result<usize, Error>
    ensures same_reference { tx.new.conn.ghost_name ≡ tx.old.conn.ghost_name }
    ensures frame { Frame (state S.Store tx.old.conn.now) (state S.Store tx.new.conn.now) }
    ensures limit { tx.new.conn.now.step_limit ≡ tx.old.conn.now.step_limit }
    ensures kept { Inside S.Store tx.old.conn.now tx.new.conn.now KeepsCommit }
    ensures done { Inside S.Store tx.old.conn.now tx.new.conn.now
        (λ old new. OnOk result (Advances old new (Leads (IsMade []) (IsEmpty declarations.now)))) }
    ensures cause { Inside S.Store tx.old.conn.now tx.new.conn.now (λ old new. tx.old.conn.now.step_limit ≡ None
        → IfErr result (λ e. IsMade [] old.now → IsShortAbout declarations.now → IsExcused old new e)) }
{
    tx.execute(INSERT_ABOUT, params![declarations])
}

/// Makes the tables in a blank database, with the declarations and no record. Blank is one with no table, index or view.
/// Refused by `OutOfMemory`, and else only where the disk failed, the connection was shut before or the declarations are too long, if the database is blank.
pub fn create_tables<S: Alter>(
    tx: &mut Transaction<'_, S>,
    declarations: &[u8],
) -> Result<(), Error>
    ensures same_reference { tx.new.conn.ghost_name ≡ tx.old.conn.ghost_name }
    ensures frame { Frame (state S.Store tx.old.conn.now) (state S.Store tx.new.conn.now) }
    ensures limit { tx.new.conn.now.step_limit ≡ tx.old.conn.now.step_limit }
    ensures kept { Inside S.Store tx.old.conn.now tx.new.conn.now KeepsCommit }
    ensures done { Inside S.Store tx.old.conn.now tx.new.conn.now
        (λ old new. OnOk result (Advances old new (Leads IsBlank (IsEmpty declarations.now)))) }
    ensures cause { Inside S.Store tx.old.conn.now tx.new.conn.now (λ old new. tx.old.conn.now.step_limit ≡ None
        → IfErr result (λ e. IsBlank old.now → IsShortAbout declarations.now → IsExcused old new e)) }
{
    create_about(tx)?;
    create_record(tx)?;
    create_object(tx)?;
    insert_about(tx, declarations)?;
    Ok(())
}
