//! The row of `about`: the tables' version and the declarations.
ghost use Rattle.std.specs.Prelude.{◌≡◌, ◌∷◌, [], false, IsTrue, IfErr, IfOk, List, None, OnOk, Some, slice_get, ℕ};
ghost use Rattle.sqlite.specs.State.{FailsToQuery, HasCleanDisk, KeepsCommit, Shown};
ghost use Rattle.sqlite.specs.Held.{state};
ghost use Rattle.fv_store_tables.specs.About.{HasTables, Redeclares, ShowsAbout, ShowsFirst, TellsAbout, about_query};
ghost use Rattle.fv_store_tables.specs.Causes.{IsExcused, IsShortAbout};
ghost use Rattle.fv_store_tables.specs.Stands.{TableEntries, Frame, IsLive, IsSettled, TablesStand, Stays, about_row};
ghost use Rattle.fv_store_tables.specs.Steps.{Advances, Inside};

use sqlite::{Alter, Connection, Error, Row, Transaction, params};

const READ_ABOUT: &str = "SELECT version, declarations FROM about";

const WRITE_ABOUT: &str = "UPDATE about SET declarations = ?1";

/// The rows that `about_query` shows: the version and the declarations, one row in tables of either version.
/// Refused by `OutOfMemory`, and else, in such tables, only where the disk failed or the connection was shut before.
pub fn read_about<S: Alter>(conn: &mut Connection<S>) -> Result<Vec<Row>, Error>
    ensures mode { conn.old.in_transaction ≡ false → conn.new.in_transaction ≡ false }
    ensures frame { Frame (state S.Store conn.old) (state S.Store conn.new) }
    ensures limit { conn.new.step_limit ≡ conn.old.step_limit }
    ensures open { OnOk result (IsLive (state S.Store conn.new)) }
    ensures ok { HasCleanDisk (state S.Store conn.new) → IfOk result (λ rows.
        Shown about_query [] (state S.Store conn.old) (state S.Store conn.new) rows.items) }
    ensures err { HasCleanDisk (state S.Store conn.new)
        → IfErr result (FailsToQuery about_query [] (state S.Store conn.old) (state S.Store conn.new)) }
    ensures shown { HasCleanDisk (state S.Store conn.new) → IfOk result (λ rows. IsTrue (state S.Store conn.old).is_open
        × ((v : _) (d : _) → TellsAbout v d (state S.Store conn.old).now → ShowsAbout rows.items v d)) }
    ensures first { HasCleanDisk (state S.Store conn.new) → IfOk result (λ rows. (row : _)
        → slice_get rows.items 0 ≡ Some row → ShowsFirst (state S.Store conn.old) row) }
    ensures cause { HasCleanDisk (state S.Store conn.new) → conn.old.step_limit ≡ None
        → IfErr result (λ e. HasTables (state S.Store conn.old).now
        → IsExcused (state S.Store conn.old) (state S.Store conn.new) e) }
    ensures untouched { IsSettled (state S.Store conn.old) → Stays (state S.Store conn.old) (state S.Store conn.new) }
{
    conn.query_all(READ_ABOUT, &[])
}

/// Writes the declarations in place of those that tables of version 2 have. The version and the records stay.
/// Refused by `OutOfMemory`; else only by a failed disk, a shut connection or too long a text, if the tables stand.
pub fn write_about<S: Alter>(tx: &mut Transaction<'_, S>, declarations: &[u8]) -> Result<(), Error>
    ensures same_reference { tx.new.conn.ghost_name ≡ tx.old.conn.ghost_name }
    ensures frame { Frame (state S.Store tx.old.conn.now) (state S.Store tx.new.conn.now) }
    ensures limit { tx.new.conn.now.step_limit ≡ tx.old.conn.now.step_limit }
    ensures kept { Inside S.Store tx.old.conn.now tx.new.conn.now KeepsCommit }
    ensures done { Inside S.Store tx.old.conn.now tx.new.conn.now
        (λ old new. OnOk result (Advances old new (Redeclares declarations.now))) }
    ensures cause { Inside S.Store tx.old.conn.now tx.new.conn.now (λ old new. tx.old.conn.now.step_limit ≡ None
        → IfErr result (λ e. (d : List ℕ) (m : TableEntries) → TablesStand old.now (about_row 2 d ∷ []) m
        → IsShortAbout declarations.now → IsExcused old new e)) }
{
    tx.execute(WRITE_ABOUT, params![declarations])?;
    Ok(())
}
