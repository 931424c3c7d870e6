//! The records of version 1 are read, and its tables are replaced by those of version 2, a statement each.
ghost use Rattle.std.specs.Prelude.{◌≡◌, ◌∷◌, [], false, map, IfErr, IfOk, List, None, OnOk, ℕ};
ghost use Rattle.std.specs.List.{AllByRecursion};
ghost use Rattle.sqlite.specs.State.{HasCleanDisk, KeepsCommit};
ghost use Rattle.sqlite.specs.Held.{state};
ghost use Rattle.fv_store_tables.specs.Causes.{IsExcused, IsRefusal, IsShortAbout};
ghost use Rattle.fv_store_tables.specs.Creating.{Builds, IsBare, IsMade};
ghost use Rattle.fv_store_tables.specs.Olds.{AreOlds, Empties, IsFirst, IsOld, IsTextRecord, Old, Renews, ShowsOlds, SpellsFirst, old_view, olds_view, shown_old};
ghost use Rattle.fv_store_tables.specs.Stands.{Frame, IsLive, IsSettled, Stays, about_row};
ghost use Rattle.fv_store_tables.specs.Steps.{Advances, Inside};
ghost use Rattle.fv_store_tables.specs.Stored.{front};

use crate::creating::{create_object, create_record};
use sqlite::{Alter, Connection, Error, Row, Transaction};
use std::alloc::Global;

const FIND_OLD: &str = "SELECT id, form, bundle FROM record";

const DROP_RECORD: &str = "DROP TABLE record";

const SET_VERSION: &str = "UPDATE about SET version = 2";

/// What a row of `record` of version 1 keeps: the record's id, its form, and the text of its objects.
#[derive(Debug, Drop)]
pub struct OldRow {
    pub id: String,
    pub form: String,
    pub bundle: String,
}

/// The rows that show the records of version 1.
fn find_old_rows<S: Alter>(conn: &mut Connection<S>) -> Result<Vec<Row>, Error>
    ensures mode { conn.old.in_transaction ≡ false → conn.new.in_transaction ≡ false }
    ensures frame { Frame (state S.Store conn.old) (state S.Store conn.new) }
    ensures limit { conn.new.step_limit ≡ conn.old.step_limit }
    ensures open { OnOk result (IsLive (state S.Store conn.new)) }
    ensures shown { HasCleanDisk (state S.Store conn.new) → IfOk result (λ rows. (d : _) (m : _)
        → SpellsFirst (state S.Store conn.old).now d m → ShowsOlds rows.items m) }
    ensures cause { HasCleanDisk (state S.Store conn.new) → conn.old.step_limit ≡ None → IfErr result (λ e.
        (d : _) (m : _) → SpellsFirst (state S.Store conn.old).now d m
        → IsExcused (state S.Store conn.old) (state S.Store conn.new) e) }
    ensures same { HasCleanDisk (state S.Store conn.new)
        → OnOk result (((state S.Store conn.new).now ≡ (state S.Store conn.old).now)
        × ((state S.Store conn.new).committed ≡ (state S.Store conn.old).committed)) }
    ensures untouched { IsSettled (state S.Store conn.old) → Stays (state S.Store conn.old) (state S.Store conn.new) }
{
    conn.query_all(FIND_OLD, &[])
}

/// Reads the row that shows a record of version 1.
fn read_old(row: &Row) -> Result<OldRow, Error>
    ensures shown { IfOk result (λ o. front row.now ≡ shown_old (old_view o)) }
    ensures cause { IfErr result (λ e. (o : List ℕ × Old) → row.now ≡ shown_old o → IsTextRecord o → ¬ IsRefusal e) }
{
    let id = row.get(0)?;
    let form = row.get(1)?;
    let bundle = row.get(2)?;
    Ok(OldRow { id, form, bundle })
}

/// The records of version 1 that rows show.
fn olds_in(alloc: Global, rows: &[Row]) -> Result<Vec<OldRow>, Error>
    ensures shown { IfOk result (λ v. (os : List (List ℕ × Old)) → rows.now ≡ map shown_old os
        → olds_view v.items ≡ os) }
    ensures cause { IfErr result (λ e. (os : List (List ℕ × Old)) → rows.now ≡ map shown_old os
        → AllByRecursion IsTextRecord os → ¬ IsRefusal e) }
{
    let mut olds = Vec::with_capacity(alloc, rows.len())?;
    for row in rows {
        olds.push(read_old(row)?)?;
    }
    Ok(olds)
}

/// All records that tables of version 1 keep, each once, in no promised order.
/// Refused by `OutOfMemory`, and else only where the disk failed or the connection was shut before, if those tables stand.
pub fn find_old<S: Alter>(conn: &mut Connection<S>, alloc: Global) -> Result<Vec<OldRow>, Error>
    ensures mode { conn.old.in_transaction ≡ false → conn.new.in_transaction ≡ false }
    ensures frame { Frame (state S.Store conn.old) (state S.Store conn.new) }
    ensures limit { conn.new.step_limit ≡ conn.old.step_limit }
    ensures open { OnOk result (IsLive (state S.Store conn.new)) }
    ensures shown { HasCleanDisk (state S.Store conn.new) → IfOk result (λ v. (d : _) (m : _)
        → SpellsFirst (state S.Store conn.old).now d m → AreOlds (olds_view v.items) m) }
    ensures cause { HasCleanDisk (state S.Store conn.new) → conn.old.step_limit ≡ None → IfErr result (λ e.
        (d : _) (m : _) → SpellsFirst (state S.Store conn.old).now d m
        → IsExcused (state S.Store conn.old) (state S.Store conn.new) e) }
    ensures same { HasCleanDisk (state S.Store conn.new)
        → OnOk result (((state S.Store conn.new).now ≡ (state S.Store conn.old).now)
        × ((state S.Store conn.new).committed ≡ (state S.Store conn.old).committed)) }
    ensures untouched { IsSettled (state S.Store conn.old) → Stays (state S.Store conn.old) (state S.Store conn.new) }
{
    let rows = find_old_rows(conn)?;
    olds_in(alloc, &rows)
}

/// Takes `record` of version 1 out, with its rows. Whatever rows `about` has, they stay.
fn drop_record<S: Alter>(tx: &mut Transaction<'_, S>) -> Result<usize, Error>
    ensures same_reference { tx.new.conn.ghost_name ≡ tx.old.conn.ghost_name }
    ensures frame { Frame (state S.Store tx.old.conn.now) (state S.Store tx.new.conn.now) }
    ensures limit { tx.new.conn.now.step_limit ≡ tx.old.conn.now.step_limit }
    ensures kept { Inside S.Store tx.old.conn.now tx.new.conn.now KeepsCommit }
    ensures done { Inside S.Store tx.old.conn.now tx.new.conn.now
        (λ old new. OnOk result (Advances old new (Builds IsOld IsBare))) }
    ensures cause { Inside S.Store tx.old.conn.now tx.new.conn.now (λ old new. tx.old.conn.now.step_limit ≡ None
        → IfErr result (λ e. (rows : _) → IsOld rows old.now → IsExcused old new e)) }
{
    tx.execute(DROP_RECORD, &[])
}

/// Writes version 2 in place of version 1, once the tables of version 2 are made.
fn set_version<S: Alter>(tx: &mut Transaction<'_, S>) -> Result<usize, Error>
    ensures same_reference { tx.new.conn.ghost_name ≡ tx.old.conn.ghost_name }
    ensures frame { Frame (state S.Store tx.old.conn.now) (state S.Store tx.new.conn.now) }
    ensures limit { tx.new.conn.now.step_limit ≡ tx.old.conn.now.step_limit }
    ensures kept { Inside S.Store tx.old.conn.now tx.new.conn.now KeepsCommit }
    ensures done { Inside S.Store tx.old.conn.now tx.new.conn.now (λ old new. OnOk result (Advances old new Renews)) }
    ensures cause { Inside S.Store tx.old.conn.now tx.new.conn.now (λ old new. tx.old.conn.now.step_limit ≡ None
        → IfErr result (λ e. (d : _) → IsMade (about_row 1 d ∷ []) old.now → IsShortAbout d → IsExcused old new e)) }
{
    tx.execute(SET_VERSION, &[])
}

/// Puts the tables of version 2 in place of those of version 1, under the same declarations and with no record.
/// Refused by `OutOfMemory`, and else only where the disk failed, the connection was shut before or the declarations are too long, if the tables of version 1 stand.
pub fn replace_tables<S: Alter>(tx: &mut Transaction<'_, S>) -> Result<(), Error>
    ensures same_reference { tx.new.conn.ghost_name ≡ tx.old.conn.ghost_name }
    ensures frame { Frame (state S.Store tx.old.conn.now) (state S.Store tx.new.conn.now) }
    ensures limit { tx.new.conn.now.step_limit ≡ tx.old.conn.now.step_limit }
    ensures kept { Inside S.Store tx.old.conn.now tx.new.conn.now KeepsCommit }
    ensures done { Inside S.Store tx.old.conn.now tx.new.conn.now
        (λ old new. OnOk result (Advances old new Empties)) }
    ensures cause { Inside S.Store tx.old.conn.now tx.new.conn.now (λ old new. tx.old.conn.now.step_limit ≡ None
        → IfErr result (λ e. (d : _) → IsFirst d old.now → IsShortAbout d → IsExcused old new e)) }
{
    drop_record(tx)?;
    create_record(tx)?;
    create_object(tx)?;
    set_version(tx)?;
    Ok(())
}
