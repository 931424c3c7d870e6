//! The ids of the records of a form, and of all records.
ghost use Rattle.std.specs.Prelude.{◌≡◌, List, ℕ, false, map, IsTrue, IsUtf8, IfErr, IfOk, OnOk, None, string_bytes};
ghost use Rattle.std.specs.List.{AllByRecursion};
ghost use Rattle.sqlite.specs.State.{HasCleanDisk};
ghost use Rattle.sqlite.specs.Held.{state};
ghost use Rattle.fv_store_tables.specs.Causes.{IsExcused, IsRefusal};
ghost use Rattle.fv_store_tables.specs.Lists.{HasForm, HasRecord, Lists, ShowsIds, id_row};
ghost use Rattle.fv_store_tables.specs.Stands.{Frame, IsLive, IsSettled, Keeps, Stays};

use sqlite::{Alter, Connection, Error, Row, params};
use std::alloc::Global;

const FIND_IDS: &str = "SELECT id FROM record WHERE form = ?1 AND id > ?2 ORDER BY id LIMIT ?3";

const FIND_ALL_IDS: &str = "SELECT id FROM record WHERE id > ?1 ORDER BY id LIMIT ?2";

/// The rows that show the first ids of a form above one, so many at most.
fn find_id_rows<S: Alter>(
    conn: &mut Connection<S>,
    form: &str,
    above: &str,
    limit: u32,
) -> Result<Vec<Row>, Error>
    ensures mode { conn.old.in_transaction ≡ false → conn.new.in_transaction ≡ false }
    ensures frame { Frame (state S.Store conn.old) (state S.Store conn.new) }
    ensures limit { conn.new.step_limit ≡ conn.old.step_limit }
    ensures open { OnOk result (IsLive (state S.Store conn.new)) }
    ensures shown { HasCleanDisk (state S.Store conn.new)
        → IfOk result (λ rows. IsTrue (state S.Store conn.old).is_open
        × ((d : _) (m : _) → Keeps (state S.Store conn.old) d m → ShowsIds rows.items (HasForm m form.now) above.now limit)) }
    ensures cause { HasCleanDisk (state S.Store conn.new) → conn.old.step_limit ≡ None → IfErr result (λ e.
        (d : _) (m : _) → Keeps (state S.Store conn.old) d m
        → IsExcused (state S.Store conn.old) (state S.Store conn.new) e) }
    ensures stays { (d : _) (m : _) → Keeps (state S.Store conn.old) d m → Keeps (state S.Store conn.new) d m }
    ensures untouched { IsSettled (state S.Store conn.old) → (d : _) (m : _) → Keeps (state S.Store conn.old) d m
        → Stays (state S.Store conn.old) (state S.Store conn.new) }
{
    conn.query_all(FIND_IDS, params![form, above, limit])
}

/// The rows that show the first ids above one, so many at most.
fn find_all_id_rows<S: Alter>(
    conn: &mut Connection<S>,
    above: &str,
    limit: u32,
) -> Result<Vec<Row>, Error>
    ensures mode { conn.old.in_transaction ≡ false → conn.new.in_transaction ≡ false }
    ensures frame { Frame (state S.Store conn.old) (state S.Store conn.new) }
    ensures limit { conn.new.step_limit ≡ conn.old.step_limit }
    ensures open { OnOk result (IsLive (state S.Store conn.new)) }
    ensures shown { HasCleanDisk (state S.Store conn.new)
        → IfOk result (λ rows. IsTrue (state S.Store conn.old).is_open
        × ((d : _) (m : _) → Keeps (state S.Store conn.old) d m → ShowsIds rows.items (HasRecord m) above.now limit)) }
    ensures cause { HasCleanDisk (state S.Store conn.new) → conn.old.step_limit ≡ None → IfErr result (λ e.
        (d : _) (m : _) → Keeps (state S.Store conn.old) d m
        → IsExcused (state S.Store conn.old) (state S.Store conn.new) e) }
    ensures stays { (d : _) (m : _) → Keeps (state S.Store conn.old) d m → Keeps (state S.Store conn.new) d m }
    ensures untouched { IsSettled (state S.Store conn.old) → (d : _) (m : _) → Keeps (state S.Store conn.old) d m
        → Stays (state S.Store conn.old) (state S.Store conn.new) }
{
    conn.query_all(FIND_ALL_IDS, params![above, limit])
}

/// The ids that rows show.
fn ids_in(alloc: Global, rows: &[Row]) -> Result<Vec<String>, Error>
    ensures shown { IfOk result (λ v. (ids : List (List ℕ)) → rows.now ≡ map id_row ids
        → map string_bytes v.items ≡ ids) }
    ensures cause { IfErr result (λ e. (ids : List (List ℕ)) → rows.now ≡ map id_row ids
        → AllByRecursion IsUtf8 ids → ¬ IsRefusal e) }
{
    let mut ids = Vec::with_capacity(alloc, rows.len())?;
    for row in rows {
        let id: String = row.get(0)?;
        ids.push(id)?;
    }
    Ok(ids)
}

/// The first ids of the records of a form above one, so many at most, ascending by their bytes. The one need not be the id of a record.
/// Refused by `OutOfMemory`, and else only where the disk failed or the connection was shut before, if the tables stand.
pub fn find_ids<S: Alter>(
    conn: &mut Connection<S>,
    alloc: Global,
    form: &str,
    above: &str,
    limit: u32,
) -> Result<Vec<String>, Error>
    ensures mode { conn.old.in_transaction ≡ false → conn.new.in_transaction ≡ false }
    ensures frame { Frame (state S.Store conn.old) (state S.Store conn.new) }
    ensures limit { conn.new.step_limit ≡ conn.old.step_limit }
    ensures open { OnOk result (IsLive (state S.Store conn.new)) }
    ensures found { HasCleanDisk (state S.Store conn.new) → IfOk result (λ v. IsTrue (state S.Store conn.old).is_open
        × ((d : _) (m : _) → Keeps (state S.Store conn.old) d m
        → Lists (HasForm m form.now) above.now limit (map string_bytes v.items))) }
    ensures cause { HasCleanDisk (state S.Store conn.new) → conn.old.step_limit ≡ None → IfErr result (λ e.
        (d : _) (m : _) → Keeps (state S.Store conn.old) d m
        → IsExcused (state S.Store conn.old) (state S.Store conn.new) e) }
    ensures stays { (d : _) (m : _) → Keeps (state S.Store conn.old) d m → Keeps (state S.Store conn.new) d m }
    ensures untouched { IsSettled (state S.Store conn.old) → (d : _) (m : _) → Keeps (state S.Store conn.old) d m
        → Stays (state S.Store conn.old) (state S.Store conn.new) }
{
    let rows = find_id_rows(conn, form, above, limit)?;
    ids_in(alloc, &rows)
}

/// The first ids of the records of all forms above one, so many at most, ascending by their bytes. The one need not be the id of a record.
/// Refused by `OutOfMemory`, and else only where the disk failed or the connection was shut before, if the tables stand.
pub fn find_all_ids<S: Alter>(
    conn: &mut Connection<S>,
    alloc: Global,
    above: &str,
    limit: u32,
) -> Result<Vec<String>, Error>
    ensures mode { conn.old.in_transaction ≡ false → conn.new.in_transaction ≡ false }
    ensures frame { Frame (state S.Store conn.old) (state S.Store conn.new) }
    ensures limit { conn.new.step_limit ≡ conn.old.step_limit }
    ensures open { OnOk result (IsLive (state S.Store conn.new)) }
    ensures found { HasCleanDisk (state S.Store conn.new) → IfOk result (λ v. IsTrue (state S.Store conn.old).is_open
        × ((d : _) (m : _) → Keeps (state S.Store conn.old) d m
        → Lists (HasRecord m) above.now limit (map string_bytes v.items))) }
    ensures cause { HasCleanDisk (state S.Store conn.new) → conn.old.step_limit ≡ None → IfErr result (λ e.
        (d : _) (m : _) → Keeps (state S.Store conn.old) d m
        → IsExcused (state S.Store conn.old) (state S.Store conn.new) e) }
    ensures stays { (d : _) (m : _) → Keeps (state S.Store conn.old) d m → Keeps (state S.Store conn.new) d m }
    ensures untouched { IsSettled (state S.Store conn.old) → (d : _) (m : _) → Keeps (state S.Store conn.old) d m
        → Stays (state S.Store conn.old) (state S.Store conn.new) }
{
    let rows = find_all_id_rows(conn, above, limit)?;
    ids_in(alloc, &rows)
}
