//! The record of an id, by two queries.
ghost use Rattle.std.specs.Prelude.{◌≡◌, [], false, IsTrue, IfErr, IfOk, None, OnOk, Some, map};
ghost use Rattle.sqlite.specs.State.{HasCleanDisk};
ghost use Rattle.sqlite.specs.Held.{state};
ghost use Rattle.fv_store_tables.specs.Causes.{IsExcused};
ghost use Rattle.fv_store_tables.specs.Changes.{IsNamed, AllNamed};
ghost use Rattle.fv_store_tables.specs.Stands.{Frame, IsLive, IsSettled, Keeps, ShowsHead, Stays, head_of, shown_part};
ghost use Rattle.fv_store_tables.specs.Stored.{LacksId, ShowsNone, ShowsRecord};

use crate::entry::FoundRecord;
use sqlite::{Alter, Connection, Error, Row, params};
use std::alloc::Global;

pub(crate) const FIND_RECORD: &str = "SELECT form, root FROM record WHERE id = ?1";

const FIND_OBJECTS: &str = "SELECT name, kind, fields FROM object WHERE rec = ?1 ORDER BY name";

/// The rows that show the record of the id: one, or none.
fn find_record<S: Alter>(conn: &mut Connection<S>, id: &str) -> Result<Vec<Row>, Error>
    ensures mode { conn.old.in_transaction ≡ false → conn.new.in_transaction ≡ false }
    ensures frame { Frame (state S.Store conn.old) (state S.Store conn.new) }
    ensures limit { conn.new.step_limit ≡ conn.old.step_limit }
    ensures open { OnOk result (IsLive (state S.Store conn.new)) }
    ensures shown { HasCleanDisk (state S.Store conn.new) → IfOk result (λ rows. IsTrue (state S.Store conn.old).is_open
        × ((d : _) (m : _) → Keeps (state S.Store conn.old) d m → ShowsHead rows.items (head_of (m id.now)))) }
    ensures none { HasCleanDisk (state S.Store conn.new) → IfOk result (λ rows. rows.items ≡ [] → LacksId id.now (state S.Store conn.old).now) }
    ensures cause { HasCleanDisk (state S.Store conn.new) → conn.old.step_limit ≡ None → IfErr result (λ e.
        (d : _) (m : _) → Keeps (state S.Store conn.old) d m
        → IsExcused (state S.Store conn.old) (state S.Store conn.new) e) }
    ensures same { HasCleanDisk (state S.Store conn.new) → OnOk result ((d : _) (m : _)
        → Keeps (state S.Store conn.old) d m → (state S.Store conn.new).now ≡ (state S.Store conn.old).now) }
    ensures stays { (d : _) (m : _) → Keeps (state S.Store conn.old) d m → Keeps (state S.Store conn.new) d m }
    ensures untouched { IsSettled (state S.Store conn.old) → (d : _) (m : _) → Keeps (state S.Store conn.old) d m
        → Stays (state S.Store conn.old) (state S.Store conn.new) }
{
    conn.query_all(FIND_RECORD, params![id])
}

/// The rows that show the objects of the record, ascending by their names.
fn find_objects<S: Alter>(conn: &mut Connection<S>, id: &str) -> Result<Vec<Row>, Error>
    ensures mode { conn.old.in_transaction ≡ false → conn.new.in_transaction ≡ false }
    ensures frame { Frame (state S.Store conn.old) (state S.Store conn.new) }
    ensures limit { conn.new.step_limit ≡ conn.old.step_limit }
    ensures open { OnOk result (IsLive (state S.Store conn.new)) }
    ensures shown { HasCleanDisk (state S.Store conn.new) → IfOk result (λ rows. (d : _) (m : _)
        → Keeps (state S.Store conn.old) d m → (k : _) → m id.now ≡ Some k → IsNamed k.objects
        → rows.items ≡ map shown_part k.objects) }
    ensures cause { HasCleanDisk (state S.Store conn.new) → conn.old.step_limit ≡ None → IfErr result (λ e.
        (d : _) (m : _) → Keeps (state S.Store conn.old) d m
        → IsExcused (state S.Store conn.old) (state S.Store conn.new) e) }
    ensures same { HasCleanDisk (state S.Store conn.new) → OnOk result ((d : _) (m : _)
        → Keeps (state S.Store conn.old) d m → (state S.Store conn.new).now ≡ (state S.Store conn.old).now) }
    ensures stays { (d : _) (m : _) → Keeps (state S.Store conn.old) d m → Keeps (state S.Store conn.new) d m }
    ensures untouched { IsSettled (state S.Store conn.old) → (d : _) (m : _) → Keeps (state S.Store conn.old) d m
        → Stays (state S.Store conn.old) (state S.Store conn.new) }
{
    conn.query_all(FIND_OBJECTS, params![id])
}

/// The rows of the record of the id.
/// Refused by `OutOfMemory`, and else only where the disk failed or the connection was shut before, if the tables stand.
pub fn find<S: Alter>(
    conn: &mut Connection<S>,
    alloc: Global,
    id: &str,
) -> Result<FoundRecord, Error>
    ensures mode { conn.old.in_transaction ≡ false → conn.new.in_transaction ≡ false }
    ensures frame { Frame (state S.Store conn.old) (state S.Store conn.new) }
    ensures limit { conn.new.step_limit ≡ conn.old.step_limit }
    ensures open { OnOk result (IsLive (state S.Store conn.new)) }
    ensures found { HasCleanDisk (state S.Store conn.new) → IfOk result (λ f. IsTrue (state S.Store conn.old).is_open
        × ((d : _) (m : _) → Keeps (state S.Store conn.old) d m → AllNamed m → ShowsRecord f (m id.now))) }
    ensures none { HasCleanDisk (state S.Store conn.new) → IfOk result (λ f. ShowsNone f → LacksId id.now (state S.Store conn.old).now) }
    ensures cause { HasCleanDisk (state S.Store conn.new) → conn.old.step_limit ≡ None → IfErr result (λ e.
        (d : _) (m : _) → Keeps (state S.Store conn.old) d m
        → IsExcused (state S.Store conn.old) (state S.Store conn.new) e) }
    ensures same { HasCleanDisk (state S.Store conn.new) → OnOk result ((d : _) (m : _)
        → Keeps (state S.Store conn.old) d m → (state S.Store conn.new).now ≡ (state S.Store conn.old).now) }
    ensures stays { (d : _) (m : _) → Keeps (state S.Store conn.old) d m → Keeps (state S.Store conn.new) d m }
    ensures untouched { IsSettled (state S.Store conn.old) → (d : _) (m : _) → Keeps (state S.Store conn.old) d m
        → Stays (state S.Store conn.old) (state S.Store conn.new) }
{
    let head = find_record(conn, id)?;
    if head.is_empty() {
        let objects = Vec::new(alloc);
        return Ok(FoundRecord { head, objects });
    }
    let objects = find_objects(conn, id)?;
    Ok(FoundRecord { head, objects })
}
