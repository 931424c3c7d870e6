//! The rows of a record's objects are written anew by one statement, where their rowids lie close together.
ghost use Rattle.std.specs.Prelude.{◌≡◌, ◌<◌, ◌++◌, ◌∷◌, [], ℤ, length, map, true, IfErr, IfOk, IsSome, None, OnOk};
ghost use Rattle.sqlite.specs.State.{KeepsCommit};
ghost use Rattle.sqlite.specs.Held.{state};
ghost use Rattle.sqlite.specs.Values.{bound};
ghost use Rattle.fv_store_tables.specs.Changes.{found_view, object_view, objects_view, AreApart};
ghost use Rattle.fv_store_tables.specs.Causes.{AreShort, HasRooms, IsExcused};
ghost use Rattle.fv_store_tables.specs.Stands.{Frame, SpellsTables, IsOwned};
ghost use Rattle.fv_store_tables.specs.Steps.{Advances, ArePartsOf, AreRowsOf, Inside};
ghost use Rattle.fv_store_tables.specs.Updating.{place_values, places_of, range_values, things_of, Follow, IsRange, UpdatesRange};

use crate::entry::FoundRow;
use crate::inserting::MOST_VALUES;
use crate::rows::is_same;
use crate::text::ObjectText;
use sqlite::types::ValueRef;
use sqlite::{Alter, Error, Transaction};
use std::alloc::{AllocError, Global};

/// Sixteen places in the order of their rowids, each with three parameters: its rowid, and the type's name and the fields that its row shall have.
/// The CASEs halve the places. Where there are fewer rows, the last one fills the places behind it.
const UPDATE_RANGE: &str =
    "UPDATE object SET kind = CASE WHEN rowid < ?26 THEN CASE WHEN rowid < ?14 THEN CASE WHEN rowid < ?8 THEN CASE WHEN rowid < ?5 THEN ?3 ELSE ?6 END \
    ELSE CASE WHEN rowid < ?11 THEN ?9 ELSE ?12 END END ELSE CASE WHEN rowid < ?20 THEN CASE WHEN rowid < ?17 THEN ?15 ELSE ?18 END ELSE CASE WHEN \
    rowid < ?23 THEN ?21 ELSE ?24 END END END ELSE CASE WHEN rowid < ?38 THEN CASE WHEN rowid < ?32 THEN CASE WHEN rowid < ?29 THEN ?27 ELSE ?30 END \
    ELSE CASE WHEN rowid < ?35 THEN ?33 ELSE ?36 END END ELSE CASE WHEN rowid < ?44 THEN CASE WHEN rowid < ?41 THEN ?39 ELSE ?42 END ELSE CASE WHEN \
    rowid < ?47 THEN ?45 ELSE ?48 END END END END, fields = CASE WHEN rowid < ?26 THEN CASE WHEN rowid < ?14 THEN CASE WHEN rowid < ?8 THEN CASE WHEN \
    rowid < ?5 THEN ?4 ELSE ?7 END ELSE CASE WHEN rowid < ?11 THEN ?10 ELSE ?13 END END ELSE CASE WHEN rowid < ?20 THEN CASE WHEN rowid < ?17 THEN \
    ?16 ELSE ?19 END ELSE CASE WHEN rowid < ?23 THEN ?22 ELSE ?25 END END END ELSE CASE WHEN rowid < ?38 THEN CASE WHEN rowid < ?32 THEN CASE WHEN \
    rowid < ?29 THEN ?28 ELSE ?31 END ELSE CASE WHEN rowid < ?35 THEN ?34 ELSE ?37 END END ELSE CASE WHEN rowid < ?44 THEN CASE WHEN rowid < ?41 THEN \
    ?40 ELSE ?43 END ELSE CASE WHEN rowid < ?47 THEN ?46 ELSE ?49 END END END END WHERE rowid >= ?2 AND rowid <= ?47 AND rec = ?1";

/// As many rows as the statement has places for.
const PLACES: usize = 16;

/// As few as it writes sooner than a statement for each.
const FEWEST: usize = 3;

/// The rowid of a row.
fn rowid_of(row: &FoundRow) -> i64
    ensures { result ≡ row.now.rowid }
{
    row.rowid
}

/// Whether the rowids rise, and the rows have the names of the objects in their places.
fn are_in_step(rows: &[FoundRow], objects: &[ObjectText]) -> bool
    requires { length rows.now ≡ length objects.now }
    ensures { result ≡ true → (n : ℤ) × Follow n (map found_view rows.now) (objects_view objects.now) }
{
    let mut last = i64::MIN;
    for at in 0..rows.len() {
        let rowid = rowid_of(&rows[at]);
        if rowid <= last || rows[at].name != objects[at].name.as_bytes() {
            return false;
        }
        last = rowid;
    }
    true
}

/// Whether more than half of the rows have something else than the objects in their places.
fn most_differ(rows: &[FoundRow], objects: &[ObjectText]) -> bool
    requires { length rows.now ≡ length objects.now }
{
    let mut same = 0;
    for at in 0..rows.len() {
        if is_same(&rows[at], &objects[at]) {
            same += 1;
        }
    }
    same < rows.len() - same
}

/// Whether one statement shall write these objects over these rows: where most of them differ, and at most half of the rowids between are those of others.
/// Only speed rests on it where it answers `false`.
pub(crate) fn is_range(rows: &[FoundRow], objects: &[ObjectText]) -> bool
    ensures { result ≡ true → IsRange (map found_view rows.now) (objects_view objects.now) }
{
    let count = rows.len();
    if count < FEWEST || count > PLACES || count != objects.len() {
        return false;
    }
    let reach = rows[count - 1].rowid.abs_diff(rows[0].rowid);
    reach / 2 < count as u64 && are_in_step(rows, objects) && most_differ(rows, objects)
}

/// Behind these values those of a place.
fn push_place<'a>(
    values: &mut Vec<ValueRef<'a>>,
    row: &FoundRow,
    object: &'a ObjectText<'a>,
) -> Result<(), AllocError>
    ensures { OnOk result (bound values.new.items ≡ bound values.old.items ++ place_values ((row.now.rowid, object_view object.now) ∷ [])) }
{
    values.push(ValueRef::Int(row.rowid))?;
    values.push(ValueRef::Text(object.kind.as_bytes()))?;
    values.push(ValueRef::Text(object.fields.as_bytes()))?;
    Ok(())
}

/// The parameters of the statement that writes these objects over these rows.
fn values_of<'a>(
    alloc: Global,
    id: &'a str,
    rows: &[FoundRow],
    objects: &'a [ObjectText<'a>],
) -> Result<Vec<ValueRef<'a>>, AllocError>
    requires { IsRange (map found_view rows.now) (objects_view objects.now) }
    ensures { IfOk result (λ v. bound v.items ≡ range_values id.now (places_of (map found_view rows.now) (objects_view objects.now))) }
{
    let mut values = Vec::with_capacity(alloc, MOST_VALUES)?;
    values.push(ValueRef::Text(id.as_bytes()))?;
    for place in 0..PLACES {
        let at = if place < rows.len() {
            place
        } else {
            rows.len() - 1
        };
        push_place(&mut values, &rows[at], &objects[at])?;
    }
    Ok(values)
}

/// Writes these objects over the rows of a record's objects, if these are they.
pub(crate) fn update_range<S: Alter>(
    tx: &mut Transaction<'_, S>,
    id: &str,
    rows: &[FoundRow],
    objects: &[ObjectText],
) -> Result<usize, Error>
    requires { IsRange (map found_view rows.now) (objects_view objects.now) }
    ensures same_reference { tx.new.conn.ghost_name ≡ tx.old.conn.ghost_name }
    ensures frame { Frame (state S.Store tx.old.conn.now) (state S.Store tx.new.conn.now) }
    ensures limit { tx.new.conn.now.step_limit ≡ tx.old.conn.now.step_limit }
    ensures kept { Inside S.Store tx.old.conn.now tx.new.conn.now KeepsCommit }
    ensures done { Inside S.Store tx.old.conn.now tx.new.conn.now (λ old new. OnOk result (Advances old new
        (UpdatesRange id.now (map found_view rows.now) (objects_view objects.now)))) }
    ensures cause { Inside S.Store tx.old.conn.now tx.new.conn.now (λ old new. tx.old.conn.now.step_limit ≡ None
        → IfErr result (λ e. (d : _) (t : _) → SpellsTables old.now d t → AreRowsOf id.now (map found_view rows.now) old.now
        → ArePartsOf id.now (things_of (map found_view rows.now)) t → AreApart (objects_view objects.now) → IsOwned t
        → IsSome (t.heads id.now) → HasRooms 0 old.now → AreShort id.now (objects_view objects.now) → IsExcused old new e)) }
{
    let alloc = *objects[0].fields.allocator();
    let values = values_of(alloc, id, rows, objects)?;
    tx.execute(UPDATE_RANGE, &values)
}
