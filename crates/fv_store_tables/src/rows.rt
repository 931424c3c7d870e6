//! The statements on the rows of the two tables.
ghost use Rattle.std.specs.Prelude.{◌≡◌, ◌+◌, ◌∷◌, [], false, length, IfErr, IfOk, IsSome, MatchOption, None, OnOk, Some};
ghost use Rattle.sqlite.specs.State.{KeepsCommit};
ghost use Rattle.sqlite.specs.Held.{state};
ghost use Rattle.sqlite_rules.specs.Lists.{Has};
ghost use Rattle.fv_store_tables.specs.Changes.{all_added, others_dropped, has_name as has, names_of, replaced, same_object, dropped_unless_kept, written, found_object, found_objects, object_view, objects_view, AreApart, IsNew, IsReady};
ghost use Rattle.fv_store_tables.specs.Causes.{AreShort, HasRooms, IsExcused, IsShortHead, IsShortPart};
ghost use Rattle.fv_store_tables.specs.Stands.{Frame, ShowsHead, SpellsTables, IsOwned, removed, put, added, dropped};
ghost use Rattle.fv_store_tables.specs.Steps.{Advances, Anyhow, AreThere, HasHead, Inside, IsThere, Makes, ShowsParts, UpdatesPart, UpdatesRow};
ghost use Rattle.fv_store_tables.specs.Stored.{head_view};

use crate::entry::{FoundRow, HeadRow, found_in, head_in};
use crate::finding::FIND_RECORD;
use crate::inserting::{insert_objects, insert_run};
use crate::text::ObjectText;
use crate::updating::{is_range, update_range};
use sqlite::types::ValueRef;
use sqlite::{Alter, Error, Row, Transaction, params};
use std::slice::from_ref;

const DELETE_RECORD: &str = "DELETE FROM record WHERE id = ?1";

const UPDATE_RECORD: &str = "UPDATE record SET form = ?2, root = ?3 WHERE id = ?1";

const INSERT_RECORD: &str = "INSERT INTO record (id, form, root) VALUES (?1, ?2, ?3)";

const UPDATE_OBJECT: &str = "UPDATE object SET kind = ?3, fields = ?4 WHERE rec = ?1 AND name = ?2";

const UPDATE_ROW: &str =
    "UPDATE object SET kind = ?4, fields = ?5 WHERE rowid = ?1 AND rec = ?2 AND name = ?3";

const DELETE_OBJECT: &str = "DELETE FROM object WHERE rec = ?1 AND name = ?2";

const PARTS: &str = "SELECT name, kind, fields, rowid FROM object WHERE rec = ?1 ORDER BY name";

/// Takes the record of the id out, if there is one; the key's cascade takes its objects out.
pub(crate) fn delete_record<S: Alter>(tx: &mut Transaction<'_, S>, id: &str) -> Result<usize, Error>
    ensures same_reference { tx.new.conn.ghost_name ≡ tx.old.conn.ghost_name }
    ensures frame { Frame (state S.Store tx.old.conn.now) (state S.Store tx.new.conn.now) }
    ensures limit { tx.new.conn.now.step_limit ≡ tx.old.conn.now.step_limit }
    ensures kept { Inside S.Store tx.old.conn.now tx.new.conn.now KeepsCommit }
    ensures done { Inside S.Store tx.old.conn.now tx.new.conn.now (λ old new. OnOk result (Advances old new
        (Makes 0 IsOwned (removed id.now)))) }
    ensures cause { Inside S.Store tx.old.conn.now tx.new.conn.now (λ old new. tx.old.conn.now.step_limit ≡ None
        → IfErr result (λ e. (d : _) (t : _) → SpellsTables old.now d t → IsOwned t → IsExcused old new e)) }
{
    tx.execute(DELETE_RECORD, params![id])
}

/// Writes the row of an object anew, if there is one, and counts the rows that it changed: 1, or else 0.
pub(crate) fn update_object<S: Alter>(
    tx: &mut Transaction<'_, S>,
    id: &str,
    name: &str,
    kind: &str,
    fields: &str,
) -> Result<usize, Error>
    ensures same_reference { tx.new.conn.ghost_name ≡ tx.old.conn.ghost_name }
    ensures frame { Frame (state S.Store tx.old.conn.now) (state S.Store tx.new.conn.now) }
    ensures limit { tx.new.conn.now.step_limit ≡ tx.old.conn.now.step_limit }
    ensures kept { Inside S.Store tx.old.conn.now tx.new.conn.now KeepsCommit }
    ensures done { Inside S.Store tx.old.conn.now tx.new.conn.now (λ old new. IfOk result (λ count. Advances old new
        (UpdatesPart (id.now, name.now) (record { kind = kind.now; fields = fields.now }) count))) }
    ensures cause { Inside S.Store tx.old.conn.now tx.new.conn.now (λ old new. tx.old.conn.now.step_limit ≡ None
        → IfErr result (λ e. (d : _) (t : _) → SpellsTables old.now d t → IsOwned t → HasRooms 0 old.now
        → IsShortPart (id.now, name.now) (record { kind = kind.now; fields = fields.now }) → IsExcused old new e)) }
{
    tx.execute(UPDATE_OBJECT, params![id, name, kind, fields])
}

/// Writes the row of an object anew, if it is under the rowid of the row that was found, and counts the rows that it changed: 1, or else 0.
fn update_row<S: Alter>(
    tx: &mut Transaction<'_, S>,
    id: &str,
    row: &FoundRow,
    object: &ObjectText,
) -> Result<usize, Error>
    ensures same_reference { tx.new.conn.ghost_name ≡ tx.old.conn.ghost_name }
    ensures frame { Frame (state S.Store tx.old.conn.now) (state S.Store tx.new.conn.now) }
    ensures limit { tx.new.conn.now.step_limit ≡ tx.old.conn.now.step_limit }
    ensures kept { Inside S.Store tx.old.conn.now tx.new.conn.now KeepsCommit }
    ensures done { Inside S.Store tx.old.conn.now tx.new.conn.now (λ old new. IfOk result (λ count. Advances old new
        (UpdatesRow row.now.rowid (id.now, (object_view object.now).0) (object_view object.now).1 count))) }
    ensures cause { Inside S.Store tx.old.conn.now tx.new.conn.now (λ old new. tx.old.conn.now.step_limit ≡ None
        → IfErr result (λ e. (d : _) (t : _) → SpellsTables old.now d t → IsOwned t → HasRooms 0 old.now
        → IsShortPart (id.now, (object_view object.now).0) (object_view object.now).1 → IsExcused old new e)) }
{
    tx.execute(
        UPDATE_ROW,
        params![&row.rowid, id, object.name, object.kind, &object.fields],
    )
}

/// The rows that show the objects of a record and their rowids. The query has them ascend by their names, on which no clause rests.
fn find_parts<S: Alter>(tx: &mut Transaction<'_, S>, id: &str) -> Result<Vec<Row>, Error>
    ensures same_reference { tx.new.conn.ghost_name ≡ tx.old.conn.ghost_name }
    ensures frame { Frame (state S.Store tx.old.conn.now) (state S.Store tx.new.conn.now) }
    ensures limit { tx.new.conn.now.step_limit ≡ tx.old.conn.now.step_limit }
    ensures kept { Inside S.Store tx.old.conn.now tx.new.conn.now KeepsCommit }
    ensures done { Inside S.Store tx.old.conn.now tx.new.conn.now (λ old new. OnOk result (Advances old new (λ was is. is ≡ was))) }
    ensures shown { Inside S.Store tx.old.conn.now tx.new.conn.now (λ old new. IfOk result (λ v. (d : _) (t : _)
        → SpellsTables old.now d t → ShowsParts id.now v.items old.now t)) }
    ensures cause { Inside S.Store tx.old.conn.now tx.new.conn.now (λ old new. tx.old.conn.now.step_limit ≡ None
        → IfErr result (λ e. (d : _) (t : _) → SpellsTables old.now d t → IsExcused old new e)) }
{
    tx.query_all(PARTS, params![id])
}

/// Writes the row of an object of a record that is there, in place of that of its name, if there is one.
fn put_object<S: Alter>(
    tx: &mut Transaction<'_, S>,
    id: &str,
    object: &ObjectText,
) -> Result<usize, Error>
    ensures same_reference { tx.new.conn.ghost_name ≡ tx.old.conn.ghost_name }
    ensures frame { Frame (state S.Store tx.old.conn.now) (state S.Store tx.new.conn.now) }
    ensures limit { tx.new.conn.now.step_limit ≡ tx.old.conn.now.step_limit }
    ensures kept { Inside S.Store tx.old.conn.now tx.new.conn.now KeepsCommit }
    ensures done { Inside S.Store tx.old.conn.now tx.new.conn.now (λ old new. OnOk result (Advances old new
        (Makes 1 Anyhow (added (id.now, (object_view object.now).0) (object_view object.now).1)))) }
    ensures cause { Inside S.Store tx.old.conn.now tx.new.conn.now (λ old new. tx.old.conn.now.step_limit ≡ None
        → IfErr result (λ e. (d : _) (t : _) → SpellsTables old.now d t → IsOwned t → IsSome (t.heads id.now)
        → HasRooms 1 old.now → IsShortPart (id.now, (object_view object.now).0) (object_view object.now).1 → IsExcused old new e)) }
{
    match update_object(tx, id, object.name, object.kind, &object.fields)? {
        0 => insert_run(tx, id, from_ref(object)),
        changed => Ok(changed),
    }
}

/// Whether a row and an object have the same name, the same type's name and the same fields.
pub(crate) fn is_same(row: &FoundRow, object: &ObjectText) -> bool
    ensures { result ≡ same_object (found_object row.now) (object_view object.now) }
{
    row.name == object.name.as_bytes()
        && row.kind == object.kind.as_bytes()
        && row.fields == object.fields.as_bytes()
}

/// The row of the object of the name, if it is among these. Where they ascend by their names, it is soon found.
fn row_named<'a>(rows: &'a [FoundRow<'a>], name: &[u8]) -> Option<&'a FoundRow<'a>>
    ensures { MatchOption result (has name.now (found_objects rows.now) ≡ false)
        (λ row. Has rows.now row.now × (row.now.name.now ≡ name.now)) }
{
    if let Ok(at) = rows.binary_search_by(|row| row.name.cmp(&name)) {
        return Some(&rows[at]);
    }
    for row in rows {
        if row.name == name {
            return Some(row);
        }
    }
    None
}

/// Whether an object of the name is among these. Where they ascend by their names, it is soon found.
fn has_name(objects: &[ObjectText], name: &[u8]) -> bool
    ensures { result ≡ has name.now (objects_view objects.now) }
{
    let found = objects.binary_search_by(|object| object.name.as_bytes().cmp(&name));
    if found.is_ok() {
        return true;
    }
    for object in objects {
        if object.name.as_bytes() == name {
            return true;
        }
    }
    false
}

/// Writes the row of an object of a record that is there over the row that was found, unless that has the same. Where it isn't there any more, as `put_object` does.
fn put_changed<S: Alter>(
    tx: &mut Transaction<'_, S>,
    id: &str,
    row: &FoundRow,
    object: &ObjectText,
) -> Result<usize, Error>
    ensures same_reference { tx.new.conn.ghost_name ≡ tx.old.conn.ghost_name }
    ensures frame { Frame (state S.Store tx.old.conn.now) (state S.Store tx.new.conn.now) }
    ensures limit { tx.new.conn.now.step_limit ≡ tx.old.conn.now.step_limit }
    ensures kept { Inside S.Store tx.old.conn.now tx.new.conn.now KeepsCommit }
    ensures done { Inside S.Store tx.old.conn.now tx.new.conn.now (λ old new. OnOk result (Advances old new
        (Makes 1 (IsThere id.now (found_object row.now ∷ []) (object_view object.now))
        (added (id.now, (object_view object.now).0) (object_view object.now).1)))) }
    ensures cause { Inside S.Store tx.old.conn.now tx.new.conn.now (λ old new. tx.old.conn.now.step_limit ≡ None
        → IfErr result (λ e. (d : _) (t : _) → SpellsTables old.now d t → IsOwned t → IsSome (t.heads id.now)
        → HasRooms 1 old.now → IsShortPart (id.now, (object_view object.now).0) (object_view object.now).1 → IsExcused old new e)) }
{
    if is_same(row, object) {
        return Ok(0);
    }
    match update_row(tx, id, row, object)? {
        0 => put_object(tx, id, object),
        changed => Ok(changed),
    }
}

/// Writes the row of an object of a record that is there, unless the same is among those that the record has.
fn put_among<S: Alter>(
    tx: &mut Transaction<'_, S>,
    id: &str,
    there: &[FoundRow],
    object: &ObjectText,
) -> Result<usize, Error>
    ensures same_reference { tx.new.conn.ghost_name ≡ tx.old.conn.ghost_name }
    ensures frame { Frame (state S.Store tx.old.conn.now) (state S.Store tx.new.conn.now) }
    ensures limit { tx.new.conn.now.step_limit ≡ tx.old.conn.now.step_limit }
    ensures kept { Inside S.Store tx.old.conn.now tx.new.conn.now KeepsCommit }
    ensures done { Inside S.Store tx.old.conn.now tx.new.conn.now (λ old new. OnOk result (Advances old new
        (Makes 1 (IsThere id.now (found_objects there.now) (object_view object.now))
        (added (id.now, (object_view object.now).0) (object_view object.now).1)))) }
    ensures cause { Inside S.Store tx.old.conn.now tx.new.conn.now (λ old new. tx.old.conn.now.step_limit ≡ None
        → IfErr result (λ e. (d : _) (t : _) → SpellsTables old.now d t → IsOwned t → IsSome (t.heads id.now)
        → HasRooms 1 old.now → IsShortPart (id.now, (object_view object.now).0) (object_view object.now).1 → IsExcused old new e)) }
{
    match row_named(there, object.name.as_bytes()) {
        Some(row) => put_changed(tx, id, row, object),
        None => put_object(tx, id, object),
    }
}

/// Writes the rows of these objects of a record that is there, but for those that are the same.
fn put_objects<S: Alter>(
    tx: &mut Transaction<'_, S>,
    id: &str,
    there: &[FoundRow],
    objects: &[ObjectText],
) -> Result<(), Error>
    ensures same_reference { tx.new.conn.ghost_name ≡ tx.old.conn.ghost_name }
    ensures frame { Frame (state S.Store tx.old.conn.now) (state S.Store tx.new.conn.now) }
    ensures limit { tx.new.conn.now.step_limit ≡ tx.old.conn.now.step_limit }
    ensures kept { Inside S.Store tx.old.conn.now tx.new.conn.now KeepsCommit }
    ensures done { Inside S.Store tx.old.conn.now tx.new.conn.now (λ old new. OnOk result (Advances old new
        (Makes (length objects.now) (AreThere id.now (found_objects there.now) (objects_view objects.now))
        (all_added id.now (objects_view objects.now))))) }
    ensures cause { Inside S.Store tx.old.conn.now tx.new.conn.now (λ old new. tx.old.conn.now.step_limit ≡ None
        → IfErr result (λ e. (d : _) (t : _) → SpellsTables old.now d t → AreThere id.now (found_objects there.now) (objects_view objects.now) t
        → IsOwned t → IsSome (t.heads id.now)
        → HasRooms (length objects.now) old.now → AreShort id.now (objects_view objects.now) → IsExcused old new e)) }
{
    'objects: for object in objects {
        put_among(tx, id, there, object)?;
    }
    Ok(())
}

/// Takes an object of a record out, unless one of its name is among these.
fn drop_unless_kept<S: Alter>(
    tx: &mut Transaction<'_, S>,
    id: &str,
    name: &[u8],
    objects: &[ObjectText],
) -> Result<usize, Error>
    ensures same_reference { tx.new.conn.ghost_name ≡ tx.old.conn.ghost_name }
    ensures frame { Frame (state S.Store tx.old.conn.now) (state S.Store tx.new.conn.now) }
    ensures limit { tx.new.conn.now.step_limit ≡ tx.old.conn.now.step_limit }
    ensures kept { Inside S.Store tx.old.conn.now tx.new.conn.now KeepsCommit }
    ensures done { Inside S.Store tx.old.conn.now tx.new.conn.now (λ old new. OnOk result (Advances old new
        (Makes 0 Anyhow (dropped_unless_kept id.now (objects_view objects.now) name.now)))) }
    ensures cause { Inside S.Store tx.old.conn.now tx.new.conn.now (λ old new. tx.old.conn.now.step_limit ≡ None
        → IfErr result (λ e. (d : _) (t : _) → SpellsTables old.now d t → IsOwned t → IsExcused old new e)) }
{
    if has_name(objects, name) {
        return Ok(0);
    }
    let values = [ValueRef::Text(id.as_bytes()), ValueRef::Text(name)];
    tx.execute(DELETE_OBJECT, &values)
}

/// Takes the objects of a record out whose names are not among these.
fn drop_others<S: Alter>(
    tx: &mut Transaction<'_, S>,
    id: &str,
    there: &[FoundRow],
    objects: &[ObjectText],
) -> Result<(), Error>
    ensures same_reference { tx.new.conn.ghost_name ≡ tx.old.conn.ghost_name }
    ensures frame { Frame (state S.Store tx.old.conn.now) (state S.Store tx.new.conn.now) }
    ensures limit { tx.new.conn.now.step_limit ≡ tx.old.conn.now.step_limit }
    ensures kept { Inside S.Store tx.old.conn.now tx.new.conn.now KeepsCommit }
    ensures done { Inside S.Store tx.old.conn.now tx.new.conn.now (λ old new. OnOk result (Advances old new
        (Makes 0 Anyhow (others_dropped id.now (objects_view objects.now) (names_of (found_objects there.now)))))) }
    ensures cause { Inside S.Store tx.old.conn.now tx.new.conn.now (λ old new. tx.old.conn.now.step_limit ≡ None
        → IfErr result (λ e. (d : _) (t : _) → SpellsTables old.now d t → IsOwned t → IsExcused old new e)) }
{
    'there: for row in there {
        drop_unless_kept(tx, id, row.name, objects)?;
    }
    Ok(())
}

/// Makes these the objects of a record that is there, by one statement where one serves.
fn replace_objects<S: Alter>(
    tx: &mut Transaction<'_, S>,
    id: &str,
    objects: &[ObjectText],
) -> Result<(), Error>
    ensures same_reference { tx.new.conn.ghost_name ≡ tx.old.conn.ghost_name }
    ensures frame { Frame (state S.Store tx.old.conn.now) (state S.Store tx.new.conn.now) }
    ensures limit { tx.new.conn.now.step_limit ≡ tx.old.conn.now.step_limit }
    ensures kept { Inside S.Store tx.old.conn.now tx.new.conn.now KeepsCommit }
    ensures done { Inside S.Store tx.old.conn.now tx.new.conn.now (λ old new. OnOk result (Advances old new
        (Makes (length objects.now) (λ _. AreApart (objects_view objects.now)) (replaced id.now (objects_view objects.now))))) }
    ensures cause { Inside S.Store tx.old.conn.now tx.new.conn.now (λ old new. tx.old.conn.now.step_limit ≡ None
        → IfErr result (λ e. (d : _) (t : _) → SpellsTables old.now d t → AreApart (objects_view objects.now) → IsOwned t → IsSome (t.heads id.now)
        → HasRooms (length objects.now) old.now → AreShort id.now (objects_view objects.now) → IsExcused old new e)) }
{
    let rows = find_parts(tx, id)?;
    let there = found_in(*rows.allocator(), &rows)?;
    if is_range(&there, objects) {
        update_range(tx, id, &there, objects)?;
        return Ok(());
    }
    drop_others(tx, id, &there, objects)?;
    put_objects(tx, id, &there, objects)
}

/// Writes a record whose id has none.
fn write_new<S: Alter>(
    tx: &mut Transaction<'_, S>,
    id: &str,
    form: &str,
    root: &str,
    objects: &[ObjectText],
) -> Result<(), Error>
    ensures same_reference { tx.new.conn.ghost_name ≡ tx.old.conn.ghost_name }
    ensures frame { Frame (state S.Store tx.old.conn.now) (state S.Store tx.new.conn.now) }
    ensures limit { tx.new.conn.now.step_limit ≡ tx.old.conn.now.step_limit }
    ensures kept { Inside S.Store tx.old.conn.now tx.new.conn.now KeepsCommit }
    ensures done { Inside S.Store tx.old.conn.now tx.new.conn.now (λ old new. OnOk result (Advances old new
        (Makes (1 + length objects.now) (IsNew id.now (objects_view objects.now))
        (written id.now (record { form = form.now; root = root.now }) (objects_view objects.now))))) }
    ensures cause { Inside S.Store tx.old.conn.now tx.new.conn.now (λ old new. tx.old.conn.now.step_limit ≡ None
        → IfErr result (λ e. (d : _) (t : _) → SpellsTables old.now d t → IsNew id.now (objects_view objects.now) t
        → HasRooms (1 + length objects.now) old.now → IsShortHead id.now (record { form = form.now; root = root.now })
        → AreShort id.now (objects_view objects.now) → IsExcused old new e)) }
{
    tx.execute(INSERT_RECORD, params![id, form, root])?;
    insert_objects(tx, id, objects)
}

/// The row that shows the form and the root of the record, if there is one.
fn find_head<S: Alter>(tx: &mut Transaction<'_, S>, id: &str) -> Result<Vec<Row>, Error>
    ensures same_reference { tx.new.conn.ghost_name ≡ tx.old.conn.ghost_name }
    ensures frame { Frame (state S.Store tx.old.conn.now) (state S.Store tx.new.conn.now) }
    ensures limit { tx.new.conn.now.step_limit ≡ tx.old.conn.now.step_limit }
    ensures kept { Inside S.Store tx.old.conn.now tx.new.conn.now KeepsCommit }
    ensures done { Inside S.Store tx.old.conn.now tx.new.conn.now (λ old new. OnOk result (Advances old new (λ was is. is ≡ was))) }
    ensures shown { Inside S.Store tx.old.conn.now tx.new.conn.now (λ old new. IfOk result (λ v. (d : _) (t : _)
        → SpellsTables old.now d t → ShowsHead v.items (t.heads id.now))) }
    ensures cause { Inside S.Store tx.old.conn.now tx.new.conn.now (λ old new. tx.old.conn.now.step_limit ≡ None
        → IfErr result (λ e. (d : _) (t : _) → SpellsTables old.now d t → IsExcused old new e)) }
{
    tx.query_all(FIND_RECORD, params![id])
}

/// Writes the head of the record of the id anew, where it isn't this one.
fn write_head<S: Alter>(
    tx: &mut Transaction<'_, S>,
    id: &str,
    head: &HeadRow,
    form: &str,
    root: &str,
) -> Result<usize, Error>
    ensures same_reference { tx.new.conn.ghost_name ≡ tx.old.conn.ghost_name }
    ensures frame { Frame (state S.Store tx.old.conn.now) (state S.Store tx.new.conn.now) }
    ensures limit { tx.new.conn.now.step_limit ≡ tx.old.conn.now.step_limit }
    ensures kept { Inside S.Store tx.old.conn.now tx.new.conn.now KeepsCommit }
    ensures done { Inside S.Store tx.old.conn.now tx.new.conn.now (λ old new. OnOk result (Advances old new
        (Makes 0 (HasHead id.now (head_view head.now)) (put id.now (record { form = form.now; root = root.now }))))) }
    ensures cause { Inside S.Store tx.old.conn.now tx.new.conn.now (λ old new. tx.old.conn.now.step_limit ≡ None
        → IfErr result (λ e. (d : _) (t : _) → SpellsTables old.now d t → IsOwned t
        → HasRooms 0 old.now → IsShortHead id.now (record { form = form.now; root = root.now }) → IsExcused old new e)) }
{
    if head.form == form && head.root == root {
        return Ok(0);
    }
    tx.execute(UPDATE_RECORD, params![id, form, root])
}

/// Writes the record, in place of the one that is there.
pub(crate) fn write_record<S: Alter>(
    tx: &mut Transaction<'_, S>,
    id: &str,
    form: &str,
    root: &str,
    objects: &[ObjectText],
) -> Result<(), Error>
    ensures same_reference { tx.new.conn.ghost_name ≡ tx.old.conn.ghost_name }
    ensures frame { Frame (state S.Store tx.old.conn.now) (state S.Store tx.new.conn.now) }
    ensures limit { tx.new.conn.now.step_limit ≡ tx.old.conn.now.step_limit }
    ensures kept { Inside S.Store tx.old.conn.now tx.new.conn.now KeepsCommit }
    ensures done { Inside S.Store tx.old.conn.now tx.new.conn.now (λ old new. OnOk result (Advances old new
        (Makes (1 + length objects.now) (IsReady (objects_view objects.now))
        (written id.now (record { form = form.now; root = root.now }) (objects_view objects.now))))) }
    ensures cause { Inside S.Store tx.old.conn.now tx.new.conn.now (λ old new. tx.old.conn.now.step_limit ≡ None
        → IfErr result (λ e. (d : _) (t : _) → SpellsTables old.now d t → IsReady (objects_view objects.now) t
        → HasRooms (1 + length objects.now) old.now → IsShortHead id.now (record { form = form.now; root = root.now })
        → AreShort id.now (objects_view objects.now) → IsExcused old new e)) }
{
    let rows = find_head(tx, id)?;
    match head_in(&rows)? {
        Some(head) => {
            write_head(tx, id, &head, form, root)?;
            replace_objects(tx, id, objects)
        }
        None => write_new(tx, id, form, root, objects),
    }
}
