//! Changes of the records. They are made in one transaction, with what the rows of objects keep.
ghost use Rattle.std.specs.Prelude.{◌≡◌, ◌+◌, false, length, IfErr, None, OnOk, OnErr, IfOk, map, string_bytes};
ghost use Rattle.sqlite.specs.State.{HasCleanDisk, KeepsCommit};
ghost use Rattle.sqlite.specs.Held.{state};
ghost use Rattle.fv_bundle.specs.Views.{object_view, bundle_view};
ghost use Rattle.fv_store.specs.Causes.{AreShort, HasRooms, IsShort, IsShortObject, LeavesRoom, WritesShort, rows_of, rows_of_all};
ghost use Rattle.fv_store.specs.Changes.{after, after_all};
ghost use Rattle.fv_store.specs.Records.{with_object, with_record, without_record};
ghost use Rattle.fv_store.specs.Stands.{Frame, IsLive, Spells, Stays};
ghost use Rattle.fv_store.specs.Steps.{Advances, Inside, IsExcused, IsSettled, Keeps, Makes, MakesAll};
ghost use Rattle.fv_store.specs.Written.{writings, fields_text, object_kept};
ghost use Rattle.fv_model.specs.Writing.{fields_json, named_written};
ghost use Rattle.fv_store_tables.specs.Changes.{AreApart, object_view as row_view, objects_view as rows_view};

use crate::stored::Stored;
use fv_bundle::{Bundle, Object};
use fv_store_tables::{ObjectText, put_record, remove_record, set_object};
use sqlite::{Alter, Connection, Error, Transaction};
use std::alloc::{AllocError, Global};
/// A change of the records.
#[derive(Drop)]
pub enum Change {
    /// The record of the id is this one from now on, whether or not there was one.
    Put {
        id: String,
        stored: Stored,
    },
    /// The object of that name of the id's record is this one from now on, where there is one. Its row
    /// alone is written.
    Object {
        id: String,
        name: String,
        object: Object,
    },
    /// The id has no record from now on, whether or not there was one.
    Remove {
        id: String,
    },
}

/// The text that an object's fields are kept as.
#[tactic(auto, unfolding(crate::specs::Written::fields_text))]
pub(crate) fn fields_of(alloc: Global, object: &Object) -> Result<String, AllocError>
    ensures { IfOk result (λ s. string_bytes s ≡ fields_text (fields_json (object_view object.now).fields)) }
{
    fv_model::fields_text(alloc, object)
}

/// What the row of an object of that name keeps.
fn object_row<'a>(
    alloc: Global,
    name: &'a str,
    object: &'a Object,
) -> Result<ObjectText<'a>, AllocError>
    ensures { IfOk result (λ o. row_view o ≡ object_kept (named_written (name.now, object_view object.now))) }
{
    Ok(ObjectText {
        name,
        kind: object.type_name(),
        fields: fields_of(alloc, object)?,
    })
}

/// What the rows of a bundle's objects keep, in the order of the objects.
pub(crate) fn object_rows(alloc: Global, bundle: &Bundle) -> Result<Vec<ObjectText<'_>>, AllocError>
    ensures rows { IfOk result (λ v. rows_view v.items ≡ map object_kept (map named_written (bundle_view bundle.now).objects)) }
    ensures apart { IfOk result (λ v. AreApart (rows_view v.items)) }
{
    let objects = bundle.objects();
    let mut rows = Vec::with_capacity(alloc, objects.len())?;
    for (name, object) in objects.iter() {
        rows.push(object_row(alloc, name.as_str(), object)?)?;
    }
    Ok(rows)
}

/// Writes a record, in place of the one that is there.
fn put<S: Alter>(
    tx: &mut Transaction<'_, S>,
    alloc: Global,
    id: &str,
    form: &str,
    bundle: &Bundle,
) -> Result<(), Error>
    ensures same_reference { tx.new.conn.ghost_name ≡ tx.old.conn.ghost_name }
    ensures frame { Frame (state S.Store tx.old.conn.now) (state S.Store tx.new.conn.now) }
    ensures limit { tx.new.conn.now.step_limit ≡ tx.old.conn.now.step_limit }
    ensures kept { Inside S.Store tx.old.conn.now tx.new.conn.now KeepsCommit }
    ensures done { Inside S.Store tx.old.conn.now tx.new.conn.now (λ old new. OnOk result (Advances old new
        (Makes (1 + length (bundle_view bundle.now).objects)
        (with_record id.now (record { form = form.now; bundle = bundle_view bundle.now }))))) }
    ensures cause { Inside S.Store tx.old.conn.now tx.new.conn.now (λ old new. tx.old.conn.now.step_limit ≡ None
        → IfErr result (λ e. (d : _) (m : _) → Spells old.now d (writings m)
        → HasRooms (1 + length (bundle_view bundle.now).objects) old.now
        → IsShort id.now (record { form = form.now; bundle = bundle_view bundle.now }) → IsExcused old new e)) }
{
    let objects = object_rows(alloc, bundle)?;
    put_record(tx, id, form, bundle.root(), &objects)
}

/// Writes an object of a record in place of the one of that name, where there is one.
fn set<S: Alter>(
    tx: &mut Transaction<'_, S>,
    alloc: Global,
    id: &str,
    name: &str,
    object: &Object,
) -> Result<(), Error>
    ensures same_reference { tx.new.conn.ghost_name ≡ tx.old.conn.ghost_name }
    ensures frame { Frame (state S.Store tx.old.conn.now) (state S.Store tx.new.conn.now) }
    ensures limit { tx.new.conn.now.step_limit ≡ tx.old.conn.now.step_limit }
    ensures kept { Inside S.Store tx.old.conn.now tx.new.conn.now KeepsCommit }
    ensures done { Inside S.Store tx.old.conn.now tx.new.conn.now
        (λ old new. OnOk result (Advances old new (Makes 0 (with_object id.now name.now (object_view object.now))))) }
    ensures cause { Inside S.Store tx.old.conn.now tx.new.conn.now (λ old new. tx.old.conn.now.step_limit ≡ None
        → IfErr result (λ e. (d : _) (m : _) → Spells old.now d (writings m) → HasRooms 0 old.now
        → IsShortObject id.now (name.now, object_view object.now) → IsExcused old new e)) }
{
    let fields = fields_of(alloc, object)?;
    set_object(tx, id, name, object.type_name(), fields.as_str())
}

/// Takes a record out, where there is one.
fn remove<S: Alter>(tx: &mut Transaction<'_, S>, id: &str) -> Result<(), Error>
    ensures same_reference { tx.new.conn.ghost_name ≡ tx.old.conn.ghost_name }
    ensures frame { Frame (state S.Store tx.old.conn.now) (state S.Store tx.new.conn.now) }
    ensures limit { tx.new.conn.now.step_limit ≡ tx.old.conn.now.step_limit }
    ensures kept { Inside S.Store tx.old.conn.now tx.new.conn.now KeepsCommit }
    ensures done { Inside S.Store tx.old.conn.now tx.new.conn.now
        (λ old new. OnOk result (Advances old new (Makes 0 (without_record id.now)))) }
    ensures cause { Inside S.Store tx.old.conn.now tx.new.conn.now (λ old new. tx.old.conn.now.step_limit ≡ None
        → IfErr result (λ e. (d : _) (m : _) → Spells old.now d (writings m) → IsExcused old new e)) }
{
    remove_record(tx, id)
}

/// Makes one change.
fn apply<S: Alter>(tx: &mut Transaction<'_, S>, alloc: Global, change: &Change) -> Result<(), Error>
    ensures same_reference { tx.new.conn.ghost_name ≡ tx.old.conn.ghost_name }
    ensures frame { Frame (state S.Store tx.old.conn.now) (state S.Store tx.new.conn.now) }
    ensures limit { tx.new.conn.now.step_limit ≡ tx.old.conn.now.step_limit }
    ensures kept { Inside S.Store tx.old.conn.now tx.new.conn.now KeepsCommit }
    ensures done { Inside S.Store tx.old.conn.now tx.new.conn.now
        (λ old new. OnOk result (Advances old new (Makes (rows_of change.now) (after change.now)))) }
    ensures cause { Inside S.Store tx.old.conn.now tx.new.conn.now (λ old new. tx.old.conn.now.step_limit ≡ None
        → IfErr result (λ e. (d : _) (m : _) → Spells old.now d (writings m) → HasRooms (rows_of change.now) old.now
        → WritesShort change.now → IsExcused old new e)) }
{
    match change {
        Change::Put { id, stored } => put(
            tx,
            alloc,
            id.as_str(),
            stored.form.as_str(),
            &stored.bundle,
        ),
        Change::Object { id, name, object } => set(tx, alloc, id.as_str(), name.as_str(), object),
        Change::Remove { id } => remove(tx, id.as_str()),
    }
}

/// Makes the changes in order.
fn apply_all<S: Alter>(
    tx: &mut Transaction<'_, S>,
    alloc: Global,
    changes: &[Change],
) -> Result<(), Error>
    ensures same_reference { tx.new.conn.ghost_name ≡ tx.old.conn.ghost_name }
    ensures frame { Frame (state S.Store tx.old.conn.now) (state S.Store tx.new.conn.now) }
    ensures limit { tx.new.conn.now.step_limit ≡ tx.old.conn.now.step_limit }
    ensures kept { Inside S.Store tx.old.conn.now tx.new.conn.now KeepsCommit }
    ensures done { Inside S.Store tx.old.conn.now tx.new.conn.now
        (λ old new. OnOk result (Advances old new (MakesAll changes.now))) }
    ensures cause { Inside S.Store tx.old.conn.now tx.new.conn.now (λ old new. tx.old.conn.now.step_limit ≡ None
        → IfErr result (λ e. (d : _) (m : _) → Spells old.now d (writings m) → HasRooms (rows_of_all changes.now) old.now
        → AreShort changes.now → IsExcused old new e)) }
{
    'changes: for change in changes {
        apply(tx, alloc, change)?;
    }
    Ok(())
}

/// Makes all changes, or none.
pub(crate) fn commit<S: Alter>(
    conn: &mut Connection<S>,
    alloc: Global,
    changes: &[Change],
) -> Result<(), Error>
    requires mode { conn.old.in_transaction ≡ false }
    requires settled { IsSettled (state S.Store conn.old) }
    ensures mode { conn.new.in_transaction ≡ false }
    ensures frame { Frame (state S.Store conn.old) (state S.Store conn.new) }
    ensures limit { conn.new.step_limit ≡ conn.old.step_limit }
    ensures open { OnOk result (IsLive (state S.Store conn.new)) }
    ensures done { OnOk result ((d : _) (m : _) → Keeps (state S.Store conn.old) d m
        → Keeps (state S.Store conn.new) d (after_all changes.now m)) }
    ensures room { HasCleanDisk (state S.Store conn.new) → OnOk result ((d : _) (m : _)
        → Keeps (state S.Store conn.old) d m
        → LeavesRoom (rows_of_all changes.now) (state S.Store conn.old).now (state S.Store conn.new).now) }
    ensures undone { OnErr result ((d : _) (m : _) → Keeps (state S.Store conn.old) d m
        → Keeps (state S.Store conn.new) d m) }
    ensures untouched { OnErr result (Stays (state S.Store conn.old) (state S.Store conn.new)) }
    ensures cause { HasCleanDisk (state S.Store conn.new) → conn.old.step_limit ≡ None → IfErr result (λ e.
        (d : _) (m : _) → Keeps (state S.Store conn.old) d m
        → HasRooms (rows_of_all changes.now) (state S.Store conn.old).now → AreShort changes.now
        → IsExcused (state S.Store conn.old) (state S.Store conn.new) e) }
{
    let mut tx = conn.transaction();
    apply_all(&mut tx, alloc, changes)?;
    tx.commit()
}
