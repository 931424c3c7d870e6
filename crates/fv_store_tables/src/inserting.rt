//! The rows of a new record's objects, by statements of up to sixteen.
ghost use Rattle.std.specs.Prelude.{◌≡◌, ◌<◌, ◌≤◌, ◌++◌, ◌∷◌, [], ℕ, length, IfErr, IfOk, IsSome, None, OnOk};
ghost use Rattle.sqlite.specs.State.{KeepsCommit};
ghost use Rattle.sqlite.specs.Held.{state};
ghost use Rattle.sqlite.specs.Values.{bound};
ghost use Rattle.fv_store_tables.specs.Changes.{all_added, object_view, objects_view, IsFree};
ghost use Rattle.fv_store_tables.specs.Causes.{AreShort, HasRooms, IsExcused};
ghost use Rattle.fv_store_tables.specs.Inserting.{insert_of, object_values, row_values, AreNew, IsRun};
ghost use Rattle.fv_store_tables.specs.Stands.{Frame, SpellsTables, IsOwned};
ghost use Rattle.fv_store_tables.specs.Steps.{Advances, Inside, Makes};

use crate::text::ObjectText;
use sqlite::types::ValueRef;
use sqlite::{Alter, Error, Transaction};
use std::alloc::{AllocError, Global};

const INSERT_OBJECT: &str = "INSERT INTO object (rec, name, kind, fields) VALUES (?1, ?2, ?3, ?4)";

const INSERT_TWO: &str =
    "INSERT INTO object (rec, name, kind, fields) VALUES (?1, ?2, ?3, ?4), (?1, ?5, ?6, ?7)";

const INSERT_FOUR: &str =
    "INSERT INTO object (rec, name, kind, fields) VALUES (?1, ?2, ?3, ?4), (?1, ?5, ?6, ?7), (?1, ?8, ?9, ?10), (?1, ?11, ?12, ?13)";

const INSERT_EIGHT: &str =
    "INSERT INTO object (rec, name, kind, fields) VALUES (?1, ?2, ?3, ?4), (?1, ?5, ?6, ?7), (?1, ?8, ?9, ?10), (?1, ?11, ?12, ?13), \
    (?1, ?14, ?15, ?16), (?1, ?17, ?18, ?19), (?1, ?20, ?21, ?22), (?1, ?23, ?24, ?25)";

const INSERT_SIXTEEN: &str =
    "INSERT INTO object (rec, name, kind, fields) VALUES (?1, ?2, ?3, ?4), (?1, ?5, ?6, ?7), (?1, ?8, ?9, ?10), (?1, ?11, ?12, ?13), \
    (?1, ?14, ?15, ?16), (?1, ?17, ?18, ?19), (?1, ?20, ?21, ?22), (?1, ?23, ?24, ?25), (?1, ?26, ?27, ?28), (?1, ?29, ?30, ?31), \
    (?1, ?32, ?33, ?34), (?1, ?35, ?36, ?37), (?1, ?38, ?39, ?40), (?1, ?41, ?42, ?43), (?1, ?44, ?45, ?46), (?1, ?47, ?48, ?49)";

/// As many parameters as the longest of these statements has, and the one that updates sixteen rows.
pub(crate) const MOST_VALUES: usize = 49;

/// The most of so many rows that one statement puts: 16, 8, 4, 2 or 1.
fn longest_run(rows: usize) -> usize
    requires { 0 < rows }
    ensures run { IsRun result }
    ensures within { result ≤ rows }
    ensures longest { (n : ℕ) → IsRun n → n ≤ rows → n ≤ result }
{
    match rows {
        16.. => 16,
        8.. => 8,
        4.. => 4,
        2.. => 2,
        _ => 1,
    }
}

/// The statement that puts so many rows: 16, 8, 4 or 2, or else 1.
fn insert_text(rows: usize) -> &'static str
    ensures { IsRun rows → result.now ≡ insert_of rows }
{
    match rows {
        16 => INSERT_SIXTEEN,
        8 => INSERT_EIGHT,
        4 => INSERT_FOUR,
        2 => INSERT_TWO,
        _ => INSERT_OBJECT,
    }
}

/// Behind these values those of an object.
fn push_object<'a>(
    values: &mut Vec<ValueRef<'a>>,
    object: &'a ObjectText<'a>,
) -> Result<(), AllocError>
    ensures { OnOk result (bound values.new.items ≡ bound values.old.items ++ object_values (object_view object.now ∷ [])) }
{
    values.push(ValueRef::Text(object.name.as_bytes()))?;
    values.push(ValueRef::Text(object.kind.as_bytes()))?;
    values.push(ValueRef::Text(object.fields.as_bytes()))?;
    Ok(())
}

/// The parameters of the statement that puts these objects of a record.
fn values_of<'a>(
    alloc: Global,
    id: &'a str,
    objects: &'a [ObjectText<'a>],
) -> Result<Vec<ValueRef<'a>>, AllocError>
    ensures { IfOk result (λ v. bound v.items ≡ row_values id.now (objects_view objects.now)) }
{
    let mut values = Vec::with_capacity(alloc, MOST_VALUES)?;
    values.push(ValueRef::Text(id.as_bytes()))?;
    for object in objects {
        push_object(&mut values, object)?;
    }
    Ok(values)
}

/// Writes the rows of objects that a record does not have: 16, 8, 4, 2 or 1.
pub(crate) fn insert_run<S: Alter>(
    tx: &mut Transaction<'_, S>,
    id: &str,
    objects: &[ObjectText],
) -> Result<usize, Error>
    requires { IsRun (length objects.now) }
    ensures same_reference { tx.new.conn.ghost_name ≡ tx.old.conn.ghost_name }
    ensures frame { Frame (state S.Store tx.old.conn.now) (state S.Store tx.new.conn.now) }
    ensures limit { tx.new.conn.now.step_limit ≡ tx.old.conn.now.step_limit }
    ensures kept { Inside S.Store tx.old.conn.now tx.new.conn.now KeepsCommit }
    ensures done { Inside S.Store tx.old.conn.now tx.new.conn.now (λ old new. OnOk result (Advances old new
        (Makes (length objects.now) (AreNew id.now (objects_view objects.now))
        (all_added id.now (objects_view objects.now))))) }
    ensures cause { Inside S.Store tx.old.conn.now tx.new.conn.now (λ old new. tx.old.conn.now.step_limit ≡ None
        → IfErr result (λ e. (d : _) (t : _) → SpellsTables old.now d t → IsOwned t → AreNew id.now (objects_view objects.now) t
        → IsSome (t.heads id.now) → HasRooms (length objects.now) old.now → AreShort id.now (objects_view objects.now)
        → IsExcused old new e)) }
{
    let alloc = *objects[0].fields.allocator();
    let values = values_of(alloc, id, objects)?;
    tx.execute(insert_text(objects.len()), &values)
}

/// Writes the rows of the objects of a record that has none.
pub(crate) fn insert_objects<S: Alter>(
    tx: &mut Transaction<'_, S>,
    id: &str,
    objects: &[ObjectText],
) -> Result<(), Error>
    ensures same_reference { tx.new.conn.ghost_name ≡ tx.old.conn.ghost_name }
    ensures frame { Frame (state S.Store tx.old.conn.now) (state S.Store tx.new.conn.now) }
    ensures limit { tx.new.conn.now.step_limit ≡ tx.old.conn.now.step_limit }
    ensures kept { Inside S.Store tx.old.conn.now tx.new.conn.now KeepsCommit }
    ensures done { Inside S.Store tx.old.conn.now tx.new.conn.now (λ old new. OnOk result (Advances old new
        (Makes (length objects.now) (IsFree id.now (objects_view objects.now))
        (all_added id.now (objects_view objects.now))))) }
    ensures cause { Inside S.Store tx.old.conn.now tx.new.conn.now (λ old new. tx.old.conn.now.step_limit ≡ None
        → IfErr result (λ e. (d : _) (t : _) → SpellsTables old.now d t → IsOwned t → IsFree id.now (objects_view objects.now) t
        → IsSome (t.heads id.now) → HasRooms (length objects.now) old.now → AreShort id.now (objects_view objects.now)
        → IsExcused old new e)) }
{
    let mut done = 0;
    'runs: while done < objects.len() {
        let (_, rest) = objects.split_at(done);
        let (run, _) = rest.split_at(longest_run(rest.len()));
        insert_run(tx, id, run)?;
        done += run.len();
    }
    Ok(())
}
