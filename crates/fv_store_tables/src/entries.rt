//! Records are written and taken out, inside a transaction. A refusal commits nothing, and may leave a part written.
ghost use Rattle.std.specs.Prelude.{◌≡◌, ◌+◌, length, IfErr, None, OnOk, Some};
ghost use Rattle.sqlite.specs.State.{KeepsCommit};
ghost use Rattle.sqlite.specs.Held.{state};
ghost use Rattle.fv_store_tables.specs.Changes.{AreApart, objects_view, with_part_of};
ghost use Rattle.fv_store_tables.specs.Causes.{AreShort, HasRooms, IsExcused, IsShortHead, IsShortPart};
ghost use Rattle.fv_store_tables.specs.Stands.{Frame, TablesStand, with_entry, without_entry};
ghost use Rattle.fv_store_tables.specs.Steps.{Advances, Always, Inside, Turns};

use crate::rows::{delete_record, update_object, write_record};
use crate::text::ObjectText;
use sqlite::{Alter, Error, Transaction};

/// Writes a record, in place of the one of that id, if there is one. No two objects may have one name.
/// Refused by `OutOfMemory`, and else only where the disk failed, the connection was shut before, rowids run short or a row is too long, if the tables stand.
pub fn put_record<S: Alter>(
    tx: &mut Transaction<'_, S>,
    id: &str,
    form: &str,
    root: &str,
    objects: &[ObjectText],
) -> Result<(), Error>
    ensures same_reference { tx.new.conn.ghost_name ≡ tx.old.conn.ghost_name }
    ensures frame { Frame (state S.Store tx.old.conn.now) (state S.Store tx.new.conn.now) }
    ensures limit { tx.new.conn.now.step_limit ≡ tx.old.conn.now.step_limit }
    ensures kept { Inside S.Store tx.old.conn.now tx.new.conn.now KeepsCommit }
    ensures done { Inside S.Store tx.old.conn.now tx.new.conn.now (λ old new. OnOk result (Advances old new
        (Turns (1 + length objects.now) (λ _. AreApart (objects_view objects.now))
        (with_entry id.now (record { form = form.now; root = root.now; objects = objects_view objects.now }))))) }
    ensures cause { Inside S.Store tx.old.conn.now tx.new.conn.now (λ old new. tx.old.conn.now.step_limit ≡ None
        → IfErr result (λ e. (d : _) (m : _) → TablesStand old.now d m → AreApart (objects_view objects.now)
        → HasRooms (1 + length objects.now) old.now → IsShortHead id.now (record { form = form.now; root = root.now })
        → AreShort id.now (objects_view objects.now) → IsExcused old new e)) }
{
    write_record(tx, id, form, root, objects)
}

/// Writes an object of a record in place of the one of that name; where there is none, nothing changes.
/// Refused by `OutOfMemory`, and else only where the disk failed, the connection was shut before or the row is too long, if the tables stand.
pub fn set_object<S: Alter>(
    tx: &mut Transaction<'_, S>,
    id: &str,
    name: &str,
    kind: &str,
    fields: &str,
) -> Result<(), Error>
    ensures same_reference { tx.new.conn.ghost_name ≡ tx.old.conn.ghost_name }
    ensures frame { Frame (state S.Store tx.old.conn.now) (state S.Store tx.new.conn.now) }
    ensures limit { tx.new.conn.now.step_limit ≡ tx.old.conn.now.step_limit }
    ensures kept { Inside S.Store tx.old.conn.now tx.new.conn.now KeepsCommit }
    ensures done { Inside S.Store tx.old.conn.now tx.new.conn.now (λ old new. OnOk result (Advances old new
        (Turns 0 Always (with_part_of id.now name.now (record { kind = kind.now; fields = fields.now }))))) }
    ensures cause { Inside S.Store tx.old.conn.now tx.new.conn.now (λ old new. tx.old.conn.now.step_limit ≡ None
        → IfErr result (λ e. (d : _) (m : _) → TablesStand old.now d m → HasRooms 0 old.now
        → IsShortPart (id.now, name.now) (record { kind = kind.now; fields = fields.now }) → IsExcused old new e)) }
{
    update_object(tx, id, name, kind, fields)?;
    Ok(())
}

/// Takes the record of the id out with its objects, if there is one.
/// Refused by `OutOfMemory`, and else only where the disk failed or the connection was shut before, if the tables stand.
pub fn remove_record<S: Alter>(tx: &mut Transaction<'_, S>, id: &str) -> Result<(), Error>
    ensures same_reference { tx.new.conn.ghost_name ≡ tx.old.conn.ghost_name }
    ensures frame { Frame (state S.Store tx.old.conn.now) (state S.Store tx.new.conn.now) }
    ensures limit { tx.new.conn.now.step_limit ≡ tx.old.conn.now.step_limit }
    ensures kept { Inside S.Store tx.old.conn.now tx.new.conn.now KeepsCommit }
    ensures done { Inside S.Store tx.old.conn.now tx.new.conn.now
        (λ old new. OnOk result (Advances old new (Turns 0 Always (without_entry id.now)))) }
    ensures cause { Inside S.Store tx.old.conn.now tx.new.conn.now (λ old new. tx.old.conn.now.step_limit ≡ None
        → IfErr result (λ e. (d : _) (m : _) → TablesStand old.now d m → IsExcused old new e)) }
{
    delete_record(tx, id)?;
    Ok(())
}
