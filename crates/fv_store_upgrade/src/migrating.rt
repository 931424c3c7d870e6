//! The tables of version 1 are replaced by those of version 2, in one transaction.
ghost use Rattle.std.specs.Prelude.{◌≡◌, ◌∷◌, [], ◌<◌, ◌^◌, false, IfErr, IfOk, List, None, OnErr, OnOk, ℕ};
ghost use Rattle.sqlite.specs.State.{HasCleanDisk, KeepsCommit};
ghost use Rattle.sqlite.specs.Held.{state};
ghost use Rattle.fv_store_tables.specs.Causes.{HasFailed, HasRooms, IsExcused, IsShortAbout};
ghost use Rattle.fv_store_tables.specs.Changes.{object_view, objects_view};
ghost use Rattle.fv_store_tables.specs.Creating.{no_entries};
ghost use Rattle.fv_store_tables.specs.Olds.{IsFirst, KeepsOlds, Olds};
ghost use Rattle.fv_store_tables.specs.Stands.{Frame, IsLive, IsSettled, Keeps, TablesStand, Stays, about_row};
ghost use Rattle.fv_store_tables.specs.Steps.{Advances, Inside};
ghost use Rattle.fv_store_upgrade.specs.Steps.{AllApart, EachShort, Puts, all_put, new_object_view, new_objects_view, new_view, news_view, rows_taken};
ghost use Rattle.fv_store_upgrade.specs.Upgraded.{AllShort, AllUpgrade, HasFew, upgraded};

use crate::fault::UpgradeFault;
use crate::records::{NewObject, NewRecord, records_of};
use fv_store_tables::{ObjectText, find_old, put_record, replace_tables};
use sqlite::{Alter, Connection, Error, Transaction};
use std::alloc::{AllocError, Global};

/// What an object's row shall keep. Its name and its type's name aren't copied.
fn text_of(row: &NewObject) -> Result<ObjectText<'_>, AllocError>
    ensures { IfOk result (λ o. object_view o ≡ new_object_view row.now) }
{
    Ok(ObjectText {
        name: row.name.as_str(),
        kind: row.kind.as_str(),
        fields: row.fields.clone()?,
    })
}

/// The same of each row, in their order.
fn texts_of(alloc: Global, rows: &[NewObject]) -> Result<Vec<ObjectText<'_>>, AllocError>
    ensures { IfOk result (λ v. objects_view v.items ≡ new_objects_view rows.now) }
{
    let mut texts = Vec::with_capacity(alloc, rows.len())?;
    for row in rows {
        texts.push(text_of(row)?)?;
    }
    Ok(texts)
}

/// Writes a record. No two of its objects may have one name.
fn put<S: Alter>(tx: &mut Transaction<'_, S>, record: &NewRecord) -> Result<(), Error>
    ensures same_reference { tx.new.conn.ghost_name ≡ tx.old.conn.ghost_name }
    ensures frame { Frame (state S.Store tx.old.conn.now) (state S.Store tx.new.conn.now) }
    ensures limit { tx.new.conn.now.step_limit ≡ tx.old.conn.now.step_limit }
    ensures kept { Inside S.Store tx.old.conn.now tx.new.conn.now KeepsCommit }
    ensures done { Inside S.Store tx.old.conn.now tx.new.conn.now
        (λ old new. OnOk result (Advances old new (Puts (new_view record.now ∷ [])))) }
    ensures cause { Inside S.Store tx.old.conn.now tx.new.conn.now (λ old new. tx.old.conn.now.step_limit ≡ None
        → IfErr result (λ e. (d : _) (m : _) → TablesStand old.now d m → AllApart (new_view record.now ∷ [])
        → HasRooms (rows_taken (new_view record.now ∷ [])) old.now → EachShort (new_view record.now ∷ [])
        → IsExcused old new e)) }
{
    let rows = &record.rows;
    let texts = texts_of(*rows.objects.allocator(), &rows.objects)?;
    put_record(
        tx,
        record.id.as_str(),
        rows.form.as_str(),
        rows.root.as_str(),
        &texts,
    )
}

/// Writes records, one after another.
fn put_all<S: Alter>(tx: &mut Transaction<'_, S>, records: &[NewRecord]) -> Result<(), Error>
    ensures same_reference { tx.new.conn.ghost_name ≡ tx.old.conn.ghost_name }
    ensures frame { Frame (state S.Store tx.old.conn.now) (state S.Store tx.new.conn.now) }
    ensures limit { tx.new.conn.now.step_limit ≡ tx.old.conn.now.step_limit }
    ensures kept { Inside S.Store tx.old.conn.now tx.new.conn.now KeepsCommit }
    ensures done { Inside S.Store tx.old.conn.now tx.new.conn.now
        (λ old new. OnOk result (Advances old new (Puts (news_view records.now)))) }
    ensures cause { Inside S.Store tx.old.conn.now tx.new.conn.now (λ old new. tx.old.conn.now.step_limit ≡ None
        → IfErr result (λ e. (d : _) (m : _) → TablesStand old.now d m → AllApart (news_view records.now)
        → HasRooms (rows_taken (news_view records.now)) old.now → EachShort (news_view records.now)
        → IsExcused old new e)) }
{
    'records: for record in records {
        put(tx, record)?;
    }
    Ok(())
}

/// Puts the tables of version 2 with these records in place of those of version 1, in one transaction,
/// or leaves the database as it was.
fn rewrite<S: Alter>(conn: &mut Connection<S>, records: &[NewRecord]) -> Result<(), Error>
    requires mode { conn.old.in_transaction ≡ false }
    requires settled { IsSettled (state S.Store conn.old) }
    ensures mode { conn.new.in_transaction ≡ false }
    ensures frame { Frame (state S.Store conn.old) (state S.Store conn.new) }
    ensures limit { conn.new.step_limit ≡ conn.old.step_limit }
    ensures open { OnOk result (IsLive (state S.Store conn.new)) }
    ensures done { HasCleanDisk (state S.Store conn.new) → OnOk result ((d : List ℕ)
        → IsFirst d (state S.Store conn.old).now → AllApart (news_view records.now)
        → Keeps (state S.Store conn.new) (about_row 2 d ∷ []) (all_put (news_view records.now) no_entries)) }
    ensures undone { OnErr result (Stays (state S.Store conn.old) (state S.Store conn.new)) }
    ensures cause { HasCleanDisk (state S.Store conn.new) → conn.old.step_limit ≡ None → IfErr result (λ e. (d : List ℕ)
        → IsFirst d (state S.Store conn.old).now → IsShortAbout d → AllApart (news_view records.now)
        → rows_taken (news_view records.now) < 2 ^ 63 → EachShort (news_view records.now)
        → IsExcused (state S.Store conn.old) (state S.Store conn.new) e) }
{
    let mut tx = conn.transaction();
    replace_tables(&mut tx)?;
    put_all(&mut tx, records)?;
    tx.commit()
}

/// Makes a database of version 1 one of version 2, in one transaction, or leaves it as it was. The
/// declarations stay, and the new rows keep what the text of each row kept.
///
/// Refused by `Memory` at any place, by `Damaged` where a row isn't the text of a bundle by its form,
/// and by `Database` only where the disk has failed during the call, the connection was shut before,
/// there are more rows than rowids, or the declarations or a row are too long, if the tables of
/// version 1 stand.
pub fn migrate<S: Alter>(conn: &mut Connection<S>, alloc: Global) -> Result<(), UpgradeFault>
    requires mode { conn.old.in_transaction ≡ false }
    requires settled { IsSettled (state S.Store conn.old) }
    ensures mode { conn.new.in_transaction ≡ false }
    ensures frame { Frame (state S.Store conn.old) (state S.Store conn.new) }
    ensures limit { conn.new.step_limit ≡ conn.old.step_limit }
    ensures open { OnOk result (IsLive (state S.Store conn.new)) }
    ensures done { OnOk result ((d : List ℕ) (m : Olds)
        → KeepsOlds (state S.Store conn.old) (about_row 1 d ∷ []) m
        → (HasCleanDisk (state S.Store conn.new) → AllUpgrade m)
        × Keeps (state S.Store conn.new) (about_row 2 d ∷ []) (upgraded m)) }
    ensures undone { OnErr result (Stays (state S.Store conn.old) (state S.Store conn.new)) }
    ensures damaged { HasCleanDisk (state S.Store conn.new) → IfErr result (λ e. e ≡ UpgradeFault.Damaged
        → (d : List ℕ) (m : Olds) → KeepsOlds (state S.Store conn.old) (about_row 1 d ∷ []) m → ¬ AllUpgrade m) }
    ensures cause { HasCleanDisk (state S.Store conn.new) → conn.old.step_limit ≡ None
        → IfErr result (λ e. e ≡ UpgradeFault.Database → (d : List ℕ) (m : Olds)
        → KeepsOlds (state S.Store conn.old) (about_row 1 d ∷ []) m → IsShortAbout d → AllShort (upgraded m) → HasFew m
        → HasFailed (state S.Store conn.old) (state S.Store conn.new)) }
{
    let olds = find_old(conn, alloc)?;
    let records = records_of(alloc, olds)?;
    prove!(conn.is_autocommit());
    Ok(rewrite(conn, &records)?)
}
