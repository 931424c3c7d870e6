//! A database is made ready or migrated, and the declarations in force are read.
ghost use Rattle.std.specs.Prelude.{◌≡◌, ◌⊎◌, ◌↔◌, false, IsTrue, IfErr, IfOk, List, None, OnOk, OnErr, pos, ℕ};
ghost use Rattle.sqlite.specs.State.{HasCleanDisk};
ghost use Rattle.sqlite.specs.Held.{state};
ghost use Rattle.fv_store.specs.Causes.{IsShortAbout};
ghost use Rattle.fv_store.specs.Records.{no_records};
ghost use Rattle.fv_store.specs.Stands.{are_columns, are_first, first_version, Frame, HasFirstTables, HasAbout, IsBlank, IsLive, IsTakenWith, MayBeFirst, KeepsFirst, Stays, TellsAbout};
ghost use Rattle.fv_store.specs.Steps.{FailsByDisk, Keeps, IsSettled, IsTaken, IsTakenAs, IsCaused, IsExcused, IsOpenExcused, IsUnread, IsUnreadOrFirst, IsUpgraded};
ghost use Rattle.fv_store_tables.specs.Olds.{Olds};
ghost use Rattle.fv_store_upgrade.specs.Upgraded.{AllShort, AllUpgrade, HasFew, upgraded};

use crate::about::{About, about_in};
use crate::fault::OpenStoreFault;
use fv_store_tables::{create_tables, read_about};
use fv_store_upgrade::migrate;
use sqlite::{Alter, Connection, Error};
use sqlite_schema::names::same_name;
use sqlite_schema::schema::{Column, Table};
use std::alloc::Global;

/// Whether the database has no table, index or view.
fn is_blank<S: Alter>(conn: &Connection<S>) -> bool
    ensures { IsTrue result ↔ IsBlank (state S.Store conn.now).now }
{
    let schema = conn.schema();
    schema.tables.is_empty() && schema.indexes.is_empty() && schema.views.is_empty()
}

/// Whether these are three columns of these names.
fn are_columns(columns: &[Column], first: &[u8], second: &[u8], third: &[u8]) -> bool
    ensures { result ≡ are_columns first.now second.now third.now columns.now }
{
    match columns {
        [a, b, c] => {
            same_name(a.name.as_slice(), first)
                && same_name(b.name.as_slice(), second)
                && same_name(c.name.as_slice(), third)
        }
        _ => false,
    }
}

/// Whether these are the two tables of version 1, by their names and those of their columns.
fn are_first(tables: &[Table]) -> bool
    ensures { result ≡ are_first tables.now }
{
    match tables {
        [about, record] => {
            about.is_named(b"about")
                && are_columns(
                    about.columns.as_slice(),
                    b"one",
                    b"version",
                    b"declarations",
                )
                && record.is_named(b"record")
                && are_columns(record.columns.as_slice(), b"id", b"form", b"bundle")
        }
        _ => false,
    }
}

/// Whether the database has two tables named as those of version 1, with columns named as there, exactly
/// one index (version 1 has that of the ids) and no view.
fn has_first_tables<S: Alter>(conn: &Connection<S>) -> bool
    ensures { IsTrue result ↔ HasFirstTables (state S.Store conn.now).now }
{
    let schema = conn.schema();
    are_first(schema.tables.as_slice()) && schema.indexes.len() == 1 && schema.views.len() == 0
}

/// Makes the tables in one transaction.
fn create<S: Alter>(conn: &mut Connection<S>, declarations: &[u8]) -> Result<(), Error>
    requires mode { conn.old.in_transaction ≡ false }
    requires settled { IsSettled (state S.Store conn.old) }
    ensures mode { conn.new.in_transaction ≡ false }
    ensures frame { Frame (state S.Store conn.old) (state S.Store conn.new) }
    ensures limit { conn.new.step_limit ≡ conn.old.step_limit }
    ensures open { OnOk result (IsLive (state S.Store conn.new)) }
    ensures done { OnOk result (IsBlank (state S.Store conn.old).now
        → Keeps (state S.Store conn.new) declarations.now no_records) }
    ensures undone { OnErr result (Stays (state S.Store conn.old) (state S.Store conn.new)) }
    ensures cause { HasCleanDisk (state S.Store conn.new) → conn.old.step_limit ≡ None → IfErr result (λ e.
        IsBlank (state S.Store conn.old).now → IsShortAbout declarations.now
        → IsExcused (state S.Store conn.old) (state S.Store conn.new) e) }
{
    let mut tx = conn.transaction();
    create_tables(&mut tx, declarations)?;
    tx.commit()
}

/// What `about` keeps, in tables of either version. A row that isn't there is refused as one that can't
/// be read.
fn stored<S: Alter>(conn: &mut Connection<S>) -> Result<About, OpenStoreFault>
    ensures mode { conn.old.in_transaction ≡ false → conn.new.in_transaction ≡ false }
    ensures frame { Frame (state S.Store conn.old) (state S.Store conn.new) }
    ensures limit { conn.new.step_limit ≡ conn.old.step_limit }
    ensures open { OnOk result (IsLive (state S.Store conn.new)) }
    ensures untouched { IsSettled (state S.Store conn.old) → Stays (state S.Store conn.old) (state S.Store conn.new) }
    ensures taken { HasCleanDisk (state S.Store conn.new)
        → IfOk result (λ a. IsTakenAs (state S.Store conn.old) a.version a.declarations.items) }
    ensures kept { HasCleanDisk (state S.Store conn.new)
        → IfOk result (λ a. HasAbout (state S.Store conn.old) a.version a.declarations.items) }
    ensures cause { HasCleanDisk (state S.Store conn.new) → (IsBlank (state S.Store conn.old).now → ⊥)
        → IfErr result (IsCaused (state S.Store conn.old)) }
    ensures unread { HasCleanDisk (state S.Store conn.new) → IfErr result (λ e. e ≡ OpenStoreFault.Store
        → IsUnread (state S.Store conn.old) (state S.Store conn.new)) }
    ensures store_known { HasCleanDisk (state S.Store conn.new) → conn.old.step_limit ≡ None
        → IfErr result (λ e. (version : _) (d : _) → TellsAbout version d (state S.Store conn.old).now
        → IsOpenExcused (state S.Store conn.old) (state S.Store conn.new) e) }
{
    let rows = read_about(conn)?;
    match rows.first() {
        Some(row) => about_in(row),
        None => Err(OpenStoreFault::Store),
    }
}

/// The declarations that a database keeps, in tables of version 1 or of version 2. Nothing is changed in it.
///
/// Refused by `OtherVersion` for tables of another version; by `Memory` at any place; and by `Store` where the disk
/// has failed during the call or the connection was shut before, and where the database has no row of declarations,
/// or one of another form.
pub fn kept_declarations<S: Alter>(conn: &mut Connection<S>) -> Result<Vec<u8>, OpenStoreFault>
    ensures mode { conn.old.in_transaction ≡ false → conn.new.in_transaction ≡ false }
    ensures frame { Frame (state S.Store conn.old) (state S.Store conn.new) }
    ensures limit { conn.new.step_limit ≡ conn.old.step_limit }
    ensures untouched { IsSettled (state S.Store conn.old) → Stays (state S.Store conn.old) (state S.Store conn.new) }
    ensures taken { HasCleanDisk (state S.Store conn.new)
        → IfOk result (λ v. IsTaken (state S.Store conn.old) v.items) }
    ensures kept { HasCleanDisk (state S.Store conn.new)
        → IfOk result (λ v. (version : _) × HasAbout (state S.Store conn.old) version v.items) }
    ensures cause { HasCleanDisk (state S.Store conn.new) → (IsBlank (state S.Store conn.old).now → ⊥)
        → IfErr result (IsCaused (state S.Store conn.old)) }
    ensures unread { HasCleanDisk (state S.Store conn.new) → IfErr result (λ e. e ≡ OpenStoreFault.Store
        → IsUnread (state S.Store conn.old) (state S.Store conn.new)) }
    ensures store_known { HasCleanDisk (state S.Store conn.new) → conn.old.step_limit ≡ None
        → IfErr result (λ e. (version : _) (d : _) → TellsAbout version d (state S.Store conn.old).now
        → IsOpenExcused (state S.Store conn.old) (state S.Store conn.new) e) }
{
    let found = stored(conn)?;
    Ok(found.declarations)
}

/// The declarations of a database that isn't blank. One of version 1 is migrated; one that says so and
/// has other tables than its two is refused, so that nothing but these is ever dropped.
fn kept<S: Alter>(conn: &mut Connection<S>, alloc: Global) -> Result<Vec<u8>, OpenStoreFault>
    requires mode { conn.old.in_transaction ≡ false }
    requires settled { IsSettled (state S.Store conn.old) }
    ensures mode { conn.new.in_transaction ≡ false }
    ensures frame { Frame (state S.Store conn.old) (state S.Store conn.new) }
    ensures limit { conn.new.step_limit ≡ conn.old.step_limit }
    ensures open { OnOk result (IsLive (state S.Store conn.new)) }
    ensures still { OnOk result (Stays (state S.Store conn.old) (state S.Store conn.new)
        ⊎ (HasCleanDisk (state S.Store conn.new) → MayBeFirst (state S.Store conn.old))) }
    ensures upgraded { OnOk result (IsUpgraded (state S.Store conn.old) (state S.Store conn.new)) }
    ensures taken { HasCleanDisk (state S.Store conn.new)
        → IfOk result (λ v. IsTaken (state S.Store conn.old) v.items) }
    ensures kept { HasCleanDisk (state S.Store conn.new)
        → IfOk result (λ v. IsTakenWith v.items (state S.Store conn.old)) }
    ensures untouched { OnErr result (Stays (state S.Store conn.old) (state S.Store conn.new)) }
    ensures cause { HasCleanDisk (state S.Store conn.new) → (IsBlank (state S.Store conn.old).now → ⊥)
        → IfErr result (IsCaused (state S.Store conn.old)) }
    ensures unread { HasCleanDisk (state S.Store conn.new) → IfErr result (λ e. e ≡ OpenStoreFault.Store
        → IsUnreadOrFirst (state S.Store conn.old) (state S.Store conn.new)) }
    ensures store_known { HasCleanDisk (state S.Store conn.new) → conn.old.step_limit ≡ None
        → IfErr result (λ e. (version : _) (d : _) → TellsAbout version d (state S.Store conn.old).now
        → (version ≡ pos first_version → ⊥) → IsOpenExcused (state S.Store conn.old) (state S.Store conn.new) e) }
    ensures store_first { HasCleanDisk (state S.Store conn.new) → conn.old.step_limit ≡ None
        → IfErr result (λ e. (d : List ℕ) (m : Olds) → KeepsFirst (state S.Store conn.old) d m → AllUpgrade m
        → IsShortAbout d → AllShort (upgraded m) → HasFew m
        → IsOpenExcused (state S.Store conn.old) (state S.Store conn.new) e) }
{
    let about = stored(conn)?;
    if !about.is_first() {
        return Ok(about.declarations);
    }
    if !has_first_tables(conn) {
        return Err(OpenStoreFault::Store);
    }
    prove!(conn.is_autocommit());
    migrate(conn, alloc)?;
    Ok(about.declarations)
}

/// Makes the tables in a database that has none, and migrates one of version 1; the declarations in
/// force, in either case. A connection that is inside a transaction is refused.
pub(crate) fn settle<S: Alter>(
    alloc: Global,
    conn: &mut Connection<S>,
    declarations: &[u8],
) -> Result<Vec<u8>, OpenStoreFault>
    ensures mode { OnOk result (conn.new.in_transaction ≡ false) }
    ensures frame { Frame (state S.Store conn.old) (state S.Store conn.new) }
    ensures limit { conn.new.step_limit ≡ conn.old.step_limit }
    ensures open { OnOk result (IsLive (state S.Store conn.new)) }
    ensures fresh { IfOk result (λ v. IsBlank (state S.Store conn.old).now
        → (v.items ≡ declarations.now) × Keeps (state S.Store conn.new) declarations.now no_records) }
    ensures still { OnOk result ((IsBlank (state S.Store conn.old).now → ⊥)
        → Stays (state S.Store conn.old) (state S.Store conn.new)
        ⊎ (HasCleanDisk (state S.Store conn.new) → MayBeFirst (state S.Store conn.old))) }
    ensures upgraded { OnOk result (IsUpgraded (state S.Store conn.old) (state S.Store conn.new)) }
    ensures taken { HasCleanDisk (state S.Store conn.new)
        → IfOk result (λ v. IsTaken (state S.Store conn.old) v.items) }
    ensures kept { HasCleanDisk (state S.Store conn.new) → (IsBlank (state S.Store conn.old).now → ⊥)
        → IfOk result (λ v. IsTakenWith v.items (state S.Store conn.old)) }
    ensures untouched { OnErr result (Stays (state S.Store conn.old) (state S.Store conn.new)) }
    ensures cause { HasCleanDisk (state S.Store conn.new)
        → IfErr result (IsCaused (state S.Store conn.old)) }
    ensures unread { HasCleanDisk (state S.Store conn.new) → conn.old.in_transaction ≡ false
        → IfErr result (λ e. e ≡ OpenStoreFault.Store → (IsBlank (state S.Store conn.old).now → ⊥)
        → IsUnreadOrFirst (state S.Store conn.old) (state S.Store conn.new)) }
    ensures store { HasCleanDisk (state S.Store conn.new) → conn.old.in_transaction ≡ false
        → conn.old.step_limit ≡ None → IfErr result (λ e. FailsByDisk (state S.Store conn.old) declarations.now
        → IsOpenExcused (state S.Store conn.old) (state S.Store conn.new) e) }
{
    if !conn.is_autocommit() {
        return Err(OpenStoreFault::Store);
    }
    if is_blank(conn) {
        let text = declarations.to_vec(alloc)?;
        create(conn, declarations)?;
        return Ok(text);
    }
    kept(conn, alloc)
}
