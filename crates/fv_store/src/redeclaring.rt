//! Declarations are written in place of those that are stored.
ghost use Rattle.std.specs.Prelude.{◌≡◌, false, IfErr, List, None, OnOk, OnErr, ℕ};
ghost use Rattle.sqlite.specs.State.{HasCleanDisk};
ghost use Rattle.sqlite.specs.Held.{state};
ghost use Rattle.fv_store.specs.Causes.{IsShortAbout, LeavesRoom};
ghost use Rattle.fv_store.specs.Records.{Records};
ghost use Rattle.fv_store.specs.Stands.{Frame, IsLive, Stays};
ghost use Rattle.fv_store.specs.Steps.{IsExcused, IsSettled, Keeps};

use fv_store_tables::write_about;
use sqlite::{Alter, Connection, Error};

/// Writes the declarations in one transaction. What is written of the records stays.
pub(crate) fn redeclare<S: Alter>(
    conn: &mut Connection<S>,
    declarations: &[u8],
) -> Result<(), Error>
    requires mode { conn.old.in_transaction ≡ false }
    requires settled { IsSettled (state S.Store conn.old) }
    ensures mode { conn.new.in_transaction ≡ false }
    ensures frame { Frame (state S.Store conn.old) (state S.Store conn.new) }
    ensures limit { conn.new.step_limit ≡ conn.old.step_limit }
    ensures open { OnOk result (IsLive (state S.Store conn.new)) }
    ensures done { OnOk result ((d : List ℕ) (m : Records) → Keeps (state S.Store conn.old) d m
        → Keeps (state S.Store conn.new) declarations.now m) }
    ensures room { HasCleanDisk (state S.Store conn.new) → OnOk result ((d : List ℕ) (m : Records)
        → Keeps (state S.Store conn.old) d m
        → LeavesRoom 0 (state S.Store conn.old).now (state S.Store conn.new).now) }
    ensures undone { OnErr result ((d : List ℕ) (m : Records) → Keeps (state S.Store conn.old) d m
        → Keeps (state S.Store conn.new) d m) }
    ensures untouched { OnErr result (Stays (state S.Store conn.old) (state S.Store conn.new)) }
    ensures cause { HasCleanDisk (state S.Store conn.new) → conn.old.step_limit ≡ None → IfErr result (λ e.
        (d : List ℕ) (m : Records) → Keeps (state S.Store conn.old) d m → IsShortAbout declarations.now
        → IsExcused (state S.Store conn.old) (state S.Store conn.new) e) }
{
    let mut tx = conn.transaction();
    write_about(&mut tx, declarations)?;
    tx.commit()
}
