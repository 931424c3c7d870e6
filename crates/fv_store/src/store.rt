//! The store.
ghost use Rattle.std.specs.Prelude.{◌≡◌, ◌⊎◌, false, IfOk, IfErr, IfSome, OnOk, OnErr, MatchResult, map, option_map, string_bytes, Some, None, unwrap_or, []};
ghost use Rattle.sqlite.specs.State.{HasCleanDisk};
ghost use Rattle.sqlite.specs.Held.{state};
ghost use Rattle.fv_bundle.specs.Types.{has_deep};
ghost use Rattle.fv_bundle.specs.TypesView.{types_view};
ghost use Rattle.fv_bundle.specs.Views.{bundle_view};
ghost use Rattle.fv_bundle.specs.WellTyped.{IsWellTyped};
ghost use Rattle.fv_store.specs.Causes.{AreShort, HasFailed, HasRooms, IsShortAbout, LeavesRoom, rows_of_all};
ghost use Rattle.fv_store.specs.Changes.{changed, ChangesFit};
ghost use Rattle.fv_store.specs.Stands.{Frame, HasOtherAbout, HoldsRecords, IsBlank, IsEither, IsLive, IsTakenWith, MayBeFirst, Opens, Stays, TellsAbout};
ghost use Rattle.fv_store.specs.Steps.{CausesStore, IsUpgraded};
ghost use Rattle.fv_store.specs.Stock.{stock_state};
ghost use Rattle.fv_store.specs.Lists.{Lists, ListsOf};
ghost use Rattle.fv_store.specs.Records.{AllFit, Contents};
ghost use Rattle.fv_store.specs.Stored.{stored_view, text_of, text_view, untyped, written_view};
ghost use Rattle.fv_store.specs.Written.{entry_of, writings, written_of};
ghost use Rattle.fv_store_tables.specs.Stored.{LacksId, ShowsNone, ShowsRecord};

use crate::changes::Change;
use crate::fault::{OpenStoreFault, StoreFault};
use crate::opening::settle;
use crate::stored::{Stored, stored_if};
use crate::written::{Written, written_if};
use crate::{changes, redeclaring};
use fv_bundle::Types;
use fv_store_tables::{FoundRecord, find, find_all_ids, find_ids};
use sqlite::{Alter, Connection};
use std::alloc::Global;
use std::marker::Model;

/// Records by their ids, in a database, and the declarations that are in force there. Contracts see
/// it as its connection, which is outside a transaction and has no limit on the steps of a statement,
/// and the declarations' bytes.
pub struct Store<S: Alter> {
    connection: Connection<S>,
    declarations: Vec<u8>,
}

impl<S: Alter + Drop> Drop for Store<S> {
    fn drop(self) {
        let Store {
            connection: _,
            declarations: _,
        } = self;
    }
}

impl<S: Alter> Model for Store<S> {
    ghost use Rattle.std.specs.Prelude.{◌≡◌, false, None};
    ghost use Rattle.fv_store.specs.Stock.{Stock, stock_code};

    ghost Value = { Stock S };

    ghost coded = { stock_code S.code };

    ghost view = { λ s. record { connection = s.connection; text = s.declarations.items } };

    ghost invariant = { λ s. (s.connection.in_transaction ≡ false) × (s.connection.step_limit ≡ None) };
}

impl<S: Alter + Drop> Store<S> {
    /// A store over the database of a connection. A database with no table, index or view is given the
    /// tables, with these declarations and no record; any other keeps its own declarations, which are
    /// in force. One of version 1 is migrated in one transaction: its tables are replaced by those of
    /// version 2, with the same records. The connection has no limit on the steps of a statement from
    /// now on, also where it is handed back.
    ///
    /// Refused by `OtherVersion` for tables of a version other than 1 and 2; by `Memory` at any place; and
    /// by `Store` where the connection is inside a transaction or was shut before, where the disk has failed
    /// during the call, where the declarations that are written are too long, where the database has other
    /// tables and no row of declarations, or one of another form, and, in version 1, where its two tables have
    /// other columns, there is a table, an index or a view beside them, a row's text is no bundle by its form,
    /// a new row is too long, or a table has fewer rowids than there are new rows.
    /// Else whether the tables of records are of their form isn't looked at. A refusal hands the connection
    /// back, its database as it was, unless the disk failed and shut it.
    pub fn open(
        alloc: Global,
        mut connection: Connection<S>,
        declarations: &[u8],
    ) -> Result<Store<S>, (OpenStoreFault, Connection<S>)>
        ensures frame { MatchResult result (λ s. Frame (state S.Store connection) (stock_state S.Store s))
            (λ e. Frame (state S.Store connection) (state S.Store e.1)) }
        ensures open { IfOk result (λ s. IsLive (stock_state S.Store s)) }
        ensures opened { IfOk result (λ s. (c : _) → has_deep c.types ≡ false
            → Opens (state S.Store connection) declarations.now c → HoldsRecords (stock_state S.Store s) c) }
        ensures in_force { IfOk result (λ s. HasCleanDisk (stock_state S.Store s) → (c : _)
            → Opens (state S.Store connection) declarations.now c → s.text ≡ c.bytes) }
        ensures fresh { IfOk result (λ s. IsBlank (state S.Store connection).now → s.text ≡ declarations.now) }
        // What is neither empty nor of version 1 is left as it was.
        ensures still { IfOk result (λ s. (IsBlank (state S.Store connection).now → ⊥)
            → Stays (state S.Store connection) (stock_state S.Store s)
            ⊎ (HasCleanDisk (stock_state S.Store s) → MayBeFirst (state S.Store connection))) }
        // Whatever texts its rows have, one of version 1 is migrated only where each is a bundle by its form.
        ensures upgraded { IfOk result (λ s. IsUpgraded (state S.Store connection) (stock_state S.Store s)) }
        ensures taken { IfOk result (λ s. HasCleanDisk (stock_state S.Store s) → (version : _) (d : _)
            → TellsAbout version d (state S.Store connection).now → IsEither version × (s.text ≡ d)) }
        // Whatever its tables are, a database that isn't blank is taken only by what `about` shows, and refused as one
        // of another version only by that.
        ensures kept { IfOk result (λ s. HasCleanDisk (stock_state S.Store s)
            → (IsBlank (state S.Store connection).now → ⊥) → IsTakenWith s.text (state S.Store connection)) }
        ensures refused { IfErr result (λ e. e.0 ≡ OpenStoreFault.OtherVersion → HasCleanDisk (state S.Store e.1)
            → HasOtherAbout (state S.Store connection) × ((version : _) (d : _)
            → TellsAbout version d (state S.Store connection).now → IsEither version → ⊥)) }
        ensures other_version { IfErr result (λ e. e.0 ≡ OpenStoreFault.OtherVersion → HasCleanDisk (state S.Store e.1)
            → (c : _) → Opens (state S.Store connection) declarations.now c → ⊥) }
        ensures store { IfErr result (λ e. e.0 ≡ OpenStoreFault.Store → HasCleanDisk (state S.Store e.1)
            → connection.in_transaction ≡ false
            → CausesStore (state S.Store connection) (state S.Store e.1) declarations.now) }
        ensures untouched { IfErr result (λ e. Stays (state S.Store connection) (state S.Store e.1)) }
        ensures stays { IfErr result (λ e. (c : _) → Opens (state S.Store connection) declarations.now c
            → Opens (state S.Store e.1) declarations.now c) }
    {
        connection.set_step_limit(None);
        match settle(alloc, &mut connection, declarations) {
            Ok(declarations) => Ok(Store {
                connection,
                declarations,
            }),
            Err(fault) => Err((fault, connection)),
        }
    }
}

impl<S: Alter> Store<S> {
    /// The declarations in force. It takes no memory.
    pub fn declarations(&self) -> &[u8]
        ensures { result.now ≡ self.now.text }
    {
        &self.declarations
    }

    /// The record of that id, if there is one, its bundle read under these types and well-typed.
    ///
    /// Refused by `Memory` at any place, and by `Store` only where the disk has failed during the call
    /// or the connection was shut before, if the store holds records under these types.
    pub fn get(
        &mut self,
        alloc: Global,
        types: &Types,
        id: &str,
    ) -> Result<Option<Stored>, StoreFault>
        ensures frame { Frame (stock_state S.Store self.old) (stock_state S.Store self.new) }
        ensures text { self.new.text ≡ self.old.text }
        ensures open { OnOk result (IsLive (stock_state S.Store self.new)) }
        ensures found { HasCleanDisk (stock_state S.Store self.new)
            → IfOk result (λ o. (c : _) → c.types ≡ types_view types.now → HoldsRecords (stock_state S.Store self.old) c
            → option_map stored_view o ≡ c.records id.now) }
        // None is told only where no row of the table of records has that id, whatever its rows keep else.
        ensures none { HasCleanDisk (stock_state S.Store self.new) → IfOk result (λ o. o ≡ None
            → LacksId id.now (stock_state S.Store self.old).now) }
        ensures typed { IfOk result (λ o. IfSome o (λ s. IsWellTyped (types_view types.now) (bundle_view s.bundle))) }
        ensures cause { HasCleanDisk (stock_state S.Store self.new) → IfErr result (λ e. e ≡ StoreFault.Store → (c : _)
            → c.types ≡ types_view types.now → HoldsRecords (stock_state S.Store self.old) c
            → HasFailed (stock_state S.Store self.old) (stock_state S.Store self.new)) }
        ensures same { HasCleanDisk (stock_state S.Store self.new) → OnOk result ((c : _)
            → HoldsRecords (stock_state S.Store self.old) c
            → (stock_state S.Store self.new).now ≡ (stock_state S.Store self.old).now) }
        ensures stays { (c : _) → HoldsRecords (stock_state S.Store self.old) c
            → HoldsRecords (stock_state S.Store self.new) c }
        ensures untouched { (c : _) → HoldsRecords (stock_state S.Store self.old) c
            → Stays (stock_state S.Store self.old) (stock_state S.Store self.new) }
    {
        let found = self.rows(alloc, id)?;
        let rows = found.read(alloc)?;
        stored_if(alloc, types, rows)
    }

    /// The rows of the record of that id.
    fn rows(&mut self, alloc: Global, id: &str) -> Result<FoundRecord, StoreFault>
        ensures frame { Frame (stock_state S.Store self.old) (stock_state S.Store self.new) }
        ensures text { self.new.text ≡ self.old.text }
        ensures open { OnOk result (IsLive (stock_state S.Store self.new)) }
        ensures found { HasCleanDisk (stock_state S.Store self.new)
            → IfOk result (λ f. (c : _) → HoldsRecords (stock_state S.Store self.old) c
            → ShowsRecord f (option_map entry_of (option_map written_of (c.records id.now)))) }
        ensures none { HasCleanDisk (stock_state S.Store self.new) → IfOk result (λ f. ShowsNone f
            → LacksId id.now (stock_state S.Store self.old).now) }
        ensures cause { HasCleanDisk (stock_state S.Store self.new) → IfErr result (λ e. e ≡ StoreFault.Store → (c : _)
            → HoldsRecords (stock_state S.Store self.old) c
            → HasFailed (stock_state S.Store self.old) (stock_state S.Store self.new)) }
        ensures same { HasCleanDisk (stock_state S.Store self.new) → OnOk result ((c : _)
            → HoldsRecords (stock_state S.Store self.old) c
            → (stock_state S.Store self.new).now ≡ (stock_state S.Store self.old).now) }
        ensures stays { (c : _) → HoldsRecords (stock_state S.Store self.old) c
            → HoldsRecords (stock_state S.Store self.new) c }
        ensures untouched { (c : _) → HoldsRecords (stock_state S.Store self.old) c
            → Stays (stock_state S.Store self.old) (stock_state S.Store self.new) }
    {
        prove!(self.connection.is_autocommit());
        Ok(find(&mut self.connection, alloc, id)?)
    }

    /// What is written of the record of that id, if there is one: its form, and its bundle's JSON.
    ///
    /// Refused by `Memory` at any place, and by `Store` only where the disk has failed during the call
    /// or the connection was shut before, if the store holds records.
    pub fn written(&mut self, alloc: Global, id: &str) -> Result<Option<Written>, StoreFault>
        ensures frame { Frame (stock_state S.Store self.old) (stock_state S.Store self.new) }
        ensures text { self.new.text ≡ self.old.text }
        ensures open { OnOk result (IsLive (stock_state S.Store self.new)) }
        ensures found { HasCleanDisk (stock_state S.Store self.new)
            → IfOk result (λ o. (c : _) → has_deep c.types ≡ false → HoldsRecords (stock_state S.Store self.old) c
            → option_map written_view o ≡ option_map untyped (c.records id.now)) }
        ensures as_text { HasCleanDisk (stock_state S.Store self.new)
            → IfOk result (λ o. (c : _) → HoldsRecords (stock_state S.Store self.old) c
            → option_map text_view o ≡ option_map text_of (c.records id.now)) }
        // None is told only where no row of the table of records has that id, whatever its rows keep else.
        ensures none { HasCleanDisk (stock_state S.Store self.new) → IfOk result (λ o. o ≡ None
            → LacksId id.now (stock_state S.Store self.old).now) }
        ensures cause { HasCleanDisk (stock_state S.Store self.new) → IfErr result (λ e. e ≡ StoreFault.Store → (c : _)
            → HoldsRecords (stock_state S.Store self.old) c
            → HasFailed (stock_state S.Store self.old) (stock_state S.Store self.new)) }
        ensures same { HasCleanDisk (stock_state S.Store self.new) → OnOk result ((c : _)
            → HoldsRecords (stock_state S.Store self.old) c
            → (stock_state S.Store self.new).now ≡ (stock_state S.Store self.old).now) }
        ensures stays { (c : _) → HoldsRecords (stock_state S.Store self.old) c
            → HoldsRecords (stock_state S.Store self.new) c }
        ensures untouched { (c : _) → HoldsRecords (stock_state S.Store self.old) c
            → Stays (stock_state S.Store self.old) (stock_state S.Store self.new) }
    {
        let found = self.rows(alloc, id)?;
        let rows = found.read(alloc)?;
        Ok(written_if(alloc, rows)?)
    }

    /// The ids of the records of a form above one, ascending by their bytes, so many at most; above the
    /// empty text where none is given. It need not be the id of a record.
    ///
    /// Refused by `Memory` at any place, and by `Store` only where the disk has failed during the call
    /// or the connection was shut before, if the store holds records.
    pub fn list(
        &mut self,
        alloc: Global,
        form: &str,
        after: Option<&str>,
        limit: u32,
    ) -> Result<Vec<String>, StoreFault>
        ensures frame { Frame (stock_state S.Store self.old) (stock_state S.Store self.new) }
        ensures text { self.new.text ≡ self.old.text }
        ensures open { OnOk result (IsLive (stock_state S.Store self.new)) }
        ensures found { HasCleanDisk (stock_state S.Store self.new)
            → IfOk result (λ ids. (c : _) → HoldsRecords (stock_state S.Store self.old) c
            → Lists c.records form.now (unwrap_or (option_map (λ s. s.now) after.entry) []) limit
            (map string_bytes ids.items)) }
        ensures cause { HasCleanDisk (stock_state S.Store self.new) → IfErr result (λ e. e ≡ StoreFault.Store → (c : _)
            → HoldsRecords (stock_state S.Store self.old) c
            → HasFailed (stock_state S.Store self.old) (stock_state S.Store self.new)) }
        ensures stays { (c : _) → HoldsRecords (stock_state S.Store self.old) c
            → HoldsRecords (stock_state S.Store self.new) c }
        ensures untouched { (c : _) → HoldsRecords (stock_state S.Store self.old) c
            → Stays (stock_state S.Store self.old) (stock_state S.Store self.new) }
    {
        prove!(self.connection.is_autocommit());
        let above = after.unwrap_or("");
        Ok(find_ids(&mut self.connection, alloc, form, above, limit)?)
    }

    /// The ids of the records of all forms above one, ascending by their bytes, so many at most; above
    /// the empty text where none is given. It need not be the id of a record.
    ///
    /// Refused by `Memory` at any place, and by `Store` only where the disk has failed during the call
    /// or the connection was shut before, if the store holds records.
    pub fn ids(
        &mut self,
        alloc: Global,
        after: Option<&str>,
        limit: u32,
    ) -> Result<Vec<String>, StoreFault>
        ensures frame { Frame (stock_state S.Store self.old) (stock_state S.Store self.new) }
        ensures text { self.new.text ≡ self.old.text }
        ensures open { OnOk result (IsLive (stock_state S.Store self.new)) }
        ensures found { HasCleanDisk (stock_state S.Store self.new)
            → IfOk result (λ ids. (c : _) → HoldsRecords (stock_state S.Store self.old) c
            → ListsOf c.records (λ k. Unit {0}) (unwrap_or (option_map (λ s. s.now) after.entry) []) limit
            (map string_bytes ids.items)) }
        ensures cause { HasCleanDisk (stock_state S.Store self.new) → IfErr result (λ e. e ≡ StoreFault.Store → (c : _)
            → HoldsRecords (stock_state S.Store self.old) c
            → HasFailed (stock_state S.Store self.old) (stock_state S.Store self.new)) }
        ensures stays { (c : _) → HoldsRecords (stock_state S.Store self.old) c
            → HoldsRecords (stock_state S.Store self.new) c }
        ensures untouched { (c : _) → HoldsRecords (stock_state S.Store self.old) c
            → Stays (stock_state S.Store self.old) (stock_state S.Store self.new) }
    {
        prove!(self.connection.is_autocommit());
        let above = after.unwrap_or("");
        Ok(find_all_ids(&mut self.connection, alloc, above, limit)?)
    }

    /// Makes the changes in order, all of them or none. The records after all of them have to fit;
    /// they do where each change fits what those before it leave.
    ///
    /// Refused by `Memory` at any place, and by `Store` only where the disk has failed during the call
    /// or the connection was shut before, where a table has fewer rowids left than there are records and
    /// objects that are put, or where a row is too long, if the store holds records.
    pub fn commit(&mut self, alloc: Global, changes: &[Change]) -> Result<(), StoreFault>
        ensures frame { Frame (stock_state S.Store self.old) (stock_state S.Store self.new) }
        ensures text { self.new.text ≡ self.old.text }
        ensures open { OnOk result (IsLive (stock_state S.Store self.new)) }
        ensures made { OnOk result ((c : _) → AllFit (changed changes.now c)
            → HoldsRecords (stock_state S.Store self.old) c
            → HoldsRecords (stock_state S.Store self.new) (changed changes.now c)) }
        ensures done { OnOk result ((c : _) → ChangesFit c.types c.roots changes.now c.records
            → HoldsRecords (stock_state S.Store self.old) c
            → HoldsRecords (stock_state S.Store self.new) (changed changes.now c)) }
        ensures room { HasCleanDisk (stock_state S.Store self.new) → OnOk result ((c : _)
            → HoldsRecords (stock_state S.Store self.old) c → LeavesRoom (rows_of_all changes.now)
            (stock_state S.Store self.old).now (stock_state S.Store self.new).now) }
        ensures undone { OnErr result ((c : _) → HoldsRecords (stock_state S.Store self.old) c
            → HoldsRecords (stock_state S.Store self.new) c) }
        ensures untouched { OnErr result (Stays (stock_state S.Store self.old) (stock_state S.Store self.new)) }
        ensures cause { HasCleanDisk (stock_state S.Store self.new) → IfErr result (λ e. e ≡ StoreFault.Store → (c : _)
            → HoldsRecords (stock_state S.Store self.old) c
            → HasRooms (rows_of_all changes.now) (stock_state S.Store self.old).now
            → AreShort changes.now → HasFailed (stock_state S.Store self.old) (stock_state S.Store self.new)) }
    {
        prove!(self.connection.is_autocommit());
        Ok(changes::commit(&mut self.connection, alloc, changes)?)
    }

    /// Writes other declarations in place of those in force. What is written of the records stays, so
    /// what it is read as under the other declarations has to fit them.
    ///
    /// Refused by `Memory` at any place, and by `Store` only where the disk has failed during the call
    /// or the connection was shut before, or where the declarations are too long, if the store holds
    /// records. After a refusal those that were in force still are.
    pub fn redeclare(&mut self, alloc: Global, declarations: &[u8]) -> Result<(), StoreFault>
        ensures frame { Frame (stock_state S.Store self.old) (stock_state S.Store self.new) }
        ensures open { OnOk result (IsLive (stock_state S.Store self.new)) }
        ensures made { OnOk result ((c d : Contents) → d.bytes ≡ declarations.now
            → writings d.records ≡ writings c.records → AllFit d → HoldsRecords (stock_state S.Store self.old) c
            → HoldsRecords (stock_state S.Store self.new) d) }
        ensures text { OnOk result (self.new.text ≡ declarations.now) }
        ensures room { HasCleanDisk (stock_state S.Store self.new) → OnOk result ((c : _)
            → HoldsRecords (stock_state S.Store self.old) c
            → LeavesRoom 0 (stock_state S.Store self.old).now (stock_state S.Store self.new).now) }
        ensures undone { OnErr result ((c : _) → HoldsRecords (stock_state S.Store self.old) c
            → HoldsRecords (stock_state S.Store self.new) c) }
        ensures same_text { OnErr result (self.new.text ≡ self.old.text) }
        ensures untouched { OnErr result (Stays (stock_state S.Store self.old) (stock_state S.Store self.new)) }
        ensures cause { HasCleanDisk (stock_state S.Store self.new) → IfErr result (λ e. e ≡ StoreFault.Store → (c : _)
            → HoldsRecords (stock_state S.Store self.old) c → IsShortAbout declarations.now
            → HasFailed (stock_state S.Store self.old) (stock_state S.Store self.new)) }
    {
        let text = declarations.to_vec(alloc)?;
        prove!(self.connection.is_autocommit());
        redeclaring::redeclare(&mut self.connection, declarations)?;
        self.declarations = text;
        Ok(())
    }

    /// The connection, its database as it is. It takes no memory.
    pub fn into_connection(self) -> Connection<S>
        ensures same { result ≡ self.connection }
        ensures holds { (c : _) → HoldsRecords (stock_state S.Store self) c → HoldsRecords (state S.Store result) c }
    {
        let Store {
            connection: inner,
            declarations: _,
        } = self;
        inner
    }
}
