//! Records on the way.
ghost use Rattle.std.specs.Prelude.{◌≡◌, ◌≤◌, ◌*◌, [], is_some, length, map, option_map, IfOk, OnOk};
ghost use Rattle.fv_datum.specs.Lookup.{at_name};
ghost use Rattle.fv_engine_pending.specs.Altering.{IsOneObject, altered, leaves, most_rows, sets};
ghost use Rattle.fv_engine_pending.specs.Fits.{AreFitting, AreShort, AreTyped};
ghost use Rattle.fv_engine_pending.specs.Ways.{way_entry, pending_view, overlay, standing, standing_at, left_at, lone_object, without_id};
ghost use Rattle.fv_bundle.specs.Views.{object_view};
ghost use Rattle.fv_store.specs.Causes.{AreShort as ChangesShort, rows_of_all};
ghost use Rattle.fv_store.specs.Changes.{after_all, ChangesFit};
ghost use Rattle.fv_store.specs.Records.{Records, Roots};
ghost use Rattle.fv_store.specs.Stored.{stored_view};
ghost use Rattle.fv_bundle.specs.Types.{Declared};

use fv_bundle::Object;
use fv_store::{Change, Stored};
use std::alloc::{AllocError, Global};
use std::collections::BTreeMap;

/// Records on the way: what stands at the ids that a command names, before anything is written. At
/// an id stands a record, or none; an id that isn't there is as it was.
#[derive(Drop)]
pub struct Pending<'a> {
    records: BTreeMap<&'a str, Option<Stored>>,
}

impl<'a> Pending<'a> {
    /// Nothing on the way.
    pub fn new(alloc: Global) -> Pending<'a>
        ensures { pending_view result ≡ [] }
    {
        Pending {
            records: BTreeMap::new(alloc),
        }
    }

    /// Whether anything stands at an id, a record or none.
    pub(crate) fn has(&self, id: &str) -> bool
        ensures { result ≡ is_some (at_name id.now (pending_view self.now)) }
    {
        self.records.contains_key(id)
    }

    /// Leaves a record at an id, or none, in place of what stands there.
    pub fn leave(&mut self, id: &'a str, stored: Option<Stored>) -> Result<(), AllocError>
        ensures { OnOk result (pending_view self.new
            ≡ left_at id.now (option_map stored_view stored) (pending_view self.old)) }
    {
        let _ = self.records.insert(id, stored)?;
        Ok(())
    }

    /// Takes out the record that stands at an id, and the id with it.
    pub(crate) fn take(&mut self, id: &str) -> Option<Stored>
        ensures value { option_map stored_view result ≡ standing_at id.now (pending_view self.old) }
        ensures others { pending_view self.new ≡ without_id id.now (pending_view self.old) }
    {
        match self.records.remove(id) {
            Some(stored) => stored,
            None => None,
        }
    }

    /// What stands at each id, ascending by the bytes of the ids.
    pub fn records(&self) -> &BTreeMap<&'a str, Option<Stored>>
        ensures { map way_entry result.now.entries ≡ pending_view self.now }
    {
        &self.records
    }

    /// The changes that leave the records so.
    pub fn into_changes(self, alloc: Global) -> Result<Vec<Change>, AllocError>
        ensures after { IfOk result (λ v. (m : Records) → after_all v.items m ≡ overlay (pending_view self.entry) m) }
        ensures fit { IfOk result (λ v. (types : Declared) (forms : Roots) (m : Records)
            → AreFitting types forms (pending_view self.entry) → ChangesFit types forms v.items m) }
        ensures short { IfOk result (λ v. AreShort (pending_view self.entry) → ChangesShort v.items) }
        ensures rows { IfOk result (λ v. (types : Declared) → AreTyped types (pending_view self.entry)
            → rows_of_all v.items ≤ most_rows * length (standing (pending_view self.entry))) }
    {
        let Pending { records } = self;
        let mut changes = Vec::with_capacity(alloc, records.len())?;
        for (id, stored) in records {
            changes.push(change_of(alloc, id, stored)?)?;
        }
        Ok(changes)
    }

    /// The change of the object of that name in the one record on the way, for a command that has set
    /// it and nothing else: its row alone is written. Where there is no such object, or more than one
    /// entry, these are the changes that leave the records so.
    pub fn into_object(self, alloc: Global, object: &str) -> Result<Vec<Change>, AllocError>
        ensures after { IfOk result (λ v. (id : _) (m : Records) → IsOneObject id object.now (pending_view self.entry) m
            → after_all v.items m ≡ overlay (pending_view self.entry) m) }
        ensures fit { IfOk result (λ v. (types : Declared) (forms : Roots) (id : _) (m : Records)
            → IsOneObject id object.now (pending_view self.entry) m → AreFitting types forms (pending_view self.entry)
            → ChangesFit types forms v.items m) }
        ensures short { IfOk result (λ v. AreShort (pending_view self.entry) → ChangesShort v.items) }
        ensures rows { IfOk result (λ v. (types : Declared) → AreTyped types (pending_view self.entry)
            → rows_of_all v.items ≤ most_rows * length (standing (pending_view self.entry))) }
        ensures none { IfOk result (λ v. (id : _) (m : Records) → IsOneObject id object.now (pending_view self.entry) m
            → rows_of_all v.items ≡ 0) }
    {
        let Some((id, there)) = self.lone_object(object) else {
            return self.into_changes(alloc);
        };
        let mut changes = Vec::with_capacity(alloc, 1)?;
        changes.push(object_change(alloc, id, object, there)?)?;
        Ok(changes)
    }

    /// The object of that name of the record of the one entry, with its id; none where there are more
    /// entries, or where no record or no such object stands there.
    fn lone_object(&self, object: &str) -> Option<(&'a str, &Object)>
        ensures { option_map (λ p. (p.0.now, object_view p.1.now)) result
            ≡ lone_object object.now (pending_view self.now) }
    {
        if self.records.len() != 1 {
            return None;
        }
        let (id, stored) = self.records.first_key_value()?;
        let there = stored.as_ref()?.bundle.object(object)?;
        Some((*id, there))
    }
}

/// The change that leaves a record at an id, or none.
fn change_of(alloc: Global, id: &str, stored: Option<Stored>) -> Result<Change, AllocError>
    ensures { IfOk result (λ c. altered c ≡ leaves id.now (option_map stored_view stored)) }
{
    let id = String::from_str(alloc, id)?;
    match stored {
        Some(stored) => Ok(Change::Put { id, stored }),
        None => Ok(Change::Remove { id }),
    }
}

/// The change that puts a copy of an object in the place of the one of that name of an id's record.
fn object_change(alloc: Global, id: &str, name: &str, object: &Object) -> Result<Change, AllocError>
    ensures { IfOk result (λ c. altered c ≡ sets id.now name.now (object_view object.now)) }
{
    Ok(Change::Object {
        id: String::from_str(alloc, id)?,
        name: String::from_str(alloc, name)?,
        object: object.copy(alloc)?,
    })
}
