//! The records that parts need are found in the store.
ghost use Rattle.std.specs.Prelude.{◌≡◌, ◌+◌, ◌≤◌, ◌⊎◌, ◌∷◌, [], IfErr, IfOk, IsTrue, OnErr, OnOk, length, map, option_map};
ghost use Rattle.std.specs.List.{AllByRecursion, list_any};
ghost use Rattle.sqlite.specs.State.{HasCleanDisk};
ghost use Rattle.fv_engine_command.specs.CommandView.{part_view};
ghost use Rattle.fv_engine_pending.specs.Fits.{Agrees, AreNeeded, AreTyped, Covers};
ghost use Rattle.fv_engine_pending.specs.Touched.{needed_id, needs_at, needs_record, count_needed};
ghost use Rattle.fv_engine_pending.specs.Ways.{pending_view, IsOn};
ghost use Rattle.fv_store.specs.Causes.{HasFailed};
ghost use Rattle.fv_store.specs.Stands.{Frame, HoldsRecords, IsLive, Stays};
ghost use Rattle.fv_store.specs.Stock.{stock_state as state};
ghost use Rattle.fv_bundle.specs.TypesView.{types_view};

use crate::pending::Pending;
use fv_bundle::Types;
use fv_engine_command::Part;
use fv_store::{Store, StoreFault};
use sqlite::Alter;
use std::alloc::Global;

/// The id of a part that needs a record: of a set or a remove.
fn needed<'a>(part: &Part<'a>) -> Option<&'a str>
    ensures { option_map (λ s. s.now) result ≡ needed_id (part_view part.now) }
{
    match part {
        Part::Put { .. } => None,
        Part::Set { id, .. } => Some(*id),
        Part::Remove { id } => Some(*id),
    }
}

/// Leaves what the store has at an id on the way, where nothing stands there.
fn find_record<'a, S: Alter>(
    store: &mut Store<S>,
    alloc: Global,
    types: &Types,
    pending: &mut Pending<'a>,
    id: &'a str,
) -> Result<(), StoreFault>
    ensures frame { Frame (state S.Store store.old) (state S.Store store.new) }
    ensures text { store.new.text ≡ store.old.text }
    ensures found { HasCleanDisk (state S.Store store.new) → OnOk result ((c : _) → c.types ≡ types_view types.now
        → HoldsRecords (state S.Store store.old) c → Agrees (pending_view pending.old) c.records → Agrees (pending_view pending.new) c.records) }
    ensures there { OnOk result (IsOn id.now (pending_view pending.new)) }
    ensures keeps { OnOk result ((i : _) → IsOn i (pending_view pending.old) → IsOn i (pending_view pending.new)) }
    ensures only { OnOk result ((i : _) → IsOn i (pending_view pending.new) → (IsOn i (pending_view pending.old)) ⊎ (i ≡ id.now)) }
    ensures typed { OnOk result (AreTyped (types_view types.now) (pending_view pending.old) → AreTyped (types_view types.now) (pending_view pending.new)) }
    ensures live { OnOk result ((IsOn id.now (pending_view pending.old) → IsLive (state S.Store store.old)) → IsLive (state S.Store store.new)) }
    ensures count { OnOk result (length (pending_view pending.new) ≤ length (pending_view pending.old) + 1) }
    ensures cause { HasCleanDisk (state S.Store store.new) → IfErr result (λ e. e ≡ StoreFault.Store → (c : _)
        → c.types ≡ types_view types.now → HoldsRecords (state S.Store store.old) c
        → HasFailed (state S.Store store.old) (state S.Store store.new)) }
    ensures stays { (c : _) → HoldsRecords (state S.Store store.old) c → HoldsRecords (state S.Store store.new) c }
    ensures untouched { (c : _) → HoldsRecords (state S.Store store.old) c
        → Stays (state S.Store store.old) (state S.Store store.new) }
    ensures same { HasCleanDisk (state S.Store store.new) → OnOk result ((c : _) → HoldsRecords (state S.Store store.old) c
        → (state S.Store store.new).now ≡ (state S.Store store.old).now) }
{
    if pending.has(id) {
        return Ok(());
    }
    let stored = store.get(alloc, types, id)?;
    match pending.leave(id, stored) {
        Ok(()) => Ok(()),
        Err(_) => Err(StoreFault::Memory),
    }
}

/// Leaves on the way what the store has at the id of a part that needs a record.
fn find_for<'a, S: Alter>(
    store: &mut Store<S>,
    alloc: Global,
    types: &Types,
    pending: &mut Pending<'a>,
    part: &Part<'a>,
) -> Result<(), StoreFault>
    ensures frame { Frame (state S.Store store.old) (state S.Store store.new) }
    ensures text { store.new.text ≡ store.old.text }
    ensures found { HasCleanDisk (state S.Store store.new) → OnOk result ((c : _) → c.types ≡ types_view types.now
        → HoldsRecords (state S.Store store.old) c → Agrees (pending_view pending.old) c.records
        → Agrees (pending_view pending.new) c.records) }
    ensures covers { OnOk result (Covers (pending_view pending.new) (part_view part.now)) }
    ensures keeps { OnOk result ((i : _) → IsOn i (pending_view pending.old) → IsOn i (pending_view pending.new)) }
    ensures only { OnOk result ((i : _) → IsOn i (pending_view pending.new)
        → IsOn i (pending_view pending.old) ⊎ IsTrue (needs_at i (part_view part.now))) }
    ensures typed { OnOk result (AreTyped (types_view types.now) (pending_view pending.old)
        → AreTyped (types_view types.now) (pending_view pending.new)) }
    ensures live { OnOk result ((Covers (pending_view pending.old) (part_view part.now)
        → IsLive (state S.Store store.old)) → IsLive (state S.Store store.new)) }
    ensures count { OnOk result (length (pending_view pending.new)
        ≤ length (pending_view pending.old) + count_needed (part_view part.now ∷ [])) }
    ensures cause { HasCleanDisk (state S.Store store.new) → IfErr result (λ e. e ≡ StoreFault.Store → (c : _)
        → c.types ≡ types_view types.now → HoldsRecords (state S.Store store.old) c
        → HasFailed (state S.Store store.old) (state S.Store store.new)) }
    ensures asked { OnErr result (IsTrue (needs_record (part_view part.now))) }
    ensures stays { (c : _) → HoldsRecords (state S.Store store.old) c → HoldsRecords (state S.Store store.new) c }
    ensures untouched { (c : _) → HoldsRecords (state S.Store store.old) c
        → Stays (state S.Store store.old) (state S.Store store.new) }
    ensures same { HasCleanDisk (state S.Store store.new) → OnOk result ((c : _) → HoldsRecords (state S.Store store.old) c
        → (state S.Store store.new).now ≡ (state S.Store store.old).now) }
{
    match needed(part) {
        None => Ok(()),
        Some(id) => find_record(store, alloc, types, pending, id),
    }
}

/// The records that parts need, found in the store, each read once: those at the ids of sets and
/// removes, and none where the store has none. The store isn't asked where no part needs a record.
///
/// Refused by `Memory` at any place, and by `Store` only where the disk has failed during the call or
/// the connection was shut before, if the store holds records under these types.
pub fn find_records<'a, S: Alter>(
    store: &mut Store<S>,
    alloc: Global,
    types: &Types,
    parts: &[Part<'a>],
) -> Result<Pending<'a>, StoreFault>
    ensures frame { Frame (state S.Store store.old) (state S.Store store.new) }
    ensures text { store.new.text ≡ store.old.text }
    ensures found { HasCleanDisk (state S.Store store.new) → IfOk result (λ p. (c : _) → c.types ≡ types_view types.now
        → HoldsRecords (state S.Store store.old) c → Agrees (pending_view p) c.records) }
    ensures covers { IfOk result (λ p. AllByRecursion (Covers (pending_view p)) (map part_view parts.now)) }
    ensures needed { IfOk result (λ p. AreNeeded (map part_view parts.now) (pending_view p)) }
    ensures typed { IfOk result (λ p. AreTyped (types_view types.now) (pending_view p)) }
    ensures live { OnOk result (IsTrue (list_any needs_record (map part_view parts.now)) → IsLive (state S.Store store.new)) }
    ensures count { IfOk result (λ p. length (pending_view p) ≤ count_needed (map part_view parts.now)) }
    ensures cause { HasCleanDisk (state S.Store store.new) → IfErr result (λ e. e ≡ StoreFault.Store → (c : _)
        → c.types ≡ types_view types.now → HoldsRecords (state S.Store store.old) c
        → HasFailed (state S.Store store.old) (state S.Store store.new)) }
    ensures asked { IfErr result (λ e. e ≡ StoreFault.Store → IsTrue (list_any needs_record (map part_view parts.now))) }
    ensures stays { (c : _) → HoldsRecords (state S.Store store.old) c → HoldsRecords (state S.Store store.new) c }
    ensures untouched { (c : _) → HoldsRecords (state S.Store store.old) c
        → Stays (state S.Store store.old) (state S.Store store.new) }
    ensures same { HasCleanDisk (state S.Store store.new) → OnOk result ((c : _) → HoldsRecords (state S.Store store.old) c
        → (state S.Store store.new).now ≡ (state S.Store store.old).now) }
{
    let mut pending = Pending::new(alloc);
    for part in parts {
        find_for(store, alloc, types, &mut pending, part)?;
    }
    Ok(pending)
}
