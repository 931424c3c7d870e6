//! The data of type uses are read from JSON.
ghost use Rattle.std.specs.Prelude.{◌≡◌, false, IfOk, option_map, map};
ghost use Rattle.std.specs.Option.{ok_or};
ghost use Rattle.serde_json.specs.View.{view as json_view, items_view as json_items, members_view};
ghost use Rattle.fv_datum.specs.Data as datum;
ghost use Rattle.fv_datum.specs.Json.{spelled};
ghost use Rattle.fv_datum.specs.Kinds.{is_container};
ghost use Rattle.fv_datum.specs.Members.{pairs, listed, each_some};
ghost use Rattle.fv_datum.specs.Outcomes.{Gives};
ghost use Rattle.fv_datum.specs.View.{view, pair_view, items_view, entries_view};
ghost use Rattle.fv_datum.specs.declared.fault.DatumFault.TheVariants.{WrongKind, Memory};
ghost use Rattle.fv_bundle.specs.Spelled.{datum_of, entry_read, only_item};
ghost use Rattle.fv_bundle.specs.Types.{type_use_view, lists, maps, optionals};
ghost use Rattle.fv_bundle.specs.Writing.{IsWritten};

use crate::type_use::TypeUse;
use fv_datum::{Datum, DatumFault, Kind, read_datum};
use serde_json::{Map, Value};
use std::alloc::Global;

/// The datum of a type use that a JSON value spells. References aren't looked up, and nothing is too
/// large.
///
/// `WrongKind` where the value spells none; `Memory` at any place.
pub fn read_use(alloc: Global, type_use: &TypeUse, value: &Value) -> Result<Datum, DatumFault>
    ensures exact { Gives Memory view result
        (ok_or (datum_of (type_use_view type_use.now) (json_view value.now)) WrongKind) }
    ensures written { IfOk result (λ d. IsWritten (view d)) }
{
    read(alloc, value, type_use)
}

/// The same. Inlined in the loops over items and entries, so that a datum of a plain kind costs no call of
/// this function; each kind of container has one of its own.
#[cycle(read)]
#[inline(always)]
fn read(alloc: Global, value: &Value, type_use: &TypeUse) -> Result<Datum, DatumFault>
    ensures exact { Gives Memory view result
        (ok_or (datum_of (type_use_view type_use.now) (json_view value.now)) WrongKind) }
    ensures written { IfOk result (λ d. IsWritten (view d)) }
{
    match type_use {
        TypeUse::List(held) => read_list(alloc, value, held),
        TypeUse::Map(held) => read_map(alloc, value, held),
        TypeUse::Optional(held) => read_optional(alloc, value, held),
        _ => read_datum(alloc, type_use.kind(), value),
    }
}

/// A list of what the type use holds.
#[cycle(read)]
fn read_list(alloc: Global, value: &Value, held: &TypeUse) -> Result<Datum, DatumFault>
    ensures exact { Gives Memory view result
        (ok_or (datum_of (lists (type_use_view held.now)) (json_view value.now)) WrongKind) }
    ensures written { IfOk result (λ d. IsWritten (view d)) }
{
    if value.is_null() {
        return Ok(Datum::Null);
    }
    match value.as_array() {
        Some(items) => Ok(Datum::List(read_items(alloc, items, held)?)),
        None => Err(DatumFault::WrongKind),
    }
}

/// A map to what the type use holds.
#[cycle(read)]
fn read_map(alloc: Global, value: &Value, held: &TypeUse) -> Result<Datum, DatumFault>
    ensures exact { Gives Memory view result
        (ok_or (datum_of (maps (type_use_view held.now)) (json_view value.now)) WrongKind) }
    ensures written { IfOk result (λ d. IsWritten (view d)) }
{
    if value.is_null() {
        return Ok(Datum::Null);
    }
    match value.as_object() {
        Some(members) => Ok(Datum::Map(read_entries(alloc, members, held)?)),
        None => Err(DatumFault::WrongKind),
    }
}

/// An optional of what the type use holds.
#[cycle(read)]
fn read_optional(alloc: Global, value: &Value, held: &TypeUse) -> Result<Datum, DatumFault>
    ensures exact { Gives Memory view result
        (ok_or (datum_of (optionals (type_use_view held.now)) (json_view value.now)) WrongKind) }
    ensures written { IfOk result (λ d. IsWritten (view d)) }
{
    if value.is_null() {
        return Ok(Datum::Null);
    }
    match value.as_array() {
        Some(items) => {
            let content = read_content(alloc, items, held)?;
            Ok(Datum::Optional(Box::new(alloc, content)?))
        }
        None => Err(DatumFault::WrongKind),
    }
}

/// The datum of a plain kind that a JSON value spells.
#[inline(always)]
fn plain_in(alloc: Global, kind: Kind, value: &Value) -> Result<Datum, DatumFault>
    requires { is_container kind ≡ false }
    ensures exact { Gives Memory view result (ok_or (spelled kind (json_view value.now)) WrongKind) }
    ensures written { IfOk result (λ d. IsWritten (view d)) }
{
    read_datum(alloc, kind, value)
}

/// The items of a list of a plain kind. Written into each of its calls, which name the kind, so that a long
/// list is read with no look at the kind, and no call, for an item.
#[inline(always)]
fn read_plain(alloc: Global, items: &Vec<Value>, kind: Kind) -> Result<Vec<Datum>, DatumFault>
    requires { is_container kind ≡ false }
    ensures exact { Gives Memory (λ v. map view v.items) result
        (ok_or (each_some (spelled kind) (listed (json_items items.now.items))) WrongKind) }
    ensures written { IfOk result (λ v. IsWritten (datum.list (items_view v.items))) }
{
    let mut out = Vec::with_capacity(alloc, items.len())?;
    for item in items {
        out.push(plain_in(alloc, kind, item)?)?;
    }
    Ok(out)
}

/// The items of a list.
#[cycle(read)]
fn read_items(alloc: Global, items: &Vec<Value>, held: &TypeUse) -> Result<Vec<Datum>, DatumFault>
    ensures exact { Gives Memory (λ v. map view v.items) result
        (ok_or (each_some (datum_of (type_use_view held.now)) (listed (json_items items.now.items))) WrongKind) }
    ensures written { IfOk result (λ v. IsWritten (datum.list (items_view v.items))) }
{
    match held {
        TypeUse::Text => read_plain(alloc, items, Kind::Text),
        TypeUse::Integer => read_plain(alloc, items, Kind::Integer),
        TypeUse::Decimal => read_plain(alloc, items, Kind::Decimal),
        TypeUse::Boolean => read_plain(alloc, items, Kind::Boolean),
        TypeUse::Date => read_plain(alloc, items, Kind::Date),
        TypeUse::Instant => read_plain(alloc, items, Kind::Instant),
        TypeUse::Ref(_) => read_plain(alloc, items, Kind::Ref),
        _ => read_each(alloc, items, held),
    }
}

/// The items of a list of containers.
#[cycle(read)]
fn read_each(alloc: Global, items: &Vec<Value>, held: &TypeUse) -> Result<Vec<Datum>, DatumFault>
    ensures exact { Gives Memory (λ v. map view v.items) result
        (ok_or (each_some (datum_of (type_use_view held.now)) (listed (json_items items.now.items))) WrongKind) }
    ensures written { IfOk result (λ v. IsWritten (datum.list (items_view v.items))) }
{
    let mut out = Vec::with_capacity(alloc, items.len())?;
    for item in items {
        out.push(read(alloc, item, held)?)?;
    }
    Ok(out)
}

/// The entries of a map, ascending by their keys.
#[cycle(read)]
fn read_entries(
    alloc: Global,
    members: &Map<String, Value>,
    held: &TypeUse,
) -> Result<Vec<(Datum, Datum)>, DatumFault>
    ensures exact { Gives Memory (λ v. map pair_view v.items) result
        (ok_or (option_map (map (λ e. (datum.text e.0, e.1))) (each_some (entry_read (datum_of (type_use_view held.now)))
        (pairs (members_view members.now.entries)))) WrongKind) }
    ensures written { IfOk result (λ v. IsWritten (datum.map (entries_view v.items))) }
{
    let mut out = Vec::with_capacity(alloc, members.len())?;
    for (name, value) in members.iter() {
        let datum = read(alloc, value, held)?;
        out.push((Datum::Text(name.clone()?), datum))?;
    }
    Ok(out)
}

/// What an optional holds: null where there is nothing in the array.
#[cycle(read)]
fn read_content(alloc: Global, items: &Vec<Value>, held: &TypeUse) -> Result<Datum, DatumFault>
    ensures exact { Gives Memory view result
        (ok_or (only_item (datum_of (type_use_view held.now)) (json_items items.now.items)) WrongKind) }
    ensures written { IfOk result (λ d. IsWritten (view d)) }
{
    if items.len() > 1 {
        return Err(DatumFault::WrongKind);
    }
    let Some(item) = items.first() else {
        return Ok(Datum::Null);
    };
    if item.is_null() {
        return Err(DatumFault::WrongKind);
    }
    read(alloc, item, held)
}
