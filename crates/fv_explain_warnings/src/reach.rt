//! The types that others lead to, and the groups that others inherit.
use fv_bundle::{TypeId, TypeUse, Types};
use fv_declare_schema::{GroupId, Groups, Schema};
use fv_explain_faults::Told;
use indexmap::IndexSet;
use std::alloc::Global;

/// The type that a type use refers to, in whatever containers, by its number.
fn target(types: &Types, type_use: &TypeUse) -> Option<usize> {
    match type_use {
        TypeUse::Ref(name) => Some(types.find(name.as_str())?.index),
        TypeUse::List(held) | TypeUse::Map(held) | TypeUse::Optional(held) => target(types, held),
        _ => None,
    }
}

/// The types that some lead to by any reference, and those themselves, by their numbers.
pub fn reached(alloc: Global, types: &Types, from: &[usize]) -> Told<IndexSet<usize>> {
    let mut found: IndexSet<usize> = from.iter().copied().collect(alloc)?;
    for at in 0..types.count() {
        let index = found.get_index(at).copied().unwrap_or(types.count());
        if let Some(fields) = types.fields_at(TypeId { index }) {
            found.extend(fields.values().filter_map(|held| target(types, held)))?;
        }
    }
    Ok(found)
}

/// The types that some lead to through places whose objects are validated, and those themselves, by their numbers.
pub fn validated(alloc: Global, schema: &Schema, from: &[usize]) -> Told<IndexSet<usize>> {
    let types = schema.types();
    let mut found: IndexSet<usize> = from.iter().copied().collect(alloc)?;
    for at in 0..types.count() {
        let index = found.get_index(at).copied().unwrap_or(types.count());
        if let Some(fields) = types.fields_at(TypeId { index }) {
            let places = schema.valid_places_of(TypeId { index }).iter();
            let held = places.filter_map(|place| fields.get_index(place.field));
            found.extend(held.filter_map(|(_, held)| target(types, held)))?;
        }
    }
    Ok(found)
}

/// Whether a group is another one or inherits it.
pub fn inherits(groups: &Groups, group: GroupId, other: GroupId) -> bool {
    let is_within = group.index < groups.count() && other.index < groups.count();
    is_within && groups.inherits(group, other)
}
