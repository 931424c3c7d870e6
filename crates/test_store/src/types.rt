//! The declared types of the transcripts.
use anyhow::Result;
use fv_bundle::{Fields, TypeUse, Types};
use indexmap::IndexMap;
use std::alloc::Global;

/// A text `name`, an integer `count`, and a reference `to` to a `Note`.
fn fields(alloc: Global) -> Result<Fields> {
    let mut fields = IndexMap::new(alloc);
    fields.insert(String::from_str(alloc, "name")?, TypeUse::Text)?;
    fields.insert(String::from_str(alloc, "count")?, TypeUse::Integer)?;
    let note = String::from_str(alloc, "Note")?;
    fields.insert(String::from_str(alloc, "to")?, TypeUse::Ref(note))?;
    Ok(fields)
}

/// The types `Item` and `Note`, each with a text `name`, an integer `count`, and a reference `to` to a
/// `Note`.
pub(crate) fn item_and_note(alloc: Global) -> Result<Types> {
    let mut types = IndexMap::new(alloc);
    types.insert(String::from_str(alloc, "Item")?, fields(alloc)?)?;
    types.insert(String::from_str(alloc, "Note")?, fields(alloc)?)?;
    Ok(Types::build(alloc, types)?)
}
