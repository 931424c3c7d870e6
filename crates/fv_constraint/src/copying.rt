//! Copies of attributes.
ghost use Rattle.std.specs.Prelude.{◌≡◌, true, IfOk, OnOk, map, string_bytes};
ghost use Rattle.std.specs.BTreeMap.{insert_entry};
ghost use Rattle.std.specs.String.{string_cmp};
ghost use Rattle.fv_datum.specs.Maps.{ascends};
ghost use Rattle.fv_datum.specs.Attributes.{attribute_view, entry_view};

use fv_datum::Attribute;
use std::alloc::{AllocError, Global};
use std::collections::BTreeMap;

fn copy_texts(alloc: Global, texts: &[String]) -> Result<Vec<String>, AllocError>
    ensures { IfOk result (λ v. map string_bytes v.items ≡ map string_bytes texts.now) }
{
    let mut copies = Vec::with_capacity(alloc, texts.len())?;
    for text in texts {
        copies.push(text.clone()?)?;
    }
    Ok(copies)
}

/// Another attribute of the same value.
pub(crate) fn copy_of(alloc: Global, attribute: &Attribute) -> Result<Attribute, AllocError>
    ensures { IfOk result (λ a. attribute_view a ≡ attribute_view attribute.now) }
{
    match attribute {
        Attribute::Integer(number) => Ok(Attribute::Integer(*number)),
        Attribute::Text(text) => Ok(Attribute::Text(text.clone()?)),
        Attribute::Boolean(flag) => Ok(Attribute::Boolean(*flag)),
        Attribute::Texts(texts) => Ok(Attribute::Texts(copy_texts(alloc, texts)?)),
    }
}

/// Puts a value in at a name, in place of one that stands there.
pub(crate) fn put<V: Drop>(
    entries: &mut BTreeMap<String, V>,
    name: &String,
    value: V,
) -> Result<(), AllocError>
    ensures { OnOk result ((key : _) × (string_bytes key ≡ string_bytes name.now)
        × (entries.new.entries ≡ insert_entry string_cmp entries.old.entries key value)) }
{
    let _ = entries.insert(name.clone()?, value)?;
    Ok(())
}

/// The same attributes again.
pub(crate) fn copy_entries(
    alloc: Global,
    entries: &BTreeMap<String, Attribute>,
) -> Result<BTreeMap<String, Attribute>, AllocError>
    ensures same { IfOk result (λ m. map entry_view m.entries ≡ map entry_view entries.now.entries) }
    ensures ascending { IfOk result (λ m. ascends (map entry_view m.entries) ≡ true) }
{
    let mut copies = BTreeMap::new(alloc);
    for (name, attribute) in entries.iter() {
        put(&mut copies, name, copy_of(alloc, attribute)?)?;
    }
    Ok(copies)
}
