//! The text of a bundle is put together from what its rows keep.
ghost use Rattle.std.specs.Prelude.{◌≡◌, ◌++◌, [], IfOk, OnOk, string_bytes};
ghost use Rattle.fv_store.specs.Texts.{object_text, objects_text, rows_text};
ghost use Rattle.fv_store_tables.specs.Stored.{row_view, things_view};

use fv_model::quoted;
use fv_store_tables::{ObjectRow, RecordRows};
use std::alloc::{AllocError, Global};

/// Adds an object to a text.
fn add_object(text: &mut String, alloc: Global, object: &ObjectRow) -> Result<(), AllocError>
    ensures { OnOk result (string_bytes text.new ≡ string_bytes text.old ++ object_text (row_view object.now)) }
{
    let name = quoted(alloc, object.name)?;
    let kind = quoted(alloc, object.kind)?;
    text.push_str(name.as_str())?;
    text.push_str(":{\"fields\":")?;
    text.push_str(object.fields)?;
    text.push_str(",\"type\":")?;
    text.push_str(kind.as_str())?;
    text.push_str("}")
}

/// Adds objects to a text, with commas between them.
fn add_objects(text: &mut String, alloc: Global, objects: &[ObjectRow]) -> Result<(), AllocError>
    ensures { OnOk result (string_bytes text.new ≡ string_bytes text.old ++ objects_text [] (things_view objects.now)) }
{
    let mut comma = "";
    for object in objects {
        text.push_str(comma)?;
        add_object(text, alloc, object)?;
        comma = ",";
    }
    Ok(())
}

/// The text of the bundle whose root and objects rows keep.
pub(crate) fn joined(alloc: Global, rows: &RecordRows) -> Result<String, AllocError>
    ensures { IfOk result (λ s. string_bytes s ≡ rows_text rows.now.root.now (things_view rows.now.objects.items)) }
{
    let root = quoted(alloc, rows.root)?;
    let mut text = String::from_str(alloc, "{\"objects\":{")?;
    add_objects(&mut text, alloc, &rows.objects)?;
    text.push_str("},\"root\":")?;
    text.push_str(root.as_str())?;
    text.push_str("}")?;
    Ok(text)
}
