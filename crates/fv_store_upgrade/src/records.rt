//! The records that rows of version 1 keep.
ghost use Rattle.std.specs.Prelude.{◌≡◌, IfOk, option_map, string_bytes};
ghost use Rattle.std.specs.Option.{ok_or};
ghost use Rattle.serde_json.specs.View.{view as json_view, members_view};
ghost use Rattle.fv_datum.specs.Members.{each_some, pairs};
ghost use Rattle.fv_datum.specs.Outcomes.{Gives};
ghost use Rattle.fv_store_tables.specs.Olds.{old_view, olds_view};
ghost use Rattle.fv_store_upgrade.specs.Steps.{named_in, new_object_view, new_objects_view, new_rows_view, new_view, news_view};
ghost use Rattle.fv_store_upgrade.specs.Upgraded.{bundle_in, upgraded_entry, object_in};
ghost use Rattle.fv_store_upgrade.specs.declared.fault.UpgradeFault.TheVariants.{Damaged};

use crate::fault::UpgradeFault;
use crate::writing::fields_text;
use fv_datum::{has_only, object_at, read_text, text_at};
use fv_store_tables::OldRow;
use serde_json::{Map, Value};
use std::alloc::Global;

/// What the row of an object shall keep.
#[derive(Drop)]
pub(crate) struct NewObject {
    pub(crate) name: String,
    pub(crate) kind: String,
    pub(crate) fields: String,
}

/// What the rows of a record shall keep.
#[derive(Drop)]
pub(crate) struct NewRows {
    pub(crate) form: String,
    pub(crate) root: String,
    pub(crate) objects: Vec<NewObject>,
}

/// The same with the record's id.
#[derive(Drop)]
pub(crate) struct NewRecord {
    pub(crate) id: String,
    pub(crate) rows: NewRows,
}

/// The object of that name that a value is.
fn object_row(alloc: Global, name: &str, value: &Value) -> Result<NewObject, UpgradeFault>
    ensures { Gives UpgradeFault.Memory new_object_view result
        (ok_or (object_in (name.now, json_view value.now)) Damaged) }
{
    if !has_only(value, &["fields", "type"]) {
        return Err(UpgradeFault::Damaged);
    }
    let kind = text_at(value, "type").ok_or(UpgradeFault::Damaged)?;
    let fields = value.get("fields").ok_or(UpgradeFault::Damaged)?;
    Ok(NewObject {
        name: String::from_str(alloc, name)?,
        kind: String::from_str(alloc, kind)?,
        fields: fields_text(alloc, fields)?,
    })
}

/// The objects that members are, in the order of their names.
fn object_rows(alloc: Global, objects: &Map<String, Value>) -> Result<Vec<NewObject>, UpgradeFault>
    ensures { Gives UpgradeFault.Memory (λ v. new_objects_view v.items) result
        (ok_or (each_some object_in (pairs (members_view objects.now.entries))) Damaged) }
{
    let mut rows = Vec::with_capacity(alloc, objects.len())?;
    for (name, value) in objects.iter() {
        rows.push(object_row(alloc, name.as_str(), value)?)?;
    }
    Ok(rows)
}

/// The record of that form whose bundle a value is.
fn record_rows(alloc: Global, form: String, value: &Value) -> Result<NewRows, UpgradeFault>
    ensures { Gives UpgradeFault.Memory new_rows_view result
        (ok_or (option_map (upgraded_entry (string_bytes form)) (bundle_in (json_view value.now))) Damaged) }
{
    if !has_only(value, &["objects", "root"]) {
        return Err(UpgradeFault::Damaged);
    }
    let root = text_at(value, "root").ok_or(UpgradeFault::Damaged)?;
    let objects = object_at(value, "objects").ok_or(UpgradeFault::Damaged)?;
    Ok(NewRows {
        form,
        root: String::from_str(alloc, root)?,
        objects: object_rows(alloc, objects)?,
    })
}

/// The record that a row is.
fn record_of(alloc: Global, old: OldRow) -> Result<NewRecord, UpgradeFault>
    ensures { Gives UpgradeFault.Memory new_view result (ok_or (named_in (old_view old)) Damaged) }
{
    let OldRow { id, form, bundle } = old;
    let value = read_text(alloc, bundle.as_str())?;
    let rows = record_rows(alloc, form, &value)?;
    Ok(NewRecord { id, rows })
}

/// The records that rows are, each row dropped once it is read.
///
/// `Damaged` where one isn't the text of a bundle by its form; `Memory` at any place.
pub(crate) fn records_of(alloc: Global, olds: Vec<OldRow>) -> Result<Vec<NewRecord>, UpgradeFault>
    ensures { Gives UpgradeFault.Memory (λ v. news_view v.items) result
        (ok_or (each_some named_in (olds_view olds.items)) Damaged) }
{
    let mut records = Vec::with_capacity(alloc, olds.len())?;
    for old in olds {
        records.push(record_of(alloc, old)?)?;
    }
    Ok(records)
}
