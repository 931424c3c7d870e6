//! A record as it is handed out: its bundle is read from what its rows keep, each object by itself.
ghost use Rattle.std.specs.Prelude.{◌≡◌, Ok, None, Option, option_map, IfOk, IfSome, Some, map};
ghost use Rattle.std.specs.Option.{ForSome};
ghost use Rattle.fv_datum.specs.Outcomes.{Gives};
ghost use Rattle.fv_bundle.specs.TypesView.{types_view};
ghost use Rattle.fv_bundle.specs.Views.{bundle_view};
ghost use Rattle.fv_bundle.specs.WellTyped.{IsWellTyped};
ghost use Rattle.fv_store.specs.Records.{Kept};
ghost use Rattle.fv_store.specs.Stored.{stored_view};
ghost use Rattle.fv_store.specs.Written.{entry_of, written_of};
ghost use Rattle.fv_store_tables.specs.Stored.{row_view, rows_view, things_view};
ghost use Rattle.fv_bundle.specs.Bundles.{Bundled};
ghost use Rattle.fv_datum.specs.Members.{each_some};
ghost use Rattle.fv_model.specs.Draft.{part_written};
ghost use Rattle.fv_model.specs.Views.{part_view};
ghost use Rattle.fv_model.specs.Writing.{named_written};
ghost use Rattle.fv_store.specs.ReadRows.{read_view, row_read};

use crate::fault::StoreFault;
use fv_bundle::{Bundle, Types};
use fv_datum::{JsonFault, read_text};
use fv_model::{Part, read_objects};
use fv_store_tables::{ObjectRow, RecordRows};
use serde_json::Value;
use std::alloc::{AllocError, Global};

/// The row of an object, its fields read as JSON.
#[derive(Drop)]
struct ReadRow<'a> {
    row: &'a ObjectRow<'a>,
    fields: Value,
}

/// The row of an object, its fields read as JSON; none where their text isn't that of a JSON object.
fn read_row<'a>(alloc: Global, row: &'a ObjectRow<'a>) -> Result<Option<ReadRow<'a>>, AllocError>
    ensures { IfOk result (λ o. option_map read_view o ≡ row_read (row_view row.now)) }
{
    let fields = match read_text(alloc, row.fields) {
        Ok(fields) => fields,
        Err(JsonFault::NotJson) => return Ok(None),
        Err(JsonFault::Memory) => return Err(AllocError),
    };
    if !fields.is_object() {
        return Ok(None);
    }
    Ok(Some(ReadRow { row, fields }))
}

/// The same of each row, in their order.
fn read_rows<'a>(
    alloc: Global,
    rows: &'a [ObjectRow<'a>],
) -> Result<Option<Vec<ReadRow<'a>>>, AllocError>
    ensures { IfOk result (λ o. option_map (λ v. map read_view v.items) o ≡ each_some row_read (things_view rows.now)) }
{
    let mut read = Vec::with_capacity(alloc, rows.len())?;
    for row in rows {
        match read_row(alloc, row)? {
            None => return Ok(None),
            Some(row) => read.push(row)?,
        }
    }
    Ok(Some(read))
}

/// What rows give of objects.
fn parts_in<'a>(alloc: Global, rows: &'a [ReadRow]) -> Result<Vec<Part<'a>>, AllocError>
    ensures { IfOk result (λ v. map part_written (map part_view v.items) ≡ map read_view rows.now) }
{
    let mut parts = Vec::with_capacity(alloc, rows.len())?;
    for read in rows {
        parts.push(Part {
            name: read.row.name,
            type_name: read.row.kind,
            given: read.fields.as_object(),
        })?;
    }
    Ok(parts)
}

/// The bundle that rows keep, well-typed. `Store` where they keep none.
pub(crate) fn bundle_of(
    alloc: Global,
    types: &Types,
    rows: &RecordRows,
) -> Result<Bundle, StoreFault>
    ensures read { (b : Bundled) → IsWellTyped (types_view types.now) b → rows.now.root.now ≡ b.root
        → each_some row_read (things_view rows.now.objects.items) ≡ Some (map named_written b.objects)
        → Gives StoreFault.Memory bundle_view result (Ok b) }
    ensures typed { IfOk result (λ b. IsWellTyped (types_view types.now) (bundle_view b)) }
{
    let Some(read) = read_rows(alloc, &rows.objects)? else {
        return Err(StoreFault::Store);
    };
    let parts = parts_in(alloc, &read)?;
    Ok(read_objects(alloc, types, rows.root, parts)?)
}

/// A record: the name of its form, and its bundle.
#[derive(Drop)]
pub struct Stored {
    pub form: String,
    pub bundle: Bundle,
}

/// The record that rows keep, its bundle read under these types. `Store` where they keep none.
fn stored_from(alloc: Global, types: &Types, rows: &RecordRows) -> Result<Stored, StoreFault>
    ensures read { (k : Kept) → IsWellTyped (types_view types.now) k.bundle → rows_view rows.now ≡ entry_of (written_of k)
        → Gives StoreFault.Memory stored_view result (Ok k) }
    ensures typed { IfOk result (λ s. IsWellTyped (types_view types.now) (bundle_view s.bundle)) }
{
    let bundle = bundle_of(alloc, types, rows)?;
    let form = String::from_str(alloc, rows.form)?;
    Ok(Stored { form, bundle })
}

/// The record whose rows were found, where there are some.
pub(crate) fn stored_if(
    alloc: Global,
    types: &Types,
    found: Option<RecordRows>,
) -> Result<Option<Stored>, StoreFault>
    ensures read { (o : Option Kept) → ForSome o (λ k. IsWellTyped (types_view types.now) k.bundle)
        → option_map rows_view found.entry ≡ option_map entry_of (option_map written_of o)
        → Gives StoreFault.Memory (option_map stored_view) result (Ok o) }
    ensures typed { IfOk result (λ o. IfSome o (λ s. IsWellTyped (types_view types.now) (bundle_view s.bundle))) }
    ensures none { IfOk result (λ o. o ≡ None → found.entry ≡ None) }
{
    match found {
        Some(rows) => Ok(Some(stored_from(alloc, types, &rows)?)),
        None => Ok(None),
    }
}
