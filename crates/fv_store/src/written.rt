//! A record as its rows write it, with no types.
ghost use Rattle.std.specs.Prelude.{◌≡◌, false, IfOk, None, Option, option_map};
ghost use Rattle.std.specs.Option.{ForSome};
ghost use Rattle.fv_bundle.specs.Types.{Declared, has_deep};
ghost use Rattle.fv_bundle.specs.WellTyped.{IsWellTyped};
ghost use Rattle.fv_store.specs.Records.{Kept};
ghost use Rattle.fv_store.specs.Stored.{text_of, text_view, untyped, written_view};
ghost use Rattle.fv_store.specs.Written.{entry_of, written_of};
ghost use Rattle.fv_store_tables.specs.Stored.{rows_view};

use crate::joining::joined;
use fv_store_tables::RecordRows;
use std::alloc::{AllocError, Global};

/// A record that no types were asked for: the name of its form, and its bundle's JSON.
#[derive(Drop)]
pub struct Written {
    pub form: String,
    pub bundle: String,
}

/// The record that rows keep.
fn written_from(alloc: Global, rows: &RecordRows) -> Result<Written, AllocError>
    ensures text { IfOk result (λ w. (types : Declared) (k : Kept) → IsWellTyped types k.bundle
        → rows_view rows.now ≡ entry_of (written_of k) → text_view w ≡ text_of k) }
    ensures read { IfOk result (λ w. (types : Declared) (k : Kept) → has_deep types ≡ false → IsWellTyped types k.bundle
        → rows_view rows.now ≡ entry_of (written_of k) → written_view w ≡ untyped k) }
{
    let form = String::from_str(alloc, rows.form)?;
    let bundle = joined(alloc, rows)?;
    Ok(Written { form, bundle })
}

/// The record whose rows were found, where there are some.
pub(crate) fn written_if(
    alloc: Global,
    found: Option<RecordRows>,
) -> Result<Option<Written>, AllocError>
    ensures text { IfOk result (λ w. (types : Declared) (o : Option Kept) → ForSome o (λ k. IsWellTyped types k.bundle)
        → option_map rows_view found.entry ≡ option_map entry_of (option_map written_of o)
        → option_map text_view w ≡ option_map text_of o) }
    ensures read { IfOk result (λ w. (types : Declared) (o : Option Kept) → has_deep types ≡ false
        → ForSome o (λ k. IsWellTyped types k.bundle)
        → option_map rows_view found.entry ≡ option_map entry_of (option_map written_of o)
        → option_map written_view w ≡ option_map untyped o) }
    ensures none { IfOk result (λ w. w ≡ None → found.entry ≡ None) }
{
    match found {
        Some(rows) => Ok(Some(written_from(alloc, &rows)?)),
        None => Ok(None),
    }
}
