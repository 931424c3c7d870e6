ghost use Rattle.std.specs.Prelude.{◌≡◌, option_map, IfOk, Ok, ℕ, List, Some};
ghost use Rattle.std.specs.Option.{ForSome};
ghost use Rattle.serde_json.specs.View.{view as json_view};
ghost use Rattle.fv_datum.specs.Outcomes.{Gives, first, unless_fault};
ghost use Rattle.fv_bundle.specs.Types.{Declared, name_at, type_use_view};
ghost use Rattle.fv_model.specs.Views.{types_view, draft_view, bundle_view};
ghost use Rattle.fv_model.specs.Reading.{bundle_conditions, bundle_of, bundle_read, datum_at, value_read};
ghost use Rattle.std.specs.Map.{keys_of};
ghost use Rattle.fv_bundle.specs.Bundles.{Bundled, IsAscending};
ghost use Rattle.fv_bundle.specs.WellTyped.{IsWellTyped, HasRootType, AnyName};
ghost use Rattle.fv_model.specs.Writing.{bundle_json, bundle_written, IsWritten, datum_json};
ghost use Rattle.fv_datum.specs.Data.{Data};
ghost use Rattle.fv_datum.specs.View.{view};
ghost use Rattle.fv_bundle.specs.Fits.{Fits};
ghost use Rattle.fv_bundle.specs.Flaws.{misfits};
ghost use Rattle.fv_model.specs.Fitting.{unless_wrong};

use crate::build::build;
use crate::draft::draft_of;
use crate::fault::BundleFault;
use crate::faults::{draft_flaws, late_fault, name_fault};
use crate::parts::Draft;
use fv_bundle::{Bundle, TypeId, TypeNames, TypeUse, Types, flaws_of, read_use};
use fv_datum::{Datum, DatumFault};
use indexmap::IndexMap;
use serde_json::Value;
use std::alloc::Global;

/// The bundle that a JSON value spells, its root of the asked type where one is asked.
///
/// It is well-typed. What `write_bundle` gave for a well-typed bundle is read as that bundle, where
/// its root is of the asked type or none is asked. What it gave for one that was well-typed under
/// other types is read, if it is, as a bundle of which the same is written.
/// Refused by the first of `Shape`, `BadName`, `RootMissing`, `UnknownType`, `UnknownField`,
/// `WrongKind`, `DanglingRef`, `RefType`, `TooLarge` and `RootType` whose condition holds; `Memory`
/// at any place.
pub fn read_bundle(
    alloc: Global,
    types: &Types,
    asked: Option<TypeId>,
    value: &Value,
) -> Result<Bundle, BundleFault>
    ensures exact { Gives BundleFault.Memory bundle_view result
        (bundle_read (types_view types.now) (option_map (λ t. name_at (types_view types.now) t.index) asked)
        (json_view value.now)) }
    ensures well_typed { IfOk result (λ b. IsWellTyped (types_view types.now) (bundle_view b)) }
    ensures root { IfOk result (λ b. ForSome asked (λ t. HasRootType (name_at (types_view types.now) t.index)
        (bundle_view b))) }
    ensures read_back { (b : Bundled) → IsWellTyped (types_view types.now) b
        → ForSome asked (λ t. HasRootType (name_at (types_view types.now) t.index) b) → json_view value.now
        ≡ bundle_json b → Gives BundleFault.Memory bundle_view result (Ok b) }
    ensures rewritten { IfOk result (λ b. (old : Declared) (a : Bundled) → IsWellTyped old a → json_view value.now
        ≡ bundle_json a → bundle_written (bundle_view b) ≡ bundle_written a) }
{
    spelled_bundle(alloc, types, asked, value)
}

/// The same, by the definition alone.
fn spelled_bundle(
    alloc: Global,
    types: &Types,
    asked: Option<TypeId>,
    value: &Value,
) -> Result<Bundle, BundleFault>
    ensures exact { Gives BundleFault.Memory bundle_view result
        (bundle_read (types_view types.now) (option_map (λ t. name_at (types_view types.now) t.index) asked)
        (json_view value.now)) }
    ensures ascending { IfOk result (λ b. IsAscending (keys_of (bundle_view b).objects)) }
{
    match draft_of(alloc, value)? {
        None => Err(BundleFault::Shape),
        Some(draft) => judged(alloc, types, asked, &draft),
    }
}

/// The bundle that a draft is, or its first fault.
pub(crate) fn judged(
    alloc: Global,
    types: &Types,
    asked: Option<TypeId>,
    draft: &Draft,
) -> Result<Bundle, BundleFault>
    ensures exact { Gives BundleFault.Memory bundle_view result
        (unless_fault (first (bundle_conditions (types_view types.now) (option_map (λ t. name_at (types_view types.now) t.index) asked)
        (draft_view draft.now))) (bundle_of (types_view types.now) (draft_view draft.now))) }
    ensures ascending { IfOk result (λ b. IsAscending (keys_of (bundle_view b).objects)) }
{
    if let Some(fault) = name_fault(types, draft) {
        return Err(fault);
    }
    let flaws = draft_flaws(types, draft);
    if flaws.undeclared {
        return Err(BundleFault::UnknownField);
    }
    let bundle = build(alloc, types, draft)?;
    match late_fault(types, asked, draft, flaws) {
        Some(fault) => Err(fault),
        None => Ok(bundle),
    }
}

/// The datum of a type use that a JSON value spells. A reference may be any name.
///
/// It is of the type use and within the limits. What was written of such a datum is read as it.
/// Refused by `WrongKind`, else by `TooLarge`; `Memory` at any place.
pub fn read_value(alloc: Global, type_use: &TypeUse, value: &Value) -> Result<Datum, BundleFault>
    ensures exact { Gives BundleFault.Memory view result
        (value_read (type_use_view type_use.now) (json_view value.now)) }
    ensures fits { IfOk result (λ d. Fits AnyName (type_use_view type_use.now) (view d)) }
    ensures read_back { (d : Data) → Fits AnyName (type_use_view type_use.now) d
        → json_view value.now ≡ datum_json d → Gives BundleFault.Memory view result (Ok d) }
{
    small_datum(alloc, type_use, value)
}

/// The same, by the definition alone.
fn small_datum(alloc: Global, type_use: &TypeUse, value: &Value) -> Result<Datum, BundleFault>
    ensures exact { Gives BundleFault.Memory view result
        (value_read (type_use_view type_use.now) (json_view value.now)) }
    ensures written { IfOk result (λ d. IsWritten (view d)) }
{
    let datum = spelled_datum(alloc, type_use, value)?;
    let nobody: TypeNames = IndexMap::new(alloc);
    if flaws_of(&nobody, type_use, value).large {
        return Err(BundleFault::TooLarge);
    }
    Ok(datum)
}

/// The datum of a type use that a JSON value spells, however large it is. References aren't looked up.
///
/// Refused by `WrongKind`; `Memory` at any place.
pub(crate) fn spelled_datum(
    alloc: Global,
    type_use: &TypeUse,
    value: &Value,
) -> Result<Datum, BundleFault>
    ensures exact { Gives BundleFault.Memory view result (unless_wrong
        (misfits (Some (type_use_view type_use.now)) (json_view value.now))
        (datum_at (type_use_view type_use.now) (Some (json_view value.now)))) }
    ensures written { IfOk result (λ d. IsWritten (view d)) }
{
    match read_use(alloc, type_use, value) {
        Ok(datum) => Ok(datum),
        Err(DatumFault::WrongKind) => Err(BundleFault::WrongKind),
        Err(DatumFault::Memory) => Err(BundleFault::Memory),
    }
}
