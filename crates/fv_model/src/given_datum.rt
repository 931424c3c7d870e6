//! The datum that is given for a field of an object, or what is wrong with it.
ghost use Rattle.std.specs.Prelude.{◌≡◌, [], ◌∷◌, map, IfOk, option_map};
ghost use Rattle.serde_json.specs.View.{view as json_view};
ghost use Rattle.fv_datum.specs.Lookup.{at_name};
ghost use Rattle.fv_datum.specs.Outcomes.{Gives, first};
ghost use Rattle.fv_datum.specs.View.{view};
ghost use Rattle.fv_bundle.specs.Types.{type_use_view};
ghost use Rattle.fv_bundle.specs.Writing.{IsWritten};
ghost use Rattle.fv_model.specs.Reading.{fields_of};
ghost use Rattle.fv_model.specs.Views.{types_view, bundle_view};
ghost use Rattle.fv_model.specs.Setting.{datum_given, datum_in_use};

use crate::fault::BundleFault;
use crate::naming::type_names;
use crate::spelled::spelled_datum;
use fv_bundle::{Bundle, Flaws, TypeUse, Types, flaws_of, use_in};
use fv_datum::Datum;
use serde_json::Value;
use std::alloc::Global;

/// What the field of that name of a type holds.
fn use_of<'a>(types: &'a Types, type_name: &str, field: &str) -> Option<&'a TypeUse>
    ensures { option_map (λ u. type_use_view u.now) result
        ≡ at_name field.now (fields_of (types_view types.now) type_name.now) }
{
    let fields = types.fields(type_name)?;
    use_in(fields, field)
}

/// The first fault of a datum of its kind, by what is wrong with it.
fn flaw_fault(flaws: Flaws) -> Option<BundleFault>
    ensures { result ≡ first ((flaws.dangling, BundleFault.DanglingRef) ∷ (flaws.stray, BundleFault.RefType)
        ∷ (flaws.large, BundleFault.TooLarge) ∷ []) }
{
    if flaws.dangling {
        return Some(BundleFault::DanglingRef);
    }
    if flaws.stray {
        return Some(BundleFault::RefType);
    }
    if flaws.large {
        return Some(BundleFault::TooLarge);
    }
    None
}

/// The datum of a type use, in a bundle.
fn datum_in_use(
    alloc: Global,
    bundle: &Bundle,
    type_use: &TypeUse,
    value: &Value,
) -> Result<Datum, BundleFault>
    ensures exact { Gives BundleFault.Memory view result
        (datum_in_use (map (λ o. (o.0, o.1.type_name)) (bundle_view bundle.now).objects) (type_use_view type_use.now) (json_view value.now)) }
    ensures written { IfOk result (λ d. IsWritten (view d)) }
{
    let datum = spelled_datum(alloc, type_use, value)?;
    let types = type_names(alloc, bundle.objects())?;
    match flaw_fault(flaws_of(&types, type_use, value)) {
        Some(fault) => Err(fault),
        None => Ok(datum),
    }
}

/// The datum that a value spells for a field of an object of a bundle, or its first fault.
pub(crate) fn given_datum(
    alloc: Global,
    bundle: &Bundle,
    types: &Types,
    object: &str,
    field: &str,
    value: &Value,
) -> Result<Datum, BundleFault>
    ensures exact { Gives BundleFault.Memory view result
        (datum_given (types_view types.now) (bundle_view bundle.now) object.now field.now (json_view value.now)) }
    ensures written { IfOk result (λ d. IsWritten (view d)) }
{
    let Some(found) = bundle.object(object) else {
        return Err(BundleFault::NoObject);
    };
    let Some(type_use) = use_of(types, found.type_name(), field) else {
        return Err(BundleFault::UnknownField);
    };
    datum_in_use(alloc, bundle, type_use, value)
}
