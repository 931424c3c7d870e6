ghost use Rattle.std.specs.Prelude.{◌≡◌, ℕ, List, OnErr};
ghost use Rattle.serde_json.specs.View.{view as json_view};
ghost use Rattle.fv_datum.specs.Outcomes.{Gives};
ghost use Rattle.fv_model.specs.Views.{types_view, bundle_view};
ghost use Rattle.fv_bundle.specs.WellTyped.{IsWellTyped, HasRootType};
ghost use Rattle.fv_model.specs.Setting.{bundle_set};

use crate::fault::BundleFault;
use crate::given_datum::given_datum;
use fv_bundle::{Bundle, Types};
use serde_json::Value;
use std::alloc::Global;

/// Changes one datum of a bundle: the one in a field of the object of that name is what a JSON value
/// spells for the field, null where the value is `null`.
///
/// A well-typed bundle is well-typed afterwards, and its root is of the same type.
/// Refused by the first of `UnknownField` (the object is there and its type doesn't have the field),
/// `WrongKind`, `DanglingRef`, `RefType`, `TooLarge` (all four of a field that is there) and `NoObject`
/// whose condition holds; `Memory` at any place. The bundle is as it was then.
pub fn set_field(
    alloc: Global,
    bundle: &mut Bundle,
    types: &Types,
    object: &str,
    field: &str,
    value: &Value,
) -> Result<(), BundleFault>
    ensures exact { Gives BundleFault.Memory (λ _. bundle_view bundle.new) result
        (bundle_set (types_view types.now) (bundle_view bundle.old) object.now field.now (json_view value.now)) }
    ensures unchanged { OnErr result (bundle.new ≡ bundle.old) }
    ensures well_typed { IsWellTyped (types_view types.now) (bundle_view bundle.old)
        → IsWellTyped (types_view types.now) (bundle_view bundle.new) }
    ensures root { (type : List ℕ) → HasRootType type (bundle_view bundle.old)
        → HasRootType type (bundle_view bundle.new) }
{
    let datum = given_datum(alloc, bundle, types, object, field, value)?;
    bundle.put(object, field, datum);
    Ok(())
}
