//! The violations of a bundle, or in one field, for groups by their names.
ghost use Rattle.std.specs.Prelude.{◌≡◌, ◌≢◌, None, true, false, is_some, map, string_bytes, IfOk, IfErr, OnOk};
ghost use Rattle.fv_datum.specs.Moments.{IsMoment};
ghost use Rattle.fv_datum.specs.View.{view};
ghost use Rattle.fv_declare_schema.specs.Groups.{numbers_of};
ghost use Rattle.fv_declare_schema.specs.Judged.{unknown_group_in};
ghost use Rattle.fv_bundle.specs.Views.{object_view, bundle_view};
ghost use Rattle.fv_bundle.specs.WellTyped.{IsOfType, IsWellTyped};
ghost use Rattle.fv_validate.specs.Values.{FitsField, valued};
ghost use Rattle.fv_validate.specs.ViolationView.{violation_view};
ghost use Rattle.fv_validate.specs.Violations.{IsListing, IsListingOfField};
ghost use Rattle.fv_validate.specs.declared.fault.ValidateFault.{ValidateFault};
ghost use Rattle.fv_walk.specs.FieldVisits.{HasFewVisitsAt, HasTooManyVisitsAt};
ghost use Rattle.fv_walk.specs.Properties.{field_number};
ghost use Rattle.fv_walk.specs.Visits.{HasFewVisits, HasTooManyVisits};

use crate::fault::ValidateFault;
use crate::validating::Violation;
use crate::{fields, validating};
use fv_bundle::{Bundle, Object};
use fv_datum::Datum;
use fv_local::Rulebook;
use fv_registry::RuleSet;
use fv_walk::groups_named;
use std::alloc::Global;

/// The violations of a bundle at a moment, in whole seconds since 1970-01-01T00:00:00Z, for the
/// groups of these names: each once, ascending by the bytes of the path, then by the number of the
/// constraint. The objects that the root reaches through valid references are validated, along each way
/// to them on which no object stands twice. Where no group is asked for, `Default` is. Nothing is told
/// of a bundle that isn't well-typed by the declarations, which `Bundle::is_well_typed` tells.
///
/// Refused by `UnknownGroup` where a group isn't declared, else by `TooManyVisits` for more than 4,096
/// visits, before any validator is asked; `Memory` at any place.
pub fn validate<R: RuleSet>(
    alloc: Global,
    rulebook: &Rulebook<R>,
    bundle: &Bundle,
    asked: &[String],
    now: i64,
) -> Result<Vec<Violation>, ValidateFault>
    requires { IsMoment now }
    ensures listing { IfOk result (λ v. IsWellTyped rulebook.now.types (bundle_view bundle.now)
        → IsListing R.meaning rulebook.now now (bundle_view bundle.now) (numbers_of rulebook.now.groups (map string_bytes asked.now)) (map violation_view v.items)) }
    ensures few { OnOk result (IsWellTyped rulebook.now.types (bundle_view bundle.now)
        → HasFewVisits rulebook.now (bundle_view bundle.now) (numbers_of rulebook.now.groups (map string_bytes asked.now))) }
    ensures known { OnOk result (unknown_group_in rulebook.now.groups (map string_bytes asked.now) ≡ false) }
    ensures unknown { IfErr result (λ fault. fault ≡ ValidateFault.UnknownGroup → unknown_group_in rulebook.now.groups (map string_bytes asked.now) ≡ true) }
    ensures many { IfErr result (λ fault. fault ≡ ValidateFault.TooManyVisits
        → (unknown_group_in rulebook.now.groups (map string_bytes asked.now) ≡ false)
        × HasTooManyVisits rulebook.now (bundle_view bundle.now) (numbers_of rulebook.now.groups (map string_bytes asked.now))) }
    ensures no_field { IfErr result (λ fault. fault ≢ ValidateFault.NoSuchField) }
{
    let schema = rulebook.schema();
    let asked = groups_named(alloc, schema.groups(), asked)?;
    if !bundle.is_well_typed(schema.types()) {
        return Ok(Vec::new(alloc));
    }
    validating::validate(alloc, rulebook, bundle, &asked, now)
}

/// The violations in the field of that name of an object at a moment, in whole seconds since
/// 1970-01-01T00:00:00Z, for the groups of these names: of the constraints at the field and inside it,
/// each once, ascending by the bytes of the path, which begins at the field, then by the number of the
/// constraint. Where no group is asked for, `Default` is. A sequence of groups ends behind the first in
/// which something fails in this field, whatever fails elsewhere. Objects that the field refers to
/// aren't validated, and references may be any names. Nothing is told of an object that isn't of a
/// declared type, which `Object::is_of_type` tells.
///
/// Refused by `UnknownGroup` where a group isn't declared, else by `NoSuchField` where the object's type
/// has no such field, else by `TooManyVisits` for more than 4,096 ranks of the groups that are asked
/// for, before any validator is asked; `Memory` at any place.
pub fn validate_property<R: RuleSet>(
    alloc: Global,
    rulebook: &Rulebook<R>,
    object: &Object,
    field: &str,
    asked: &[String],
    now: i64,
) -> Result<Vec<Violation>, ValidateFault>
    requires { IsMoment now }
    ensures listing { IfOk result (λ v. IsOfType rulebook.now.types (object_view object.now)
        → IsListingOfField R.meaning rulebook.now now (object_view object.now) field.now (numbers_of rulebook.now.groups (map string_bytes asked.now)) (map violation_view v.items)) }
    ensures few { OnOk result (HasFewVisitsAt rulebook.now (object_view object.now) (numbers_of rulebook.now.groups (map string_bytes asked.now))) }
    ensures known { OnOk result (unknown_group_in rulebook.now.groups (map string_bytes asked.now) ≡ false) }
    ensures there { OnOk result (is_some (field_number rulebook.now.types (object_view object.now).type_name field.now) ≡ true) }
    ensures unknown { IfErr result (λ fault. fault ≡ ValidateFault.UnknownGroup → unknown_group_in rulebook.now.groups (map string_bytes asked.now) ≡ true) }
    ensures absent { IfErr result (λ fault. fault ≡ ValidateFault.NoSuchField
        → (unknown_group_in rulebook.now.groups (map string_bytes asked.now) ≡ false)
        × (field_number rulebook.now.types (object_view object.now).type_name field.now ≡ None)) }
    ensures many { IfErr result (λ fault. fault ≡ ValidateFault.TooManyVisits
        → (unknown_group_in rulebook.now.groups (map string_bytes asked.now) ≡ false)
        × (is_some (field_number rulebook.now.types (object_view object.now).type_name field.now) ≡ true)
        × HasTooManyVisitsAt rulebook.now (object_view object.now) (numbers_of rulebook.now.groups (map string_bytes asked.now))) }
{
    let asked = groups_named(alloc, rulebook.schema().groups(), asked)?;
    fields::validate_property(alloc, rulebook, object, field, &asked, now)
}

/// The violations in the field of that name of an object of a type, where this datum stands in the
/// field and null in the others. All else is as for `validate_property`: the datum is null or of what
/// the field holds, within the limits, and a reference in it may be any name; for another datum nothing
/// is told.
///
/// Refused by `UnknownGroup` where a group isn't declared, else by `NoSuchField` where the type isn't
/// declared or has no such field, else by `TooManyVisits` for more than 4,096 ranks of the groups that
/// are asked for, before any validator is asked; `Memory` at any place.
pub fn validate_value<R: RuleSet>(
    alloc: Global,
    rulebook: &Rulebook<R>,
    type_name: &str,
    field: &str,
    datum: &Datum,
    asked: &[String],
    now: i64,
) -> Result<Vec<Violation>, ValidateFault>
    requires { IsMoment now }
    ensures listing { IfOk result (λ v. FitsField rulebook.now.types type_name.now field.now (view datum.now)
        → IsListingOfField R.meaning rulebook.now now (valued rulebook.now.types type_name.now field.now (view datum.now)) field.now
        (numbers_of rulebook.now.groups (map string_bytes asked.now)) (map violation_view v.items)) }
    ensures few { OnOk result (HasFewVisitsAt rulebook.now (valued rulebook.now.types type_name.now field.now (view datum.now)) (numbers_of rulebook.now.groups (map string_bytes asked.now))) }
    ensures known { OnOk result (unknown_group_in rulebook.now.groups (map string_bytes asked.now) ≡ false) }
    ensures there { OnOk result (is_some (field_number rulebook.now.types type_name.now field.now) ≡ true) }
    ensures unknown { IfErr result (λ fault. fault ≡ ValidateFault.UnknownGroup → unknown_group_in rulebook.now.groups (map string_bytes asked.now) ≡ true) }
    ensures absent { IfErr result (λ fault. fault ≡ ValidateFault.NoSuchField
        → (unknown_group_in rulebook.now.groups (map string_bytes asked.now) ≡ false) × (field_number rulebook.now.types type_name.now field.now ≡ None)) }
    ensures many { IfErr result (λ fault. fault ≡ ValidateFault.TooManyVisits
        → (unknown_group_in rulebook.now.groups (map string_bytes asked.now) ≡ false)
        × (is_some (field_number rulebook.now.types type_name.now field.now) ≡ true)
        × HasTooManyVisitsAt rulebook.now (valued rulebook.now.types type_name.now field.now (view datum.now)) (numbers_of rulebook.now.groups (map string_bytes asked.now))) }
{
    let asked = groups_named(alloc, rulebook.schema().groups(), asked)?;
    fields::validate_value(alloc, rulebook, type_name, field, datum, &asked, now)
}
