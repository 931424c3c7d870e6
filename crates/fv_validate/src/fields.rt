//! The violations in one field of an object.
ghost use Rattle.std.specs.Prelude.{◌≡◌, ◌≢◌, ◌<◌, All, None, true, map, length, is_some, IfOk, IfErr, OnOk};
ghost use Rattle.fv_datum.specs.Moments.{IsMoment};
ghost use Rattle.fv_datum.specs.View.{view};
ghost use Rattle.fv_declare_schema.specs.Tables.{indices};
ghost use Rattle.fv_bundle.specs.Views.{object_view};
ghost use Rattle.fv_bundle.specs.WellTyped.{IsOfType};
ghost use Rattle.fv_walk.specs.Properties.{field_number};
ghost use Rattle.fv_walk.specs.FieldVisits.{HasFewVisitsAt, HasTooManyVisitsAt};
ghost use Rattle.fv_validate.specs.Values.{FitsField, valued};
ghost use Rattle.fv_validate.specs.ViolationView.{violation_view};
ghost use Rattle.fv_validate.specs.Violations.{IsListingOfField};
ghost use Rattle.fv_validate.specs.declared.fault.ValidateFault.{ValidateFault};

use crate::fault::ValidateFault;
use crate::validating::{Violation, listing_of};
use fv_bundle::Object;
use fv_datum::Datum;
use fv_declare_schema::GroupId;
use fv_local::Rulebook;
use fv_model::single;
use fv_registry::RuleSet;
use fv_walk::by_id::failures_of_field;
use std::alloc::Global;

/// The violations in the field of that name of an object at a moment, in whole seconds since
/// 1970-01-01T00:00:00Z, for the groups that are asked for: of the constraints at the field and inside
/// it, each once, ascending by the bytes of the path, which begins at the field, then by the number of
/// the constraint. Where no group is asked for, `Default` is. A sequence of groups ends behind the
/// first in which something fails in this field, whatever fails elsewhere. Objects that the field
/// refers to aren't validated, and references may be any names.
///
/// Nothing is told of an object that isn't of a declared type, which `Object::is_of_type` tells.
///
/// Refused by `NoSuchField` where the object's type has no such field, else by `TooManyVisits` for
/// more than 4,096 ranks of the groups that are asked for, before any validator is asked; `Memory` at
/// any place.
pub fn validate_property<R: RuleSet>(
    alloc: Global,
    rulebook: &Rulebook<R>,
    object: &Object,
    field: &str,
    asked: &[GroupId],
    now: i64,
) -> Result<Vec<Violation>, ValidateFault>
    requires moment { IsMoment now }
    requires asked { All (λ g. g.index < length rulebook.now.groups) asked.now }
    ensures listing { IfOk result (λ v. IsOfType rulebook.now.types (object_view object.now)
        → IsListingOfField R.meaning rulebook.now now (object_view object.now) field.now (indices asked.now) (map violation_view v.items)) }
    // What is judged twice at one moment is judged alike.
    ensures alike { IfOk result (λ v. IsOfType rulebook.now.types (object_view object.now)
        → (vs : _) → IsListingOfField R.meaning rulebook.now now (object_view object.now) field.now (indices asked.now) vs
        → vs ≡ map violation_view v.items) }
    ensures there { OnOk result (is_some (field_number rulebook.now.types (object_view object.now).type_name field.now) ≡ true) }
    ensures few { OnOk result (HasFewVisitsAt rulebook.now (object_view object.now) (indices asked.now)) }
    ensures absent { IfErr result (λ fault. fault ≡ ValidateFault.NoSuchField
        → field_number rulebook.now.types (object_view object.now).type_name field.now ≡ None) }
    ensures many { IfErr result (λ fault. fault ≡ ValidateFault.TooManyVisits
        → (is_some (field_number rulebook.now.types (object_view object.now).type_name field.now) ≡ true)
        × HasTooManyVisitsAt rulebook.now (object_view object.now) (indices asked.now)) }
    ensures known { IfErr result (λ fault. fault ≢ ValidateFault.UnknownGroup) }
{
    let failures = failures_of_field(alloc, rulebook, object, field, asked, now)?;
    let schema = rulebook.schema();
    Ok(listing_of(alloc, schema.occurrences(), schema.messages(), failures)?)
}

/// The violations in the field of that name of an object of a type, where this datum stands in the
/// field and null in the others. All else is as for `validate_property`: the datum is null or of what
/// the field holds, within the limits, and a reference in it may be any name; for another datum nothing
/// is told.
///
/// Refused by `NoSuchField` where the type isn't declared or has no such field, else by
/// `TooManyVisits` for more than 4,096 ranks of the groups that are asked for, before any validator is
/// asked; `Memory` at any place.
pub fn validate_value<R: RuleSet>(
    alloc: Global,
    rulebook: &Rulebook<R>,
    type_name: &str,
    field: &str,
    datum: &Datum,
    asked: &[GroupId],
    now: i64,
) -> Result<Vec<Violation>, ValidateFault>
    requires moment { IsMoment now }
    requires asked { All (λ g. g.index < length rulebook.now.groups) asked.now }
    ensures listing { IfOk result (λ v. FitsField rulebook.now.types type_name.now field.now (view datum.now)
        → IsListingOfField R.meaning rulebook.now now (valued rulebook.now.types type_name.now field.now (view datum.now)) field.now
        (indices asked.now) (map violation_view v.items)) }
    // What is judged twice at one moment is judged alike.
    ensures alike { IfOk result (λ v. FitsField rulebook.now.types type_name.now field.now (view datum.now)
        → (vs : _) → IsListingOfField R.meaning rulebook.now now
        (valued rulebook.now.types type_name.now field.now (view datum.now)) field.now (indices asked.now) vs
        → vs ≡ map violation_view v.items) }
    ensures there { OnOk result (is_some (field_number rulebook.now.types type_name.now field.now) ≡ true) }
    ensures few { OnOk result (HasFewVisitsAt rulebook.now (valued rulebook.now.types type_name.now field.now (view datum.now)) (indices asked.now)) }
    ensures absent { IfErr result (λ fault. fault ≡ ValidateFault.NoSuchField → field_number rulebook.now.types type_name.now field.now ≡ None) }
    ensures many { IfErr result (λ fault. fault ≡ ValidateFault.TooManyVisits
        → (is_some (field_number rulebook.now.types type_name.now field.now) ≡ true)
        × HasTooManyVisitsAt rulebook.now (valued rulebook.now.types type_name.now field.now (view datum.now)) (indices asked.now)) }
    ensures known { IfErr result (λ fault. fault ≢ ValidateFault.UnknownGroup) }
{
    let types = rulebook.schema().types();
    let Some((type_id, _)) = types.find_with_fields(type_name) else {
        return Err(ValidateFault::NoSuchField);
    };
    let Some(object) = single(alloc, types, type_id, field, datum)? else {
        return Err(ValidateFault::NoSuchField);
    };
    validate_property(alloc, rulebook, &object, field, asked, now)
}
