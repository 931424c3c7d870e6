//! What fails in a field of an object, for the groups that are asked for.
ghost use Rattle.std.specs.Prelude.{◌≡◌, ◌<◌, ◌↔◌, All, IsTrue, None, true, map, length, is_some, IfOk, IfErr, OnOk};
ghost use Rattle.fv_datum.specs.Moments.{IsMoment};
ghost use Rattle.fv_declare_schema.specs.Ordered.{AreOrdered};
ghost use Rattle.fv_graph.specs.Graph.{IsIn};
ghost use Rattle.fv_declare_schema.specs.Groups.{ranks};
ghost use Rattle.fv_declare_schema.specs.Tables.{indices};
ghost use Rattle.fv_local.specs.FailureView.{IsFoundIn};
ghost use Rattle.fv_local.specs.FailureView as local;
ghost use Rattle.fv_bundle.specs.Views.{types_view, object_view};
ghost use Rattle.fv_walk.specs.Apart.{AreApart};
ghost use Rattle.fv_walk.specs.Properties.{field_number, IsViolationIn};
ghost use Rattle.fv_walk.specs.Ranks.{FailsFirst, FailsIn, IsToldFor, count_ranks};
ghost use Rattle.fv_bundle.specs.WellTyped.{IsOfType};
ghost use Rattle.fv_walk.specs.FieldVisits.{HasFewVisitsAt, HasTooManyVisitsAt};
ghost use Rattle.fv_walk.specs.declared.property_fault.PropertyFault.{PropertyFault};
ghost use Rattle.fv_local.specs.Sound.{IsSound};
ghost use Rattle.fv_walk_traces.specs.Turns as turn;
ghost use Rattle.fv_walk_traces.specs.Violations.{Violation};
ghost use Rattle.fv_walk.specs.FailureView.{failure_view};

use crate::failure::Failure;
use crate::field_telling::add_failures;
use crate::property_fault::PropertyFault;
use fv_bundle::{Object, Types};
use fv_declare_schema::{GroupId, Groups, Schema};
use fv_local::{LocalFailure, Rulebook, distinct_or_default};
use fv_registry::RuleSet;
use std::alloc::{AllocError, Global};

/// The most visits that a request may have.
const MOST_VISITS: usize = 4096;

/// The number of the field of that name in an object's type.
fn field_number(types: &Types, object: &Object, field: &str) -> Option<usize>
    ensures { result ≡ field_number (types_view types.now) (object_view object.now).type_name field.now }
{
    types.fields(object.type_name())?.get_index_of(field)
}

/// Whether asking for these groups makes more visits than there may be: there is one for each rank.
fn are_too_many(groups: &Groups, asked: &[GroupId]) -> bool
    requires { All (λ g. g.index < length groups.now) asked.now }
    ensures { IsTrue result ↔ (4096 < count_ranks groups.now (indices asked.now)) }
{
    let mut count = 0;
    for group in asked {
        count += groups.ranks(*group).len();
        if count > MOST_VISITS {
            return true;
        }
    }
    false
}

/// What fails in a field in the first of a group's ranks in which anything does; a plain group is its
/// own rank.
fn first_failures<'a, R: RuleSet>(
    alloc: Global,
    rulebook: &'a Rulebook<R>,
    object: &'a Object,
    field: usize,
    group: GroupId,
    now: i64,
) -> Result<Vec<LocalFailure<'a>>, AllocError>
    requires moment { IsMoment now }
    requires group { group.index < length rulebook.now.groups }
    ensures exact { IfOk result (λ v. (f : turn.LocalFailure) → IsIn (map local.failure_view v.items) f
        ↔ FailsFirst (FailsIn R.meaning rulebook.now now (object_view object.now) field) (ranks rulebook.now.groups group.index) f) }
    ensures found { IfOk result (λ v. All (λ f. IsFoundIn (object_view object.now) f.spot) v.items) }
{
    for rank in rulebook.schema().groups().ranks(group) {
        let failures = rulebook.local_of_field(alloc, object, *rank, field, now)?;
        if !failures.is_empty() {
            return Ok(failures);
        }
    }
    Ok(Vec::new(alloc))
}

/// What fails in a field for these groups.
fn gather<'a, R: RuleSet>(
    alloc: Global,
    rulebook: &'a Rulebook<R>,
    object: &'a Object,
    field: usize,
    asked: &[GroupId],
    now: i64,
) -> Result<Vec<Failure>, AllocError>
    requires moment { IsMoment now }
    requires sound { IsSound (object_view object.now) }
    requires asked { All (λ g. g.index < length rulebook.now.groups) asked.now }
    ensures { IfOk result (λ found. (v : Violation) → IsIn (map failure_view found.items) v
        ↔ IsToldFor R.meaning rulebook.now now (object_view object.now) field (indices asked.now) v) }
{
    let mut failures = Vec::new(alloc);
    for group in asked {
        let found = first_failures(alloc, rulebook, object, field, *group, now)?;
        add_failures(alloc, &mut failures, object, &found)?;
    }
    Ok(failures)
}

/// The declarations are in order: a law, which a caller's proof may cite.
fn is_ordered(schema: &Schema)
    ensures { AreOrdered schema.now }
{
    schema.occurrences();
}

/// What fails in the field of that name of an object, at the field and inside it, for the groups that
/// are asked for at a moment, in whole seconds since 1970-01-01T00:00:00Z; paths begin at the field.
/// Where no group is asked for, `Default` is; one that is asked for twice counts once. A sequence of
/// groups ends behind the first in which something fails in this field, whatever fails elsewhere.
/// Nothing is followed from the field, and a reference in the object may be any name.
///
/// Nothing is told of an object that isn't of a declared type, which `Object::is_of_type` tells.
///
/// Refused by `NoSuchField` where the object's type has no such field, else by `TooManyVisits` for
/// more than 4,096 ranks of the groups that are asked for, before any validator is asked; `Memory` at
/// any place.
pub fn failures_of_field<R: RuleSet>(
    alloc: Global,
    rulebook: &Rulebook<R>,
    object: &Object,
    field: &str,
    asked: &[GroupId],
    now: i64,
) -> Result<Vec<Failure>, PropertyFault>
    requires moment { IsMoment now }
    requires asked { All (λ g. g.index < length rulebook.now.groups) asked.now }
    ensures violations { IfOk result (λ found. IsOfType rulebook.now.types (object_view object.now)
        → (v : Violation) → IsIn (map failure_view found.items) v
        ↔ IsViolationIn R.meaning rulebook.now now (object_view object.now) field.now (indices asked.now) v) }
    ensures apart { IfOk result (λ found. AreApart (map failure_view found.items)) }
    ensures there { OnOk result (is_some (field_number rulebook.now.types (object_view object.now).type_name field.now) ≡ true) }
    ensures few { OnOk result (HasFewVisitsAt rulebook.now (object_view object.now) (indices asked.now)) }
    ensures absent { IfErr result (λ fault. fault ≡ PropertyFault.NoSuchField
        → field_number rulebook.now.types (object_view object.now).type_name field.now ≡ None) }
    ensures many { IfErr result (λ fault. fault ≡ PropertyFault.TooManyVisits
        → (is_some (field_number rulebook.now.types (object_view object.now).type_name field.now) ≡ true)
        × HasTooManyVisitsAt rulebook.now (object_view object.now) (indices asked.now)) }
{
    let schema = rulebook.schema();
    is_ordered(schema);
    let Some(number) = field_number(schema.types(), object, field) else {
        return Err(PropertyFault::NoSuchField);
    };
    let asked = distinct_or_default(alloc, asked)?;
    if are_too_many(schema.groups(), &asked) {
        return Err(PropertyFault::TooManyVisits);
    }
    if !object.is_of_type(schema.types()) {
        return Ok(Vec::new(alloc));
    }
    Ok(gather(alloc, rulebook, object, number, &asked, now)?)
}
