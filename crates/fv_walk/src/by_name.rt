//! What fails in a bundle, by a request for groups by their names.
ghost use Rattle.std.specs.Prelude.{◌≡◌, ◌≢◌, ◌<◌, ◌≤◌, ◌↔◌, All, true, false, length, map, option_map, string_bytes, IfOk, IfErr, IfSome, OnOk};
ghost use Rattle.fv_datum.specs.Members.{each_some};
ghost use Rattle.fv_datum.specs.Moments.{IsMoment};
ghost use Rattle.fv_graph.specs.Graph.{IsIn};
ghost use Rattle.fv_declare_schema.specs.Groups.{group_number, numbers_of};
ghost use Rattle.fv_declare_schema.specs.Judged.{unknown_group_in};
ghost use Rattle.fv_declare_schema.specs.Tables.{indices};
ghost use Rattle.fv_bundle.specs.Views.{bundle_view};
ghost use Rattle.fv_bundle.specs.WellTyped.{IsWellTyped};
ghost use Rattle.fv_local.specs.Requests.{request_of, unjudged};
ghost use Rattle.fv_walk_traces.specs.Finite.{AreSoMany};
ghost use Rattle.fv_walk_traces.specs.Traces.{IsEntered, IsVisit};
ghost use Rattle.fv_walk_traces.specs.Violations.{Violation, IsViolation};
ghost use Rattle.fv_walk.specs.FailureView.{failure_view};
ghost use Rattle.fv_walk.specs.Visits.{HasFewVisits, HasTooManyVisits};
ghost use Rattle.fv_walk.specs.declared.fault.WalkFault.{WalkFault};

use crate::failure::Failure;
use crate::fault::WalkFault;
use crate::walking::Walked;
use crate::{counting, walking};
use fv_bundle::Bundle;
use fv_declare_schema::{GroupId, Groups, Schema};
use fv_local::Rulebook;
use fv_registry::RuleSet;
use std::alloc::{AllocError, Global};

/// The groups of these names, in order; none where one of them isn't declared.
fn find_groups(
    alloc: Global,
    groups: &Groups,
    names: &[String],
) -> Result<Option<Vec<GroupId>>, AllocError>
    ensures numbers { IfOk result (λ o. option_map (λ v. indices v.items) o
        ≡ each_some (group_number groups.now) (map string_bytes names.now)) }
    ensures within { IfOk result (λ o. IfSome o (λ v. All (λ g. g.index < length groups.now) v.items)) }
{
    let mut found = Vec::with_capacity(alloc, names.len())?;
    for name in names {
        match groups.find(name.as_str()) {
            None => return Ok(None),
            Some(group) => found.push(group)?,
        }
    }
    Ok(Some(found))
}

/// The groups of these names, in order.
///
/// Refused by `UnknownGroup` where one of them isn't declared; `Memory` at any place.
pub fn groups_named(
    alloc: Global,
    groups: &Groups,
    names: &[String],
) -> Result<Vec<GroupId>, WalkFault>
    ensures numbers { IfOk result (λ v. indices v.items ≡ numbers_of groups.now (map string_bytes names.now)) }
    ensures known { OnOk result (unknown_group_in groups.now (map string_bytes names.now) ≡ false) }
    ensures within { IfOk result (λ v. All (λ g. g.index < length groups.now) v.items) }
    ensures unknown { IfErr result (λ fault. fault ≡ WalkFault.UnknownGroup → unknown_group_in groups.now (map string_bytes names.now) ≡ true) }
    ensures few { IfErr result (λ fault. fault ≢ WalkFault.TooManyVisits) }
{
    match find_groups(alloc, groups, names)? {
        Some(found) => Ok(found),
        None => Err(WalkFault::UnknownGroup),
    }
}

/// How many visits a request for the groups of these names has in a bundle, where they are at most
/// 4,096. Where no group is asked for, `Default` is; one that is asked for twice counts once.
///
/// A visit is an arrival at an object along one way from the root, for one of the groups that are
/// carried there one after the other; what fails doesn't matter. None are counted in a bundle that
/// isn't well-typed by the declarations.
///
/// Refused by `UnknownGroup` where a group isn't declared, else by `TooManyVisits` for more than 4,096;
/// `Memory` at any place.
pub fn visits(
    alloc: Global,
    schema: &Schema,
    bundle: &Bundle,
    asked: &[String],
) -> Result<usize, WalkFault>
    ensures few { IfOk result (λ n. IsWellTyped schema.now.types (bundle_view bundle.now)
        → AreSoMany (IsVisit (unjudged schema.now (bundle_view bundle.now) (numbers_of schema.now.groups (map string_bytes asked.now)))) n × (n ≤ 4096)) }
    ensures known { OnOk result (unknown_group_in schema.now.groups (map string_bytes asked.now) ≡ false) }
    ensures unknown { IfErr result (λ fault. fault ≡ WalkFault.UnknownGroup → unknown_group_in schema.now.groups (map string_bytes asked.now) ≡ true) }
    ensures many { IfErr result (λ fault. fault ≡ WalkFault.TooManyVisits
        → (unknown_group_in schema.now.groups (map string_bytes asked.now) ≡ false)
        × HasTooManyVisits schema.now (bundle_view bundle.now) (numbers_of schema.now.groups (map string_bytes asked.now))) }
{
    let asked = groups_named(alloc, schema.groups(), asked)?;
    counting::visits(alloc, schema, bundle, &asked)
}

/// The failures of a bundle by a request for the groups of these names at a moment, in whole seconds
/// since 1970-01-01T00:00:00Z, and the number of visits that were entered. Where no group is asked for,
/// `Default` is; one that is asked for twice counts once.
///
/// The objects that the root reaches through valid references are judged along each way to them on
/// which no object stands twice. A sequence of groups is processed group by group over all that is
/// reached from where it was asked for or converted to, and ends behind the first group in which
/// something fails there. Nothing is told of a bundle that isn't well-typed by the declarations, which
/// `Bundle::is_well_typed` tells.
///
/// Refused by `UnknownGroup` where a group isn't declared, else by `TooManyVisits` for more than 4,096
/// visits, before any validator is asked; `Memory` at any place.
pub fn walk_counted<R: RuleSet>(
    alloc: Global,
    rulebook: &Rulebook<R>,
    bundle: &Bundle,
    asked: &[String],
    now: i64,
) -> Result<Walked, WalkFault>
    requires { IsMoment now }
    ensures violations { IfOk result (λ w. IsWellTyped rulebook.now.types (bundle_view bundle.now)
        → (v : Violation) → IsIn (map failure_view w.failures.items) v
        ↔ IsViolation (request_of R.meaning rulebook.now now (bundle_view bundle.now) (numbers_of rulebook.now.groups (map string_bytes asked.now))) v) }
    ensures entered { IfOk result (λ w. IsWellTyped rulebook.now.types (bundle_view bundle.now)
        → AreSoMany (IsEntered (request_of R.meaning rulebook.now now (bundle_view bundle.now) (numbers_of rulebook.now.groups (map string_bytes asked.now)))) w.entered) }
    ensures few { OnOk result (IsWellTyped rulebook.now.types (bundle_view bundle.now)
        → HasFewVisits rulebook.now (bundle_view bundle.now) (numbers_of rulebook.now.groups (map string_bytes asked.now))) }
    ensures known { OnOk result (unknown_group_in rulebook.now.groups (map string_bytes asked.now) ≡ false) }
    ensures unknown { IfErr result (λ fault. fault ≡ WalkFault.UnknownGroup → unknown_group_in rulebook.now.groups (map string_bytes asked.now) ≡ true) }
    ensures many { IfErr result (λ fault. fault ≡ WalkFault.TooManyVisits
        → (unknown_group_in rulebook.now.groups (map string_bytes asked.now) ≡ false)
        × HasTooManyVisits rulebook.now (bundle_view bundle.now) (numbers_of rulebook.now.groups (map string_bytes asked.now))) }
{
    let asked = groups_named(alloc, rulebook.schema().groups(), asked)?;
    walking::walk_counted(alloc, rulebook, bundle, &asked, now)
}

/// The failures that `walk_counted` gives.
pub fn walk<R: RuleSet>(
    alloc: Global,
    rulebook: &Rulebook<R>,
    bundle: &Bundle,
    asked: &[String],
    now: i64,
) -> Result<Vec<Failure>, WalkFault>
    requires { IsMoment now }
    ensures violations { IfOk result (λ found. IsWellTyped rulebook.now.types (bundle_view bundle.now)
        → (v : Violation) → IsIn (map failure_view found.items) v
        ↔ IsViolation (request_of R.meaning rulebook.now now (bundle_view bundle.now) (numbers_of rulebook.now.groups (map string_bytes asked.now))) v) }
    ensures few { OnOk result (IsWellTyped rulebook.now.types (bundle_view bundle.now)
        → HasFewVisits rulebook.now (bundle_view bundle.now) (numbers_of rulebook.now.groups (map string_bytes asked.now))) }
    ensures known { OnOk result (unknown_group_in rulebook.now.groups (map string_bytes asked.now) ≡ false) }
    ensures unknown { IfErr result (λ fault. fault ≡ WalkFault.UnknownGroup → unknown_group_in rulebook.now.groups (map string_bytes asked.now) ≡ true) }
    ensures many { IfErr result (λ fault. fault ≡ WalkFault.TooManyVisits
        → (unknown_group_in rulebook.now.groups (map string_bytes asked.now) ≡ false)
        × HasTooManyVisits rulebook.now (bundle_view bundle.now) (numbers_of rulebook.now.groups (map string_bytes asked.now))) }
{
    Ok(walk_counted(alloc, rulebook, bundle, asked, now)?.failures)
}
