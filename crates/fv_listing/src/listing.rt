//! The failures of a bundle.
ghost use Rattle.std.specs.Prelude.{◌≡◌, ◌<◌, ◌↔◌, All, IsTrue, length, map, IfOk, OnOk};
ghost use Rattle.fv_datum.specs.Moments.{IsMoment};
ghost use Rattle.fv_datum.specs.View.{view};
ghost use Rattle.fv_graph.specs.Graph.{IsIn};
ghost use Rattle.fv_declare_schema.specs.Tables.{indices};
ghost use Rattle.fv_local.specs.FailureView as local;
ghost use Rattle.fv_bundle.specs.Views.{bundle_view};
ghost use Rattle.fv_bundle.specs.WellTyped.{IsWellTyped};
ghost use Rattle.fv_local.specs.Requests.{object_at, request_of};
ghost use Rattle.fv_walk_traces.specs.Listing.{violation_at};
ghost use Rattle.fv_walk_traces.specs.Violations.{Violation, IsViolation, value_at};
ghost use Rattle.fv_walk.specs.FailureView.{failure_view};
ghost use Rattle.fv_listing.specs.Arrivals.{IsArrival};
ghost use Rattle.fv_listing.specs.Courses.{IsSound, visiting, judging, bundle_in, objects_in, groups_in};
ghost use Rattle.fv_listing.specs.Listed.{AreLocal, IsFailingAt, AddsFailing, AreFailing, IsHidden, Tells, AreTold, AreViolations};
ghost use Rattle.fv_listing.specs.Turns.{turns_view};
ghost use Rattle.fv_listing.specs.Visits.{visit_view, IsWithin};

use crate::course::Course;
use crate::path::{path_to, push_spot};
use crate::turn::{Turn, shadows};
use crate::visit::{Visit, all_visits};
use fv_bundle::Bundle;
use fv_datum::{Datum, Name};
use fv_declare_schema::GroupId;
use fv_local::{LocalFailure, ObjectGraph, Rulebook, Spot, distinct_or_default};
use fv_registry::RuleSet;
use fv_walk::Failure;
use std::alloc::{AllocError, Global};

/// What fails at the object of a visit in the group that is carried there.
fn local_at<'x, R: RuleSet>(
    alloc: Global,
    course: &'x Course,
    rulebook: &'x Rulebook<R>,
    visit: &Visit,
    now: i64,
) -> Result<Vec<LocalFailure<'x>>, AllocError>
    requires moment { IsMoment now }
    requires sound { IsSound course.now }
    requires same { rulebook.now ≡ course.now.schema.now }
    requires within { IsWithin (objects_in course.now) (groups_in course.now) visit.now }
    ensures exact { IfOk result (λ v. AreLocal (judging R.meaning now course.now) (visit_view visit.now) (map local.failure_view v.items)) }
    ensures found { IfOk result (λ v. All (λ f. local.IsFoundIn (object_at (bundle_in course.now) visit.now.object) f.spot) v.items) }
{
    let (_, object) = course.object(visit.object);
    let found = rulebook.local(alloc, object, visit.carried, now)?;
    Ok(found)
}

/// Whether something fails at a visit.
fn fails<R: RuleSet>(
    alloc: Global,
    course: &Course,
    rulebook: &Rulebook<R>,
    visit: &Visit,
    now: i64,
) -> Result<bool, AllocError>
    requires moment { IsMoment now }
    requires sound { IsSound course.now }
    requires same { rulebook.now ≡ course.now.schema.now }
    requires within { IsWithin (objects_in course.now) (groups_in course.now) visit.now }
    ensures { IfOk result (λ b. IsTrue b ↔ IsFailingAt (judging R.meaning now course.now) (visit_view visit.now)) }
{
    Ok(!local_at(alloc, course, rulebook, visit, now)?.is_empty())
}

/// Adds the turns of a visit, if something fails there.
fn add_failing<'a, 's, 'b, R: RuleSet>(
    alloc: Global,
    failing: &mut Vec<Vec<Turn<'a, 's, 'b>>>,
    course: &Course<'a, 's, 'b>,
    rulebook: &Rulebook<R>,
    visit: &Visit<'a, 's, 'b>,
    now: i64,
) -> Result<(), AllocError>
    requires moment { IsMoment now }
    requires sound { IsSound course.now }
    requires same { rulebook.now ≡ course.now.schema.now }
    requires within { IsWithin (objects_in course.now) (groups_in course.now) visit.now }
    ensures { OnOk result (AddsFailing (judging R.meaning now course.now) (visit_view visit.now)
        (map turns_view failing.old.items) (map turns_view failing.new.items)) }
{
    if !fails(alloc, course, rulebook, visit, now)? {
        return Ok(());
    }
    failing.push(visit.turns.to_vec(alloc)?)?;
    Ok(())
}

/// The turns of those of these visits at which something fails.
fn failing_turns<'a, 's, 'b, R: RuleSet>(
    alloc: Global,
    course: &Course<'a, 's, 'b>,
    rulebook: &Rulebook<R>,
    visits: &[Visit<'a, 's, 'b>],
    now: i64,
) -> Result<Vec<Vec<Turn<'a, 's, 'b>>>, AllocError>
    requires moment { IsMoment now }
    requires sound { IsSound course.now }
    requires same { rulebook.now ≡ course.now.schema.now }
    requires within { All (IsWithin (objects_in course.now) (groups_in course.now)) visits.now }
    ensures { IfOk result (λ v. AreFailing (judging R.meaning now course.now) (map visit_view visits.now) (map turns_view v.items)) }
{
    let mut failing = Vec::new(alloc);
    for visit in visits {
        add_failing(alloc, &mut failing, course, rulebook, visit, now)?;
    }
    Ok(failing)
}

/// Whether one of these lists of turns shadows those of a visit.
fn is_hidden(failing: &[Vec<Turn>], visit: &Visit) -> bool
    ensures { IsTrue result ↔ IsHidden (map turns_view failing.now) (visit_view visit.now).turns }
{
    for other in failing {
        if shadows(other, &visit.turns) {
            return true;
        }
    }
    false
}

/// The value that fails at an object: its name as a reference, or the datum of a part of it.
fn value_of(alloc: Global, course: &Course, object: usize, spot: &Spot) -> Result<Datum, AllocError>
    requires sound { IsSound course.now }
    requires object { object < objects_in course.now }
    requires found { local.IsFoundIn (object_at (bundle_in course.now) object) spot.now }
    ensures { IfOk result (λ d. view d ≡ value_at (visiting course.now) object (local.spot_view spot.now)) }
{
    match spot {
        Spot::Object => {
            let (name, _) = course.object(object);
            Ok(Datum::Ref(Name::new(String::from_str(alloc, name)?)))
        }
        Spot::Part(_, _, datum) => Ok(datum.copy(alloc)?),
    }
}

/// A failure at the object of a visit, as it is told of the bundle.
fn told(
    alloc: Global,
    course: &Course,
    visit: &Visit,
    failure: &LocalFailure,
) -> Result<Failure, AllocError>
    requires sound { IsSound course.now }
    requires arrival { IsArrival (visiting course.now) (visit_view visit.now) }
    requires object { visit.now.object < objects_in course.now }
    requires found { local.IsFoundIn (object_at (bundle_in course.now) visit.now.object) failure.now.spot }
    ensures { IfOk result (λ f. failure_view f
        ≡ violation_at (visiting course.now) (visit_view visit.now).turns (local.failure_view failure.now)) }
{
    let mut path = path_to(alloc, course, visit)?;
    push_spot(alloc, &mut path, course, visit.object, &failure.spot)?;
    let value = value_of(alloc, course, visit.object, &failure.spot)?;
    Ok(Failure {
        path,
        number: failure.number,
        value,
    })
}

/// Adds what fails at a visit.
fn tell<R: RuleSet>(
    alloc: Global,
    failures: &mut Vec<Failure>,
    course: &Course,
    rulebook: &Rulebook<R>,
    visit: &Visit,
    now: i64,
) -> Result<(), AllocError>
    requires moment { IsMoment now }
    requires sound { IsSound course.now }
    requires same { rulebook.now ≡ course.now.schema.now }
    requires within { IsWithin (objects_in course.now) (groups_in course.now) visit.now }
    requires arrival { IsArrival (visiting course.now) (visit_view visit.now) }
    ensures { OnOk result (Tells (judging R.meaning now course.now) (visit_view visit.now)
        (map failure_view failures.old.items) (map failure_view failures.new.items)) }
{
    let found = local_at(alloc, course, rulebook, visit, now)?;
    for failure in &found {
        failures.push(told(alloc, course, visit, failure)?)?;
    }
    Ok(())
}

/// What fails at the visits that none of these lists of turns shadows.
fn told_of<R: RuleSet>(
    alloc: Global,
    course: &Course,
    rulebook: &Rulebook<R>,
    failing: &[Vec<Turn>],
    visits: &[Visit],
    now: i64,
) -> Result<Vec<Failure>, AllocError>
    requires moment { IsMoment now }
    requires sound { IsSound course.now }
    requires same { rulebook.now ≡ course.now.schema.now }
    requires within { All (IsWithin (objects_in course.now) (groups_in course.now)) visits.now }
    requires arrivals { All (λ v. IsArrival (visiting course.now) (visit_view v)) visits.now }
    ensures { IfOk result (λ found. AreTold (judging R.meaning now course.now) (map turns_view failing.now)
        (map visit_view visits.now) (map failure_view found.items)) }
{
    let mut failures = Vec::new(alloc);
    for visit in visits {
        if !is_hidden(failing, visit) {
            tell(alloc, &mut failures, course, rulebook, visit, now)?;
        }
    }
    Ok(failures)
}

/// The failures of a course's request.
fn listed<R: RuleSet>(
    alloc: Global,
    course: &Course,
    rulebook: &Rulebook<R>,
    now: i64,
) -> Result<Vec<Failure>, AllocError>
    requires moment { IsMoment now }
    requires sound { IsSound course.now }
    requires same { rulebook.now ≡ course.now.schema.now }
    ensures { IfOk result (λ found. AreViolations (judging R.meaning now course.now) (map failure_view found.items)) }
{
    let visits = all_visits(alloc, course)?;
    let failing = failing_turns(alloc, course, rulebook, &visits, now)?;
    let found = told_of(alloc, course, rulebook, &failing, &visits, now)?;
    Ok(found)
}

/// The failures of a bundle by a request for these groups at a moment, in whole seconds since
/// 1970-01-01T00:00:00Z: what `fv_walk::walk` gives, in any order, found by a list of all visits.
/// Where no group is asked for, `Default` is; one that is asked for twice counts once.
///
/// Each visit is listed, and what fails at its object is told unless a visit at which something fails
/// shadows it: one whose turns are the same up to where both go on with a group of one sequence, and
/// this one with a later group. How many visits there are doesn't matter.
pub fn list_failures<R: RuleSet>(
    alloc: Global,
    rulebook: &Rulebook<R>,
    bundle: &Bundle,
    asked: &[GroupId],
    now: i64,
) -> Result<Vec<Failure>, AllocError>
    requires moment { IsMoment now }
    requires typed { IsWellTyped rulebook.now.types (bundle_view bundle.now) }
    requires asked { All (λ g. g.index < length rulebook.now.groups) asked.now }
    ensures { IfOk result (λ found. (v : Violation) → IsIn (map failure_view found.items) v
        ↔ IsViolation (request_of R.meaning rulebook.now now (bundle_view bundle.now) (indices asked.now)) v) }
{
    let asked = distinct_or_default(alloc, asked)?;
    let schema = rulebook.schema();
    let graph = ObjectGraph::new(alloc, schema, bundle)?;
    let course = Course {
        schema,
        graph: &graph,
        asked: &asked,
    };
    let failures = listed(alloc, &course, rulebook, now)?;
    Ok(failures)
}
