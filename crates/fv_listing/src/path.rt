//! The paths that turns lead along.
ghost use Rattle.std.specs.Prelude.{◌≡◌, ◌<◌, ◌∷◌, [], ◌++◌, map, IfOk, OnOk, fold};
ghost use Rattle.fv_datum.specs.Data.{Data};
ghost use Rattle.fv_extract.specs.Parts.{parts_at};
ghost use Rattle.fv_extract.specs.Views.{part_view, step_view};
ghost use Rattle.fv_graph.specs.Graph.{IsIn};
ghost use Rattle.fv_local.specs.FailureView.{IsFoundIn, spot_view};
ghost use Rattle.fv_bundle.specs.Views.{object_view};
ghost use Rattle.fv_path.specs.Paths.{IsPath};
ghost use Rattle.fv_local.specs.Graphs.{way_view};
ghost use Rattle.fv_local.specs.Requests.{nodes_at, object_at};
ghost use Rattle.fv_local.specs.Sound as parts;
ghost use Rattle.fv_walk_traces.specs.Violations.{but_named, nodes_to, onward};
ghost use Rattle.fv_walk_traces.specs.Reaching.{at_object};
ghost use Rattle.fv_walk.specs.Paths.{TakesField};
ghost use Rattle.fv_listing.specs.Arrivals.{IsArrival};
ghost use Rattle.fv_listing.specs.Courses.{IsSound, visiting, bundle_in, objects_in};
ghost use Rattle.fv_listing.specs.Turns.{turn_view, IsLedFrom};
ghost use Rattle.fv_listing.specs.Visits.{visit_view};

use crate::course::Course;
use crate::turn::Turn;
use crate::visit::Visit;
use fv_bundle::Object;
use fv_extract::{Part, Step};
use fv_local::{Spot, Way, push_spot as push_part_of};
use fv_path::Path;
use std::alloc::{AllocError, Global};

/// Adds the nodes of a part of an object.
fn push_part(
    alloc: Global,
    path: &mut Path,
    object: &Object,
    field: usize,
    steps: &[Step],
    locus: &[Part],
) -> Result<(), AllocError>
    requires sound { parts.IsSound (object_view object.now) }
    requires there { (d : Data) × IsIn (parts_at (object_view object.now) (record { field = field; steps = map step_view steps.now })) (map part_view locus.now, d) }
    requires room { TakesField path.old }
    ensures added { OnOk result (path.new ≡ path.old
        ++ nodes_at (object_view object.now) (record { field = field; steps = map step_view steps.now }) (map part_view locus.now)) }
    ensures path { OnOk result (IsPath path.new) }
{
    if let Some((name, _)) = object.field_at(field) {
        push_part_of(alloc, path, name, steps, locus)?;
    }
    Ok(())
}

/// Adds the nodes from an object to the one that a reference of it names.
fn push_way(alloc: Global, path: &mut Path, object: &Object, way: &Way) -> Result<(), AllocError>
    requires sound { parts.IsSound (object_view object.now) }
    requires there { (d : Data) × IsIn (parts_at (object_view object.now) (way_view way.now).place) ((way_view way.now).locus, d) }
    requires room { TakesField path.old }
    ensures added { OnOk result (path.new ≡ path.old
        ++ but_named (nodes_at (object_view object.now) (way_view way.now).place (way_view way.now).locus)) }
    ensures room { OnOk result (TakesField path.new) }
{
    push_part(
        alloc,
        path,
        object,
        way.place.field,
        &way.place.steps,
        &way.locus,
    )?;
    if !way.locus.is_empty() {
        path.pop();
    }
    Ok(())
}

/// Goes on by a turn from an object at the end of a path: the object that it leads to, which is at
/// the end of the path afterwards.
fn turn_to(
    alloc: Global,
    path: &mut Path,
    course: &Course,
    object: usize,
    turn: Turn,
) -> Result<usize, AllocError>
    requires sound { IsSound course.now }
    requires object { object < objects_in course.now }
    requires led { IsLedFrom (visiting course.now) object (turn_view turn ∷ []) }
    requires room { TakesField path.old }
    ensures reached { IfOk result (λ o. at_object path.new o ≡ onward (visiting course.now) (at_object path.old object) (turn_view turn.entry)) }
    ensures object { IfOk result (λ o. o < objects_in course.now) }
    ensures room { OnOk result (TakesField path.new) }
{
    match turn {
        Turn::Step(way) => {
            push_way(alloc, path, course.object(object).1, way)?;
            Ok(way.target)
        }
        _ => Ok(object),
    }
}

/// The path to the object of a visit.
pub(crate) fn path_to(alloc: Global, course: &Course, visit: &Visit) -> Result<Path, AllocError>
    requires sound { IsSound course.now }
    requires arrival { IsArrival (visiting course.now) (visit_view visit.now) }
    ensures path { IfOk result (λ p. at_object p visit.now.object
        ≡ fold (onward (visiting course.now)) (at_object [] (visiting course.now).root) (visit_view visit.now).turns) }
    ensures room { IfOk result (λ p. TakesField p) }
{
    let mut path = Path::new(alloc);
    let mut object = course.graph.root;
    for turn in &visit.turns {
        object = turn_to(alloc, &mut path, course, object, *turn)?;
    }
    Ok(path)
}

/// Adds the nodes from the object of that number to where in it something fails.
pub(crate) fn push_spot(
    alloc: Global,
    path: &mut Path,
    course: &Course,
    object: usize,
    spot: &Spot,
) -> Result<(), AllocError>
    requires sound { IsSound course.now }
    requires object { object < objects_in course.now }
    requires found { IsFoundIn (object_at (bundle_in course.now) object) spot.now }
    requires room { TakesField path.old }
    ensures { OnOk result (path.new ≡ path.old ++ nodes_to (visiting course.now) object (spot_view spot.now)) }
{
    match spot {
        Spot::Object => Ok(()),
        Spot::Part(place, locus, _) => {
            let (_, thing) = course.object(object);
            push_part(alloc, path, thing, place.field, place.steps, locus)
        }
    }
}
