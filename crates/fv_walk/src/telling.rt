//! What fails in an object, as it is told of the bundle.
ghost use Rattle.std.specs.Prelude.{◌≡◌, ◌<◌, ◌++◌, All, map, option_map, IfOk, OnOk};
ghost use Rattle.fv_datum.specs.Data.{Data};
ghost use Rattle.fv_extract.specs.Parts.{parts_at};
ghost use Rattle.fv_extract.specs.Views.{part_view, step_view};
ghost use Rattle.fv_graph.specs.Graph.{IsIn};
ghost use Rattle.fv_local.specs.FailureView.{IsFoundIn};
ghost use Rattle.fv_local.specs.FailureView as local;
ghost use Rattle.fv_bundle.specs.Views.{object_view};
ghost use Rattle.fv_local.specs.Graphs.{way_view};
ghost use Rattle.fv_local.specs.Requests.{nodes_at, object_at};
ghost use Rattle.fv_local.specs.Sound as parts;
ghost use Rattle.fv_path.specs.Paths.{IsPath};
ghost use Rattle.fv_walk_traces.specs.Violations.{but_named};
ghost use Rattle.fv_walk.specs.Courses.{IsSound, visiting, bundle_in, objects_in};
ghost use Rattle.fv_walk.specs.FailureView.{failure_view};
ghost use Rattle.fv_walk.specs.Judges.{IsGoodOn, AreGoodOn};
ghost use Rattle.fv_walk.specs.Paths.{TakesField};
ghost use Rattle.fv_walk.specs.Stacks.{nodes_above, path_on, way_before};
ghost use Rattle.fv_walk.specs.Walks.{told_at};

use crate::course::{Course, Frame};
use crate::failure::Failure;
use fv_bundle::Object;
use fv_datum::{Datum, Name};
use fv_extract::{Part, Step};
use fv_local::{LocalFailure, Spot, Way, push_spot};
use fv_path::Path;
use std::alloc::{AllocError, Global};

/// The reference before a place.
fn way_before<'a, 's, 'b>(ways: &'a [Way<'s, 'b>], next: usize) -> Option<&'a Way<'s, 'b>>
    ensures { option_map (λ w. way_view w.now) result ≡ way_before (map way_view ways.now) next }
{
    if next == 0 {
        return None;
    }
    ways.get(next - 1)
}

/// Adds the nodes of a part of an object.
fn push_part(
    alloc: Global,
    path: &mut Path,
    object: &Object,
    field: usize,
    steps: &[Step],
    locus: &[Part],
) -> Result<(), AllocError>
    requires sound { parts.IsSound (object_view object.now) }
    requires there { (d : Data) × IsIn (parts_at (object_view object.now) (record { field = field; steps = map step_view steps.now })) (map part_view locus.now, d) }
    requires room { TakesField path.old }
    ensures added { OnOk result (path.new ≡ path.old
        ++ nodes_at (object_view object.now) (record { field = field; steps = map step_view steps.now }) (map part_view locus.now)) }
    ensures path { IsPath path.new }
{
    let Some((name, _)) = object.field_at(field) else {
        unreachable!()
    };
    push_spot(alloc, path, name, steps, locus)
}

/// Adds the nodes from an object to the one that a reference of it names.
fn push_way(alloc: Global, path: &mut Path, object: &Object, way: &Way) -> Result<(), AllocError>
    requires sound { parts.IsSound (object_view object.now) }
    requires there { (d : Data) × IsIn (parts_at (object_view object.now) (way_view way.now).place) ((way_view way.now).locus, d) }
    requires room { TakesField path.old }
    ensures added { OnOk result (path.new ≡ path.old
        ++ but_named (nodes_at (object_view object.now) (way_view way.now).place (way_view way.now).locus)) }
    ensures room { OnOk result (TakesField path.new) }
{
    push_part(
        alloc,
        path,
        object,
        way.place.field,
        &way.place.steps,
        &way.locus,
    )?;
    if !way.locus.is_empty() {
        path.pop();
    }
    Ok(())
}

/// Adds the nodes from the object of a frame to that of the frame above.
fn push_frame(
    alloc: Global,
    path: &mut Path,
    course: &Course,
    frame: &Frame,
) -> Result<(), AllocError>
    requires sound { IsSound course.now }
    requires good { IsGoodOn course.now frame.now }
    requires room { TakesField path.old }
    ensures added { OnOk result (path.new ≡ path.old ++ nodes_above (visiting course.now) frame.now) }
    ensures room { OnOk result (TakesField path.new) }
{
    let (_, object) = course.object(frame.object);
    match way_before(course.ways(frame.object), frame.next) {
        Some(way) => push_way(alloc, path, object, way),
        None => Ok(()),
    }
}

/// The path to the object of a frame above these.
fn path_on(alloc: Global, course: &Course, stack: &[Frame]) -> Result<Path, AllocError>
    requires sound { IsSound course.now }
    requires good { AreGoodOn course.now stack.now }
    ensures path { IfOk result (λ p. p ≡ path_on (visiting course.now) stack.now) }
    ensures room { IfOk result (λ p. TakesField p) }
{
    let mut path = Path::new(alloc);
    for frame in stack {
        push_frame(alloc, &mut path, course, frame)?;
    }
    Ok(path)
}

/// What a failure is in an object above these frames.
fn failure_of(
    alloc: Global,
    course: &Course,
    stack: &[Frame],
    object: usize,
    failure: &LocalFailure,
) -> Result<Failure, AllocError>
    requires sound { IsSound course.now }
    requires good { AreGoodOn course.now stack.now }
    requires object { object < objects_in course.now }
    requires found { IsFoundIn (object_at (bundle_in course.now) object) failure.now.spot }
    ensures { IfOk result (λ f. failure_view f
        ≡ told_at (visiting course.now) (path_on (visiting course.now) stack.now) object (local.failure_view failure.now)) }
{
    let (name, thing) = course.object(object);
    let mut path = path_on(alloc, course, stack)?;
    let number = failure.number;
    match &failure.spot {
        Spot::Object => Ok(Failure {
            path,
            number,
            value: Datum::Ref(Name::new(String::from_str(alloc, name)?)),
        }),
        Spot::Part(place, locus, datum) => {
            push_part(alloc, &mut path, thing, place.field, place.steps, locus)?;
            Ok(Failure {
                path,
                number,
                value: datum.copy(alloc)?,
            })
        }
    }
}

/// Adds what failures are in an object above these frames.
pub(crate) fn add_failures(
    alloc: Global,
    failures: &mut Vec<Failure>,
    course: &Course,
    stack: &[Frame],
    object: usize,
    found: &[LocalFailure],
) -> Result<(), AllocError>
    requires sound { IsSound course.now }
    requires good { AreGoodOn course.now stack.now }
    requires object { object < objects_in course.now }
    requires found { All (λ f. IsFoundIn (object_at (bundle_in course.now) object) f.spot) found.now }
    ensures { OnOk result (map failure_view failures.new.items ≡ map failure_view failures.old.items
        ++ map (told_at (visiting course.now) (path_on (visiting course.now) stack.now) object) (map local.failure_view found.now)) }
{
    for failure in found {
        failures.push(failure_of(alloc, course, stack, object, failure)?)?;
    }
    Ok(())
}
