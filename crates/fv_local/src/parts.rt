//! What uses of constraints tell of the parts of an object at their place.
ghost use Rattle.std.specs.Prelude.{map, OnOk};
ghost use Rattle.std.specs.List.{flat_map};
ghost use Rattle.fv_datum.specs.Moments.{IsMoment};
ghost use Rattle.fv_datum.specs.View.{view};
ghost use Rattle.fv_extract.specs.FoundView.{found_view};
ghost use Rattle.fv_extract.specs.Parts.{parts_below, further};
ghost use Rattle.fv_extract.specs.Views.{part_view, inside_view, step_view, place_view};
ghost use Rattle.fv_local.specs.Judges.{Adds, AsksKnownUses, CanAsk, part_told, field_told};
ghost use Rattle.fv_local.specs.Told.{told_of_numbers};
ghost use Rattle.fv_bundle.specs.Views.{object_view};

use crate::failure::{LocalFailure, Spot};
use crate::judge::Judge;
use fv_bundle::Object;
use fv_datum::Datum;
use fv_extract::{Found, Inside, Part, Place, Step, extended, find};
use fv_registry::RuleSet;
use std::alloc::{AllocError, Global};

/// Adds a failure at a part for each of these numbers.
fn add_numbers<'a>(
    alloc: Global,
    failures: &mut Vec<LocalFailure<'a>>,
    place: Place<'a>,
    locus: &[Part<'a>],
    datum: &'a Datum,
    numbers: &[usize],
) -> Result<(), AllocError>
    ensures { OnOk result (Adds failures.old.items failures.new.items
        (told_of_numbers (place_view place.entry) (map part_view locus.now, view datum.now) numbers.now)) }
{
    for number in numbers {
        let spot = Spot::Part(place, locus.to_vec(alloc)?, datum);
        failures.push(LocalFailure {
            spot,
            number: *number,
        })?;
    }
    Ok(())
}

/// Adds what is told of a part, by the locus that it lies below and what the last step adds.
fn add_part<'a, R: RuleSet>(
    alloc: Global,
    failures: &mut Vec<LocalFailure<'a>>,
    judge: &Judge<R>,
    place: Place<'a>,
    locus: &[Part<'a>],
    part: (Option<Part<'a>>, &'a Datum),
) -> Result<(), AllocError>
    requires moment { IsMoment judge.now.moment }
    requires within { AsksKnownUses judge.now }
    requires can { CanAsk judge.now }
    ensures { OnOk result (Adds failures.old.items failures.new.items
        (part_told judge.now (place_view place.entry) (parts_below (map part_view locus.now) (inside_view part.entry)))) }
{
    let (added, datum) = part;
    let numbers = judge.numbers(alloc, datum)?;
    if numbers.is_empty() {
        return Ok(());
    }
    let locus = extended(alloc, locus, added)?;
    add_numbers(alloc, failures, place, &locus, datum, &numbers)
}

/// Adds what is told of the parts that lie a step further inside a part, the last of the place. The
/// elements of a list are first asked together, and each by itself only where one may fail.
fn add_inside<'a, R: RuleSet>(
    alloc: Global,
    failures: &mut Vec<LocalFailure<'a>>,
    judge: &Judge<R>,
    place: Place<'a>,
    step: Step,
    part: &Found<'a>,
) -> Result<(), AllocError>
    requires moment { IsMoment judge.now.moment }
    requires within { AsksKnownUses judge.now }
    requires can { CanAsk judge.now }
    ensures { OnOk result (Adds failures.old.items failures.new.items
        (flat_map (part_told judge.now (place_view place.entry)) (further (step_view step) (found_view part.now)))) }
{
    let inside = Inside::new(step, part.1);
    if let Inside::Elements(items, _) = &inside {
        if judge.passes_all(alloc, items)? {
            return Ok(());
        }
    }
    for inner in inside {
        add_part(alloc, failures, judge, place, &part.0, inner)?;
    }
    Ok(())
}

/// Adds what is told of the parts that lie a step further inside these parts, the last of the place.
fn add_all_inside<'a, R: RuleSet>(
    alloc: Global,
    failures: &mut Vec<LocalFailure<'a>>,
    judge: &Judge<R>,
    place: Place<'a>,
    step: Step,
    parts: &[Found<'a>],
) -> Result<(), AllocError>
    requires moment { IsMoment judge.now.moment }
    requires within { AsksKnownUses judge.now }
    requires can { CanAsk judge.now }
    ensures { OnOk result (Adds failures.old.items failures.new.items
        (flat_map (part_told judge.now (place_view place.entry)) (flat_map (further (step_view step)) (map found_view parts.now)))) }
{
    for part in parts {
        add_inside(alloc, failures, judge, place, step, part)?;
    }
    Ok(())
}

/// Adds what is told of the parts of an object at a place.
///
/// What stands at the last step isn't gathered, and a locus is kept for no other part than one that
/// fails.
pub(crate) fn add_field<'a, R: RuleSet>(
    alloc: Global,
    failures: &mut Vec<LocalFailure<'a>>,
    judge: &Judge<R>,
    object: &'a Object,
    place: Place<'a>,
) -> Result<(), AllocError>
    requires moment { IsMoment judge.now.moment }
    requires within { AsksKnownUses judge.now }
    requires can { CanAsk judge.now }
    ensures { OnOk result (Adds failures.old.items failures.new.items
        (field_told judge.now (object_view object.now) (place_view place.entry))) }
{
    let Some((_, datum)) = object.field_at(place.field) else {
        return Ok(());
    };
    let Some((step, steps)) = place.steps.split_last() else {
        return add_part(alloc, failures, judge, place, &[], (None, datum));
    };
    let above = Place {
        field: place.field,
        steps,
    };
    let parts = find(alloc, object, above)?;
    add_all_inside(alloc, failures, judge, place, *step, &parts)
}
