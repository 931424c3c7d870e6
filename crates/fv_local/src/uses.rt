//! What uses of constraints tell of an object, all of them or rank by rank.
ghost use Rattle.std.specs.Prelude.{◌<◌, ◌≤◌, ◌↔◌, All, IsTrue, map, length, take, IfOk, OnOk};
ghost use Rattle.fv_datum.specs.Moments.{IsMoment};
ghost use Rattle.fv_declare_schema.specs.PlacedView.{placed_view};
ghost use Rattle.fv_graph.specs.Graph.{IsIn};
ghost use Rattle.fv_local.specs.FailureView.{IsFoundIn};
ghost use Rattle.fv_local.specs.Judges.{AreAmong, Adds, AsksKnownUses, CanAsk, object_told, told_at};
ghost use Rattle.fv_local.specs.Told.{Told, told_view, IsTold, CanBeAsked, IsSamePlace, AreRun, IsToldFirst};
ghost use Rattle.fv_bundle.specs.Views.{object_view};
ghost use Rattle.fv_declare_schema.specs.PlaceViews.{place_view};
ghost use Rattle.fv_local.specs.TableView.{lists_view};

use crate::failure::{LocalFailure, Spot};
use crate::judge::Judge;
use crate::parts::add_field;
use fv_bundle::Object;
use fv_declare_schema::{Place, Placed};
use fv_registry::{RuleSet, Ruled};
use std::alloc::{AllocError, Global};

/// Adds what is told of the object itself.
fn add_object<'a, R: RuleSet>(
    alloc: Global,
    failures: &mut Vec<LocalFailure<'a>>,
    judge: &Judge<R>,
    object: &'a Object,
) -> Result<(), AllocError>
    requires moment { IsMoment judge.now.moment }
    requires within { AsksKnownUses judge.now }
    requires can { CanAsk judge.now }
    ensures { OnOk result (Adds failures.old.items failures.new.items (object_told judge.now (object_view object.now))) }
{
    for number in judge.object_numbers(alloc, object)? {
        failures.push(LocalFailure {
            spot: Spot::Object,
            number,
        })?;
    }
    Ok(())
}

/// Adds what the uses that are asked tell of an object, where they stand at this place.
fn add_run<'a, R: RuleSet>(
    alloc: Global,
    failures: &mut Vec<LocalFailure<'a>>,
    judge: &Judge<R>,
    object: &'a Object,
    place: &'a Place,
) -> Result<(), AllocError>
    requires moment { IsMoment judge.now.moment }
    requires within { AsksKnownUses judge.now }
    requires can { CanAsk judge.now }
    ensures { OnOk result (Adds failures.old.items failures.new.items
        (told_at judge.now (object_view object.now) (place_view place.now))) }
{
    match place {
        Place::Whole => add_object(alloc, failures, judge, object),
        Place::Field(field, steps, _) => {
            let place = fv_extract::Place {
                field: *field,
                steps,
            };
            add_field(alloc, failures, judge, object, place)
        }
    }
}

/// Whether two places are the same.
fn is_same(one: &Place, other: &Place) -> bool
    ensures { IsTrue result ↔ IsSamePlace (place_view one.now) (place_view other.now) }
{
    match (one, other) {
        (Place::Whole, Place::Whole) => true,
        (Place::Field(field, steps, _), Place::Field(number, others, _)) => {
            field == number && steps == others
        }
        _ => false,
    }
}

/// How many uses stand at the place of the first of these, from it on.
fn run_length(occurrences: &[Placed], uses: &[usize]) -> usize
    requires within { AreAmong occurrences.now uses.now }
    requires some { 0 < length uses.now }
    ensures some { 0 < result }
    ensures within { result ≤ length uses.now }
    ensures run { AreRun (map placed_view occurrences.now) (take result uses.now) }
{
    let place = occurrences[uses[0]].place();
    let mut count = 1;
    while count < uses.len() && is_same(occurrences[uses[count]].place(), place) {
        count += 1;
    }
    count
}

/// What the uses of these numbers tell of an object. Parts at one place are found once for all uses
/// that stand there one after the other.
pub(crate) fn told_of<'a, R: RuleSet>(
    alloc: Global,
    rules: &Ruled<R>,
    occurrences: &'a [Placed],
    uses: &[usize],
    object: &'a Object,
    now: i64,
) -> Result<Vec<LocalFailure<'a>>, AllocError>
    requires moment { IsMoment now }
    requires within { AreAmong occurrences.now uses.now }
    requires can { CanBeAsked (R.known rules.now.rules) (map placed_view occurrences.now) }
    ensures told { IfOk result (λ v. (x : Told) → IsIn (map told_view v.items) x
        ↔ IsTold R.meaning now (object_view object.now) (map placed_view occurrences.now) uses.now x) }
    ensures found { IfOk result (λ v. All (λ f. IsFoundIn (object_view object.now) f.spot) v.items) }
{
    let mut failures = Vec::new(alloc);
    let mut rest = uses;
    while !rest.is_empty() {
        let (run, behind) = rest.split_at(run_length(occurrences, rest));
        let judge = Judge {
            rules,
            occurrences,
            asked: run,
            moment: now,
        };
        add_run(
            alloc,
            &mut failures,
            &judge,
            object,
            occurrences[run[0]].place(),
        )?;
        rest = behind;
    }
    Ok(failures)
}

/// What the first rank in which something fails tells of an object: nothing where none does.
pub(crate) fn told_in_ranks<'a, R: RuleSet>(
    alloc: Global,
    rules: &Ruled<R>,
    occurrences: &'a [Placed],
    ranks: &[Vec<usize>],
    object: &'a Object,
    now: i64,
) -> Result<Vec<LocalFailure<'a>>, AllocError>
    requires moment { IsMoment now }
    requires within { All (λ v. AreAmong occurrences.now v.items) ranks.now }
    requires can { CanBeAsked (R.known rules.now.rules) (map placed_view occurrences.now) }
    ensures told { IfOk result (λ v. (x : Told) → IsIn (map told_view v.items) x
        ↔ IsToldFirst R.meaning now (object_view object.now) (map placed_view occurrences.now) (lists_view ranks.now) x) }
    ensures found { IfOk result (λ v. All (λ f. IsFoundIn (object_view object.now) f.spot) v.items) }
{
    for uses in ranks {
        let failures = told_of(alloc, rules, occurrences, uses, object, now)?;
        if !failures.is_empty() {
            return Ok(failures);
        }
    }
    Ok(Vec::new(alloc))
}
