//! The parts of an object at a place, found step by step.
ghost use Rattle.std.specs.Prelude.{◌≡◌, length, ◌++◌, IfOk, OnOk, [], map};
ghost use Rattle.std.specs.Iterator.{at_most};
ghost use Rattle.std.specs.Map.Iter.{TakesFirst};
ghost use Rattle.fv_datum.specs.View.{view};
ghost use Rattle.fv_datum.specs.Written.{key_of};
ghost use Rattle.fv_extract.specs.InsideView.{inside_left};
ghost use Rattle.fv_extract.specs.Parts.{inside, at_key, parts_below, further, parts_at, parts_of, AreApart};
ghost use Rattle.fv_extract.specs.Views.{step_view, part_view, inside_view, added_view, place_view};
ghost use Rattle.std.specs.List.{flat_map};
ghost use Rattle.fv_bundle.specs.Views.{object_view};
ghost use Rattle.fv_extract.specs.FoundView.{found_view};

use crate::place::{Locus, Part, Place, Step};
use fv_bundle::Object;
use fv_datum::Datum;
use std::alloc::{AllocError, Global};

/// What lies one step inside a datum and is left, each part with what the step adds to the locus.
#[derive(Drop)]
pub enum Inside<'a> {
    /// The elements of a list, from the next index on.
    Elements(&'a [Datum], usize),
    /// The keys of these entries.
    Keys(&'a [(Datum, Datum)]),
    /// The values of these entries.
    Values(&'a [(Datum, Datum)]),
    /// The content of an optional, if it is left.
    Content(Option<&'a Datum>),
}

/// A key, as a part of its map.
fn part_of(key: &Datum) -> Part<'_>
    ensures { part_view result ≡ at_key (key_of (view key.now)) }
{
    match key {
        Datum::Text(text) => Part::Key(text.as_str()),
        _ => Part::Key(""),
    }
}

impl<'a> Inside<'a> {
    /// What lies a step inside a datum: nothing where the datum is null or the step isn't for its kind.
    pub fn new(step: Step, datum: &'a Datum) -> Inside<'a>
        ensures { inside_left result ≡ inside (step_view step) (view datum.now) }
    {
        match (step, datum) {
            (Step::Element, Datum::List(items)) => Inside::Elements(items, 0),
            (Step::Key, Datum::Map(entries)) => Inside::Keys(entries),
            (Step::Value, Datum::Map(entries)) => Inside::Values(entries),
            (Step::Content, Datum::Optional(content)) => Inside::Content(Some(content)),
            _ => Inside::Content(None),
        }
    }
}

impl<'a> Iterator for Inside<'a> {
    type Item = (Option<Part<'a>>, &'a Datum);

    ghost next_gives = { λ s r t. TakesFirst inside_view (inside_left s) r (inside_left t) };

    ghost remaining = { λ s. at_most (length (inside_left s)) };

    fn next(&mut self) -> Option<(Option<Part<'a>>, &'a Datum)> {
        match self {
            Inside::Elements(items, next) => {
                let index = *next;
                let item = items.get(index)?;
                *next = index + 1;
                Some((Some(Part::Index(index)), item))
            }
            Inside::Keys(entries) => {
                let (entry, rest) = entries.split_first()?;
                *entries = rest;
                Some((Some(part_of(&entry.0)), &entry.0))
            }
            Inside::Values(entries) => {
                let (entry, rest) = entries.split_first()?;
                *entries = rest;
                Some((Some(part_of(&entry.0)), &entry.1))
            }
            Inside::Content(content) => {
                let content = content.take()?;
                Some((None, content))
            }
        }
    }
}

/// A part of a field's datum, with its locus.
pub type Found<'a> = (Locus<'a>, &'a Datum);

/// A locus with what a step adds.
pub fn extended<'a>(
    alloc: Global,
    locus: &[Part<'a>],
    added: Option<Part<'a>>,
) -> Result<Locus<'a>, AllocError>
    ensures { IfOk result (λ l. map part_view l.items ≡ map part_view locus.now ++ added_view added.entry) }
{
    let mut longer = Vec::with_capacity(alloc, locus.len() + 1)?;
    longer.extend_from_slice(locus)?;
    if let Some(part) = added {
        longer.push(part)?;
    }
    Ok(longer)
}

/// Adds what lies one step further inside a part.
fn add_inside<'a>(
    alloc: Global,
    found: &mut Vec<Found<'a>>,
    step: Step,
    part: &Found<'a>,
) -> Result<(), AllocError>
    ensures { OnOk result (map found_view found.new.items
        ≡ map found_view found.old.items ++ further (step_view step) (found_view part.now)) }
{
    for (added, datum) in Inside::new(step, part.1) {
        found.push((extended(alloc, &part.0, added)?, datum))?;
    }
    Ok(())
}

/// What lies one step further inside each of the parts.
fn all_inside<'a>(
    alloc: Global,
    step: Step,
    parts: &[Found<'a>],
) -> Result<Vec<Found<'a>>, AllocError>
    ensures { IfOk result (λ v. map found_view v.items ≡ flat_map (further (step_view step)) (map found_view parts.now)) }
{
    let mut found = Vec::with_capacity(alloc, parts.len())?;
    for part in parts {
        add_inside(alloc, &mut found, step, part)?;
    }
    Ok(found)
}

/// The parts of a datum at these steps, in order.
fn parts_of<'a>(
    alloc: Global,
    datum: &'a Datum,
    steps: &[Step],
) -> Result<Vec<Found<'a>>, AllocError>
    ensures { IfOk result (λ v. map found_view v.items ≡ parts_of (map step_view steps.now) (view datum.now)) }
{
    let mut found = Vec::with_capacity(alloc, 1)?;
    found.push((Vec::new(alloc), datum))?;
    for step in steps {
        found = all_inside(alloc, *step, &found)?;
    }
    Ok(found)
}

/// The parts of an object at a place, each once, in order: none where it has no such field.
pub fn find<'a>(
    alloc: Global,
    object: &'a Object,
    place: Place,
) -> Result<Vec<Found<'a>>, AllocError>
    ensures exact { IfOk result (λ v. map found_view v.items ≡ parts_at (object_view object.now) (place_view place.entry)) }
    ensures once { IfOk result (λ v. AreApart (map found_view v.items)) }
{
    match object.field_at(place.field) {
        Some((_, datum)) => parts_of(alloc, datum, place.steps),
        None => Ok(Vec::new(alloc)),
    }
}
