//! The references that are followed from an object.
ghost use Rattle.std.specs.Prelude.{◌≡◌, ◌++◌, ◌∷◌, [], IfOk, OnOk, map, option_map};
ghost use Rattle.fv_datum.specs.View.{view};
ghost use Rattle.fv_extract.specs.FoundView.{found_view};
ghost use Rattle.fv_extract.specs.Views.{part_view};
ghost use Rattle.fv_declare_schema.specs.NumberViews.{valid_place_view};
ghost use Rattle.fv_bundle.specs.Views.{object_view, objects_view};
ghost use Rattle.fv_local.specs.Graphs.{links_among, links_at, links_of, link_view};
ghost use Rattle.fv_local.specs.Ways.{name_of, object_number_in, target_of};

use fv_bundle::{Object, Objects};
use fv_datum::Datum;
use fv_declare_schema::{Schema, ValidPlace};
use fv_extract::{Found, Locus, Place, find};
use std::alloc::{AllocError, Global};

/// A reference that an object holds at a place whose objects are validated.
#[derive(Drop)]
pub struct Way<'s, 'b> {
    pub place: &'s ValidPlace,
    pub locus: Locus<'b>,
    /// The number of the object that it names.
    pub target: usize,
}

/// The name that a reference has.
fn name_of(datum: &Datum) -> Option<&str>
    ensures { option_map (λ s. s.now) result ≡ name_of (view datum.now) }
{
    match datum {
        Datum::Ref(name) => Some(name.as_str()),
        _ => None,
    }
}

/// The number of the object of a name.
pub(crate) fn number_in(objects: &Objects, name: &str) -> Option<usize>
    ensures { result ≡ object_number_in (objects_view objects.now) name.now }
{
    objects.get_index_of(name)
}

/// The number of the object that a datum refers to.
fn target_of(objects: &Objects, datum: &Datum) -> Option<usize>
    ensures { result ≡ target_of (objects_view objects.now) (view datum.now) }
{
    number_in(objects, name_of(datum)?)
}

/// Adds the reference that a part of an object at a valid place is, if it is one.
fn add_way<'s, 'b>(
    ways: &mut Vec<Way<'s, 'b>>,
    objects: &Objects,
    place: &'s ValidPlace,
    locus: Locus<'b>,
    datum: &Datum,
) -> Result<(), AllocError>
    ensures { OnOk result (map link_view ways.new.items ≡ map link_view ways.old.items
        ++ links_among (objects_view objects.now) (valid_place_view place.entry.now) ((map part_view locus.entry.items, view datum.now) ∷ [])) }
{
    if let Some(target) = target_of(objects, datum) {
        ways.push(Way {
            place,
            locus,
            target,
        })?;
    }
    Ok(())
}

/// Adds the references among the parts of an object at a valid place.
fn add_ways_among<'s, 'b>(
    ways: &mut Vec<Way<'s, 'b>>,
    objects: &Objects,
    place: &'s ValidPlace,
    parts: Vec<Found<'b>>,
) -> Result<(), AllocError>
    ensures { OnOk result (map link_view ways.new.items ≡ map link_view ways.old.items
        ++ links_among (objects_view objects.now) (valid_place_view place.entry.now) (map found_view parts.entry.items)) }
{
    for (locus, datum) in parts {
        add_way(ways, objects, place, locus, datum)?;
    }
    Ok(())
}

/// Adds the references that an object holds at a valid place. Where that is a field itself, nothing is
/// taken for its one part.
fn add_ways<'s, 'b>(
    alloc: Global,
    ways: &mut Vec<Way<'s, 'b>>,
    objects: &Objects,
    object: &'b Object,
    place: &'s ValidPlace,
) -> Result<(), AllocError>
    ensures { OnOk result (map link_view ways.new.items ≡ map link_view ways.old.items
        ++ links_at (objects_view objects.now) (object_view object.now) (valid_place_view place.entry.now)) }
{
    if place.steps.is_empty() {
        return match object.field_at(place.field) {
            Some((_, datum)) => add_way(ways, objects, place, Vec::new(alloc), datum),
            None => Ok(()),
        };
    }
    let at = Place {
        field: place.field,
        steps: &place.steps,
    };
    let parts = find(alloc, object, at)?;
    add_ways_among(ways, objects, place, parts)
}

/// The references that an object holds at the valid places of its type, in order.
pub(crate) fn ways_of<'s, 'b>(
    alloc: Global,
    schema: &'s Schema,
    objects: &Objects,
    object: &'b Object,
) -> Result<Vec<Way<'s, 'b>>, AllocError>
    ensures { IfOk result (λ v. map link_view v.items ≡ links_of schema.now (objects_view objects.now) (object_view object.now)) }
{
    let Some(type_id) = schema.types().find(object.type_name()) else {
        return Ok(Vec::new(alloc));
    };
    let places = schema.valid_places_of(type_id);
    let mut ways = Vec::with_capacity(alloc, places.len())?;
    for place in places {
        add_ways(alloc, &mut ways, objects, object, place)?;
    }
    Ok(ways)
}
