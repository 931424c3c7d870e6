//! The uses of constraints that stand in one field of a type.
ghost use Rattle.std.specs.Prelude.{◌≡◌, All, map, filter, IfOk};
ghost use Rattle.fv_declare_schema.specs.PlacedView.{placed_view};
ghost use Rattle.fv_local.specs.Fields.{is_at, is_of_field};
ghost use Rattle.fv_local.specs.Judges.{AreAmong};
ghost use Rattle.fv_local.specs.TableView.{lists_view};
ghost use Rattle.fv_declare_schema.specs.PlaceViews.{place_view};

use fv_declare_schema::{Place, Placed};
use std::alloc::{AllocError, Global};

/// Whether a place is at the field of that number or inside it.
fn is_at(place: &Place, field: usize) -> bool
    ensures { result ≡ is_at field (place_view place.now) }
{
    match place {
        Place::Whole => false,
        Place::Field(number, _, _) => *number == field,
    }
}

/// Those of these uses that stand at the field of that number or inside it.
pub(crate) fn of_field(
    alloc: Global,
    occurrences: &[Placed],
    uses: &[usize],
    field: usize,
) -> Result<Vec<usize>, AllocError>
    requires { AreAmong occurrences.now uses.now }
    ensures { IfOk result (λ kept. kept.items ≡ filter (is_of_field (map placed_view occurrences.now) field) uses.now) }
{
    let mut kept = Vec::new(alloc);
    for index in uses {
        if is_at(occurrences[*index].place(), field) {
            kept.push(*index)?;
        }
    }
    Ok(kept)
}

/// Of each of these lists of uses, those that stand at the field of that number or inside it.
pub(crate) fn each_of_field(
    alloc: Global,
    occurrences: &[Placed],
    lists: &[Vec<usize>],
    field: usize,
) -> Result<Vec<Vec<usize>>, AllocError>
    requires { All (λ v. AreAmong occurrences.now v.items) lists.now }
    ensures { IfOk result (λ kept. lists_view kept.items
        ≡ map (filter (is_of_field (map placed_view occurrences.now) field)) (lists_view lists.now)) }
{
    let mut kept = Vec::new(alloc);
    for uses in lists {
        kept.push(of_field(alloc, occurrences, uses, field)?)?;
    }
    Ok(kept)
}
