//! Where objects are validated, and where groups are converted.
ghost use Rattle.std.specs.Prelude.{◌≡◌, ◌∷◌, [], map};
ghost use Rattle.fv_declare_draft.specs.DraftViews.{conversion_view};
ghost use Rattle.fv_first.specs.First.{first_where};
ghost use Rattle.fv_declare_groups.specs.Grouping.{is_reference};
ghost use Rattle.fv_declare_groups.specs.Whereabouts.{misplaced_at, misplaced_in};
ghost use Rattle.fv_declare_schema.specs.Judged.{sequence_in};
ghost use Rattle.fv_declare_draft.specs.UseViews.{cascade_view};

use crate::at::{CascadeAt, GroupingAt};
use crate::sequences::is_sequence;
use fv_datum::Kind;
use fv_declare_draft::{Cascade, Conversion};
use fv_declare_schema::GroupGraph;

/// Whether what stands there refers to objects.
fn is_reference(kind: Kind) -> bool
    ensures { result ≡ is_reference kind }
{
    matches!(kind, Kind::Ref)
}

/// The first of the conversions that is of a sequence.
#[tactic(auto, using(crate::proofs::FirstTurns::conversion_turn))]
fn converted_sequence(graph: &GroupGraph, conversions: &[Conversion]) -> Option<usize>
    ensures { result ≡ first_where (λ r. sequence_in graph.now (r.from ∷ [])) (map conversion_view conversions.now) }
{
    for (number, conversion) in conversions.iter().enumerate() {
        if is_sequence(graph, conversion.from) {
            return Some(number);
        }
    }
    None
}

/// What is misplaced at a cascade: that something is validated that is no reference, that a group is
/// converted though nothing is validated, or the conversion of a sequence.
fn misplaced_at(graph: &GroupGraph, given: &Cascade) -> Option<CascadeAt>
    ensures { result ≡ misplaced_at graph.now (cascade_view given.now) }
{
    let cascade = &given.placed.cascade;
    if cascade.valid && !is_reference(given.placed.kind) {
        return Some(CascadeAt::Valid);
    }
    if !cascade.valid && !cascade.conversions.is_empty() {
        return Some(CascadeAt::Convert);
    }
    match converted_sequence(graph, &cascade.conversions) {
        None => None,
        Some(conversion) => Some(CascadeAt::Conversion(conversion)),
    }
}

/// Where something is misplaced.
#[tactic(auto, using(crate::proofs::FirstTurns::cascade_turn))]
pub(crate) fn misplaced_in(graph: &GroupGraph, cascades: &[Cascade]) -> Option<GroupingAt>
    ensures { result ≡ misplaced_in graph.now (map cascade_view cascades.now) }
{
    for (number, given) in cascades.iter().enumerate() {
        if let Some(at) = misplaced_at(graph, given) {
            return Some(GroupingAt::Cascade(number, at));
        }
    }
    None
}
