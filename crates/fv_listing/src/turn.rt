//! The turns of a visit, and which of them shadow which.
ghost use Rattle.std.specs.Prelude.{◌≡◌, ◌↔◌, IsTrue, map};
ghost use Rattle.fv_extract.specs.Views.{part_view};
ghost use Rattle.fv_declare_schema.specs.NumberViews.{valid_place_view};
ghost use Rattle.fv_local.specs.Graphs.{way_view};
ghost use Rattle.fv_local.specs.Ways.{way_place};
ghost use Rattle.fv_walk_traces.specs.Turns.{IsSmallerRank, ShadowsByRecursion};
ghost use Rattle.fv_listing.specs.Turns.{turn_view};

use fv_declare_schema::{GroupId, ValidPlace};
use fv_extract::Part;
use fv_local::Way;

/// A turn of a visit.
#[derive(Clone, Copy)]
pub(crate) enum Turn<'a, 's, 'b> {
    /// The group is asked for.
    Ask(GroupId),
    /// The reference is followed.
    Step(&'a Way<'s, 'b>),
    /// A sequence has been handed on, and the group at this position of it is carried.
    Rank(usize),
}

/// Whether two places are the same one of their types.
fn is_same_place(one: &ValidPlace, other: &ValidPlace) -> bool
    ensures { IsTrue result ↔ (way_place (valid_place_view one.now) ≡ way_place (valid_place_view other.now)) }
{
    one.field == other.field && one.steps == other.steps
}

/// Whether two parts are the same.
fn is_same_part(one: Part, other: Part) -> bool
    ensures { IsTrue result ↔ (part_view one.entry ≡ part_view other.entry) }
{
    match (one, other) {
        (Part::Index(index), Part::Index(number)) => index == number,
        (Part::Key(key), Part::Key(name)) => key == name,
        _ => false,
    }
}

/// Whether two loci have the same parts.
fn is_same_locus(one: &[Part], other: &[Part]) -> bool
    ensures { IsTrue result ↔ (map part_view one.now ≡ map part_view other.now) }
{
    match (one, other) {
        ([], []) => true,
        ([part, rest @ ..], [facing, behind @ ..]) => {
            is_same_part(*part, *facing) && is_same_locus(rest, behind)
        }
        _ => false,
    }
}

/// Whether two references have one place, one locus and one target.
fn is_same_way(one: &Way, other: &Way) -> bool
    ensures { IsTrue result ↔ (way_view one.now ≡ way_view other.now) }
{
    if one.target != other.target {
        return false;
    }
    if !is_same_place(one.place, other.place) {
        return false;
    }
    is_same_locus(&one.locus, &other.locus)
}

/// Whether two turns are the same.
fn is_same(one: Turn, other: Turn) -> bool
    ensures { IsTrue result ↔ (turn_view one.entry ≡ turn_view other.entry) }
{
    match (one, other) {
        (Turn::Ask(group), Turn::Ask(asked)) => group.index == asked.index,
        (Turn::Step(way), Turn::Step(followed)) => is_same_way(way, followed),
        (Turn::Rank(rank), Turn::Rank(carried)) => rank == carried,
        _ => false,
    }
}

/// Whether both are ranks, the first smaller.
fn is_smaller_rank(one: Turn, other: Turn) -> bool
    ensures { IsTrue result ↔ IsSmallerRank (turn_view one.entry) (turn_view other.entry) }
{
    match (one, other) {
        (Turn::Rank(rank), Turn::Rank(carried)) => rank < carried,
        _ => false,
    }
}

/// Whether one list of turns shadows the other: they agree on some number of turns, the next turn of
/// both is a rank, and that of the one is the smaller.
pub(crate) fn shadows(one: &[Turn], other: &[Turn]) -> bool
    ensures { IsTrue result ↔ ShadowsByRecursion (map turn_view one.now) (map turn_view other.now) }
{
    let Some((turn, rest)) = one.split_first() else {
        return false;
    };
    let Some((facing, behind)) = other.split_first() else {
        return false;
    };
    is_smaller_rank(*turn, *facing) || (is_same(*turn, *facing) && shadows(rest, behind))
}
