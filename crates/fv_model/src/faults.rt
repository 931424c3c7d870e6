//! What can be wrong with a draft: what is wrong with the data of its objects, in one pass, and which
//! fault is the first: before its data are decoded (`name_fault`), and after (`late_fault`).
ghost use Rattle.std.specs.List.{list_any, AllByRecursion};
ghost use Rattle.fv_bundle.specs.Tells.{Tells};
ghost use Rattle.fv_model.specs.Ascents.{Ascends};
ghost use Rattle.fv_model.specs.Reading.{has_flaw, object_types, bundle_conditions};
ghost use Rattle.fv_model.specs.Views.{types_view, part_view, draft_view};
ghost use Rattle.std.specs.Prelude.{◌≡◌, map, take, drop, not, is_some, option_map, None};
ghost use Rattle.fv_datum.specs.Outcomes.{first};
ghost use Rattle.fv_datum.specs.Lookup.{at_name};
ghost use Rattle.fv_datum.specs.Name.{names};
ghost use Rattle.fv_bundle.specs.Flaws.{is_other};
ghost use Rattle.fv_bundle.specs.Types.{name_at};

use crate::fault::BundleFault;
use crate::parts::{Draft, Part};
use fv_bundle::{Flaws, TypeId, Types, flaws_among, is_other};
use fv_datum::is_name;

/// What is wrong with an object's data.
#[tactic(auto, unfolding(crate::specs::Reading::has_flaw))]
fn part_flaws(types: &Types, draft: &Draft, part: &Part) -> Flaws
    ensures told { Tells result (object_types (draft_view draft.now).objects)
        (λ flaw. has_flaw flaw (types_view types.now) (part_view part.now)) }
    ensures ascending { Ascends (types_view types.now) (part_view part.now) }
{
    match types.fields(part.type_name) {
        None => Flaws::none(),
        Some(fields) => match part.given {
            None => Flaws::none(),
            Some(given) => flaws_among(&draft.type_names, fields, given),
        },
    }
}

/// What is wrong with the data of a draft's objects.
pub(crate) fn draft_flaws(types: &Types, draft: &Draft) -> Flaws
    ensures told { Tells result (object_types (draft_view draft.now).objects)
        (λ flaw. list_any (has_flaw flaw (types_view types.now)) (draft_view draft.now).objects) }
    ensures ascending { AllByRecursion (Ascends (types_view types.now)) (draft_view draft.now).objects }
{
    let mut flaws = Flaws::none();
    for part in &draft.objects {
        flaws = flaws.and(part_flaws(types, draft, part));
    }
    flaws
}

/// The most objects.
const MOST_OBJECTS: usize = 256;

/// An object's name is no name.
#[tactic(auto, using(crate::proofs::Anys::part_turn))]
fn bad_name(parts: &[Part]) -> bool
    ensures { result ≡ list_any (λ p. not (names p.name)) (map part_view parts.now) }
{
    for p in parts {
        if !is_name(p.name) {
            return true;
        }
    }
    false
}

/// The root names no object.
fn root_missing(draft: &Draft) -> bool
    ensures { result ≡ not (is_some (at_name (draft_view draft.now).root (object_types (draft_view draft.now).objects))) }
{
    draft.type_at(draft.root).is_none()
}

/// An object's type isn't declared.
#[tactic(auto, using(crate::proofs::Anys::part_turn))]
fn unknown_type(types: &Types, parts: &[Part]) -> bool
    ensures { result ≡ list_any (λ p. not (is_some (at_name p.type_name (types_view types.now)))) (map part_view parts.now) }
{
    for p in parts {
        if types.fields(p.type_name).is_none() {
            return true;
        }
    }
    false
}

/// The root is of another type than this one.
fn root_type(type_name: &str, draft: &Draft) -> bool
    ensures { result ≡ is_other type_name.now (at_name (draft_view draft.now).root (object_types (draft_view draft.now).objects)) }
{
    is_other(type_name, draft.type_at(draft.root))
}

/// The first fault of a draft's names and types.
pub(crate) fn name_fault(types: &Types, draft: &Draft) -> Option<BundleFault>
    ensures { result ≡ first (take 3 (bundle_conditions (types_view types.now) None (draft_view draft.now))) }
{
    if bad_name(&draft.objects) {
        return Some(BundleFault::BadName);
    }
    if root_missing(draft) {
        return Some(BundleFault::RootMissing);
    }
    if unknown_type(types, &draft.objects) {
        return Some(BundleFault::UnknownType);
    }
    None
}

/// The first fault of a draft whose data are of their kinds, by what is wrong with them.
pub(crate) fn late_fault(
    types: &Types,
    asked: Option<TypeId>,
    draft: &Draft,
    flaws: Flaws,
) -> Option<BundleFault>
    requires { Tells flaws (object_types (draft_view draft.now).objects)
        (λ flaw. list_any (has_flaw flaw (types_view types.now)) (draft_view draft.now).objects) }
    ensures { result ≡ first (drop 5 (bundle_conditions (types_view types.now) (option_map
        (λ t. name_at (types_view types.now) t.index) asked) (draft_view draft.now))) }
{
    if flaws.dangling {
        return Some(BundleFault::DanglingRef);
    }
    if flaws.stray {
        return Some(BundleFault::RefType);
    }
    if draft.objects.len() > MOST_OBJECTS || flaws.large {
        return Some(BundleFault::TooLarge);
    }
    match asked {
        None => None,
        Some(id) => if root_type(types.name(id), draft) {
            Some(BundleFault::RootType)
        } else {
            None
        },
    }
}
