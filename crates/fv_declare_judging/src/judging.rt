//! Declarations whose names are known and stand as they may: the trees that their uses are composed to, or
//! the first fault.
ghost use Rattle.std.specs.Prelude.{◌≡◌, ◌≢◌, List, nat_lt, Some, None, Ok, Err, IfOk, IfErr, map, if◌then◌else◌, is_some, not, false, true};
ghost use Rattle.std.specs.List.{AllZip, list_any};
ghost use Rattle.std.specs.Option.{option_or};
ghost use Rattle.fv_constraint.specs.Composed.{Planned};
ghost use Rattle.fv_constraint.specs.Meanings.{meant_by};
ghost use Rattle.fv_flatten.specs.Whereabouts as constraint;
ghost use Rattle.fv_declare_draft.specs.DraftViews.{draft_view};
ghost use Rattle.fv_flatten.specs.Flattening.{AreTreesOfUses, FlattensAll};
ghost use Rattle.fv_declare_groups.specs.Grouping.{groups_in};
ghost use Rattle.fv_constraint_tree.specs.TargetFits.{tree_fits};
ghost use Rattle.fv_constraint_tree.specs.Trees.{Tree};
ghost use Rattle.fv_declare_judging.specs.Judging.{IsAnswerTo, AreRead, composition_faults, tree_faults, lacks_memory};
ghost use Rattle.fv_declare_judging.specs.LimitPlaces.{declared_limit, crowded_from, first_limit, types_told};
ghost use Rattle.fv_declare_judging.specs.Parts.{IsChecked, IsWhole};
ghost use Rattle.fv_declare_judging.specs.Used.{used};
ghost use Rattle.fv_declare_judging.specs.Whereabouts.{IsAt};
ghost use Rattle.fv_declare_judging.specs.WordingPlaces.{fault_told, limit_told};
ghost use Rattle.fv_declare_draft.specs.UseViews.{use_view};

use crate::fault::DeclFault;
use crate::parts::Parts;
use crate::placed::{At, LimitAt, PlacedFault, PlacedWording, WordingAt};
use crate::used::used_in;
use fv_constraint::{Composition, ConstraintAt, empty_definition};
use fv_constraint_tree::Occurrence;
use fv_declare_draft::{Draft, Use};
use fv_declare_groups::long_sequence;
use fv_declare_schema::GroupGraph;
use fv_flatten::{FlattenFault, PlacedFlattenFault, flatten_all, trees_are_unique};
use fv_message::{MessageFault, Messages};
use fv_registry::RuleSet;
use std::alloc::Global;

/// The most forms and declared constraints, of each.
const MOST_DECLARED: usize = 256;

/// The most nodes of all trees.
const MOST_NODES: usize = 1024;

/// Too many forms, declared constraints or groups, or members of a sequence or groups that one
/// inherits: the first of these.
fn declared_limit(draft: &Draft, groups: &GroupGraph) -> Option<LimitAt>
    requires { groups.now ≡ groups_in (draft_view draft.now) }
    ensures { result ≡ declared_limit (draft_view draft.now) }
{
    if draft.forms.len() > MOST_DECLARED {
        return Some(LimitAt::Forms);
    }
    if draft.definitions.len() > MOST_DECLARED {
        return Some(LimitAt::Definitions);
    }
    if let Some(limit) = groups.passed_limit() {
        return Some(LimitAt::Groups(limit));
    }
    match long_sequence(&draft.types) {
        None => None,
        Some(number) => Some(LimitAt::Sequence(number)),
    }
}

/// Whether memory was refused.
fn lacks_memory(wording: &Result<Messages, PlacedWording>) -> bool
    ensures { result ≡ lacks_memory (fault_told wording.now) }
{
    match wording {
        Err(placed) => matches!(placed.fault, MessageFault::Memory),
        Ok(_) => false,
    }
}

/// Which limit of the wording is passed.
fn wording_limit(wording: &Result<Messages, PlacedWording>) -> Option<WordingAt>
    ensures { result ≡ limit_told wording.now }
{
    match wording {
        Err(placed) if matches!(placed.fault, MessageFault::TooLarge) => placed.at,
        _ => None,
    }
}

/// What is found already, else a number at which so many nodes are too many.
fn first_beyond(found: Option<usize>, number: usize, nodes: usize) -> Option<usize>
    ensures { result ≡ option_or found (if nat_lt 1024 nodes then Some number else None) }
{
    if found.is_none() && nodes > MOST_NODES {
        return Some(number);
    }
    found
}

/// The first use with whose tree the trees of the uses have more than 1,024 nodes. No tree is made.
fn crowded_use(composition: &Composition, uses: &[Use]) -> Option<usize>
    requires { list_any (λ u. not (is_some (meant_by composition.now u.draft.constraint))) (map use_view uses.now) ≡ false }
    ensures { (ts : List (Tree Planned)) × AreTreesOfUses composition.now (map used (map use_view uses.now)) ts × (result ≡ crowded_from 0 0 ts) }
{
    let mut count = 0;
    let mut crowded = None;
    for (number, given) in uses.iter().enumerate() {
        count = (count + composition.size_of(given.constraint)).min(MOST_NODES + 1);
        crowded = first_beyond(crowded, number, count);
    }
    crowded
}

/// The first limit that is passed: of types, of what else is declared, of the wording, of nodes.
fn first_limit(
    draft: &Draft,
    uses: &[Use],
    parts: &Parts,
    composition: &Composition,
) -> Option<LimitAt>
    requires groups { parts.now.groups.graph ≡ groups_in (draft_view draft.now) }
    requires named { list_any (λ u. not (is_some (meant_by composition.now u.draft.constraint))) (map use_view uses.now) ≡ false }
    ensures { (ts : List (Tree Planned)) × AreTreesOfUses composition.now (map used (map use_view uses.now)) ts
        × (result ≡ first_limit (types_told parts.now.types) (draft_view draft.now) (limit_told parts.now.wording) ts) }
{
    let crowded = crowded_use(composition, uses);
    if let Err(at) = &parts.types {
        return Some(LimitAt::Types(*at));
    }
    if let Some(at) = declared_limit(draft, &parts.groups.graph) {
        return Some(at);
    }
    if let Some(at) = wording_limit(&parts.wording) {
        return Some(LimitAt::Wording(at));
    }
    match crowded {
        None => None,
        Some(number) => Some(LimitAt::Use(number)),
    }
}

/// The trees of uses, each read at its place.
fn trees_of<'a, R: RuleSet>(
    alloc: Global,
    rules: &R,
    composition: &Composition<'a>,
    uses: &[Use<'a>],
) -> Result<Vec<Occurrence>, PlacedFlattenFault>
    requires { list_any (λ u. not (is_some (meant_by composition.now u.draft.constraint))) (map use_view uses.now) ≡ false }
    ensures taken { IfOk result (λ v. FlattensAll (R.known rules.now) composition.now (map used (map use_view uses.now)) (Ok v.items)) }
    ensures refused { IfErr result (λ p. p.fault ≢ FlattenFault.Memory
        → FlattensAll (R.known rules.now) composition.now (map used (map use_view uses.now)) (Err p.fault)) }
    ensures placed { IfErr result (λ p. p.fault ≢ FlattenFault.Memory
        → (ts : List (Tree Planned)) → AreTreesOfUses composition.now (map used (map use_view uses.now)) ts
        → constraint.IsAt (R.known rules.now) composition.now (map used (map use_view uses.now)) ts p.fault p.at) }
    ensures fits { IfOk result (λ v. AllZip (λ u o. tree_fits (R.known rules.now) u.place o ≡ true)
        (map used (map use_view uses.now)) v.items) }
{
    let used = used_in(alloc, uses)?;
    flatten_all(alloc, rules, composition, &used)
}

/// The trees of the uses of declarations in which no constraint is composed of itself, or the first
/// fault of these declarations.
fn flattened<'a, R: RuleSet>(
    alloc: Global,
    rules: &R,
    draft: &Draft,
    uses: &[Use<'a>],
    parts: &Parts,
    composition: &Composition<'a>,
) -> Result<Vec<Occurrence>, PlacedFault>
    requires checked { IsChecked (draft_view draft.now) (map use_view uses.now) parts.now }
    requires composed { composition.now ≡ (draft_view draft.now).definitions }
    ensures taken { IfOk result (λ v. AreRead (R.known rules.now) (draft_view draft.now) tree_faults v.items) }
    ensures whole { IfOk result (λ _. IsWhole parts.now) }
    ensures refused { IfErr result (λ p. p.fault ≢ DeclFault.Memory → IsAnswerTo (R.known rules.now) (draft_view draft.now) tree_faults (Err p.fault)) }
    ensures placed { IfErr result (λ p. p.fault ≢ DeclFault.Memory → IsAt (R.known rules.now) (draft_view draft.now) p.fault p.at) }
{
    trees_are_unique();
    if lacks_memory(&parts.wording) {
        return Err(PlacedFault {
            fault: DeclFault::Memory,
            at: None,
        });
    }
    if let Some(number) = empty_definition(&draft.definitions) {
        return Err(PlacedFault {
            fault: DeclFault::EmptyConstraint,
            at: Some(At::Constraints(ConstraintAt::Definition(number))),
        });
    }
    if let Some(limit) = first_limit(draft, uses, parts, composition) {
        return Err(PlacedFault {
            fault: DeclFault::TooLarge,
            at: Some(At::Limit(limit)),
        });
    }
    let trees = trees_of(alloc, rules, composition, uses)?;
    match &parts.wording {
        Ok(_) => Ok(trees),
        Err(placed) => Err(PlacedFault::from(*placed)),
    }
}

/// The trees of the uses of declarations whose names are known and stand as they may, or the first
/// fault of these declarations.
pub(crate) fn composed<'a, R: RuleSet>(
    alloc: Global,
    rules: &R,
    draft: &'a Draft<'a>,
    uses: &[Use<'a>],
    parts: &Parts,
) -> Result<Vec<Occurrence>, PlacedFault>
    requires { IsChecked (draft_view draft.now) (map use_view uses.now) parts.now }
    ensures taken { IfOk result (λ v. AreRead (R.known rules.now) (draft_view draft.now) composition_faults v.items) }
    ensures whole { IfOk result (λ _. IsWhole parts.now) }
    ensures refused { IfErr result (λ p. p.fault ≢ DeclFault.Memory → IsAnswerTo (R.known rules.now) (draft_view draft.now) composition_faults (Err p.fault)) }
    ensures placed { IfErr result (λ p. p.fault ≢ DeclFault.Memory → IsAt (R.known rules.now) (draft_view draft.now) p.fault p.at) }
{
    let Some(composition) = Composition::new(alloc, &draft.definitions)? else {
        return Err(PlacedFault {
            fault: DeclFault::CyclicComposition,
            at: None,
        });
    };
    flattened(alloc, rules, draft, uses, parts, &composition)
}
