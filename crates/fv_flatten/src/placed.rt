//! The planned trees of uses, each with the place where it is read.
ghost use Rattle.std.specs.Prelude.{◌≡◌, ◌≢◌, false, is_some, IfOk, IfErr, IsTrue, map, All};
ghost use Rattle.std.specs.List.{list_any, AllZip};
ghost use Rattle.fv_declare_definition.specs.DefinitionViews.{definition_entry};
ghost use Rattle.fv_constraint.specs.PlannedViews.{planned_entry};
ghost use Rattle.fv_flatten.specs.Flattening.{uses_unknown};
ghost use Rattle.fv_flatten.specs.Placed.{planned_in, IsPlannedFor, gets_refused, is_misplaced, refused_in, misplaced_in, bad_attribute_in, first_fault, IsReadFrom, IsUnbuilt};
ghost use Rattle.fv_flatten.specs.Read.{refuses_its_given, refuses_at};
ghost use Rattle.fv_constraint_tree.specs.TargetViews.{target_view};
ghost use Rattle.fv_first.specs.First.{first_where};
ghost use Rattle.fv_flatten.specs.UseViews.{use_view};
ghost use Rattle.fv_constraint_tree.specs.Preorder.{IsPreorder};
ghost use Rattle.fv_registry.specs.Rules.{Known};

use crate::fault::{FlattenFault, PlacedFlattenFault};
use crate::nodes::read;
use crate::refusals::{refuses_given, refuses_place};
use crate::used::Use;
use fv_builtin::Patterns;
use fv_constraint::{Composition, ConstraintAt, Planned, bad_definition_at, unknown_rule_at};
use fv_constraint_tree::{Occurrence, Target};
use fv_declare_definition::Definition;
use fv_graph::Spot;
use fv_registry::RuleSet;
use std::alloc::{AllocError, Global};
use std::collections::BTreeMap;

/// The planned tree of a use, in preorder, with the use's place.
#[derive(Drop)]
pub(crate) struct PlacedTree<'a> {
    place: Target,
    spots: Vec<Spot<Planned<'a>>>,
}

/// The planned trees of uses, in their order.
pub(crate) fn plan_uses<'a>(
    alloc: Global,
    composition: &Composition<'a>,
    uses: &[Use<'a>],
) -> Result<Vec<PlacedTree<'a>>, AllocError>
    requires { uses_unknown composition.now (map use_view uses.now) ≡ false }
    ensures { IfOk result (λ v. AllZip (IsPlannedFor composition.now) (map use_view uses.now) v.items) }
{
    let mut trees = Vec::with_capacity(alloc, uses.len())?;
    for used in uses {
        trees.push(PlacedTree {
            place: used.place,
            spots: composition.plan(alloc, used.constraint, used.message, used.given)?,
        })?;
    }
    Ok(trees)
}

/// The first constraint in a tree that refuses the attributes that it gets.
#[tactic(auto, using(crate::proofs::FirstTurns::spot_turn))]
fn refused_node(tree: &PlacedTree) -> Option<usize>
    ensures { result ≡ first_where refuses_its_given (planned_in tree.now) }
{
    for (number, spot) in tree.spots.iter().enumerate() {
        if refuses_given(spot.value.meant, &spot.value.with) {
            return Some(number);
        }
    }
    None
}

/// The first constraint in a tree whose own test isn't on what stands at the tree's place.
#[tactic(auto, using(crate::proofs::FirstTurns::spot_turn))]
fn misplaced_node<R: RuleSet>(rules: &R, tree: &PlacedTree) -> Option<usize>
    ensures { result ≡ first_where (refuses_at (R.known rules.now) (target_view tree.now.place)) (planned_in tree.now) }
{
    for (number, spot) in tree.spots.iter().enumerate() {
        if refuses_place(rules, spot.value.meant, tree.place) {
            return Some(number);
        }
    }
    None
}

/// The first tree and the first constraint in it that refuses the attributes that it gets.
#[tactic(auto, using(crate::proofs::FirstTurns::tree_turn))]
fn refused_in(trees: &[PlacedTree]) -> Option<ConstraintAt>
    ensures { result ≡ refused_in trees.now }
{
    for (number, tree) in trees.iter().enumerate() {
        if let Some(node) = refused_node(tree) {
            return Some(ConstraintAt::Node(number, node));
        }
    }
    None
}

/// The first tree and the first constraint in it whose own test isn't on what stands at the tree's
/// place.
#[tactic(auto, using(crate::proofs::FirstTurns::tree_turn))]
fn misplaced_in<R: RuleSet>(rules: &R, trees: &[PlacedTree]) -> Option<ConstraintAt>
    ensures { result ≡ misplaced_in (R.known rules.now) trees.now }
{
    for (number, tree) in trees.iter().enumerate() {
        if let Some(node) = misplaced_node(rules, tree) {
            return Some(ConstraintAt::Node(number, node));
        }
    }
    None
}

/// Where attributes are at fault: in the definitions, else in the trees.
fn bad_attribute_in(
    definitions: &BTreeMap<String, Definition>,
    trees: &[PlacedTree],
) -> Option<ConstraintAt>
    ensures { result ≡ bad_attribute_in (map definition_entry definitions.now.entries) trees.now }
{
    if let Some(at) = bad_definition_at(definitions) {
        return Some(at);
    }
    refused_in(trees)
}

/// The first fault of definitions and of placed trees, apart from patterns.
pub(crate) fn first_fault<R: RuleSet>(
    rules: &R,
    definitions: &BTreeMap<String, Definition>,
    trees: &[PlacedTree],
) -> Option<PlacedFlattenFault>
    ensures { result ≡ first_fault (R.known rules.now) (map definition_entry definitions.now.entries) trees.now }
{
    if let Some(at) = unknown_rule_at(rules, definitions) {
        return Some(PlacedFlattenFault {
            fault: FlattenFault::UnknownRule,
            at: Some(at),
        });
    }
    if let Some(at) = bad_attribute_in(definitions, trees) {
        return Some(PlacedFlattenFault {
            fault: FlattenFault::Attribute,
            at: Some(at),
        });
    }
    if let Some(at) = misplaced_in(rules, trees) {
        return Some(PlacedFlattenFault {
            fault: FlattenFault::UnexpectedType,
            at: Some(at),
        });
    }
    None
}

/// The occurrences of placed trees, in their order: each tree read at its place. Constraints with
/// equal patterns share one.
pub(crate) fn read_trees(
    alloc: Global,
    trees: &[PlacedTree],
) -> Result<Vec<Occurrence>, PlacedFlattenFault>
    requires planned { All (λ p. IsPreorder (map planned_entry p.spots.items)) trees.now }
    requires attributes { list_any gets_refused trees.now ≡ false }
    requires places { (k : Known) × (list_any (is_misplaced k) trees.now ≡ false) }
    ensures taken { IfOk result (λ v. AllZip IsReadFrom trees.now v.items) }
    ensures refused { IfErr result (λ f. f.fault ≢ FlattenFault.Memory → (f.fault ≡ FlattenFault.BadPattern)
        × IsUnbuilt trees.now f.at × IsTrue (is_some f.at)) }
{
    let mut patterns = Patterns::new(alloc);
    let mut occurrences = Vec::with_capacity(alloc, trees.len())?;
    for (number, tree) in trees.iter().enumerate() {
        occurrences.push(read(alloc, &mut patterns, number, &tree.spots, tree.place)?)?;
    }
    Ok(occurrences)
}
