//! Uses of constraints as what they are composed of.
ghost use Rattle.std.specs.Prelude.{◌≡◌, ◌≢◌, ◌∷◌, [], List, true, false, Ok, Err, IfOk, IfErr, map, is_some};
ghost use Rattle.std.specs.List.{AllZip};
ghost use Rattle.fv_constraint.specs.Meanings.{composes_unknown, meant_by};
ghost use Rattle.fv_declare_definition.specs.DefinitionViews.{definition_entry};
ghost use Rattle.fv_constraint_tree.specs.TargetFits.{tree_fits};
ghost use Rattle.fv_constraint.specs.Composed.{Planned};
ghost use Rattle.fv_flatten.specs.Flattening.{uses_unknown, AreTreesOfUses, FlattensAll, Flattens};
ghost use Rattle.fv_flatten.specs.Whereabouts.{IsAt};
ghost use Rattle.fv_constraint_tree.specs.Trees.{Tree};
ghost use Rattle.fv_constraint_tree.specs.TargetViews.{target_view};
ghost use Rattle.fv_flatten.specs.UseViews.{use_view};

use crate::fault::{FlattenFault, PlacedFlattenFault};
use crate::placed::{first_fault, plan_uses, read_trees};
use crate::used::Use;
use fv_constraint::{Composition, ConstraintAt, empty_definition};
use fv_constraint_tree::Occurrence;
use fv_declare_definition::Definition;
use fv_registry::RuleSet;
use std::alloc::Global;
use std::collections::BTreeMap;

/// The most constraints in the tree of one use.
const MOST_NODES: usize = 1024;

/// The occurrences of uses, in their order: each use's constraint and those that it is composed of,
/// with their attributes in effect and the templates of their messages, read at the use's place. Each tree is planned once, and
/// constraints with equal patterns share one.
///
/// Refused by `UnknownRule`, then by `Attribute`, then by `UnexpectedType`, then by `BadPattern`,
/// each at the first place that has the fault: definitions come before trees; by `Memory` at any
/// place.
pub fn flatten_all<'a, R: RuleSet>(
    alloc: Global,
    rules: &R,
    composition: &Composition<'a>,
    uses: &[Use<'a>],
) -> Result<Vec<Occurrence>, PlacedFlattenFault>
    requires { uses_unknown composition.now (map use_view uses.now) ≡ false }
    ensures taken { IfOk result (λ v. FlattensAll (R.known rules.now) composition.now (map use_view uses.now) (Ok v.items)) }
    ensures refused { IfErr result (λ f. f.fault ≢ FlattenFault.Memory
        → FlattensAll (R.known rules.now) composition.now (map use_view uses.now) (Err f.fault)) }
    ensures placed { IfErr result (λ f. f.fault ≢ FlattenFault.Memory
        → (ts : List (Tree Planned)) → AreTreesOfUses composition.now (map use_view uses.now) ts
        → IsAt (R.known rules.now) composition.now (map use_view uses.now) ts f.fault f.at) }
    ensures fits { IfOk result (λ v. AllZip (λ u o. tree_fits (R.known rules.now) u.place o ≡ true)
        (map use_view uses.now) v.items) }
{
    let trees = plan_uses(alloc, composition, uses)?;
    match first_fault(rules, composition.definitions(), &trees) {
        Some(fault) => Err(fault),
        None => read_trees(alloc, &trees),
    }
}

/// The occurrence of one use: its constraint and those that it is composed of, with their attributes
/// in effect and the templates of their messages, read at the use's place.
///
/// Refused by `CyclicComposition`, then by `EmptyConstraint`, then by `TooLarge` (more than 1,024
/// constraints in the tree), then by `UnknownRule`, `Attribute`, `UnexpectedType` and `BadPattern`,
/// in this order; by `Memory` at any place.
pub fn flatten<R: RuleSet>(
    alloc: Global,
    rules: &R,
    definitions: &BTreeMap<String, Definition>,
    used: &Use,
) -> Result<Occurrence, FlattenFault>
    requires composed { composes_unknown (map definition_entry definitions.now.entries) ≡ false }
    requires named { is_some (meant_by (map definition_entry definitions.now.entries) used.now.constraint.now) ≡ true }
    ensures taken { IfOk result (λ o. Flattens (R.known rules.now) (map definition_entry definitions.now.entries)
        (use_view used.now) (Ok o)) }
    ensures refused { IfErr result (λ f. f ≢ FlattenFault.Memory
        → Flattens (R.known rules.now) (map definition_entry definitions.now.entries) (use_view used.now) (Err f)) }
    ensures fits { IfOk result (λ o. tree_fits (R.known rules.now) (target_view used.now.place) o ≡ true) }
{
    let Some(composition) = Composition::new(alloc, definitions)? else {
        return Err(FlattenFault::CyclicComposition);
    };
    let size = composition.size_of(used.constraint);
    if empty_definition(definitions).is_some() {
        return Err(FlattenFault::EmptyConstraint);
    }
    if size > MOST_NODES {
        return Err(FlattenFault::TooLarge);
    }
    let mut occurrences = flatten_all(alloc, rules, &composition, &[*used])?;
    let Some(occurrence) = occurrences.pop() else {
        unreachable!()
    };
    Ok(occurrence)
}
