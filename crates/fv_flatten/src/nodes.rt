//! Planned trees as they are used: each constraint read at its place.
ghost use Rattle.std.specs.Prelude.{◌≡◌, ◌≢◌, ℕ, false, true, Some, None, Err, IfOk, IfErr, map, is_some, option_map, string_bytes};
ghost use Rattle.std.specs.List.{AllZip, list_any};
ghost use Rattle.fv_builtin.specs.Given.{drafted};
ghost use Rattle.fv_builtin.specs.declared.fault.BuiltinFault.TheVariants as fault;
ghost use Rattle.fv_registry.specs.Rules.{Known};
ghost use Rattle.fv_constraint.specs.Composed as spec;
ghost use Rattle.fv_constraint.specs.Meanings.{builtin};
ghost use Rattle.fv_constraint.specs.MeantView.{meant_view};
ghost use Rattle.fv_declare_definition.specs.DefinitionViews.{rule_view};
ghost use Rattle.fv_constraint_tree.specs.TargetViews.{target_view};
ghost use Rattle.fv_constraint.specs.PlannedViews.{planned_view, planned_entry};
ghost use Rattle.fv_flatten.specs.Read.{default_template, declared_template, template_of, is_single, asked, NodeAsks, IsEntry, IsReadTree, IsReadAs, refuses_its_given, refuses_at};
ghost use Rattle.fv_flatten.specs.Refusals.{refuses_place};
ghost use Rattle.fv_constraint_tree.specs.Preorder.{preorder, IsPreorder};
ghost use Rattle.fv_constraint_tree.specs.Trees.{Tree};
ghost use Rattle.fv_constraint_tree.specs.Views.{test_view, entry_view};
ghost use Rattle.fv_flatten.specs.Whereabouts.{IsUnbuiltAt};
ghost use Rattle.fv_first.specs.First.{IsFirstFrom, IsFirstIn};

use crate::fault::{FlattenFault, PlacedFlattenFault};
use fv_builtin::{Builtin, BuiltinFault, BuiltinName, Patterns};
use fv_constraint::{ConstraintAt, Meant, Planned, in_effect};
use fv_constraint_tree::{Node, Occurrence, Target, Test};
use fv_datum::Attrs;
use fv_declare_definition::Rule;
use fv_graph::Spot;
use std::alloc::{AllocError, Global};

/// What a built-in constraint asks at a place, its pattern built.
fn builtin_test(
    alloc: Global,
    patterns: &mut Patterns,
    which: BuiltinName,
    given: &Attrs,
    place: Target,
) -> Result<Test, FlattenFault>
    requires attributes { is_some (drafted which given.now) ≡ true }
    requires place { (k : Known) × (refuses_place k (builtin which) (target_view place) ≡ false) }
    ensures taken { IfOk result (λ test. NodeAsks (builtin which) (target_view place) given.now (test_view test)) }
    ensures refused { IfErr result (λ f. f ≢ FlattenFault.Memory → (f ≡ FlattenFault.BadPattern)
        × ((p : spec.Planned) → p.meant ≡ builtin which → p.given ≡ given.now → IsReadAs (target_view place) p (Err fault.BadPattern))) }
{
    let Target::Data(kind) = place else {
        unreachable!()
    };
    match Builtin::read_named(alloc, patterns, which, given, kind) {
        Ok(builtin) => Ok(Test::BuiltIn(builtin)),
        Err(BuiltinFault::Attribute) => unreachable!(),
        Err(BuiltinFault::UnexpectedType) => unreachable!(),
        Err(BuiltinFault::BadPattern) => Err(FlattenFault::BadPattern),
        Err(BuiltinFault::Memory) => Err(FlattenFault::Memory),
    }
}

/// What a declared constraint asks itself, by its rule.
fn asked(rule: Option<Rule>) -> Test
    ensures { test_view result ≡ asked (option_map rule_view rule) }
{
    match rule {
        None => Test::Nothing,
        Some(Rule::Data(number)) => Test::Rule(number),
        Some(Rule::Objects(number)) => Test::ObjectRule(number),
    }
}

/// What a planned constraint asks at a place, its pattern built.
fn test_of(
    alloc: Global,
    patterns: &mut Patterns,
    planned: &Planned,
    place: Target,
) -> Result<Test, FlattenFault>
    requires attributes { refuses_its_given (planned_view planned.now) ≡ false }
    requires place { (k : Known) × (refuses_at k (target_view place) (planned_view planned.now) ≡ false) }
    ensures taken { IfOk result (λ test. NodeAsks (planned_view planned.now).meant (target_view place) planned.now.with (test_view test)) }
    ensures refused { IfErr result (λ f. f ≢ FlattenFault.Memory → (f ≡ FlattenFault.BadPattern)
        × IsReadAs (target_view place) (planned_view planned.now) (Err fault.BadPattern)) }
{
    match planned.meant {
        Meant::BuiltIn(which) => builtin_test(alloc, patterns, which, &planned.with, place),
        Meant::Declared(definition) => Ok(asked(definition.rule)),
    }
}

/// The template of a message by default, by the constraint's name.
fn default_template(alloc: Global, name: &str, meant: Meant) -> Result<String, AllocError>
    ensures { IfOk result (λ s. string_bytes s ≡ default_template name.now (meant_view meant.entry)) }
{
    match meant {
        Meant::BuiltIn(_) => format!(in alloc; "{{jakarta.validation.constraints.{name}.message}}"),
        Meant::Declared(_) => format!(in alloc; "{{{name}.message}}"),
    }
}

/// The template that a constraint's declaration gives.
fn declared_template<'a>(meant: Meant<'a>) -> Option<&'a str>
    ensures { option_map (λ t. t.now) result ≡ declared_template (meant_view meant.entry) }
{
    match meant {
        Meant::BuiltIn(_) => None,
        Meant::Declared(definition) => match &definition.message {
            None => None,
            Some(template) => Some(template.as_str()),
        },
    }
}

/// The template of a planned constraint's message: its own, else that of its declaration, else the
/// default by its name.
fn template_of(alloc: Global, planned: &Planned) -> Result<String, AllocError>
    ensures { IfOk result (λ s. string_bytes s
        ≡ template_of planned.now.constraint.now (planned_view planned.now).meant (planned_view planned.now).own) }
{
    match planned.own.or(declared_template(planned.meant)) {
        Some(template) => String::from_str(alloc, template),
        None => default_template(alloc, planned.constraint, planned.meant),
    }
}

/// Whether a constraint reports as one.
fn is_single(meant: Meant) -> bool
    ensures { result ≡ is_single (meant_view meant.entry) }
{
    match meant {
        Meant::BuiltIn(_) => false,
        Meant::Declared(definition) => definition.single,
    }
}

/// A planned constraint read at a place, with the number of those below it.
fn node_of(
    alloc: Global,
    patterns: &mut Patterns,
    spot: &Spot<Planned>,
    place: Target,
) -> Result<Node, FlattenFault>
    requires attributes { refuses_its_given (planned_view spot.now.value) ≡ false }
    requires place { (k : Known) × (refuses_at k (target_view place) (planned_view spot.now.value) ≡ false) }
    ensures taken { IfOk result (λ n. IsEntry (target_view place) (planned_entry spot.now) (entry_view n)) }
    ensures refused { IfErr result (λ f. f ≢ FlattenFault.Memory → (f ≡ FlattenFault.BadPattern)
        × IsReadAs (target_view place) (planned_view spot.now.value) (Err fault.BadPattern)) }
{
    let planned = &spot.value;
    let test = test_of(alloc, patterns, planned, place)?;
    Ok(Node {
        constraint: String::from_str(alloc, planned.constraint)?,
        attributes: in_effect(alloc, planned.meant, &planned.with)?,
        test,
        single: is_single(planned.meant),
        message: template_of(alloc, planned)?,
        below: spot.below,
    })
}

/// The planned constraints below the root of the tree of use `used`, read at a place, one after
/// another.
fn nodes_of(
    alloc: Global,
    patterns: &mut Patterns,
    used: usize,
    spots: &[Spot<Planned>],
    place: Target,
) -> Result<Vec<Node>, PlacedFlattenFault>
    requires attributes { list_any refuses_its_given (map (λ s. planned_view s.value) spots.now) ≡ false }
    requires places { (k : Known) × (list_any (refuses_at k (target_view place)) (map (λ s. planned_view s.value) spots.now) ≡ false) }
    ensures taken { IfOk result (λ v. AllZip (IsEntry (target_view place)) (map planned_entry spots.now) (map entry_view v.items)) }
    ensures refused { IfErr result (λ f. f.fault ≢ FlattenFault.Memory → (f.fault ≡ FlattenFault.BadPattern)
        × ((n : ℕ) × (f.at ≡ Some (ConstraintAt.Node used n))
        × IsFirstFrom (IsUnbuiltAt (target_view place)) 1 (map (λ s. planned_view s.value) spots.now) (Some n))) }
{
    let mut nodes = Vec::with_capacity(alloc, spots.len())?;
    for (number, spot) in spots.iter().enumerate() {
        match node_of(alloc, patterns, spot, place) {
            Ok(node) => nodes.push(node)?,
            Err(fault) => {
                return Err(PlacedFlattenFault {
                    fault,
                    at: Some(ConstraintAt::Node(used, number + 1)),
                });
            }
        }
    }
    Ok(nodes)
}

/// The occurrence at a place of the planned tree of use `used`, given in preorder: each of its
/// constraints read there. Those with equal patterns share one among `patterns`; one that isn't
/// there yet is built and added.
///
/// `BadPattern` where the pattern of one of them isn't built, at the first of these.
pub(crate) fn read(
    alloc: Global,
    patterns: &mut Patterns,
    used: usize,
    spots: &[Spot<Planned>],
    place: Target,
) -> Result<Occurrence, PlacedFlattenFault>
    requires planned { IsPreorder (map planned_entry spots.now) }
    requires attributes { list_any refuses_its_given (map (λ s. planned_view s.value) spots.now) ≡ false }
    requires places { (k : Known) × (list_any (refuses_at k (target_view place)) (map (λ s. planned_view s.value) spots.now) ≡ false) }
    ensures taken { IfOk result (λ o. (t : Tree spec.Planned) → preorder t ≡ map planned_entry spots.now
        → IsReadTree (target_view place) t o) }
    ensures built { IfOk result (λ o. IsFirstIn (IsUnbuiltAt (target_view place)) (map (λ s. planned_view s.value) spots.now) None) }
    ensures refused { IfErr result (λ f. f.fault ≢ FlattenFault.Memory → (f.fault ≡ FlattenFault.BadPattern)
        × ((n : ℕ) × (f.at ≡ Some (ConstraintAt.Node used n))
        × IsFirstIn (IsUnbuiltAt (target_view place)) (map (λ s. planned_view s.value) spots.now) (Some n))) }
{
    let Some((first, behind)) = spots.split_first() else {
        unreachable!()
    };
    let root = match node_of(alloc, patterns, first, place) {
        Ok(root) => root,
        Err(fault) => {
            return Err(PlacedFlattenFault {
                fault,
                at: Some(ConstraintAt::Node(used, 0)),
            });
        }
    };
    let below = nodes_of(alloc, patterns, used, behind, place)?;
    Ok(Occurrence::new(root, below))
}
