//! What is refused of definitions, whether they are used or not.
ghost use Rattle.std.specs.Prelude.{◌≡◌, map, is_some};
ghost use Rattle.fv_declare_definition.specs.DefinitionViews.{definition_view, definition_entry};
ghost use Rattle.fv_constraint.specs.Refusals.{is_empty_in};
ghost use Rattle.fv_constraint.specs.Whereabouts.{empty_definition, unknown_rule_at, refused_composing, bad_in, bad_definition_at};
ghost use Rattle.fv_first.specs.First.{first_in};

use crate::at::ConstraintAt;
use crate::composing::refused_composing;
use crate::refusals::{asks_unknown_rule, bad_default, is_empty};
use fv_declare_definition::Definition;
use fv_registry::RuleSet;
use std::collections::BTreeMap;

/// The number of the first definition with neither a rule nor a composing constraint.
pub fn empty_definition(definitions: &BTreeMap<String, Definition>) -> Option<usize>
    ensures place { result ≡ empty_definition (map definition_entry definitions.now.entries) }
    ensures found { is_some result ≡ is_empty_in (map definition_entry definitions.now.entries) }
{
    for (number, (_, definition)) in definitions.iter().enumerate() {
        if is_empty(definition) {
            return Some(number);
        }
    }
    None
}

/// The first definition whose rule isn't registered for its sort.
pub fn unknown_rule_at<R: RuleSet>(
    rules: &R,
    definitions: &BTreeMap<String, Definition>,
) -> Option<ConstraintAt>
    ensures { result ≡ unknown_rule_at (R.known rules.now) (map definition_entry definitions.now.entries) }
{
    for (number, (_, definition)) in definitions.iter().enumerate() {
        if asks_unknown_rule(rules, definition) {
            return Some(ConstraintAt::Definition(number));
        }
    }
    None
}

/// What is refused first of the composing constraints of the definition of that number.
#[tactic(auto, using(crate::proofs::FirstTurns::composing_turn))]
fn refused_among(
    definitions: &BTreeMap<String, Definition>,
    definition: &Definition,
    number: usize,
) -> Option<ConstraintAt>
    ensures { result ≡ first_in (refused_composing (map definition_entry definitions.now.entries) (definition_view definition.now) number)
        (definition_view definition.now).composing }
{
    for (place, composing) in definition.composing.iter().enumerate() {
        if let Some(at) = refused_composing(definitions, definition, number, place, composing) {
            return Some(at);
        }
    }
    None
}

/// What is refused first of the definition of that number: a default of another kind than its
/// attribute, else a composing constraint.
fn bad_in(
    definitions: &BTreeMap<String, Definition>,
    definition: &Definition,
    number: usize,
) -> Option<ConstraintAt>
    ensures { result ≡ bad_in (map definition_entry definitions.now.entries) number (definition_view definition.now) }
{
    if let Some(attribute) = bad_default(definition) {
        return Some(ConstraintAt::Default(number, attribute));
    }
    refused_among(definitions, definition, number)
}

/// What is refused first of definitions.
pub fn bad_definition_at(definitions: &BTreeMap<String, Definition>) -> Option<ConstraintAt>
    ensures { result ≡ bad_definition_at (map definition_entry definitions.now.entries) }
{
    for (number, (_, definition)) in definitions.iter().enumerate() {
        if let Some(at) = bad_in(definitions, definition, number) {
            return Some(at);
        }
    }
    None
}
