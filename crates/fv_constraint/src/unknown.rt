//! Constraints that are neither built in nor declared.
ghost use Rattle.std.specs.Prelude.{◌≡◌, map, not, is_some};
ghost use Rattle.fv_constraint.specs.Meanings.{composes_unknown, meant_by};
ghost use Rattle.fv_constraint.specs.Whereabouts.{unknown_composing};
ghost use Rattle.fv_declare_definition.specs.DefinitionViews.{definition_entry, definition_view};
ghost use Rattle.fv_first.specs.First.{first_where};

use crate::at::ConstraintAt;
use crate::meant::meant_by;
use fv_declare_definition::Definition;
use std::collections::BTreeMap;

/// The first of a definition's composing constraints that is neither built in nor declared.
#[tactic(auto, using(crate::proofs::FirstTurns::composing_turn))]
fn unknown_in(definitions: &BTreeMap<String, Definition>, definition: &Definition) -> Option<usize>
    ensures { result ≡ first_where (λ c. not (is_some (meant_by (map definition_entry definitions.now.entries) c.constraint)))
        (definition_view definition.now).composing }
{
    for (number, constraint) in definition.composing.iter().enumerate() {
        if meant_by(definitions, constraint.constraint.as_str()).is_none() {
            return Some(number);
        }
    }
    None
}

/// Where a definition is composed of a constraint that is neither built in nor declared: the first
/// such composing constraint.
pub fn unknown_composing(definitions: &BTreeMap<String, Definition>) -> Option<ConstraintAt>
    ensures place { result ≡ unknown_composing (map definition_entry definitions.now.entries) }
    ensures found { is_some result ≡ composes_unknown (map definition_entry definitions.now.entries) }
{
    for (number, (_, definition)) in definitions.iter().enumerate() {
        if let Some(place) = unknown_in(definitions, definition) {
            return Some(ConstraintAt::Composing(number, place));
        }
    }
    None
}
