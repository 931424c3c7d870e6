//! What is refused of definitions.
ghost use Rattle.std.specs.Prelude.{◌≡◌, option_map};
ghost use Rattle.fv_datum.specs.Attributes.{attribute_view};
ghost use Rattle.fv_declare_definition.specs.DefinitionViews.{definition_view};
ghost use Rattle.fv_constraint.specs.Refusals.{is_empty, is_unknown_rule, is_other_kind};
ghost use Rattle.fv_constraint.specs.Whereabouts.{bad_default_at};

use crate::composing::has_kind;
use fv_datum::{Attribute, AttributeKind};
use fv_declare_definition::{Definition, Rule};
use fv_registry::RuleSet;

/// Whether a definition has neither a rule nor a composing constraint.
pub(crate) fn is_empty(definition: &Definition) -> bool
    ensures { result ≡ is_empty (definition_view definition.now) }
{
    definition.rule.is_none() && definition.composing.is_empty()
}

/// The first of a definition's attributes whose default is of another kind.
pub(crate) fn bad_default(definition: &Definition) -> Option<usize>
    ensures { result ≡ bad_default_at (definition_view definition.now) }
{
    for (number, (_, attribute)) in definition.attributes.iter().enumerate() {
        if is_other_kind(attribute.kind, attribute.default.as_ref()) {
            return Some(number);
        }
    }
    None
}

/// Whether a definition's rule isn't registered for its sort.
pub(crate) fn asks_unknown_rule<R: RuleSet>(rules: &R, definition: &Definition) -> bool
    ensures { result ≡ is_unknown_rule (R.known rules.now) (definition_view definition.now).rule }
{
    match definition.rule {
        None => false,
        Some(Rule::Data(number)) => !rules.knows_field(number),
        Some(Rule::Objects(number)) => !rules.knows_object(number),
    }
}

/// Whether a default is of another kind than its attribute.
fn is_other_kind(kind: AttributeKind, default: Option<&Attribute>) -> bool
    ensures { result ≡ is_other_kind kind (option_map (λ a. attribute_view a.now) default.entry) }
{
    match default {
        None => false,
        Some(value) => !has_kind(Some(kind), value.kind()),
    }
}
