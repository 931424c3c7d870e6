//! What is refused of the constraints in trees, and of the places where these stand.
ghost use Rattle.std.specs.Prelude.{◌≡◌, map, option_map};
ghost use Rattle.fv_declare_definition.specs.DefinitionViews.{attribute_entry, rule_view};
ghost use Rattle.fv_constraint.specs.MeantView.{meant_view};
ghost use Rattle.fv_constraint_tree.specs.TargetViews.{target_view};
ghost use Rattle.fv_flatten.specs.Refusals.{lacks_value, refuses_given, rule_refuses, refuses_place};

use fv_builtin::{takes_attributes, takes_kind};
use fv_constraint::{Meant, foreign_given, value_of};
use fv_constraint_tree::Target;
use fv_datum::Attrs;
use fv_declare_definition::{AttributeDefinition, Rule};
use fv_registry::RuleSet;
use std::collections::BTreeMap;

/// Whether an attribute has no value in effect.
fn lacks_value(attributes: &BTreeMap<String, AttributeDefinition>, given: &Attrs) -> bool
    ensures { result ≡ lacks_value (map attribute_entry attributes.now.entries) given.now }
{
    for (name, attribute) in attributes.iter() {
        if value_of(attribute, given, name.as_str()).is_none() {
            return true;
        }
    }
    false
}

/// Whether a rule isn't of the place's sort, or doesn't take its kind.
fn rule_refuses<R: RuleSet>(rules: &R, rule: Option<Rule>, place: Target) -> bool
    ensures { result ≡ rule_refuses (R.known rules.now) (option_map rule_view rule) (target_view place) }
{
    match (rule, place) {
        (None, _) => false,
        (Some(Rule::Data(number)), Target::Data(kind)) => !rules.takes(number, kind),
        (Some(Rule::Objects(_)), Target::Object) => false,
        _ => true,
    }
}

/// Whether a constraint refuses the attributes that are given.
pub(crate) fn refuses_given(meant: Meant, given: &Attrs) -> bool
    ensures { result ≡ refuses_given (meant_view meant.entry) given.now }
{
    match meant {
        Meant::BuiltIn(which) => !takes_attributes(which, given),
        Meant::Declared(definition) => {
            foreign_given(meant, given).is_some() || lacks_value(&definition.attributes, given)
        }
    }
}

/// Whether a constraint's own test isn't on the place.
pub(crate) fn refuses_place<R: RuleSet>(rules: &R, meant: Meant, place: Target) -> bool
    ensures { result ≡ refuses_place (R.known rules.now) (meant_view meant.entry) (target_view place) }
{
    match (meant, place) {
        (Meant::BuiltIn(_), Target::Object) => true,
        (Meant::BuiltIn(which), Target::Data(kind)) => !takes_kind(which, kind),
        (Meant::Declared(definition), _) => rule_refuses(rules, definition.rule, place),
    }
}
