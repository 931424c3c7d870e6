//! The faults of declared constraints, and of attributes that constraints get, in words.
use crate::drafts::{Refused, at, entry_at};
use crate::say;
use crate::shown::{ATTRIBUTES, Named, Who, attribute_word};
use crate::told::{Found, Told, Untold, Written, push_words};
use crate::trees::node_at;
use fv_builtin::{kind_of_attribute, required_attributes};
use fv_constraint::{ConstraintAt, Meant, Planned, foreign_given, meant_by};
use fv_datum::{Attribute, AttributeKind, Attrs};
use fv_declare_definition::{Composing, Rule};
use fv_registry::RuleSet;

/// The most of a count.
const MOST_COUNT: i64 = 2147483647;

/// The kind of a constraint's attribute, if it has one of that name.
fn kind_in(meant: Meant, name: &str) -> Option<AttributeKind> {
    match meant {
        Meant::BuiltIn(which) => kind_of_attribute(which, name),
        Meant::Declared(definition) => Some(definition.attributes.get(name)?.kind),
    }
}

/// Adds that a constraint has no attribute of a name, and which it has.
fn unknown_attribute(out: &mut Found, (who, meant): (Who, Meant), name: &str) -> Written {
    let mut names = Vec::new(out.alloc);
    match meant {
        Meant::BuiltIn(which) => {
            for name in ATTRIBUTES {
                if kind_of_attribute(which, name).is_some() {
                    names.push(name)?;
                }
            }
        }
        Meant::Declared(definition) => {
            for (name, _) in definition.attributes.iter() {
                names.push(name.as_str())?;
            }
        }
    }
    say!(out; "{who} has no attribute {}; it has ", Named(name))?;
    push_words(out, &names, "none")
}

/// Adds what is wrong with an attribute of some kind that a constraint doesn't have, or has of another kind.
fn foreign(
    out: &mut Found,
    (who, meant): (Who, Meant),
    name: &str,
    kind: AttributeKind,
) -> Written {
    let Some(wanted) = kind_in(meant, name) else {
        return unknown_attribute(out, (who, meant), name);
    };
    let (wanted, kind) = (attribute_word(wanted), attribute_word(kind));
    say!(out; "attribute {} of {who} is of kind {wanted}, not {kind}", Named(name))
}

/// The attribute without a default that a constraint doesn't get.
fn lacking_of<'a>(planned: &'a Planned) -> Option<&'a str> {
    let is_lacking = |name: &&str| planned.with.find(name).is_none();
    match planned.meant {
        Meant::BuiltIn(which) => required_attributes(which).iter().copied().find(is_lacking),
        Meant::Declared(definition) => {
            let all = definition.attributes.iter();
            let required = all.filter(|(_, attribute)| attribute.default.is_none());
            required.map(|(name, _)| name.as_str()).find(is_lacking)
        }
    }
}

/// A whole number that an attribute is.
fn integer_at(with: &Attrs, name: &str) -> Option<i64> {
    match with.find(name)? {
        Attribute::Integer(number) => Some(*number),
        _ => None,
    }
}

/// Adds what a built-in constraint refuses of attributes of its own kinds.
fn refused(out: &mut Found, who: Who, with: &Attrs) -> Written {
    for name in ["min", "max", "integer", "fraction"] {
        match integer_at(with, name) {
            Some(number) if number < 0 || number > MOST_COUNT => {
                return say!(out; "{name} of {who} is from 0 to 2147483647, not {number}");
            }
            _ => {}
        }
    }
    let (min, max) = (integer_at(with, "min"), integer_at(with, "max"));
    match (min, max, with.find("value")) {
        (Some(min), Some(max), _) => say!(out; "max {max} of {who} is below min {min}"),
        (_, _, Some(Attribute::Text(value))) => {
            let value = Named(value.as_str());
            say!(out; "value of {who} is a decimal as \"12.5\", not {value}")
        }
        _ => say!(out; "{who} refuses its attributes"),
    }
}

/// Adds, at a use, why a constraint in its tree refuses the attributes that it gets: those of the used one stand in
/// the use.
pub(crate) fn refused_at(out: &mut Found, who: Who, planned: &Planned) -> Written {
    let stranger = foreign_given(planned.meant, &planned.with);
    if let (None, Some(name)) = (stranger, lacking_of(planned)) {
        return say!(out; "attribute \"{name}\" of {who} is missing");
    }
    if who.used.is_none() {
        out.member("with")?;
    }
    let Some(number) = stranger else {
        return refused(out, who, &planned.with);
    };
    let (name, value) = entry_at(planned.with.entries(), number)?;
    out.member(name)?;
    foreign(out, (who, planned.meant), name, value.kind())
}

/// A constraint that is neither built in nor declared.
pub(crate) fn unknown_constraint(out: &mut Found, name: &str) -> Written {
    say!(out; "constraint {} is neither built in nor declared", Named(name))
}

/// A declared constraint that asks nothing, or whose rule isn't there.
fn definition_at(refused: &Refused, out: &mut Found, number: usize) -> Written {
    let (name, definition) = entry_at(&refused.draft.definitions, number)?;
    out.path(&["constraints", name])?;
    match definition.rule {
        None => say!(out; "{name} has neither a rule nor a constraint that it is composed of"),
        Some(Rule::Data(rule)) => say!(out at "rule"; "there is no field rule {rule}"),
        Some(Rule::Objects(rule)) => say!(out at "rule"; "there is no object rule {rule}"),
    }
}

/// A default of another kind than its attribute.
fn default_at(refused: &Refused, out: &mut Found, number: usize, index: usize) -> Written {
    let (owner, definition) = entry_at(&refused.draft.definitions, number)?;
    let (name, attribute) = entry_at(&definition.attributes, index)?;
    let value = attribute.default.as_ref().ok_or(Untold::Absent)?;
    let (kind, other) = (attribute_word(attribute.kind), attribute_word(value.kind()));
    say!(out at "constraints", owner, "attributes", name, "default";
        "the attribute is of kind {kind}, its default of kind {other}"
    )
}

/// Who a composing constraint is, and what its name stands for.
fn meant_in<'a>(refused: &Refused<'a>, part: &'a Composing) -> Told<(Who<'a>, Meant<'a>)> {
    let constraint = part.constraint.as_str();
    let meant = meant_by(&refused.draft.definitions, constraint).ok_or(Untold::Absent)?;
    Ok((Who::in_tree(constraint, 0, constraint), meant))
}

/// An attribute that a composing constraint is given.
fn given_at(refused: &Refused, out: &mut Found, part: &Composing, given: usize) -> Written {
    let (name, value) = entry_at(part.with.entries(), given)?;
    out.path(&["with", name])?;
    foreign(out, meant_in(refused, part)?, name, value.kind())
}

/// An attribute of a composing constraint that is overridden by an outer one, of the declared constraint of a number.
fn overridden_at(
    refused: &Refused,
    out: &mut Found,
    (number, part): (usize, &Composing),
    overridden: usize,
) -> Written {
    let (owner, definition) = entry_at(&refused.draft.definitions, number)?;
    let owner = Who::in_tree(owner, 0, owner);
    let (name, outer) = entry_at(&part.overrides, overridden)?;
    let (who, meant) = meant_in(refused, part)?;
    out.path(&["override", name])?;
    if part.with.find(name).is_some() {
        return say!(out; "attribute {} of {who} stands in with too", Named(name));
    }
    match definition.attributes.get(outer.as_str()) {
        Some(attribute) => foreign(out, (who, meant), name, attribute.kind),
        None => unknown_attribute(out, (owner, Meant::Declared(definition)), outer.as_str()),
    }
}

/// An attribute of a composing constraint that is neither given nor overridden: of a built-in one by its number among
/// those that are required.
fn lacking_at(refused: &Refused, out: &mut Found, part: &Composing, lacking: usize) -> Written {
    let (who, meant) = meant_in(refused, part)?;
    let name = match meant {
        Meant::BuiltIn(which) => *at(required_attributes(which), lacking)?,
        Meant::Declared(definition) => entry_at(&definition.attributes, lacking)?.0,
    };
    say!(out; "attribute \"{name}\" of {who} is missing")
}

/// A fault of declared constraints, or of a constraint in the tree of a use.
pub(crate) fn constraint_at<R: RuleSet>(
    refused: &Refused,
    out: &mut Found,
    rules: &R,
    place: ConstraintAt,
) -> Written {
    match place {
        ConstraintAt::Definition(number) => definition_at(refused, out, number),
        ConstraintAt::Default(number, index) => default_at(refused, out, number, index),
        ConstraintAt::Composing(number, index) => {
            let part = refused.to_part(out, number, index)?;
            unknown_constraint(out, part.constraint.as_str())
        }
        ConstraintAt::Given(number, index, given) => {
            let part = refused.to_part(out, number, index)?;
            given_at(refused, out, part, given)
        }
        ConstraintAt::Overridden(number, index, overridden) => {
            let part = refused.to_part(out, number, index)?;
            overridden_at(refused, out, (number, part), overridden)
        }
        ConstraintAt::Lacking(number, index, lacking) => {
            let part = refused.to_part(out, number, index)?;
            lacking_at(refused, out, part, lacking)
        }
        ConstraintAt::Node(number, node) => node_at(refused, out, rules, (number, node)),
    }
}
