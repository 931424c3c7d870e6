//! What is refused of the constraints that definitions are composed of.
ghost use Rattle.std.specs.Prelude.{◌≡◌, map};
ghost use Rattle.fv_builtin.specs.Given.{has_kind};
ghost use Rattle.fv_constraint.specs.Meanings.{builtin, declared};
ghost use Rattle.fv_declare_definition.specs.DefinitionViews.{composing_view, definition_view, definition_entry};
ghost use Rattle.fv_constraint.specs.MeantView.{meant_view};
ghost use Rattle.fv_constraint.specs.Composing.{signature_attributes, kind_in, are_alike, is_set};
ghost use Rattle.fv_constraint.specs.Whereabouts.{foreign_given, unsuited_override, lacking_attribute, unsuited_at, refused_composing};

use crate::at::ConstraintAt;
use crate::meant::{Meant, meant_by};
use fv_builtin::{BuiltinName, kind_of_attribute, required_attributes};
use fv_datum::{AttributeKind, Attrs};
use fv_declare_definition::{Composing, Definition};
use std::collections::BTreeMap;

/// The kind of a declared constraint's attribute, if it has one of that name.
fn declared_kind(definition: &Definition, name: &str) -> Option<AttributeKind>
    ensures { result ≡ kind_in (signature_attributes (declared (definition_view definition.now))) name.now }
{
    match definition.attributes.get(name) {
        None => None,
        Some(attribute) => Some(attribute.kind),
    }
}

/// The kind of a constraint's attribute, if it has one of that name.
fn kind_in(meant: Meant, name: &str) -> Option<AttributeKind>
    ensures { result ≡ kind_in (signature_attributes (meant_view meant.entry)) name.now }
{
    match meant {
        Meant::BuiltIn(which) => kind_of_attribute(which, name),
        Meant::Declared(definition) => declared_kind(definition, name),
    }
}

/// Whether an attribute is there, of this kind.
pub(crate) fn has_kind(found: Option<AttributeKind>, kind: AttributeKind) -> bool
    ensures { result ≡ has_kind found kind }
{
    match found {
        None => false,
        Some(other) => other == kind,
    }
}

/// Whether two attributes are there, and of the same kind.
fn are_alike(one: Option<AttributeKind>, other: Option<AttributeKind>) -> bool
    ensures { result ≡ are_alike one other }
{
    match one {
        None => false,
        Some(kind) => has_kind(other, kind),
    }
}

/// The first attribute that is given and that the constraint doesn't have, or has with another kind.
pub fn foreign_given(meant: Meant, given: &Attrs) -> Option<usize>
    ensures { result ≡ foreign_given (signature_attributes (meant_view meant.entry)) given.now }
{
    for (number, (name, value)) in given.entries().iter().enumerate() {
        if !has_kind(kind_in(meant, name.as_str()), value.kind()) {
            return Some(number);
        }
    }
    None
}

/// The first overridden attribute that isn't one of the composing constraint, or whose value is
/// that of what isn't an attribute of the composed constraint, or of one of another kind, or that
/// is given as well.
fn unsuited_override(composed: Meant, meant: Meant, composing: &Composing) -> Option<usize>
    ensures { result ≡ unsuited_override (signature_attributes (meant_view composed.entry)) (signature_attributes (meant_view meant.entry))
        (composing_view composing.now) }
{
    for (number, (name, outer)) in composing.overrides.iter().enumerate() {
        if !are_alike(
            kind_in(meant, name.as_str()),
            kind_in(composed, outer.as_str()),
        ) || composing.with.find(name.as_str()).is_some()
        {
            return Some(number);
        }
    }
    None
}

/// Whether an attribute is given or overridden.
fn is_set(composing: &Composing, name: &str) -> bool
    ensures { result ≡ is_set (composing_view composing.now) name.now }
{
    composing.with.find(name).is_some() || composing.overrides.contains_key(name)
}

/// The first of the attributes that a built-in constraint requires that is neither given nor
/// overridden.
#[tactic(auto, using(fv_first::proofs::Turns::name_turn))]
fn lacking_required(which: BuiltinName, composing: &Composing) -> Option<usize>
    ensures { result ≡ lacking_attribute (builtin which) (composing_view composing.now) }
{
    for (number, name) in required_attributes(which).iter().enumerate() {
        if !is_set(composing, name) {
            return Some(number);
        }
    }
    None
}

/// The first of a declared constraint's attributes that has no default and is neither given nor
/// overridden.
fn lacking_declared(definition: &Definition, composing: &Composing) -> Option<usize>
    ensures { result ≡ lacking_attribute (declared (definition_view definition.now)) (composing_view composing.now) }
{
    for (number, (name, attribute)) in definition.attributes.iter().enumerate() {
        if attribute.default.is_none() && !is_set(composing, name.as_str()) {
            return Some(number);
        }
    }
    None
}

/// The first attribute without default that is neither given nor overridden.
fn lacking_attribute(meant: Meant, composing: &Composing) -> Option<usize>
    ensures { result ≡ lacking_attribute (meant_view meant.entry) (composing_view composing.now) }
{
    match meant {
        Meant::BuiltIn(which) => lacking_required(which, composing),
        Meant::Declared(definition) => lacking_declared(definition, composing),
    }
}

/// What first doesn't suit a composing constraint whose name stands for `meant`: an attribute that
/// is given or overridden, or one that is neither.
fn unsuited_at(
    composed: Meant,
    meant: Meant,
    number: usize,
    place: usize,
    composing: &Composing,
) -> Option<ConstraintAt>
    ensures { result ≡ unsuited_at (signature_attributes (meant_view composed.entry)) (meant_view meant.entry) number place
        (composing_view composing.now) }
{
    if let Some(given) = foreign_given(meant, &composing.with) {
        return Some(ConstraintAt::Given(number, place, given));
    }
    if let Some(overridden) = unsuited_override(composed, meant, composing) {
        return Some(ConstraintAt::Overridden(number, place, overridden));
    }
    if let Some(lacking) = lacking_attribute(meant, composing) {
        return Some(ConstraintAt::Lacking(number, place, lacking));
    }
    None
}

/// What is refused first of a definition's composing constraint, both told by their numbers: that
/// it is neither built in nor declared, an attribute that is given or overridden and that it
/// doesn't have, or of another kind, one that is both given and overridden, or one without default
/// that is neither.
pub(crate) fn refused_composing(
    definitions: &BTreeMap<String, Definition>,
    definition: &Definition,
    number: usize,
    place: usize,
    composing: &Composing,
) -> Option<ConstraintAt>
    ensures { result ≡ refused_composing (map definition_entry definitions.now.entries) (definition_view definition.now) number place
        (composing_view composing.now) }
{
    let Some(meant) = meant_by(definitions, composing.constraint.as_str()) else {
        return Some(ConstraintAt::Composing(number, place));
    };
    unsuited_at(Meant::Declared(definition), meant, number, place, composing)
}
