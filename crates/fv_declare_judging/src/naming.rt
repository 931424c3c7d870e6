//! Names that are declared.
ghost use Rattle.std.specs.Prelude.{◌≡◌, map, not, is_some};
ghost use Rattle.std.specs.List.{list_any};
ghost use Rattle.std.specs.Str.{bytes_eq};
ghost use Rattle.fv_declare_definition.specs.DefinitionViews.{attribute_entry, definition_entry};
ghost use Rattle.fv_declare_draft.specs.DraftViews.{field_view, type_view, form_view, group_view, draft_view};
ghost use Rattle.fv_first.specs.First.{first_in};
ghost use Rattle.fv_declare_judging.specs.NamePlaces as place;
ghost use Rattle.fv_declare_judging.specs.Naming.{is_bad_group};

use crate::placed::NamesAt;
use fv_builtin::is_builtin;
use fv_datum::is_name;
use fv_declare_definition::{AttributeDefinition, Definition};
use fv_declare_draft::{Draft, FieldDraft, FormDraft, GroupDraft, TypeDraft};
use std::collections::BTreeMap;

/// The first field that is named as no name.
#[tactic(auto, using(crate::proofs::FirstTurns::field_turn))]
fn bad_field(fields: &[FieldDraft]) -> Option<usize>
    ensures { result ≡ place.bad_field (map field_view fields.now) }
{
    for (number, field) in fields.iter().enumerate() {
        if !is_name(field.name) {
            return Some(number);
        }
    }
    None
}

/// A type that is named as no name or as the group that is always there, or its field that is named as no name.
#[tactic(auto, using(crate::proofs::FirstTurns::type_turn))]
fn bad_type(types: &[TypeDraft]) -> Option<NamesAt>
    ensures { result ≡ first_in place.bad_type (map type_view types.now) }
{
    for (number, declared) in types.iter().enumerate() {
        if !is_name(declared.name) || declared.name == "Default" {
            return Some(NamesAt::Type(number));
        }
        if let Some(field) = bad_field(&declared.fields) {
            return Some(NamesAt::Field(number, field));
        }
    }
    None
}

/// The first form that is named as no name.
#[tactic(auto, using(crate::proofs::FirstTurns::form_turn))]
fn bad_form(forms: &[FormDraft]) -> Option<NamesAt>
    ensures { result ≡ place.bad_form (map form_view forms.now) }
{
    for (number, form) in forms.iter().enumerate() {
        if !is_name(form.name) {
            return Some(NamesAt::Form(number));
        }
    }
    None
}

/// The first attribute that is named as no name.
#[tactic(auto, using(fv_first::proofs::Turns::entry_turn))]
fn bad_attribute(attributes: &BTreeMap<String, AttributeDefinition>) -> Option<usize>
    ensures { result ≡ place.bad_attribute (map attribute_entry attributes.now.entries) }
{
    for (number, (name, _)) in attributes.iter().enumerate() {
        if !is_name(name.as_str()) {
            return Some(number);
        }
    }
    None
}

/// A constraint that is named as no name or like a built-in, or its attribute that is named as no name.
#[tactic(auto, using(fv_first::proofs::Turns::entry_turn))]
fn bad_definition(definitions: &BTreeMap<String, Definition>) -> Option<NamesAt>
    ensures { result ≡ first_in place.bad_definition (map definition_entry definitions.now.entries) }
{
    for (number, (name, definition)) in definitions.iter().enumerate() {
        if !is_name(name.as_str()) || is_builtin(name.as_str()) {
            return Some(NamesAt::Definition(number));
        }
        if let Some(attribute) = bad_attribute(&definition.attributes) {
            return Some(NamesAt::Attribute(number, attribute));
        }
    }
    None
}

/// Whether a type has the name.
fn is_type(draft: &Draft, name: &str) -> bool
    ensures { result ≡ list_any (λ t. bytes_eq name.now t.name) (draft_view draft.now).types }
{
    draft
        .types
        .binary_search_by(|declared| declared.name.cmp(name))
        .is_ok()
}

/// Whether a group is named as no name, as the group that is always there, or like a type.
fn is_bad_group(draft: &Draft, group: &GroupDraft) -> bool
    ensures { result ≡ is_bad_group (draft_view draft.now).types (group_view group.now) }
{
    !is_name(group.name) || group.name == "Default" || is_type(draft, group.name)
}

/// The first group whose name is bad.
#[tactic(auto, using(crate::proofs::FirstTurns::group_turn))]
fn bad_group(draft: &Draft, groups: &[GroupDraft]) -> Option<NamesAt>
    ensures { result ≡ place.bad_group (draft_view draft.now).types (map group_view groups.now) }
{
    for (number, group) in groups.iter().enumerate() {
        if is_bad_group(draft, group) {
            return Some(NamesAt::Group(number));
        }
    }
    None
}

/// The first declared name that is no name or is taken: `Default` declared, a group named like a type, or a
/// constraint named like a built-in.
pub(crate) fn bad_name(draft: &Draft) -> Option<NamesAt>
    ensures { result ≡ place.bad_name (draft_view draft.now) }
{
    if let Some(at) = bad_type(&draft.types) {
        return Some(at);
    }
    if let Some(at) = bad_form(&draft.forms) {
        return Some(at);
    }
    if let Some(at) = bad_definition(&draft.definitions) {
        return Some(at);
    }
    bad_group(draft, &draft.groups)
}
