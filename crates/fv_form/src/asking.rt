//! What each form asks of a value.
ghost use Rattle.std.specs.Prelude.{◌≡◌, IfSome, is_some};
ghost use Rattle.serde_json.specs.View.{view as json_view};
ghost use Rattle.fv_form.specs.Asked.{asked, is_fixed};
ghost use Rattle.fv_form.specs.Declarations.{value_form, group_form, sequence_form, held_form, container_form};
ghost use Rattle.fv_form.specs.Entries.{leaf};
ghost use Rattle.fv_form.specs.FormViews.{form_view};

use crate::commands::{
    command_form, groups_form, is_command_name, is_part_name, part_form, parts_form,
};
use crate::form::ValueForm;
use crate::form_name::FormName;
use crate::tables::{
    ATTRIBUTE, BUNDLE, COMPOSING, DECLARATIONS, DEFINITION, FORM, LIST, MAP, OBJECT, OPTIONAL,
    PLACE, PLAIN_GROUP, REFERENCE, SEQUENCE, TYPE, USE,
};
use fv_declare_definition::{kind_named, rule_of};
use fv_declare_draft::plain_use;
use fv_engine_command::{id_in, limit_in};
use serde_json::Value;

/// A value that is as it has to be by itself, or not.
fn leaf(fits: bool) -> ValueForm
    ensures { form_view result ≡ leaf fits }
{
    if fits {
        ValueForm::Fits
    } else {
        ValueForm::Unfit
    }
}

/// What is asked of a value that an attribute has.
fn value_form(value: &Value) -> ValueForm
    ensures { form_view result ≡ value_form (json_view value.now) }
{
    if value.as_array().is_some() {
        return ValueForm::Items(FormName::Text);
    }
    leaf(value.as_str().is_some() || value.as_bool().is_some() || value.as_i64().is_some())
}

/// What is asked of a group, by whether it has a sequence.
fn group_form(value: &Value) -> ValueForm
    ensures { form_view result ≡ group_form (json_view value.now) }
{
    if value.get("sequence").is_some() {
        ValueForm::Object(&SEQUENCE)
    } else {
        ValueForm::Object(&PLAIN_GROUP)
    }
}

/// What is asked of a sequence, which has at least one member.
fn sequence_form(value: &Value) -> ValueForm
    ensures { form_view result ≡ sequence_form (json_view value.now) }
{
    match value.as_array() {
        None => ValueForm::Items(FormName::Text),
        Some(names) => {
            if names.is_empty() {
                ValueForm::Unfit
            } else {
                ValueForm::Items(FormName::Text)
            }
        }
    }
}

/// What is asked of a type that is no plain kind, by the member that it has.
fn container_form(value: &Value) -> ValueForm
    ensures { form_view result ≡ container_form (json_view value.now) }
{
    if value.get("list").is_some() {
        ValueForm::Object(&LIST)
    } else if value.get("optional").is_some() {
        ValueForm::Object(&OPTIONAL)
    } else if value.get("map").is_some() {
        ValueForm::Object(&MAP)
    } else {
        ValueForm::Object(&REFERENCE)
    }
}

/// What is asked of an attribute's kind.
fn kind_form(value: &Value) -> ValueForm
    ensures { form_view result ≡ asked FormName.AttributeKind (json_view value.now) }
{
    match value.as_str() {
        None => ValueForm::Unfit,
        Some(name) => leaf(kind_named(name).is_some()),
    }
}

/// What is asked of what a place holds.
fn held_form(value: &Value) -> ValueForm
    ensures { form_view result ≡ held_form (json_view value.now) }
{
    match value.as_str() {
        Some(name) => leaf(plain_use(name).is_some()),
        None => container_form(value),
    }
}

/// What a form asks, where it asks the same of each value; nothing where that is by the value.
fn fixed_form(form: FormName) -> Option<ValueForm>
    ensures fixed { IfSome result (λ fixed. (j : _) → form_view fixed ≡ asked form j) }
    ensures some { is_some result ≡ is_fixed form }
{
    Some(match form {
        FormName::Declarations => ValueForm::Object(&DECLARATIONS),
        FormName::Types => ValueForm::Members(FormName::Type),
        FormName::Type => ValueForm::Object(&TYPE),
        FormName::Fields => ValueForm::Members(FormName::Place),
        FormName::Forms => ValueForm::Members(FormName::Form),
        FormName::Form => ValueForm::Object(&FORM),
        FormName::Groups => ValueForm::Members(FormName::Group),
        FormName::Definitions => ValueForm::Members(FormName::Definition),
        FormName::Definition => ValueForm::Object(&DEFINITION),
        FormName::Attributes => ValueForm::Members(FormName::Attribute),
        FormName::Attribute => ValueForm::Object(&ATTRIBUTE),
        FormName::Compose => ValueForm::Items(FormName::Composing),
        FormName::Composing => ValueForm::Object(&COMPOSING),
        FormName::Override => ValueForm::Members(FormName::Text),
        FormName::Messages => ValueForm::Members(FormName::Text),
        FormName::Place => ValueForm::Object(&PLACE),
        FormName::Uses => ValueForm::Items(FormName::Use),
        FormName::Use => ValueForm::Object(&USE),
        FormName::With => ValueForm::Members(FormName::Value),
        FormName::Convert => ValueForm::Members(FormName::Text),
        FormName::Names => ValueForm::Items(FormName::Text),
        FormName::Bundle => ValueForm::Object(&BUNDLE),
        FormName::Objects => ValueForm::Members(FormName::Object),
        FormName::Object => ValueForm::Object(&OBJECT),
        FormName::Given => ValueForm::Members(FormName::Any),
        FormName::Any => ValueForm::Fits,
        FormName::Group | FormName::Sequence | FormName::Held | FormName::Value => return None,
        FormName::AttributeKind | FormName::Rule | FormName::Text | FormName::Flag => return None,
        FormName::Command | FormName::Part | FormName::Parts | FormName::AskedGroups => return None,
        FormName::CommandName | FormName::PartName | FormName::Id | FormName::Limit => return None,
    })
}

/// What a form asks of a value.
pub fn ask(form: FormName, value: &Value) -> ValueForm
    ensures { form_view result ≡ asked form (json_view value.now) }
{
    if let Some(fixed) = fixed_form(form) {
        return fixed;
    }
    match form {
        FormName::Group => group_form(value),
        FormName::Sequence => sequence_form(value),
        FormName::AttributeKind => kind_form(value),
        FormName::Rule => leaf(rule_of(value).is_some()),
        FormName::Held => held_form(value),
        FormName::Value => value_form(value),
        FormName::Text => leaf(value.as_str().is_some()),
        FormName::Flag => leaf(value.as_bool().is_some()),
        FormName::Command => command_form(value),
        FormName::CommandName => leaf(is_command_name(value)),
        FormName::Part => part_form(value),
        FormName::PartName => leaf(is_part_name(value)),
        FormName::Parts => parts_form(value),
        FormName::AskedGroups => groups_form(value),
        FormName::Id => leaf(id_in(value).is_some()),
        FormName::Limit => leaf(limit_in(value).is_some()),
        _ => unreachable!(),
    }
}
