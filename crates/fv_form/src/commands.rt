//! What the forms of commands ask of a value.
ghost use Rattle.std.specs.Prelude.{◌≡◌, ◌&&◌, if◌then◌else◌, map, nat_le, nat_lt, option_map};
ghost use Rattle.serde_json.specs.View.{view as json_view};
ghost use Rattle.fv_datum.specs.Lookup.{at_name};
ghost use Rattle.fv_form.specs.Commands.{commands, command_form, counted_form, is_command_name, is_named, is_part_name, part_form, parts};
ghost use Rattle.fv_form.specs.FormViews.{entry_view, form_view};
ghost use Rattle.fv_form.specs.Misfits.{items, unfit};

use crate::form::{Entry, ValueForm};
use crate::form_name::FormName;
use crate::tables::{
    BATCH, CHECK, CHECK_FIELD, CHECK_VALUE, ID, LISTING, PUT, REDECLARE, SET, UNNAMED_COMMAND,
    UNNAMED_PART,
};
use fv_datum::text_at;
use fv_engine_command::{MOST_GROUPS, MOST_PARTS};
use serde_json::Value;

/// The members of the part of a name; none where it names no part.
fn part_named(name: &str) -> Option<&'static [Entry]>
    ensures { option_map (λ es. map entry_view es.now) result ≡ at_name name.now parts }
{
    match name {
        "put" => Some(&PUT),
        "set" => Some(&SET),
        "remove" => Some(&ID),
        _ => None,
    }
}

/// The members of the command of a name; none where it names no command.
fn command_named(name: &str) -> Option<&'static [Entry]>
    ensures { option_map (λ es. map entry_view es.now) result ≡ at_name name.now commands }
{
    match name {
        "redeclare" => Some(&REDECLARE),
        "put" => Some(&PUT),
        "set" => Some(&SET),
        "remove" => Some(&ID),
        "batch" => Some(&BATCH),
        "get" => Some(&ID),
        "check" => Some(&CHECK),
        "checkfield" => Some(&CHECK_FIELD),
        "checkvalue" => Some(&CHECK_VALUE),
        "list" => Some(&LISTING),
        _ => None,
    }
}

/// What is asked of a part, by its name.
pub(crate) fn part_form(value: &Value) -> ValueForm
    ensures { form_view result ≡ part_form (json_view value.now) }
{
    match text_at(value, "do").and_then(part_named) {
        None => ValueForm::Object(&UNNAMED_PART),
        Some(entries) => ValueForm::Object(entries),
    }
}

/// What is asked of a command, by its name.
pub(crate) fn command_form(value: &Value) -> ValueForm
    ensures { form_view result ≡ command_form (json_view value.now) }
{
    match text_at(value, "do").and_then(command_named) {
        None => ValueForm::Object(&UNNAMED_COMMAND),
        Some(entries) => ValueForm::Object(entries),
    }
}

/// Whether a value is the name of a part.
pub(crate) fn is_part_name(value: &Value) -> bool
    ensures { result ≡ is_named is_part_name (json_view value.now) }
{
    value.as_str().and_then(part_named).is_some()
}

/// Whether a value is the name of a command.
pub(crate) fn is_command_name(value: &Value) -> bool
    ensures { result ≡ is_named is_command_name (json_view value.now) }
{
    value.as_str().and_then(command_named).is_some()
}

/// What is asked of an array, by whether it has a fitting number of items.
fn counted(fits: bool, form: FormName) -> ValueForm
    ensures { form_view result ≡ (if fits then items form else unfit) }
{
    if fits {
        ValueForm::Items(form)
    } else {
        ValueForm::Unfit
    }
}

/// Whether a batch has so many parts.
fn is_batch(count: usize) -> bool
    ensures { result ≡ (nat_lt 0 count && nat_le count 64) }
{
    count > 0 && count <= MOST_PARTS
}

/// Whether a check asks for so many groups.
fn are_askable(count: usize) -> bool
    ensures { result ≡ nat_le count 32 }
{
    count <= MOST_GROUPS
}

/// What is asked of the parts of a batch: 1 to 64 of them.
pub(crate) fn parts_form(value: &Value) -> ValueForm
    ensures { form_view result ≡ counted_form (λ n. nat_lt 0 n && nat_le n 64) FormName.Part (json_view value.now) }
{
    match value.as_array() {
        None => ValueForm::Items(FormName::Part),
        Some(parts) => counted(is_batch(parts.len()), FormName::Part),
    }
}

/// What is asked of the groups that a check asks for: 32 at most.
pub(crate) fn groups_form(value: &Value) -> ValueForm
    ensures { form_view result ≡ counted_form (λ n. nat_le n 32) FormName.Text (json_view value.now) }
{
    match value.as_array() {
        None => ValueForm::Items(FormName::Text),
        Some(groups) => counted(are_askable(groups.len()), FormName::Text),
    }
}
