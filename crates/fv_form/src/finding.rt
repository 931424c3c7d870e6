//! The first place where a value isn't of a form.
ghost use Rattle.std.specs.Prelude.{◌≡◌, IfOk, Some, map, option_map};
ghost use Rattle.std.specs.List.{list_any};
ghost use Rattle.std.specs.Option.{option_or};
ghost use Rattle.std.specs.Str.{bytes_eq};
ghost use Rattle.serde_json.specs.Find.{get_member};
ghost use Rattle.serde_json.specs.View.{view as json_view, items_view, members_view};
ghost use Rattle.fv_form.specs.Asked.{asked};
ghost use Rattle.fv_form.specs.FormViews.{entry_view};
ghost use Rattle.fv_form.specs.MisfitViews.{step_view, flaw_view, misfit_view};
ghost use Rattle.fv_form.specs.Misfits.{here, under, first_misfit, in_items, in_members, in_entry, first_of, stranger_in};

use crate::asking::ask;
use crate::form::{Entry, ValueForm};
use crate::form_name::FormName;
use crate::misfit::{Flaw, FormFault, Inward, Sought};
use serde_json::{Map, Value};
use std::alloc::Global;

/// A flaw of the value itself.
fn here<'a>(alloc: Global, form: FormName, flaw: Flaw) -> FormFault<'a>
    ensures { misfit_view result ≡ here form (flaw_view flaw) }
{
    FormFault {
        steps: Vec::new(alloc),
        flaw,
        form,
    }
}

/// The same one step further outwards.
fn under<'a>(step: Inward<'a>, found: Option<FormFault<'a>>) -> Sought<'a>
    ensures { IfOk result (λ o. option_map misfit_view o
        ≡ option_map (under (step_view step.entry)) (option_map misfit_view found.entry)) }
{
    match found {
        None => Ok(None),
        Some(mut misfit) => {
            misfit.steps.push(step)?;
            Ok(Some(misfit))
        }
    }
}

/// The member of that name.
fn member_at<'a>(members: &'a Map<String, Value>, name: &str) -> Option<&'a Value>
    ensures { option_map (λ v. json_view v.now) result ≡ get_member name.now (members_view members.now.entries) }
{
    members.get(name)
}

/// Whether a name is one of the entries'.
#[tactic(auto, using(crate::proofs::Turns::entry_turn))]
fn is_known(entries: &[Entry], name: &str) -> bool
    ensures { result ≡ list_any (λ e. bytes_eq e.name name.now) (map entry_view entries.now) }
{
    for entry in entries {
        if entry.name == name {
            return true;
        }
    }
    false
}

/// The first member that has no business in an object with these entries.
fn stranger_in<'a>(
    alloc: Global,
    form: FormName,
    entries: &[Entry],
    members: &'a Map<String, Value>,
) -> Sought<'a>
    ensures { IfOk result (λ o. option_map misfit_view o
        ≡ stranger_in form (map entry_view entries.now) (members_view members.now.entries)) }
{
    for (name, _) in members.iter() {
        let name = name.as_str();
        if !is_known(entries, name) {
            return under(
                Inward::Member(name),
                Some(here(alloc, form, Flaw::Stranger)),
            );
        }
    }
    Ok(None)
}

/// What is wrong with the member of an entry.
#[cycle(finding)]
fn in_entry<'a>(
    alloc: Global,
    form: FormName,
    entry: &Entry,
    members: &'a Map<String, Value>,
) -> Sought<'a>
    ensures { IfOk result (λ o. option_map misfit_view o
        ≡ in_entry asked form (entry_view entry.now) (members_view members.now.entries)) }
{
    match member_at(members, entry.name) {
        None if entry.required => Ok(Some(here(alloc, form, Flaw::Lacking(entry.name)))),
        None => Ok(None),
        Some(value) => under(
            Inward::Member(entry.name),
            first_misfit(alloc, entry.form, value)?,
        ),
    }
}

/// What is wrong with the first member of an entry that is wrong.
#[cycle(finding)]
fn in_entries<'a>(
    alloc: Global,
    form: FormName,
    entries: &[Entry],
    members: &'a Map<String, Value>,
) -> Sought<'a>
    ensures { IfOk result (λ o. option_map misfit_view o
        ≡ first_of (map (λ e. in_entry asked form e (members_view members.now.entries)) (map entry_view entries.now))) }
{
    for entry in entries {
        if let Some(misfit) = in_entry(alloc, form, entry, members)? {
            return Ok(Some(misfit));
        }
    }
    Ok(None)
}

/// What is wrong in an object with these entries and no others.
#[cycle(finding)]
fn in_object<'a>(
    alloc: Global,
    form: FormName,
    entries: &[Entry],
    members: &'a Map<String, Value>,
) -> Sought<'a>
    ensures { IfOk result (λ o. option_map misfit_view o
        ≡ option_or (stranger_in form (map entry_view entries.now) (members_view members.now.entries))
        (first_of (map (λ e. in_entry asked form e (members_view members.now.entries)) (map entry_view entries.now)))) }
{
    if let Some(misfit) = stranger_in(alloc, form, entries, members)? {
        return Ok(Some(misfit));
    }
    in_entries(alloc, form, entries, members)
}

/// What is wrong with the first item that is wrong.
#[cycle(finding)]
fn in_items<'a>(alloc: Global, form: FormName, items: &'a [Value]) -> Sought<'a>
    ensures { IfOk result (λ o. option_map misfit_view o ≡ in_items asked form 0 (items_view items.now)) }
{
    for (number, item) in items.iter().enumerate() {
        if let Some(misfit) = first_misfit(alloc, form, item)? {
            return under(Inward::Item(number), Some(misfit));
        }
    }
    Ok(None)
}

/// What is wrong with the first member that is wrong.
#[cycle(finding)]
fn in_members<'a>(alloc: Global, form: FormName, members: &'a Map<String, Value>) -> Sought<'a>
    ensures { IfOk result (λ o. option_map misfit_view o ≡ in_members asked form (members_view members.now.entries)) }
{
    for (name, value) in members.iter() {
        if let Some(misfit) = first_misfit(alloc, form, value)? {
            return under(Inward::Member(name.as_str()), Some(misfit));
        }
    }
    Ok(None)
}

/// The first place where a value isn't of a form: from outside inwards, in an object first a member that
/// has no business there, then the entries in their order.
#[cycle(finding)]
pub fn first_misfit<'a>(alloc: Global, form: FormName, value: &'a Value) -> Sought<'a>
    ensures { IfOk result (λ o. option_map misfit_view o ≡ first_misfit asked form (json_view value.now)) }
{
    match ask(form, value) {
        ValueForm::Fits => Ok(None),
        ValueForm::Unfit => Ok(Some(here(alloc, form, Flaw::Misfit))),
        ValueForm::Items(inner) => match value.as_array() {
            None => Ok(Some(here(alloc, form, Flaw::Misfit))),
            Some(items) => in_items(alloc, inner, items),
        },
        ValueForm::Members(inner) => match value.as_object() {
            None => Ok(Some(here(alloc, form, Flaw::Misfit))),
            Some(members) => in_members(alloc, inner, members),
        },
        ValueForm::Object(entries) => match value.as_object() {
            None => Ok(Some(here(alloc, form, Flaw::Misfit))),
            Some(members) => in_object(alloc, form, entries, members),
        },
    }
}
