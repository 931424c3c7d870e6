//! Shape in words: where declarations, or a command, aren't of their form, and what is wrong there.
use crate::say;
use crate::shown::Named;
use crate::told::{Found, Told, Untold, Written};
use fv_form::{Flaw, FormFault, FormName, Inward, ValueForm, ask, command_misfit, draft_misfit};
use serde_json::Value;

/// The words that the `do` of a command knows.
const COMMANDS: &str =
    "put, set, remove, batch, check, checkfield, checkvalue, get, list and redeclare";

/// The value that steps lead to, the innermost of them the first.
fn value_at<'a>(mut value: &'a Value, steps: &[Inward]) -> Told<&'a Value> {
    for step in steps.iter().rev() {
        let inside = match step {
            Inward::Item(index) => value.get(*index),
            Inward::Member(name) => value.get(*name),
        };
        value = inside.ok_or(Untold::Absent)?;
    }
    Ok(value)
}

/// The name of the command or part that an object is, by its `do`; none where that knows no such word.
fn name_in(form: FormName, object: &Value) -> Option<&str> {
    let names = match form {
        FormName::Command => FormName::CommandName,
        FormName::Part => FormName::PartName,
        _ => return None,
    };
    let told = object.get("do")?;
    match ask(names, told) {
        ValueForm::Fits => told.as_str(),
        _ => None,
    }
}

/// Adds what an object of a form may have. What is neither a sequence nor a container may yet become one.
fn known_in(out: &mut Found, form: FormName, object: &Value) -> Written {
    let ValueForm::Object(entries) = ask(form, object) else {
        return Err(Untold::Absent);
    };
    let names = entries.iter().map(|entry| entry.name);
    let names: Vec<&str> = names.filter(|name| *name != "do").collect(out.alloc)?;
    let members = names.join(out.alloc, ", ")?;
    match (form, name_in(form, object)) {
        (_, Some(name)) => say!(out; "{name} has {members}"),
        (FormName::Command, _) => {
            say!(out; "the commands, by their member \"do\", are {COMMANDS}")
        }
        (FormName::Part, _) => {
            out.add("the parts, by their member \"do\", are put, set and remove")
        }
        (FormName::Bundle, _) => out.add("a bundle has root and objects"),
        (FormName::Object, _) => out.add("an object has type and fields"),
        (FormName::Group, _) => out.add("expected inherits, sequence"),
        (FormName::Held, _) if members.as_str() == "ref" => {
            out.add("expected ref, list, optional, map")
        }
        _ => say!(out; "expected {members}"),
    }
}

/// Adds that an object of a form lacks a member.
fn lacking(out: &mut Found, form: FormName, object: &Value, name: &str) -> Written {
    match (form, name_in(form, object)) {
        (_, Some(command)) => say!(out; "the member \"{name}\" of {command} is missing"),
        (FormName::Command | FormName::Part | FormName::Bundle | FormName::Object, None) => {
            say!(out; "the member \"{name}\" is missing")
        }
        _ => say!(out; "missing member \"{name}\""),
    }
}

/// What a JSON value is.
fn sort_of(value: &Value) -> &'static str {
    match value {
        Value::Null => "null",
        Value::Bool(_) => "a boolean",
        Value::Number(_) => "a number",
        Value::String(_) => "a text",
        Value::Array(_) => "an array",
        Value::Object(_) => "an object",
    }
}

/// What a form of declarations asks of a value.
fn wanted(form: FormName) -> &'static str {
    match form {
        FormName::Text => "a text",
        FormName::Flag => "true or false",
        FormName::Value => "a 64-bit whole number, a text, a boolean or an array of texts",
        FormName::Held => "a type by its word or an object",
        FormName::Place => "an object, as {\"type\":\"text\"}",
        FormName::Use | FormName::Composing => "an object, as {\"constraint\":\"NotNull\"}",
        FormName::Names | FormName::Uses | FormName::Compose | FormName::Sequence => "an array",
        _ => "an object",
    }
}

/// What is wrong with a value that isn't of a form, where more is to be said than the sort that is wanted.
fn wrong_in_full(form: FormName, value: &Value) -> Option<&'static str> {
    Some(match (form, value) {
        (FormName::AttributeKind, _) => "expected \"integer\", \"text\", \"boolean\" or \"texts\"",
        (FormName::Rule, Value::Object(_)) => {
            "expected {\"field\":N} or {\"object\":N}, N from 0 to 4294967295"
        }
        (FormName::Sequence, Value::Array(_)) => "a sequence has at least one member",
        (FormName::Command | FormName::Part, _) => "a command is an object",
        (FormName::PartName, Value::String(_)) => "a part is a put, a set or a remove",
        (FormName::CommandName | FormName::PartName, _) => "not a text",
        (FormName::Parts, Value::Array(_)) => "a batch has 1 to 64 parts",
        (FormName::Parts, _) => "not an array",
        (FormName::AskedGroups, Value::Array(_)) => "more than 32 groups",
        (FormName::AskedGroups, _) => "not an array of texts",
        (FormName::Id, _) => "an id is a text of 1 to 64 ASCII letters, digits, _ and -",
        (FormName::Limit, _) => "not a whole number from 1 to 1000",
        (FormName::Objects, _) => "not an object; it has each object by its name",
        (FormName::Bundle | FormName::Object, _) => "not an object",
        (FormName::Given, _) => "the member \"fields\" is no object",
        _ => return None,
    })
}

/// Adds what is wrong with a value that isn't of a form.
fn misfit(out: &mut Found, form: FormName, value: &Value) -> Written {
    match (form, value, wrong_in_full(form, value)) {
        (FormName::Held, Value::String(word), _) => say!(out;
            "unknown type {}; expected text, integer, decimal, boolean, date, instant, or an object with ref, list, optional or map",
            Named(word.as_str())
        ),
        (FormName::CommandName, Value::String(word), _) => {
            say!(out; "no command {}; there are {COMMANDS}", Named(word.as_str()))
        }
        (_, _, Some(words)) => out.add(words),
        _ => say!(out; "expected {}, not {}", wanted(form), sort_of(value)),
    }
}

/// Adds what is wrong in a value by a fault.
fn flaw(out: &mut Found, value: &Value, fault: &FormFault) -> Written {
    match (fault.flaw, fault.steps.split_first()) {
        (Flaw::Stranger, Some((Inward::Member(name), outer))) => {
            if matches!((fault.form, *name), (FormName::Group, "inherits")) {
                return out.add("inherits and sequence can't stand together");
            }
            say!(out; "unknown member {}; ", Named(name))?;
            known_in(out, fault.form, value_at(value, outer)?)
        }
        (Flaw::Stranger, _) => Err(Untold::Absent),
        (Flaw::Lacking(name), _) => lacking(out, fault.form, value_at(value, &fault.steps)?, name),
        (Flaw::Misfit, _) => misfit(out, fault.form, value_at(value, &fault.steps)?),
    }
}

/// Adds where a value isn't declarations, and what is wrong there. The place is empty where it is the whole.
pub(crate) fn shape(out: &mut Found, value: &Value) -> Written {
    let fault = draft_misfit(out.alloc, value)?.ok_or(Untold::Absent)?;
    for step in fault.steps.iter().rev() {
        match step {
            Inward::Item(index) => out.item(*index)?,
            Inward::Member(name) => out.member(name)?,
        }
    }
    flaw(out, value, &fault)
}

/// Goes to the place that steps lead to from a command, the innermost of them the first.
fn to_place(out: &mut Found, steps: &[Inward]) -> Written {
    let mut depth: usize = 0;
    for step in steps.iter().rev() {
        match (*step, depth) {
            (Inward::Item(index), _) => out.item(index)?,
            (Inward::Member(name), 2) => write!(out.place, ", object {}", Named(name))?,
            (Inward::Member(name), _) => {
                let begins = depth == 1 || out.place.is_empty();
                out.place.push_str(if begins { "" } else { ": " })?;
                out.member(name)?;
            }
        }
        depth = match step {
            Inward::Item(_) => 0,
            Inward::Member(_) => depth.saturating_add(1),
        };
    }
    Ok(())
}

/// Adds where a JSON value isn't a command, its bundles included, and what is wrong there: what a bundle's object has in
/// another form is told at that object.
pub fn command_shape(out: &mut Found, command: &Value) -> Written {
    let fault = command_misfit(out.alloc, command)?.ok_or(Untold::Absent)?;
    let steps = fault.steps.as_slice();
    let (place, words) = match (fault.form, steps) {
        (FormName::Given, [_, outer @ ..]) => (outer, None),
        (FormName::Text, [Inward::Member("type"), outer @ ..]) if !outer.is_empty() => {
            (outer, Some("the member \"type\" is no text"))
        }
        (FormName::Text, [Inward::Member("root"), ..]) => {
            (steps, Some("not a text; it is the name of an object"))
        }
        (FormName::Text, _) => (steps, Some("not a text")),
        _ => (steps, None),
    };
    to_place(out, place)?;
    match words {
        Some(words) => out.add(words),
        None => flaw(out, command, &fault),
    }
}
