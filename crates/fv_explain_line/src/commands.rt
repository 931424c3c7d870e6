//! What a command names and isn't there, with the names that are, and what is wrong with its data: C4 to C8.
ghost use Rattle.std.specs.Iterator.{IsFinite};

use crate::bundles::{put_words, set_words, value_words};
use fv_bundle::{Bundle, TypeId};
use fv_command_fault::CommandPlace;
use fv_datum::text_at;
use fv_declare_schema::{GroupId, Schema};
use fv_explain_faults::{Found, Named, Told, Untold, Written, say};
use fv_model::BundleFault;
use fv_model_fault::DatumSet;
use serde_json::Value;

/// The most names that are listed.
const MOST_LISTED: usize = 12;

/// Words that are written, under declarations.
#[derive(Drop)]
pub(crate) struct Words<'s> {
    pub(crate) schema: &'s Schema,
    pub(crate) found: Found,
}

/// Adds names with commas between them: the first twelve, and "none" where there are none.
pub(crate) fn list<'a, I: Iterator<Item = &'a str> + Drop>(out: &mut Found, names: I) -> Written
    requires can { I.can_next names }
    requires ends { IsFinite (I.remaining names) }
{
    let mut count: usize = 0;
    for name in names {
        if count == MOST_LISTED {
            return out.add(", ..");
        }
        let comma = if count > 0 { ", " } else { "" };
        say!(out; "{comma}{name}")?;
        count = count.saturating_add(1);
    }
    out.add(if count > 0 { "" } else { "none" })
}

/// Goes to a field of an object or of a type.
pub(crate) fn to_field(out: &mut Found, sort: &str, name: &str, field: &str) -> Written {
    Ok(write!(out.place, "{sort} {}, field {}", Named(name), Named(field))?)
}

/// Adds that a form isn't declared, and those that are.
pub(crate) fn unknown_form(out: &mut Words, form: &str) -> Written {
    out.found.member("form")?;
    say!(out.found; "no form {} is declared; there are ", Named(form))?;
    let names = out.schema.forms().keys();
    list(&mut out.found, names.map(|name| name.as_str()))
}

/// Adds that a group isn't declared, and those that are.
fn unknown_group(out: &mut Words, group: &str) -> Written {
    let groups = out.schema.groups();
    let names = (0..groups.count()).map(|index| groups.name(GroupId { index }));
    say!(out.found; "no group {} is declared; there are ", Named(group))?;
    list(&mut out.found, names)
}

/// Adds that a type isn't declared, and those that are.
pub(crate) fn unknown_type(out: &mut Words, type_name: &str) -> Written {
    let types = out.schema.types();
    let names = (0..types.count()).map(|index| types.name(TypeId { index }));
    say!(out.found; "no type {} is declared; there are ", Named(type_name))?;
    list(&mut out.found, names)
}

/// Adds that a type doesn't have a field, and those that it has.
pub(crate) fn unknown_field(out: &mut Words, type_name: &str, field: &str) -> Written {
    let fields = out.schema.types().fields(type_name).ok_or(Untold::Absent)?;
    say!(out.found; "the type {type_name} has no field {}; it has ", Named(field))?;
    list(&mut out.found, fields.keys().map(|name| name.as_str()))
}

/// Adds that a record doesn't have an object, and those that it has.
pub(crate) fn no_object(out: &mut Found, bundle: &Bundle, object: &str) -> Written {
    let names = bundle.objects().keys();
    say!(out; "the record has no object {}; it has ", Named(object))?;
    list(out, names.map(|name| name.as_str()))
}

/// The text of a member of a command.
fn text_in<'a>(command: &'a Value, name: &str) -> Told<&'a str> {
    text_at(command, name).ok_or(Untold::Absent)
}

/// Adds that an object of a record doesn't have a field, and those that it has.
pub(crate) fn no_field(out: &mut Words, bundle: &Bundle, object: &str, field: &str) -> Written {
    let found = bundle.object(object).ok_or(Untold::Absent)?;
    to_field(&mut out.found, "object", object, field)?;
    unknown_field(out, found.type_name(), field)
}

/// Adds what a command names at a place and isn't there. `stored` is the bundle of the record at its id.
pub(crate) fn absence_words(
    out: &mut Words,
    command: &Value,
    stored: Option<&Bundle>,
    place: CommandPlace,
) -> Written {
    match (place, stored) {
        (CommandPlace::Form, _) => unknown_form(out, text_in(command, "form")?),
        (CommandPlace::Id, _) => {
            let id = Named(text_in(command, "id")?);
            out.found.member("id")?;
            say!(out.found; "there is no record {id}")
        }
        (CommandPlace::Group(number), _) => {
            let group = command.get("groups").and_then(|groups| groups.get(number));
            let group = group.and_then(Value::as_str).ok_or(Untold::Absent)?;
            out.found.member("groups")?;
            out.found.item(number)?;
            unknown_group(out, group)
        }
        (CommandPlace::Object, Some(bundle)) => {
            no_object(&mut out.found, bundle, text_in(command, "object")?)
        }
        (CommandPlace::Field, Some(bundle)) => {
            let (object, field) = (text_in(command, "object")?, text_in(command, "field")?);
            no_field(out, bundle, object, field)
        }
        (CommandPlace::Type, _) => unknown_type(out, text_in(command, "type")?),
        (CommandPlace::Field, None) => {
            unknown_field(out, text_in(command, "type")?, text_in(command, "field")?)
        }
        _ => Err(Untold::Absent),
    }
}

/// Adds what is wrong with the datum or the bundle of a command. `stored` is the bundle of the record at its id.
pub(crate) fn data_words(
    out: &mut Words,
    command: &Value,
    stored: Option<&Bundle>,
    fault: BundleFault,
) -> Written {
    if let Some(bundle) = command.get("bundle") {
        return put_words(out, (text_in(command, "form")?, bundle), fault);
    }
    let (field, value) = (text_in(command, "field")?, command.get("value"));
    let value = value.ok_or(Untold::Absent)?;
    if let Some(type_name) = text_at(command, "type") {
        return value_words(out, (type_name, field), value, fault);
    }
    let (bundle, object) = (stored.ok_or(Untold::Absent)?, text_in(command, "object")?);
    let set = DatumSet {
        object,
        field,
        value,
    };
    set_words(out, bundle, &set, fault)
}
