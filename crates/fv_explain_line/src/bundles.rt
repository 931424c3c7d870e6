//! What is wrong with a bundle, or with a datum, and where in it.
use crate::commands::{Words, list, no_field, no_object, to_field, unknown_field, unknown_type};
use fv_bundle::{Bundle, TypeUse};
use fv_datum::{object_at, text_at};
use fv_explain_faults::{Found, Named, Untold, Written, say};
use fv_model::BundleFault;
use fv_model_fault::{
    DatumSet, FaultPlace, Inner, SetPlace, place_in_bundle, place_in_set, place_in_value,
};
use indexmap::IndexMap;
use serde_json::Value;

/// The most characters of a value that are shown.
const MOST_SHOWN: usize = 60;

/// Adds a value as `serde_json` writes it, cut, each control character as a space.
fn push_value(out: &mut Found, value: &Value) -> Written {
    let text = value.to_string(out.alloc)?;
    for (count, character) in text.chars().enumerate() {
        if count == MOST_SHOWN {
            return out.add("..");
        }
        let blank = character.is_control();
        out.text.push(if blank { ' ' } else { character })?;
    }
    Ok(())
}

/// Goes on by the steps to a value in a datum.
fn to_steps(out: &mut Found, steps: &[Inner]) -> Written {
    for inner in steps {
        match *inner {
            Inner::Item(number) => out.item(number)?,
            Inner::Member(name) => write!(out.place, "[{}]", Named(name))?,
        }
    }
    Ok(())
}

/// Adds what a value of a type use is.
fn push_wanted(out: &mut Found, type_use: &TypeUse) -> Written {
    out.add(match type_use {
        TypeUse::Text => "a text",
        TypeUse::Integer => "a whole number of 64 bits, without quotes",
        TypeUse::Decimal => {
            "a decimal in quotes, as \"-12.50\", with 18 digits before the point and 9 behind it at most, no plus sign and no leading zeros"
        }
        TypeUse::Boolean => "true or false",
        TypeUse::Date => "a day of the calendar in quotes, as \"2024-05-01\"",
        TypeUse::Instant =>
            "a whole number of seconds since 1970, from year 1 to 9999, without quotes",
        TypeUse::Ref(target) => {
            return say!(out; "the name of an object of the type {target}, in quotes");
        }
        TypeUse::List(_) => "an array",
        TypeUse::Map(_) => "an object, whose members are the entries",
        TypeUse::Optional(_) => "[] or an array of one datum that isn't null",
    })
}

/// Goes on to the value at a place, and adds it and what it should be. `own` is the type of the object that it names.
fn push_datum(out: &mut Found, at: &FaultPlace, own: &str, fault: BundleFault) -> Written {
    to_steps(out, &at.steps)?;
    push_value(out, at.value)?;
    match (fault, at.type_use) {
        (BundleFault::WrongKind, Some(type_use)) => {
            out.add(" should be ")?;
            push_wanted(out, type_use)
        }
        (BundleFault::DanglingRef, _) => out.add(" names no object of the record"),
        (BundleFault::RefType, Some(TypeUse::Ref(target))) => {
            say!(out; " is of the type {own} and should be of the type {target}")
        }
        (BundleFault::TooLarge, _) => out.add(" is over 65536 bytes or entries"),
        _ => Ok(()),
    }
}

/// Adds what is wrong with a set of a bundle's datum: the object or the field that isn't there, or a value in it.
pub(crate) fn set_words(
    out: &mut Words,
    bundle: &Bundle,
    set: &DatumSet,
    fault: BundleFault,
) -> Written {
    let types = out.schema.types();
    let place = place_in_set(out.found.alloc, types, bundle, set, fault)?;
    match place.ok_or(Untold::Absent)? {
        SetPlace::Object => no_object(&mut out.found, bundle, set.object),
        SetPlace::Field => no_field(out, bundle, set.object, set.field),
        SetPlace::Datum(place) => {
            to_field(&mut out.found, "object", set.object, set.field)?;
            let named = bundle.object(place.value.as_str().unwrap_or(""));
            let own = named.map_or("", |object| object.type_name());
            push_datum(&mut out.found, &place, own, fault)
        }
    }
}

/// Adds what is wrong with a value for a field of a type.
pub(crate) fn value_words(
    out: &mut Words,
    (type_name, field): (&str, &str),
    value: &Value,
    fault: BundleFault,
) -> Written {
    let fields = out.schema.types().fields(type_name).ok_or(Untold::Absent)?;
    let type_use = fields.get(field).ok_or(Untold::Absent)?;
    let none = IndexMap::new(out.found.alloc);
    let place = place_in_value(out.found.alloc, type_use, &none, value, fault)?;
    let place = place.ok_or(Untold::Absent)?;
    to_field(&mut out.found, "type", type_name, field)?;
    push_datum(&mut out.found, &place, "", fault)
}

/// The name of the type of an object of a bundle.
fn type_in<'a>(bundle: &'a Value, object: &str) -> Option<&'a str> {
    text_at(object_at(bundle, "objects")?.get(object)?, "type")
}

/// Goes to the object and to the field; nowhere for the bundle as a whole.
fn to_place(out: &mut Found, place: &FaultPlace) -> Written {
    match (place.object, place.field) {
        (Some(object), Some(field)) => to_field(out, "object", object, field),
        (Some(object), None) => Ok(write!(out.place, "object {}", Named(object))?),
        _ => Ok(()),
    }
}

/// Adds that the root names no object, and those that there are.
fn no_root(out: &mut Found, bundle: &Value, root: &str) -> Written {
    let objects = object_at(bundle, "objects").ok_or(Untold::Absent)?;
    say!(out; "the root {} names no object; there are ", Named(root))?;
    list(out, objects.keys().map(|name| name.as_str()))
}

/// Adds what is wrong with a bundle for a form, or with one of its objects, as a whole.
fn whole_words(
    out: &mut Words,
    (form, bundle): (&str, &Value),
    place: &FaultPlace,
    fault: BundleFault,
) -> Written {
    let root = text_at(bundle, "root").unwrap_or("");
    let own = type_in(bundle, place.object.unwrap_or(root)).unwrap_or("");
    match (fault, out.schema.root_of(form)) {
        (BundleFault::BadName, _) => out.found.add(
            "its name should be a letter or _, then letters, digits and _, 64 in all at most",
        ),
        (BundleFault::RootMissing, _) => no_root(&mut out.found, bundle, root),
        (BundleFault::UnknownType, _) => unknown_type(out, own),
        (BundleFault::UnknownField, _) => unknown_field(out, own, place.field.unwrap_or("")),
        (BundleFault::RootType, Some(asked)) => {
            let (root, asked) = (Named(root), out.schema.types().name(asked));
            say!(out.found; "the root {root} is of the type {own} and should be of the type {asked}")
        }
        (BundleFault::TooLarge, _) => out.found.add("there are more than 256 objects"),
        _ => Err(Untold::Absent),
    }
}

/// Adds what is wrong with a bundle for a form.
pub(crate) fn put_words(
    out: &mut Words,
    (form, bundle): (&str, &Value),
    fault: BundleFault,
) -> Written {
    let root = out.schema.root_of(form);
    let place = place_in_bundle(out.found.alloc, out.schema.types(), root, bundle, fault)?;
    let place = place.ok_or(Untold::Absent)?;
    to_place(&mut out.found, &place)?;
    if place.type_use.is_none() {
        return whole_words(out, (form, bundle), &place, fault);
    }
    let own = type_in(bundle, place.value.as_str().unwrap_or(""));
    push_datum(&mut out.found, &place, own.unwrap_or(""), fault)
}
