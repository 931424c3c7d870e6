//! What declarations narrow of others, in words.
ghost use Rattle.std.specs.Prelude.{◌≡◌, ◌&&◌, IfOk, is_some, option_map, slice_get, string_bytes};
ghost use Rattle.fv_bundle.specs.Held.{target};
ghost use Rattle.fv_bundle.specs.Names.{object_types_view};
ghost use Rattle.fv_bundle.specs.Types.{type_use_view, fields_at, name_at};
ghost use Rattle.fv_bundle.specs.TypesView.{types_view};
ghost use Rattle.fv_explain_over.specs.Lines.{line_text};
ghost use Rattle.fv_explain_over.specs.Misfits.{both_refer, fault_of, key_at, misfit_text, names_to, use_fault, use_of};
ghost use Rattle.fv_explain_over.specs.Places.{place_of};

use crate::lines::{OverLine, place_of};
use crate::telling::Declared;
use fv_bundle::{TypeId, TypeNames, TypeUse, Types, use_in};
use fv_widening::Narrowed;
use std::alloc::{AllocError, Global};

/// That a field's type use is another.
const OTHER_USE: &str = "it holds something else: a record may not fit in which it isn't null";

/// By which fault a redeclare tells a place that is narrowed, and why.
#[derive(Clone, Copy)]
struct Reason {
    fault: &'static str,
    name: &'static str,
    text: &'static str,
}

/// A place that is narrowed.
#[derive(Drop)]
pub(crate) struct NarrowedPlace {
    place: String,
    reason: Reason,
}

impl NarrowedPlace {
    /// Its line.
    pub(crate) fn line(&self) -> OverLine<'_>
        ensures { line_text result ≡ misfit_text (string_bytes self.now.place)
            (self.now.reason.fault.now, self.now.reason.name.now) self.now.reason.text.now }
    {
        OverLine::Narrowed {
            place: self.place.as_str(),
            fault: self.reason.fault,
            name: self.reason.name,
            text: self.reason.text,
        }
    }
}

/// What two type uses hold, as far as both are lists, maps or optionals alike.
fn innermost<'a>(own: &'a TypeUse, other: &'a TypeUse) -> (&'a TypeUse, &'a TypeUse)
    ensures { (is_some (target (type_use_view result.0.now)) && is_some (target (type_use_view result.1.now)))
        ≡ both_refer (type_use_view own.now) (type_use_view other.now) }
{
    match own {
        TypeUse::List(held) => match other.items() {
            Some(items) => innermost(held, items),
            None => (own, other),
        },
        TypeUse::Map(held) => match other.values() {
            Some(values) => innermost(held, values),
            None => (own, other),
        },
        TypeUse::Optional(held) => match other.content() {
            Some(content) => innermost(held, content),
            None => (own, other),
        },
        _ => (own, other),
    }
}

/// Why what was written under a type use may not fit under another.
fn use_reason(own: &TypeUse, other: &TypeUse) -> Reason
    ensures { (result.fault.now, result.name.now)
        ≡ use_fault (Some (type_use_view own.now)) (Some (type_use_view other.now)) }
{
    let (own, other) = innermost(own, other);
    let refers = other.target().is_some();
    if refers && own.target().is_some() {
        return Reason {
            fault: "B7",
            name: "RefType",
            text: "references lead to another type: a record may not fit in which one isn't null",
        };
    }
    let text = if refers && matches!(own, TypeUse::Text) {
        "a text becomes a reference: a record may not fit in which it isn't null, also as B6 DanglingRef or B7 RefType"
    } else {
        OTHER_USE
    };
    Reason {
        fault: "B5",
        name: "WrongKind",
        text,
    }
}

/// The field of a number, of the type of a number.
fn field_at(types: &Types, type_number: usize, number: usize) -> Option<(&str, &TypeUse)>
    ensures { option_map (λ f. (f.0.now, type_use_view f.1.now)) result
        ≡ slice_get (fields_at (types_view types.now) type_number) number }
{
    let fields = types.fields_at(TypeId { index: type_number })?;
    let (name, own) = fields.get_index(number)?;
    Some((name.as_str(), own))
}

/// The name of the field of a number, of the type of a number.
fn field_name(types: &Types, type_number: usize, number: usize) -> &str
    ensures { result.now ≡ key_at (fields_at (types_view types.now) type_number) number }
{
    match field_at(types, type_number, number) {
        Some((name, _)) => name,
        None => "",
    }
}

/// The name of the type of a number.
fn type_name(types: &Types, index: usize) -> &str
    ensures { result.now ≡ name_at (types_view types.now) index }
{
    types.name(TypeId { index })
}

/// The name of the form of a number.
fn form_name<'a>(forms: &TypeNames<'a>, number: usize) -> &'a str
    ensures { result.now ≡ key_at (object_types_view forms.now) number }
{
    match forms.get_index(number) {
        Some((name, _)) => name,
        None => "",
    }
}

/// What the field of a name holds, of the type of a name.
fn use_of<'a>(types: &'a Types, type_name: &str, field: &str) -> Option<&'a TypeUse>
    ensures { option_map (λ u. type_use_view u.now) result ≡ use_of (types_view types.now) type_name.now field.now }
{
    match types.fields(type_name) {
        Some(fields) => use_in(fields, field),
        None => None,
    }
}

/// Why what a field held may not fit.
fn field_reason(old: &Types, new: &Types, type_number: usize, number: usize) -> Reason
    ensures { (result.fault.now, result.name.now)
        ≡ use_fault (option_map (λ e. e.1) (slice_get (fields_at (types_view old.now) type_number) number))
        (use_of (types_view new.now) (name_at (types_view old.now) type_number)
        (key_at (fields_at (types_view old.now) type_number) number)) }
{
    let there = use_of(
        new,
        type_name(old, type_number),
        field_name(old, type_number, number),
    );
    match (field_at(old, type_number, number), there) {
        (Some((_, own)), Some(other)) => use_reason(own, other),
        _ => Reason {
            fault: "B5",
            name: "WrongKind",
            text: OTHER_USE,
        },
    }
}

/// By which fault a redeclare tells what is narrowed, and why.
fn reason_of(old: &Types, new: &Types, narrowed: Narrowed) -> Reason
    ensures { (result.fault.now, result.name.now) ≡ fault_of (types_view old.now) (types_view new.now) narrowed }
{
    match narrowed {
        Narrowed::Type(_) => Reason {
            fault: "B3",
            name: "UnknownType",
            text: "the type isn't there: no record fits with an object of it",
        },
        Narrowed::Field(_, _) => Reason {
            fault: "B4",
            name: "UnknownField",
            text: "the field isn't there: no record fits in which it isn't null",
        },
        Narrowed::Use(type_number, number) => field_reason(old, new, type_number, number),
        Narrowed::Form(_) => Reason {
            fault: "C4",
            name: "UnknownForm",
            text: "the form isn't there: no record of it fits",
        },
        Narrowed::Root(_) => Reason {
            fault: "B9",
            name: "RootType",
            text: "its root is of another type: no record of it fits",
        },
    }
}

/// The place of what is narrowed.
fn narrowed_place(
    alloc: Global,
    types: &Types,
    forms: &TypeNames,
    narrowed: Narrowed,
) -> Result<String, AllocError>
    ensures { IfOk result (λ s. string_bytes s ≡ place_of (names_to (types_view types.now) (object_types_view forms.now) narrowed)) }
{
    match narrowed {
        Narrowed::Type(number) => place_of(alloc, &["types", type_name(types, number)]),
        Narrowed::Field(type_number, number) => place_of(
            alloc,
            &[
                "types",
                type_name(types, type_number),
                "fields",
                field_name(types, type_number, number),
            ],
        ),
        Narrowed::Use(type_number, number) => place_of(
            alloc,
            &[
                "types",
                type_name(types, type_number),
                "fields",
                field_name(types, type_number, number),
                "type",
            ],
        ),
        Narrowed::Form(number) => place_of(alloc, &["forms", form_name(forms, number)]),
        Narrowed::Root(number) => place_of(alloc, &["forms", form_name(forms, number), "root"]),
    }
}

/// Where a record may not fit any more, and by which fault a redeclare tells it.
pub(crate) fn misfit_of(
    alloc: Global,
    old: Declared,
    new: Declared,
    narrowed: Narrowed,
) -> Result<NarrowedPlace, AllocError>
    ensures { IfOk result (λ m. (string_bytes m.place
        ≡ place_of (names_to (types_view old.entry.types.now) (object_types_view old.entry.forms.now) narrowed))
        × ((m.reason.fault.now, m.reason.name.now)
        ≡ fault_of (types_view old.entry.types.now) (types_view new.entry.types.now) narrowed)) }
{
    Ok(NarrowedPlace {
        place: narrowed_place(alloc, old.types, old.forms, narrowed)?,
        reason: reason_of(old.types, new.types, narrowed),
    })
}
