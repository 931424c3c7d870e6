//! Names in words: a declared one that is none or is taken, and one that names nothing that is declared.
use crate::constraints::unknown_constraint;
use crate::drafts::{Refused, at, entry_at, to_field};
use crate::say;
use crate::shown::Named;
use crate::told::{Found, Told, Untold, Written};
use fv_bundle::{TypeUse, TypesAt};
use fv_datum::is_name;
use fv_declare_judging::NamesAt;

/// A type or a group that isn't declared.
pub(crate) fn undeclared(out: &mut Found, sort: &str, name: &str) -> Written {
    say!(out; "{sort} {} isn't declared", Named(name))
}

/// The reference in what a field holds: a container has one place inside it.
fn reference_in(out: &mut Found, held: &TypeUse) -> Written {
    let (step, inside) = match held {
        TypeUse::Ref(name) => {
            out.member("ref")?;
            return undeclared(out, "type", name.as_str());
        }
        TypeUse::List(held) => ("list", held),
        TypeUse::Optional(held) => ("optional", held),
        TypeUse::Map(held) => ("map", held),
        _ => return Err(Untold::Absent),
    };
    out.path(&[step, "type"])?;
    reference_in(out, inside)
}

/// Goes to a declared name.
fn to_name<'a>(refused: &Refused<'a>, out: &mut Found, place: NamesAt) -> Told<&'a str> {
    let draft = refused.draft;
    let (part, name) = match place {
        NamesAt::Type(number) => ("types", at(&draft.types, number)?.name),
        NamesAt::Form(number) => ("forms", at(&draft.forms, number)?.name),
        NamesAt::Group(number) => ("groups", at(&draft.groups, number)?.name),
        NamesAt::Definition(number) => ("constraints", entry_at(&draft.definitions, number)?.0),
        NamesAt::Field(number, field) => {
            return Ok(to_field(out, &draft.types, number, field)?.name);
        }
        NamesAt::Attribute(number, attribute) => {
            let (owner, definition) = entry_at(&draft.definitions, number)?;
            let (name, _) = entry_at(&definition.attributes, attribute)?;
            out.path(&["constraints", owner, "attributes", name])?;
            return Ok(name);
        }
        _ => return Err(Untold::Absent),
    };
    out.path(&[part, name])?;
    Ok(name)
}

/// A declared name: that it is none, else that it is taken.
fn bad_name(refused: &Refused, out: &mut Found, place: NamesAt) -> Written {
    let name = to_name(refused, out, place)?;
    match place {
        _ if !is_name(name) => say!(out;
            "{} is no name: an ASCII letter or _, then ASCII letters, digits and _, at most 64",
            Named(name)
        ),
        NamesAt::Definition(_) => say!(out; "{name} is the name of a built-in constraint"),
        NamesAt::Group(_) if name != "Default" => say!(out; "\"{name}\" is the name of a type"),
        _ => out.add("Default is the group that is always declared"),
    }
}

/// A name at fault.
pub(crate) fn name_at(refused: &Refused, out: &mut Found, place: NamesAt) -> Written {
    let draft = refused.draft;
    match place {
        NamesAt::Use(number) => {
            let given = refused.to_use(out, number)?;
            unknown_constraint(out, given.constraint)
        }
        NamesAt::Root(number) => {
            let form = at(&draft.forms, number)?;
            out.path(&["forms", form.name, "root"])?;
            undeclared(out, "type", form.root)
        }
        NamesAt::Reference(TypesAt::Field(number, field)) => {
            let field = to_field(out, &draft.types, number, field)?;
            out.member("type")?;
            reference_in(out, &field.type_use)
        }
        _ => bad_name(refused, out, place),
    }
}
