//! The limits that are passed, and the wording of declarations, in words: what is no template, and what is no parameter's
//! name.
use crate::drafts::{Refused, at, entry_at, to_field};
use crate::say;
use crate::shown::{Named, find_message};
use crate::told::{Found, Told, Untold, Written};
use fv_bundle::{TypeUse, TypesAt};
use fv_declare_draft::Draft;
use fv_declare_judging::{LimitAt, WordingAt, user_messages};
use fv_declare_schema::GroupLimit;
use fv_message::{MessagesAt, key_name};

/// Goes to a text that is to be a template, and gives it.
fn to_template<'a>(refused: &Refused<'a>, out: &mut Found, place: WordingAt) -> Told<&'a str> {
    let draft = refused.draft;
    let message = match place {
        WordingAt::Use(number) => {
            let given = refused.to_use(out, number)?;
            out.member("message")?;
            return given.message.ok_or(Untold::Absent);
        }
        WordingAt::Definition(number) => {
            let (name, definition) = entry_at(&draft.definitions, number)?;
            out.path(&["constraints", name, "message"])?;
            &definition.message
        }
        WordingAt::Composing(number, index) => {
            let part = refused.to_part(out, number, index)?;
            out.member("message")?;
            &part.message
        }
        WordingAt::Messages(MessagesAt::Text(number)) => {
            let message = at(&draft.messages, number)?;
            out.path(&["messages", message.key])?;
            return Ok(message.template);
        }
        WordingAt::Messages(_) => return Err(Untold::Absent),
    };
    Ok(message.as_ref().ok_or(Untold::Absent)?.as_str())
}

/// A key that is no parameter's name, or a text that is no template.
pub(crate) fn wording_at(refused: &Refused, out: &mut Found, place: WordingAt) -> Written {
    if let WordingAt::Messages(MessagesAt::Key(number)) = place {
        let key = at(&refused.draft.messages, number)?.key;
        return say!(out at "messages", key;
            "a key is one or more characters other than {{, }} and \\"
        );
    }
    let template = Named(to_template(refused, out, place)?);
    say!(out;
        "a brace or a dollar sign in front of one that has no backslash and is no part of a {{name}}: {template}"
    )
}

/// How many containers stand one in another.
fn nested(type_use: &TypeUse) -> usize {
    match type_use {
        TypeUse::List(held) | TypeUse::Map(held) | TypeUse::Optional(held) => {
            nested(held).saturating_add(1)
        }
        _ => 0,
    }
}

/// In the types and their fields.
fn types_limit(draft: &Draft, out: &mut Found, place: TypesAt) -> Written {
    let types = &draft.types;
    match place {
        TypesAt::Types => say!(out at "types"; "{} types, at most 256", types.len()),
        TypesAt::Type(number) => {
            let declared = at(types, number)?;
            let count = declared.fields.len();
            say!(out at "types", declared.name, "fields"; "{count} fields, at most 256")
        }
        TypesAt::Field(number, field) => {
            let field = to_field(out, types, number, field)?;
            let count = nested(&field.type_use);
            say!(out; "{count} containers one in another, at most 4")
        }
    }
}

/// What the text of a key becomes, by the key's number among all: one of the user's, or of a built-in message.
fn full_text(draft: &Draft, out: &mut Found, number: usize) -> Written {
    let user = user_messages(out.alloc, &draft.messages)?;
    let key = key_name(out.alloc, user, number)?;
    out.member("messages")?;
    if find_message(&draft.messages, key.as_str()).is_some() {
        out.member(key.as_str())?;
    }
    let key = Named(key.as_str());
    say!(out;
        "the text of key {key} becomes longer than 65536 bytes with the texts of its parameters"
    )
}

/// In the wording.
fn wording_limit(refused: &Refused, out: &mut Found, place: WordingAt) -> Written {
    match place {
        WordingAt::Messages(MessagesAt::Messages) => {
            let count = refused.draft.messages.len();
            say!(out at "messages"; "{count} messages, at most 1024")
        }
        WordingAt::Messages(MessagesAt::Full(number)) => full_text(refused.draft, out, number),
        _ => {
            let count = to_template(refused, out, place)?.len();
            say!(out; "a template of {count} bytes, at most 4096")
        }
    }
}

/// A limit that is passed.
pub(crate) fn limit_at(refused: &Refused, out: &mut Found, place: LimitAt) -> Written {
    let draft = refused.draft;
    match place {
        LimitAt::Forms => say!(out at "forms"; "{} forms, at most 256", draft.forms.len()),
        LimitAt::Definitions => {
            let count = draft.definitions.len();
            say!(out at "constraints"; "{count} constraints, at most 256")
        }
        LimitAt::Groups(GroupLimit::Groups) => {
            let count = draft.groups.len().saturating_add(1);
            say!(out at "groups"; "{count} groups with Default, at most 256")
        }
        LimitAt::Groups(GroupLimit::Group(number)) => {
            let count = refused.to_names(out, number)?.len();
            say!(out; "{count} groups, at most 32")
        }
        LimitAt::Sequence(number) => {
            let (_, members) = refused.to_members(out, number)?;
            say!(out; "{} members, at most 32", members.len())
        }
        LimitAt::Types(place) => types_limit(draft, out, place),
        LimitAt::Wording(place) => wording_limit(refused, out, place),
        LimitAt::Use(number) => {
            refused.to_use(out, number)?;
            out.add("more than 1024 constraints up to here, with all that they are composed of")
        }
    }
}
