//! What a field holds, as a schema.
ghost use Rattle.std.specs.Prelude.{◌*◌, ◌≤◌, ℕ};

use crate::asked::Asked;
use crate::bound::DECIMAL;
use fv_bundle::TypeUse;
use fv_datum::Kind;
use fv_declare_schema::{Place, Schema};
use fv_extract::Step;
use serde_json::{Map, Value, json, put};
use std::alloc::{AllocError, Global};

/// A part of a schema, or the fault of memory.
pub(crate) type Made<T> = Result<T, AllocError>;

/// The members of a schema.
type Members = Map<String, Value>;

/// A pattern for names of objects.
pub(crate) const NAME: &str = "^[A-Za-z_][A-Za-z0-9_]{0,63}$";

/// A pattern for dates, but for days that a month hasn't.
const DATE: &str =
    "^(?:[1-9][0-9]{3}|0[1-9][0-9]{2}|00[1-9][0-9]|000[1-9])-(?:0[1-9]|1[0-2])-(?:0[1-9]|[12][0-9]|3[01])$";

/// A field of a type, with the uses of constraints that are said there and inside it, by their places among all.
#[derive(Clone, Copy)]
pub(crate) struct Field<'a> {
    pub(crate) alloc: Global,
    pub(crate) schema: &'a Schema,
    pub(crate) uses: &'a [usize],
    pub(crate) number: usize,
}

impl<'a> Field<'a> {
    /// What is asked where steps lead in the field.
    pub(crate) fn asked(&self, steps: &[Step], kind: Kind) -> Made<Asked<'a>> {
        let mut asked = Asked::new(self.alloc, kind);
        for number in self.uses {
            let Some(placed) = self.schema.occurrences().get(*number) else {
                continue;
            };
            match placed.place() {
                Place::Field(number, at, _) if *number == self.number && at.as_slice() == steps => {
                    asked.ask(placed.occurrence())?
                }
                _ => {}
            }
        }
        Ok(asked)
    }
}

/// Puts a type in, with null where it is taken.
fn put_type(members: &mut Members, alloc: Global, name: &str, takes_null: bool) -> Made<()> {
    let value = if takes_null {
        json!(in alloc; [name, "null"])?
    } else {
        json!(in alloc; name)?
    };
    put(members, alloc, "type", value)
}

/// Puts patterns in: the first as itself, and others behind it.
fn put_patterns(members: &mut Members, alloc: Global, patterns: &[&str]) -> Made<()> {
    let Some((first, others)) = patterns.split_first() else {
        return Ok(());
    };
    put(members, alloc, "pattern", json!(in alloc; *first)?)?;
    if others.is_empty() {
        return Ok(());
    }
    let mut all = Vec::new(alloc);
    for other in others {
        all.push(json!(in alloc; {"pattern": (*other)})?)?;
    }
    put(members, alloc, "allOf", Value::Array(all))
}

/// Puts the form of texts in, if there is one, and the patterns that are asked for.
fn put_texts(members: &mut Members, alloc: Global, form: Option<&str>, asked: &Asked) -> Made<()> {
    let mut patterns = Vec::new(alloc);
    if let Some(form) = form {
        patterns.push(form)?;
    }
    for pattern in &asked.patterns {
        patterns.push(pattern.as_str())?;
    }
    put_patterns(members, alloc, &patterns)
}

/// Puts the bounds of a size in, under these names.
fn put_size(
    members: &mut Members,
    alloc: Global,
    (least, most): (&str, &str),
    (smallest, largest): (u32, u32),
) -> Made<()> {
    if smallest > 0 {
        put(members, alloc, least, Value::from(smallest))?;
    }
    put(members, alloc, most, Value::from(largest))
}

/// The least number of characters of a text of so many UTF-16 code units: a character has one or two.
fn characters(units: u32) -> u32
    ensures enough { units ≤ 2 * result }
    ensures fewest { (n : ℕ) → units ≤ 2 * n → result ≤ n }
{
    units / 2 + units % 2
}

/// Puts what is asked of a text in.
fn put_text(members: &mut Members, alloc: Global, asked: &Asked) -> Made<()> {
    let sizes = (characters(asked.smallest), asked.largest);
    put_size(members, alloc, ("minLength", "maxLength"), sizes)?;
    put_texts(members, alloc, None, asked)
}

/// Puts what is asked of a boolean in.
fn put_boolean(members: &mut Members, alloc: Global, asked: &Asked, takes_null: bool) -> Made<()> {
    if asked.takes_true && asked.takes_false {
        return Ok(());
    }
    let mut all = Vec::new(alloc);
    if asked.takes_true {
        all.push(Value::Bool(true))?;
    }
    if asked.takes_false {
        all.push(Value::Bool(false))?;
    }
    if takes_null {
        all.push(Value::Null)?;
    }
    if all.is_empty() {
        return put(members, alloc, "not", json!(in alloc; {})?);
    }
    put(members, alloc, "enum", Value::Array(all))
}

/// Puts what is asked of data in, other than what they have inside.
fn put_plain(
    members: &mut Members,
    alloc: Global,
    type_use: &TypeUse,
    asked: &Asked,
    takes_null: bool,
) -> Made<()> {
    match type_use {
        TypeUse::Text => put_text(members, alloc, asked),
        TypeUse::Integer | TypeUse::Instant => {
            put(members, alloc, "minimum", Value::from(asked.least))?;
            put(members, alloc, "maximum", Value::from(asked.most))
        }
        TypeUse::Decimal => put_texts(members, alloc, Some(DECIMAL), asked),
        TypeUse::Boolean => put_boolean(members, alloc, asked, takes_null),
        TypeUse::Date => {
            put(members, alloc, "format", json!(in alloc; "date")?)?;
            put_texts(members, alloc, Some(DATE), asked)
        }
        TypeUse::Ref(name) => {
            let told = format!(in alloc; "The name of an object of the type {name}.")?;
            put(members, alloc, "description", Value::String(told))?;
            put_texts(members, alloc, Some(NAME), asked)
        }
        TypeUse::List(_) => {
            let sizes = (asked.smallest, asked.largest);
            put_size(members, alloc, ("minItems", "maxItems"), sizes)
        }
        TypeUse::Map(_) => {
            let sizes = (asked.smallest, asked.largest);
            put_size(members, alloc, ("minProperties", "maxProperties"), sizes)
        }
        TypeUse::Optional(_) => Ok(()),
    }
}

/// The name of a type of JSON.
fn type_name(kind: Kind) -> &'static str {
    match kind {
        Kind::Text | Kind::Decimal | Kind::Date | Kind::Ref => "string",
        Kind::Integer | Kind::Instant => "integer",
        Kind::Boolean => "boolean",
        Kind::List | Kind::Optional => "array",
        Kind::Map => "object",
    }
}

/// The schema of the keys of a map.
fn keys(field: &Field, steps: &[Step]) -> Made<Value> {
    let alloc = field.alloc;
    let asked = field.asked(steps, Kind::Text)?;
    if asked.refuses_data {
        return json!(in alloc; {"not": {}});
    }
    let mut members = Map::new(alloc);
    put_text(&mut members, alloc, &asked)?;
    put_comment(&mut members, alloc, &asked)?;
    Ok(Value::Object(members))
}

/// Puts in what isn't said, if there is something.
fn put_comment(members: &mut Members, alloc: Global, asked: &Asked) -> Made<()> {
    match asked.comment()? {
        None => Ok(()),
        Some(text) => put(members, alloc, "$comment", Value::String(text)),
    }
}

/// The schema of what lies a step further in a field.
#[cycle(held)]
fn inside(
    field: &Field,
    steps: &mut Vec<Step>,
    step: Step,
    type_use: &TypeUse,
    takes_null: bool,
) -> Made<Value> {
    steps.push(step)?;
    let made = held(field, steps, type_use, takes_null)?;
    let _ = steps.pop();
    Ok(made)
}

/// Puts in what data have inside: an empty optional hands null to what is asked of its content. The members stand behind the
/// type use, by whose depth the three functions end: they have depths too, and the first that has one is taken.
#[cycle(held)]
fn put_inside(
    field: &Field,
    steps: &mut Vec<Step>,
    type_use: &TypeUse,
    members: &mut Members,
) -> Made<()> {
    let alloc = field.alloc;
    match type_use {
        TypeUse::List(items) => {
            put(
                members,
                alloc,
                "items",
                inside(field, steps, Step::Element, items, true)?,
            )
        }
        TypeUse::Map(values) => {
            let values = inside(field, steps, Step::Value, values, true)?;
            put(members, alloc, "additionalProperties", values)?;
            steps.push(Step::Key)?;
            put(members, alloc, "propertyNames", keys(field, steps)?)?;
            let _ = steps.pop();
            Ok(())
        }
        TypeUse::Optional(content) => {
            put(
                members,
                alloc,
                "items",
                inside(field, steps, Step::Content, content, false)?,
            )?;
            steps.push(Step::Content)?;
            let asked = field.asked(steps, content.kind())?;
            let _ = steps.pop();
            let sizes = (u32::from(asked.refuses_null), 1);
            put_size(members, alloc, ("minItems", "maxItems"), sizes)
        }
        _ => Ok(()),
    }
}

/// The schema of what a type use holds where steps lead in a field.
#[cycle(held)]
pub(crate) fn held(
    field: &Field,
    steps: &mut Vec<Step>,
    type_use: &TypeUse,
    takes_null: bool,
) -> Made<Value> {
    let alloc = field.alloc;
    let asked = field.asked(steps, type_use.kind())?;
    let takes_null = takes_null && !asked.refuses_null;
    if asked.refuses_data && takes_null {
        return json!(in alloc; {"type": "null"});
    }
    if asked.refuses_data {
        return json!(in alloc; {"not": {}});
    }
    let mut members = Map::new(alloc);
    put_type(&mut members, alloc, type_name(type_use.kind()), takes_null)?;
    put_plain(&mut members, alloc, type_use, &asked, takes_null)?;
    put_inside(field, steps, type_use, &mut members)?;
    put_comment(&mut members, alloc, &asked)?;
    Ok(Value::Object(members))
}
