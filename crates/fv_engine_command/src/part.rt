//! The parts of commands that change records, and their ids.
ghost use Rattle.std.specs.Prelude.{◌≡◌, IfOk, map, option_map, option_and_then, ◌||◌, ◌==◌};
ghost use Rattle.serde_json.specs.View.{view as json_view, items_view};
ghost use Rattle.fv_datum.specs.Lookup.{at_name};
ghost use Rattle.fv_datum.specs.Members.{listed, each_some};
ghost use Rattle.fv_engine_command.specs.CommandView.{part_view};
ghost use Rattle.fv_engine_command.specs.Commands.{put_of, set_of, remove_of, part_forms, part_of, parts_in, is_id, id_in, id_at};
ghost use Rattle.std.specs.Char.{is_ascii_alphanumeric};
ghost use Rattle.std.specs.List.{list_all};

use fv_datum::{has_only, text_at};
use serde_json::Value;
use std::alloc::{AllocError, Global};

/// The most bytes of an id.
const LONGEST_ID: usize = 64;

/// The most parts of a batch.
pub const MOST_PARTS: usize = 64;

/// A part of a command that changes records, borrowed from the line's JSON.
#[derive(Clone, Copy)]
pub enum Part<'a> {
    /// The record of the id is this one, whether or not there is one.
    Put {
        id: &'a str,
        form: &'a str,
        bundle: &'a Value,
    },
    /// One datum of a record is this one.
    Set {
        id: &'a str,
        object: &'a str,
        field: &'a str,
        value: &'a Value,
    },
    /// The id's record goes.
    Remove {
        id: &'a str,
    },
}

pub(crate) fn put_of(value: &Value) -> Option<Part<'_>>
    ensures { option_map part_view result ≡ put_of (json_view value.now) }
{
    if !has_only(value, &["do", "id", "form", "bundle"]) {
        return None;
    }
    let id = id_of(value)?;
    let form = text_at(value, "form")?;
    let bundle = value.get("bundle")?;
    Some(Part::Put { id, form, bundle })
}

pub(crate) fn set_of(value: &Value) -> Option<Part<'_>>
    ensures { option_map part_view result ≡ set_of (json_view value.now) }
{
    if !has_only(value, &["do", "id", "object", "field", "value"]) {
        return None;
    }
    let id = id_of(value)?;
    let object = text_at(value, "object")?;
    let field = text_at(value, "field")?;
    let told = value.get("value")?;
    Some(Part::Set {
        id,
        object,
        field,
        value: told,
    })
}

pub(crate) fn remove_of(value: &Value) -> Option<Part<'_>>
    ensures { option_map part_view result ≡ remove_of (json_view value.now) }
{
    if !has_only(value, &["do", "id"]) {
        return None;
    }
    let id = id_of(value)?;
    Some(Part::Remove { id })
}

/// The part of a name that a JSON value is.
fn part_by<'a>(name: &str, value: &'a Value) -> Option<Part<'a>>
    ensures { option_map part_view result
        ≡ option_and_then (λ form. form (json_view value.now)) (at_name name.now part_forms) }
{
    match name {
        "put" => put_of(value),
        "set" => set_of(value),
        "remove" => remove_of(value),
        _ => None,
    }
}

/// The part that a JSON value is: a put, a set or a remove.
fn part_of(value: &Value) -> Option<Part<'_>>
    ensures { option_map part_view result ≡ part_of (json_view value.now) }
{
    part_by(text_at(value, "do")?, value)
}

/// The parts that JSON values are.
fn each_part(alloc: Global, values: &[Value]) -> Result<Option<Vec<Part<'_>>>, AllocError>
    ensures { IfOk result (λ o. option_map (λ v. map part_view v.items) o
        ≡ each_some part_of (listed (items_view values.now))) }
{
    let mut parts = Vec::with_capacity(alloc, values.len())?;
    for value in values {
        match part_of(value) {
            None => return Ok(None),
            Some(part) => parts.push(part)?,
        }
    }
    Ok(Some(parts))
}

/// The parts that an array has, 1 to 64 of them.
pub(crate) fn parts_in(alloc: Global, value: &Value) -> Result<Option<Vec<Part<'_>>>, AllocError>
    ensures { IfOk result (λ o. option_map (λ v. map part_view v.items) o ≡ parts_in (json_view value.now)) }
{
    let Some(values) = value.as_array() else {
        return Ok(None);
    };
    if values.is_empty() {
        return Ok(None);
    }
    if values.len() > MOST_PARTS {
        return Ok(None);
    }
    each_part(alloc, values)
}

fn is_id_byte(byte: u8) -> bool
    ensures { result ≡ (is_ascii_alphanumeric byte || byte == 95 || byte == 45) }
{
    byte.is_ascii_alphanumeric() || byte == b'_' || byte == b'-'
}

fn all_id_bytes(bytes: &[u8]) -> bool
    ensures { result ≡ list_all (λ b. is_ascii_alphanumeric b || b == 95 || b == 45) bytes.now }
{
    bytes.iter().all(|byte| is_id_byte(*byte))
}

/// Whether a text is an id: 1 to 64 ASCII letters, ASCII digits, `_` and `-`.
fn is_id(text: &str) -> bool
    ensures { result ≡ is_id text.now }
{
    let bytes = text.as_bytes();
    if bytes.is_empty() {
        return false;
    }
    if bytes.len() > LONGEST_ID {
        return false;
    }
    all_id_bytes(bytes)
}

/// The id that a JSON value is: a text of 1 to 64 ASCII letters, ASCII digits, `_` and `-`; none where it is
/// none.
pub fn id_in(value: &Value) -> Option<&str>
    ensures { option_map (λ s. s.now) result ≡ id_in (json_view value.now) }
{
    let id = value.as_str()?;
    if is_id(id) { Some(id) } else { None }
}

/// The id at the member `id`.
pub(crate) fn id_of(value: &Value) -> Option<&str>
    ensures { option_map (λ s. s.now) result ≡ id_at (json_view value.now) }
{
    id_in(value.get("id")?)
}
