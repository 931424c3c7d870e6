//! What a line asks for.
ghost use Rattle.std.specs.Prelude.{◌≡◌, IfOk, codes, map, option_map, option_and_then};
ghost use Rattle.fv_datum.specs.Forms.{maybe, optional};
ghost use Rattle.fv_datum.specs.Lookup.{at_name};
ghost use Rattle.serde_json.specs.View.{view as json_view};
ghost use Rattle.fv_engine_command.specs.CommandView.{command_view, part_view};
ghost use Rattle.fv_engine_command.specs.Commands.{alone, batch_of, get_of, groups_at, check_of, check_field_of, check_value_of, id_in, limit_in, list_request, forms, command_of, redeclare_of};

use crate::part::{Part, id_in, id_of, parts_in, put_of, remove_of, set_of};
use fv_datum::{has_only, names_of, text_at};
use serde_json::Value;
use std::alloc::{AllocError, Global};

/// The most groups that a check names, repeats included.
pub const MOST_GROUPS: usize = 32;

/// The most ids that a list gives.
const MOST_IDS: u64 = 1000;

/// A field of an object of a record, by their names.
#[derive(Drop)]
pub struct StoredField<'a> {
    pub id: &'a str,
    pub object: &'a str,
    pub field: &'a str,
}

/// A field of a type, by their names.
#[derive(Drop)]
pub struct TypeField<'a> {
    pub type_name: &'a str,
    pub field: &'a str,
}

/// A command, its parts borrowed from the line's JSON.
#[derive(Drop)]
pub enum Command<'a> {
    /// A put, a set or a remove by itself.
    Alone(Part<'a>),
    /// All of these in order, or none; 1 to 64.
    Batch {
        parts: Vec<Part<'a>>,
    },
    Get {
        id: &'a str,
    },
    Check {
        id: &'a str,
        groups: Vec<&'a str>,
    },
    CheckField {
        at: StoredField<'a>,
        groups: Vec<&'a str>,
    },
    CheckValue {
        at: TypeField<'a>,
        value: &'a Value,
        groups: Vec<&'a str>,
    },
    /// The ids of a form above one, at most so many.
    List {
        form: &'a str,
        after: Option<&'a str>,
        limit: u32,
    },
}

fn get_of(value: &Value) -> Option<Command<'_>>
    ensures { option_map command_view result ≡ get_of (json_view value.now) }
{
    if !has_only(value, &["do", "id"]) {
        return None;
    }
    let id = id_of(value)?;
    Some(Command::Get { id })
}

/// The names at the member `groups`: an array of at most 32 texts, and none where it is missing.
fn groups_of(alloc: Global, value: &Value) -> Result<Option<Vec<&str>>, AllocError>
    ensures { IfOk result (λ o. option_map (λ v. map (λ n. n.now) v.items) o ≡ groups_at (json_view value.now)) }
{
    match names_of(alloc, value.get("groups"))? {
        Some(names) if names.len() <= MOST_GROUPS => Ok(Some(names)),
        _ => Ok(None),
    }
}

fn check_of(alloc: Global, value: &Value) -> Result<Option<Command<'_>>, AllocError>
    ensures { IfOk result (λ o. option_map command_view o ≡ check_of (json_view value.now)) }
{
    if !has_only(value, &["do", "id", "groups"]) {
        return Ok(None);
    }
    let Some(id) = id_of(value) else {
        return Ok(None);
    };
    match groups_of(alloc, value)? {
        None => Ok(None),
        Some(groups) => Ok(Some(Command::Check { id, groups })),
    }
}

fn check_field_of(alloc: Global, value: &Value) -> Result<Option<Command<'_>>, AllocError>
    ensures { IfOk result (λ o. option_map command_view o ≡ check_field_of (json_view value.now)) }
{
    if !has_only(value, &["do", "id", "object", "field", "groups"]) {
        return Ok(None);
    }
    let Some(id) = id_of(value) else {
        return Ok(None);
    };
    let Some(object) = text_at(value, "object") else {
        return Ok(None);
    };
    let Some(field) = text_at(value, "field") else {
        return Ok(None);
    };
    let at = StoredField { id, object, field };
    match groups_of(alloc, value)? {
        None => Ok(None),
        Some(groups) => Ok(Some(Command::CheckField { at, groups })),
    }
}

fn check_value_of(alloc: Global, value: &Value) -> Result<Option<Command<'_>>, AllocError>
    ensures { IfOk result (λ o. option_map command_view o ≡ check_value_of (json_view value.now)) }
{
    if !has_only(value, &["do", "type", "field", "value", "groups"]) {
        return Ok(None);
    }
    let Some(type_name) = text_at(value, "type") else {
        return Ok(None);
    };
    let Some(field) = text_at(value, "field") else {
        return Ok(None);
    };
    let Some(told) = value.get("value") else {
        return Ok(None);
    };
    let at = TypeField { type_name, field };
    match groups_of(alloc, value)? {
        None => Ok(None),
        Some(groups) => Ok(Some(Command::CheckValue {
            at,
            value: told,
            groups,
        })),
    }
}

/// The id at the member `after`, which may be missing.
fn after_of(value: &Value) -> Option<Option<&str>>
    ensures { option_map (λ o. option_map (λ s. s.now) o) result ≡ maybe id_in (codes "after") (json_view value.now) }
{
    match value.get("after") {
        None => Some(None),
        Some(after) => Some(Some(id_in(after)?)),
    }
}

/// The limit of a list that a JSON value is: a whole number from 1 to 1,000; none where it is none.
pub fn limit_in(value: &Value) -> Option<u32>
    ensures { result ≡ limit_in (json_view value.now) }
{
    let limit = value.as_u64()?;
    if limit == 0 {
        return None;
    }
    if limit > MOST_IDS {
        return None;
    }
    Some(limit as u32)
}

/// The limit at the member `limit`; 100 where it is missing.
fn limit_of(value: &Value) -> Option<u32>
    ensures { result ≡ optional 100 limit_in (codes "limit") (json_view value.now) }
{
    match value.get("limit") {
        None => Some(100),
        Some(limit) => limit_in(limit),
    }
}

fn list_of(value: &Value) -> Option<Command<'_>>
    ensures { option_map command_view result ≡ list_request (json_view value.now) }
{
    if !has_only(value, &["do", "form", "after", "limit"]) {
        return None;
    }
    let form = text_at(value, "form")?;
    let after = after_of(value)?;
    let limit = limit_of(value)?;
    Some(Command::List { form, after, limit })
}

fn batch_of(alloc: Global, value: &Value) -> Result<Option<Command<'_>>, AllocError>
    ensures { IfOk result (λ o. option_map command_view o ≡ batch_of (json_view value.now)) }
{
    if !has_only(value, &["do", "parts"]) {
        return Ok(None);
    }
    let Some(told) = value.get("parts") else {
        return Ok(None);
    };
    match parts_in(alloc, told)? {
        None => Ok(None),
        Some(parts) => Ok(Some(Command::Batch { parts })),
    }
}

/// A part by itself.
fn alone<'a>(part: Option<Part<'a>>) -> Option<Command<'a>>
    ensures { option_map command_view result ≡ option_map alone (option_map part_view part.entry) }
{
    Some(Command::Alone(part?))
}

/// The command of a name that a JSON value is.
fn done_by<'a>(
    alloc: Global,
    name: &str,
    value: &'a Value,
) -> Result<Option<Command<'a>>, AllocError>
    ensures { IfOk result (λ o. option_map command_view o
        ≡ option_and_then (λ form. form (json_view value.now)) (at_name name.now forms)) }
{
    match name {
        "put" => Ok(alone(put_of(value))),
        "set" => Ok(alone(set_of(value))),
        "remove" => Ok(alone(remove_of(value))),
        "batch" => batch_of(alloc, value),
        "get" => Ok(get_of(value)),
        "check" => check_of(alloc, value),
        "checkfield" => check_field_of(alloc, value),
        "checkvalue" => check_value_of(alloc, value),
        "list" => Ok(list_of(value)),
        _ => Ok(None),
    }
}

/// The command that a JSON value is: an object with the members of the command that `do` names, and
/// no others. A put's bundle and the value of a set and of a checkvalue are any values here; forms,
/// objects, fields, types and groups are any texts. So is each part of a batch.
pub fn command_of(alloc: Global, value: &Value) -> Result<Option<Command<'_>>, AllocError>
    ensures { IfOk result (λ o. option_map command_view o ≡ command_of (json_view value.now)) }
{
    match text_at(value, "do") {
        None => Ok(None),
        Some(name) => done_by(alloc, name, value),
    }
}

/// The text of the new declarations, where a JSON value is a redeclare: an object whose member `do` is
/// `redeclare` and whose only other member, `text`, is any text. It takes no memory.
pub fn redeclare_of(value: &Value) -> Option<&str>
    ensures { option_map (λ s. s.now) result ≡ redeclare_of (json_view value.now) }
{
    if !has_only(value, &["do", "text"]) {
        return None;
    }
    match text_at(value, "do")? {
        "redeclare" => text_at(value, "text"),
        _ => None,
    }
}
