//! Texts and bytes are read as JSON; the members that an object may have, and what they are.
ghost use Rattle.std.specs.Prelude.{◌≡◌, IfOk, IsErrOf, Some, None, map, option_map};
ghost use Rattle.serde_json.specs.Read.{read};
ghost use Rattle.serde_json.specs.View.{view as json_view, members_view};
ghost use Rattle.fv_datum.specs.FaultNames.{json_fault_name};
ghost use Rattle.fv_datum.specs.Parsing.{json_of};
ghost use Rattle.std.specs.List.{list_all, list_any};
ghost use Rattle.std.specs.Str.{bytes_eq};
ghost use Rattle.serde_json.specs.Find.{as_str, as_object};
ghost use Rattle.fv_datum.specs.Forms.{required};
ghost use Rattle.fv_datum.specs.Members.{pairs, has_only};

use serde_json::{Map, Value};
use std::alloc::Global;
use std::str;
use thiserror::Error;

/// Why bytes aren't read.
#[derive(Clone, Copy, Debug, PartialEq, Eq, Error)]
pub enum JsonFault {
    /// Not UTF-8, or not JSON.
    #[error("not JSON")]
    NotJson,
    /// An allocation was refused.
    #[error("out of memory")]
    Memory,
}

impl JsonFault {
    /// The fault's name.
    pub fn name(&self) -> &str
        ensures { result.now ≡ json_fault_name self.now }
    {
        match self {
            JsonFault::NotJson => "NotJson",
            JsonFault::Memory => "Memory",
        }
    }
}

/// The JSON value that a text is.
///
/// `NotJson` where it is none; `Memory` at any place.
pub fn read_text(alloc: Global, text: &str) -> Result<Value, JsonFault>
    ensures read { IfOk result (λ v. read text.now ≡ Some (json_view v)) }
    ensures not_json { IsErrOf result JsonFault.NotJson → read text.now ≡ None }
{
    match Value::from_str(alloc, text) {
        Ok(value) => Ok(value),
        Err(error) => {
            if error.is_memory() {
                Err(JsonFault::Memory)
            } else {
                Err(JsonFault::NotJson)
            }
        }
    }
}

/// The JSON value that bytes are.
///
/// `NotJson` where they aren't UTF-8 or aren't JSON; `Memory` at any place.
pub fn read_json(alloc: Global, bytes: &[u8]) -> Result<Value, JsonFault>
    ensures read { IfOk result (λ v. json_of bytes.now ≡ Some (json_view v)) }
    ensures not_json { IsErrOf result JsonFault.NotJson → json_of bytes.now ≡ None }
{
    let Ok(text) = str::from_utf8(bytes) else {
        return Err(JsonFault::NotJson);
    };
    read_text(alloc, text)
}

/// Whether a JSON value is an object with no member but these. They may be missing.
pub fn has_only(value: &Value, names: &[&str]) -> bool
    ensures { result ≡ has_only (map (λ n. n.now) names.now) (json_view value.now) }
{
    match value.as_object() {
        None => false,
        Some(members) => only_these(members, names),
    }
}

fn only_these(members: &Map<String, Value>, names: &[&str]) -> bool
    ensures { result ≡ list_all (λ m. list_any (λ n. bytes_eq n m.0) (map (λ n. n.now) names.now))
        (pairs (members_view members.now.entries)) }
{
    for (name, _) in members.iter() {
        if !is_among(name.as_str(), names) {
            return false;
        }
    }
    true
}

fn is_among(name: &str, names: &[&str]) -> bool
    ensures { result ≡ list_any (λ n. bytes_eq n name.now) (map (λ n. n.now) names.now) }
{
    for other in names {
        if *other == name {
            return true;
        }
    }
    false
}

/// The text that the member of that name is.
pub fn text_at<'a>(value: &'a Value, name: &str) -> Option<&'a str>
    ensures { option_map (λ s. s.now) result ≡ required as_str name.now (json_view value.now) }
{
    value.get(name)?.as_str()
}

/// The members of the object that the member of that name is.
pub fn object_at<'a>(value: &'a Value, name: &str) -> Option<&'a Map<String, Value>>
    ensures { option_map (λ m. members_view m.now.entries) result ≡ required as_object name.now (json_view value.now) }
{
    value.get(name)?.as_object()
}
