//! The attributes that a use gives. Where a value is not of the form, a function here answers
//! `None`.
ghost use Rattle.std.specs.Prelude.{◌≡◌, IfOk, [], Some, map, option_map, string_bytes};
ghost use Rattle.std.specs.Option.{option_map_or};
ghost use Rattle.serde_json.specs.Find.{as_str};
ghost use Rattle.serde_json.specs.View.{view as json_view, items_view, members_view};
ghost use Rattle.fv_datum.specs.Attributes.{attribute_view};
ghost use Rattle.fv_datum.specs.Forms.{each_member};
ghost use Rattle.fv_datum.specs.Members.{pairs, listed, each_some};
ghost use Rattle.fv_declare_definition.specs.Attributes.{attribute_of, attr_of};

use crate::adding::add_last;
use fv_datum::{Attribute, Attrs};
use serde_json::{Map, Value};
use std::alloc::{AllocError, Global};
use std::collections::BTreeMap;

/// A list of texts.
fn texts_of(alloc: Global, values: &[Value]) -> Result<Option<Vec<String>>, AllocError>
    ensures { IfOk result (λ o. option_map (λ v. map string_bytes v.items) o
        ≡ each_some as_str (listed (items_view values.now))) }
{
    let mut texts = Vec::with_capacity(alloc, values.len())?;
    for value in values {
        match value.as_str() {
            None => return Ok(None),
            Some(text) => texts.push(String::from_str(alloc, text)?)?,
        }
    }
    Ok(Some(texts))
}

/// An attribute's value: a 64-bit whole number, a text, a boolean or a list of texts.
pub(crate) fn attribute_of(alloc: Global, value: &Value) -> Result<Option<Attribute>, AllocError>
    ensures { IfOk result (λ o. option_map attribute_view o ≡ attribute_of (json_view value.now)) }
{
    match value {
        Value::Number(_) => Ok(value.as_i64().map(Attribute::Integer)),
        Value::String(text) => Ok(Some(Attribute::Text(text.clone()?))),
        Value::Bool(flag) => Ok(Some(Attribute::Boolean(*flag))),
        Value::Array(values) => match texts_of(alloc, values)? {
            None => Ok(None),
            Some(texts) => Ok(Some(Attribute::Texts(texts))),
        },
        _ => Ok(None),
    }
}

fn attrs_in(alloc: Global, members: &Map<String, Value>) -> Result<Option<Attrs>, AllocError>
    ensures { IfOk result (λ o. o ≡ each_some attr_of (pairs (members_view members.now.entries))) }
{
    let mut entries = BTreeMap::new(alloc);
    for (name, value) in members.iter() {
        match attribute_of(alloc, value)? {
            None => return Ok(None),
            Some(attribute) => add_last(&mut entries, name, attribute)?,
        }
    }
    Ok(Some(Attrs::new(entries)))
}

/// The attributes that a use gives: none where it has no such member.
pub fn attrs_of(alloc: Global, with: Option<&Value>) -> Result<Option<Attrs>, AllocError>
    ensures { IfOk result (λ o. o ≡ option_map_or (each_member attr_of) (option_map (λ v. json_view v.now) with.entry)
        (Some [])) }
{
    let Some(value) = with else {
        return Ok(Some(Attrs::new(BTreeMap::new(alloc))));
    };
    match value.as_object() {
        None => Ok(None),
        Some(members) => attrs_in(alloc, members),
    }
}
