//! The constraints that a declared constraint is composed of. Where a value is not of the form, a
//! function here answers `None`.
ghost use Rattle.std.specs.Prelude.{◌≡◌, IfOk, [], Some, map, option_map};
ghost use Rattle.std.specs.Option.{option_map_or};
ghost use Rattle.serde_json.specs.View.{view as json_view, items_view, members_view};
ghost use Rattle.fv_declare_definition.specs.DefinitionViews.{composing_view, override_entry};
ghost use Rattle.fv_datum.specs.Forms.{each_item, each_member};
ghost use Rattle.fv_datum.specs.Members.{pairs, listed, each_some};
ghost use Rattle.fv_declare_definition.specs.Written.{override_of as spec_override, composing_of as spec_composing};

use crate::adding::add_last;
use crate::attributes::attrs_of;
use crate::definition::Composing;
use crate::message::own_message_of;
use fv_datum::{has_only, text_at};
use serde_json::{Map, Value};
use std::alloc::{AllocError, Global};
use std::collections::BTreeMap;

fn overrides_in(
    alloc: Global,
    members: &Map<String, Value>,
) -> Result<Option<BTreeMap<String, String>>, AllocError>
    ensures { IfOk result (λ o. option_map (λ m. map override_entry m.entries) o
        ≡ each_some spec_override (pairs (members_view members.now.entries))) }
{
    let mut overrides = BTreeMap::new(alloc);
    for (name, value) in members.iter() {
        match value.as_str() {
            None => return Ok(None),
            Some(outer) => {
                add_last(&mut overrides, name, String::from_str(alloc, outer)?)?;
            }
        }
    }
    Ok(Some(overrides))
}

/// The overridden attributes of a composing constraint: none where it has no such member.
fn overrides_of(
    alloc: Global,
    told: Option<&Value>,
) -> Result<Option<BTreeMap<String, String>>, AllocError>
    ensures { IfOk result (λ o. option_map (λ m. map override_entry m.entries) o
        ≡ option_map_or (each_member spec_override) (option_map (λ v. json_view v.now) told.entry) (Some [])) }
{
    let Some(value) = told else {
        return Ok(Some(BTreeMap::new(alloc)));
    };
    match value.as_object() {
        None => Ok(None),
        Some(members) => overrides_in(alloc, members),
    }
}

/// `{"constraint":NAME,"with":{..},"override":{..},"message":TEMPLATE}`, only `constraint` is required.
fn composing_of(alloc: Global, value: &Value) -> Result<Option<Composing>, AllocError>
    ensures { IfOk result (λ o. option_map composing_view o ≡ spec_composing (json_view value.now)) }
{
    if !has_only(value, &["constraint", "with", "override", "message"]) {
        return Ok(None);
    }
    let Some(constraint) = text_at(value, "constraint") else {
        return Ok(None);
    };
    let Some(with) = attrs_of(alloc, value.get("with"))? else {
        return Ok(None);
    };
    let Some(overrides) = overrides_of(alloc, value.get("override"))? else {
        return Ok(None);
    };
    match own_message_of(alloc, value)? {
        None => Ok(None),
        Some(message) => Ok(Some(Composing {
            constraint: String::from_str(alloc, constraint)?,
            with,
            overrides,
            message,
        })),
    }
}

fn composings_in(alloc: Global, values: &[Value]) -> Result<Option<Vec<Composing>>, AllocError>
    ensures { IfOk result (λ o. option_map (λ v. map composing_view v.items) o
        ≡ each_some spec_composing (listed (items_view values.now))) }
{
    let mut composings = Vec::with_capacity(alloc, values.len())?;
    for value in values {
        match composing_of(alloc, value)? {
            None => return Ok(None),
            Some(composing) => composings.push(composing)?,
        }
    }
    Ok(Some(composings))
}

/// The constraints that a declared constraint is composed of, in order: none where it has no such
/// member.
pub(crate) fn composings_of(
    alloc: Global,
    told: Option<&Value>,
) -> Result<Option<Vec<Composing>>, AllocError>
    ensures { IfOk result (λ o. option_map (λ v. map composing_view v.items) o
        ≡ option_map_or (each_item spec_composing) (option_map (λ v. json_view v.now) told.entry) (Some [])) }
{
    let Some(value) = told else {
        return Ok(Some(Vec::new(alloc)));
    };
    match value.as_array() {
        None => Ok(None),
        Some(values) => composings_in(alloc, values),
    }
}
