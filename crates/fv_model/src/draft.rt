//! A draft is read from JSON.
ghost use Rattle.std.specs.Prelude.{◌≡◌, IfOk, Some, map, option_map};
ghost use Rattle.std.specs.Option.{option_map_or};
ghost use Rattle.std.specs.Map.{keys_of};
ghost use Rattle.std.specs.BTreeMap.{IsOrdered};
ghost use Rattle.std.specs.String.{string_cmp};
ghost use Rattle.serde_json.specs.Data.{no_members};
ghost use Rattle.serde_json.specs.Find.{as_object};
ghost use Rattle.serde_json.specs.View.{view as json_view, members_view};
ghost use Rattle.fv_datum.specs.Members.{pairs, each_some};
ghost use Rattle.fv_model.specs.Draft.{object_draft as spec_part, bundle_draft_of as spec_draft};
ghost use Rattle.fv_bundle.specs.Bundles.{IsAscending};
ghost use Rattle.fv_model.specs.Reading.{object_types};
ghost use Rattle.fv_model.specs.Views.{given_view, object_types_view, part_view, draft_view};

use crate::parts::{Draft, Part};
use fv_bundle::TypeNames;
use fv_datum::{has_only, object_at, text_at};
use indexmap::IndexMap;
use serde_json::{Map, Value};
use std::alloc::{AllocError, Global};

/// The fields that an object gives: `Some(None)` where it has no such member, `None` where that is no
/// object.
fn given_in<'a>(member: Option<&'a Value>) -> Option<Option<&'a Map<String, Value>>>
    ensures { option_map given_view result
        ≡ option_map_or as_object (option_map (λ v. json_view v.now) member.entry) (Some no_members) }
{
    match member {
        None => Some(None),
        Some(value) => match value.as_object() {
            None => None,
            Some(fields) => Some(Some(fields)),
        },
    }
}

/// The object of that name that a value is.
fn part_of<'a>(name: &'a str, value: &'a Value) -> Option<Part<'a>>
    ensures { option_map part_view result ≡ spec_part (name.now, json_view value.now) }
{
    if !has_only(value, &["type", "fields"]) {
        return None;
    }
    let type_name = text_at(value, "type")?;
    let given = given_in(value.get("fields"))?;
    Some(Part {
        name,
        type_name,
        given,
    })
}

#[tactic(auto, using(fv_datum::proofs::Fronts::front_more))]
fn parts_of<'a>(
    alloc: Global,
    objects: &'a Map<String, Value>,
) -> Result<Option<Vec<Part<'a>>>, AllocError>
    ensures parts { IfOk result (λ o. option_map (λ v. map part_view v.items) o
        ≡ each_some spec_part (pairs (members_view objects.now.entries))) }
    ensures ordered { IsOrdered string_cmp objects.now }
{
    let mut parts = Vec::with_capacity(alloc, objects.len())?;
    for (name, value) in objects.iter() {
        match part_of(name.as_str(), value) {
            None => return Ok(None),
            Some(part) => parts.push(part)?,
        }
    }
    Ok(Some(parts))
}

/// The names of objects' types by the objects' names, each name once.
pub(crate) fn object_types_of<'a>(
    alloc: Global,
    parts: &[Part<'a>],
) -> Result<TypeNames<'a>, AllocError>
    requires { IsAscending (keys_of (object_types (map part_view parts.now))) }
    ensures { IfOk result (λ m. object_types_view m ≡ object_types (map part_view parts.now)) }
{
    let mut out = IndexMap::with_capacity(alloc, parts.len())?;
    for part in parts {
        out.insert(part.name, part.type_name)?;
    }
    Ok(out)
}

/// The draft that a JSON value is, where it has the form of a bundle.
pub(crate) fn draft_of<'a>(alloc: Global, value: &'a Value) -> Result<Option<Draft<'a>>, AllocError>
    ensures { IfOk result (λ o. option_map draft_view o ≡ spec_draft (json_view value.now)) }
{
    if !has_only(value, &["root", "objects"]) {
        return Ok(None);
    }
    let Some(root) = text_at(value, "root") else {
        return Ok(None);
    };
    let Some(objects) = object_at(value, "objects") else {
        return Ok(None);
    };
    match parts_of(alloc, objects)? {
        None => Ok(None),
        Some(objects) => {
            let type_names = object_types_of(alloc, &objects)?;
            Ok(Some(Draft {
                root,
                objects,
                type_names,
            }))
        }
    }
}
