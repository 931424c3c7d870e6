//! Uses of constraints.
ghost use Rattle.std.specs.Prelude.{◌≡◌, IfOk, [], Some, map, option_map};
ghost use Rattle.std.specs.Option.{option_map_or};
ghost use Rattle.serde_json.specs.View.{view as json_view, items_view};
ghost use Rattle.fv_datum.specs.Forms.{each_item};
ghost use Rattle.fv_datum.specs.Members.{listed, each_some};
ghost use Rattle.fv_declare_draft.specs.DraftViews.{use_view};
ghost use Rattle.fv_declare_draft.specs.Uses.{use_of as spec_use};

use crate::draft::UseDraft;
use fv_datum::{has_only, names_of, text_at};
use fv_declare_definition::{attrs_of, message_of};
use serde_json::Value;
use std::alloc::{AllocError, Global};

/// `{"constraint":NAME,"with":{..},"groups":[GROUP],"message":TEMPLATE}`, only `constraint` is required.
fn use_of<'a>(alloc: Global, value: &'a Value) -> Result<Option<UseDraft<'a>>, AllocError>
    ensures { IfOk result (λ o. option_map use_view o ≡ spec_use (json_view value.now)) }
{
    if !has_only(value, &["constraint", "with", "groups", "message"]) {
        return Ok(None);
    }
    let Some(constraint) = text_at(value, "constraint") else {
        return Ok(None);
    };
    let Some(with) = attrs_of(alloc, value.get("with"))? else {
        return Ok(None);
    };
    let Some(groups) = names_of(alloc, value.get("groups"))? else {
        return Ok(None);
    };
    match message_of(value) {
        None => Ok(None),
        Some(message) => Ok(Some(UseDraft {
            constraint,
            with,
            groups,
            message,
        })),
    }
}

fn uses_in<'a>(alloc: Global, values: &'a [Value]) -> Result<Option<Vec<UseDraft<'a>>>, AllocError>
    ensures { IfOk result (λ o. option_map (λ v. map use_view v.items) o
        ≡ each_some spec_use (listed (items_view values.now))) }
{
    let mut uses = Vec::with_capacity(alloc, values.len())?;
    for value in values {
        match use_of(alloc, value)? {
            None => return Ok(None),
            Some(given) => uses.push(given)?,
        }
    }
    Ok(Some(uses))
}

/// The uses at a place: none where it has no such member.
pub(crate) fn uses_of<'a>(
    alloc: Global,
    constraints: Option<&'a Value>,
) -> Result<Option<Vec<UseDraft<'a>>>, AllocError>
    ensures { IfOk result (λ o. option_map (λ v. map use_view v.items) o
        ≡ option_map_or (each_item spec_use) (option_map (λ v. json_view v.now) constraints.entry) (Some [])) }
{
    let Some(value) = constraints else {
        return Ok(Some(Vec::new(alloc)));
    };
    match value.as_array() {
        None => Ok(None),
        Some(values) => uses_in(alloc, values),
    }
}
