//! Whether the objects at a place are validated, and how groups are converted on the way to them.
//! Where a value is not of the form, a function here answers `None`.
ghost use Rattle.std.specs.Prelude.{◌≡◌, IfOk, [], Some, false, map, option_map};
ghost use Rattle.std.specs.Option.{option_map_or};
ghost use Rattle.serde_json.specs.Find.{as_bool};
ghost use Rattle.serde_json.specs.View.{view as json_view, members_view};
ghost use Rattle.fv_datum.specs.Forms.{each_member};
ghost use Rattle.fv_datum.specs.Members.{pairs, each_some};
ghost use Rattle.fv_declare_draft.specs.Cascades.{conversion_of as spec_conversion, cascade_of as spec_cascade};
ghost use Rattle.fv_declare_draft.specs.DraftViews.{conversion_view, cascade_view};

use crate::draft::{CascadeDraft, Conversion};
use serde_json::{Map, Value};
use std::alloc::{AllocError, Global};

fn conversions_in<'a>(
    alloc: Global,
    members: &'a Map<String, Value>,
) -> Result<Option<Vec<Conversion<'a>>>, AllocError>
    ensures { IfOk result (λ o. option_map (λ v. map conversion_view v.items) o
        ≡ each_some spec_conversion (pairs (members_view members.now.entries))) }
{
    let mut conversions = Vec::with_capacity(alloc, members.len())?;
    for (from, value) in members.iter() {
        match value.as_str() {
            None => return Ok(None),
            Some(to) => conversions.push(Conversion {
                from: from.as_str(),
                to,
            })?,
        }
    }
    Ok(Some(conversions))
}

/// The conversions: none where there is no such member.
fn conversions_of<'a>(
    alloc: Global,
    told: Option<&'a Value>,
) -> Result<Option<Vec<Conversion<'a>>>, AllocError>
    ensures { IfOk result (λ o. option_map (λ v. map conversion_view v.items) o
        ≡ option_map_or (each_member spec_conversion) (option_map (λ v. json_view v.now) told.entry) (Some [])) }
{
    let Some(value) = told else {
        return Ok(Some(Vec::new(alloc)));
    };
    match value.as_object() {
        None => Ok(None),
        Some(members) => conversions_in(alloc, members),
    }
}

/// Whether the objects are validated: not where there is no such member.
fn valid_of(told: Option<&Value>) -> Option<bool>
    ensures { result ≡ option_map_or as_bool (option_map (λ v. json_view v.now) told.entry) (Some false) }
{
    match told {
        None => Some(false),
        Some(value) => value.as_bool(),
    }
}

/// The members `"valid":BOOL` and `"convert":{GROUP:GROUP}` of a place, which may be missing.
pub(crate) fn cascade_of<'a>(
    alloc: Global,
    value: &'a Value,
) -> Result<Option<CascadeDraft<'a>>, AllocError>
    ensures { IfOk result (λ o. option_map cascade_view o ≡ spec_cascade (json_view value.now)) }
{
    let Some(valid) = valid_of(value.get("valid")) else {
        return Ok(None);
    };
    match conversions_of(alloc, value.get("convert"))? {
        None => Ok(None),
        Some(conversions) => Ok(Some(CascadeDraft { valid, conversions })),
    }
}
