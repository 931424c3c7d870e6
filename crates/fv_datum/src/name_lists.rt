//! Names. Where a value is not of the form, a function here answers `None`.
ghost use Rattle.std.specs.Prelude.{◌≡◌, IfOk, [], Some, None, map, option_map};
ghost use Rattle.std.specs.Option.{option_map_or};
ghost use Rattle.serde_json.specs.Find.{as_str};
ghost use Rattle.serde_json.specs.View.{view as json_view, items_view};
ghost use Rattle.fv_datum.specs.Members.{listed, each_some};
ghost use Rattle.fv_datum.specs.NameLists.{names_in as spec_names};

use serde_json::Value;
use std::alloc::{AllocError, Global};

fn texts_in<'a>(alloc: Global, values: &'a [Value]) -> Result<Option<Vec<&'a str>>, AllocError>
    ensures { IfOk result (λ o. option_map (λ v. map (λ n. n.now) v.items) o
        ≡ each_some as_str (listed (items_view values.now))) }
{
    let mut names = Vec::with_capacity(alloc, values.len())?;
    for value in values {
        match value.as_str() {
            None => return Ok(None),
            Some(name) => names.push(name)?,
        }
    }
    Ok(Some(names))
}

/// The names that an array of texts has.
pub fn names_in<'a>(alloc: Global, value: &'a Value) -> Result<Option<Vec<&'a str>>, AllocError>
    ensures { IfOk result (λ o. option_map (λ v. map (λ n. n.now) v.items) o ≡ spec_names (json_view value.now)) }
{
    match value.as_array() {
        None => Ok(None),
        Some(values) => texts_in(alloc, values),
    }
}

/// The names that a member has: none where there is no such member.
pub fn names_of<'a>(
    alloc: Global,
    told: Option<&'a Value>,
) -> Result<Option<Vec<&'a str>>, AllocError>
    ensures { IfOk result (λ o. option_map (λ v. map (λ n. n.now) v.items) o
        ≡ option_map_or spec_names (option_map (λ v. json_view v.now) told.entry) (Some [])) }
{
    match told {
        None => Ok(Some(Vec::new(alloc))),
        Some(value) => names_in(alloc, value),
    }
}

/// The names that a member has, if it is there.
pub fn told_names_of<'a>(
    alloc: Global,
    told: Option<&'a Value>,
) -> Result<Option<Option<Vec<&'a str>>>, AllocError>
    ensures { IfOk result (λ o. option_map (λ n. option_map (λ v. map (λ n. n.now) v.items) n) o
        ≡ option_map_or (λ j. option_map (λ n. Some n) (spec_names j)) (option_map (λ v. json_view v.now) told.entry)
        (Some None)) }
{
    let Some(value) = told else {
        return Ok(Some(None));
    };
    match names_in(alloc, value)? {
        None => Ok(None),
        Some(names) => Ok(Some(Some(names))),
    }
}
