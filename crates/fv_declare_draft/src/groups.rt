//! Groups. Where a value is not of the form, a function here answers `None`.
ghost use Rattle.std.specs.Prelude.{◌≡◌, IfOk, IfSome, [], Some, map, option_map, option_and_then};
ghost use Rattle.std.specs.Option.{option_map_or};
ghost use Rattle.serde_json.specs.View.{view as json_view, members_view};
ghost use Rattle.fv_datum.specs.Forms.{each_member, required};
ghost use Rattle.fv_datum.specs.Members.{pairs, each_some};
ghost use Rattle.fv_datum.specs.EntryNames.{names_of};
ghost use Rattle.fv_datum.specs.Ascending.{IsAscending};
ghost use Rattle.fv_declare_draft.specs.DraftViews.{group_form_view, group_view};
ghost use Rattle.fv_datum.specs.NameLists.{names_in as spec_names};
ghost use Rattle.fv_declare_draft.specs.Groups.{sequence_of as spec_sequence, group_form_of as spec_form, group_of as spec_group};

use crate::draft::{GroupDraft, GroupForm};
use fv_datum::{has_only, names_in, names_of};
use serde_json::{Map, Value};
use std::alloc::{AllocError, Global};

/// A sequence, which has at least one member.
fn sequence_of<'a>(
    alloc: Global,
    told: Option<&'a Value>,
) -> Result<Option<GroupForm<'a>>, AllocError>
    ensures { IfOk result (λ o. option_map group_form_view o
        ≡ option_and_then spec_sequence (option_and_then spec_names (option_map (λ v. json_view v.now) told.entry))) }
{
    let Some(value) = told else {
        return Ok(None);
    };
    match names_in(alloc, value)? {
        None => Ok(None),
        Some(members) if members.is_empty() => Ok(None),
        Some(members) => Ok(Some(GroupForm::Sequence(members))),
    }
}

/// `{"inherits":[GROUP]}`, `{"sequence":[GROUP]}` with at least one member, or `{}`.
fn form_of<'a>(alloc: Global, value: &'a Value) -> Result<Option<GroupForm<'a>>, AllocError>
    ensures { IfOk result (λ o. option_map group_form_view o ≡ spec_form (json_view value.now)) }
{
    if has_only(value, &["inherits"]) {
        return match names_of(alloc, value.get("inherits"))? {
            None => Ok(None),
            Some(inherited) => Ok(Some(GroupForm::Inherits(inherited))),
        };
    }
    if has_only(value, &["sequence"]) {
        return sequence_of(alloc, value.get("sequence"));
    }
    Ok(None)
}

/// A group with its name.
fn group_of<'a>(
    alloc: Global,
    name: &'a str,
    value: &'a Value,
) -> Result<Option<GroupDraft<'a>>, AllocError>
    ensures exact { IfOk result (λ o. option_map group_view o ≡ spec_group (name.now, json_view value.now)) }
    ensures name { IfOk result (λ o. IfSome o (λ x. x.name.now ≡ name.now)) }
{
    match form_of(alloc, value)? {
        None => Ok(None),
        Some(form) => Ok(Some(GroupDraft { name, form })),
    }
}

fn groups_in<'a>(
    alloc: Global,
    members: &'a Map<String, Value>,
) -> Result<Option<Vec<GroupDraft<'a>>>, AllocError>
    ensures exact { IfOk result (λ o. option_map (λ v. map group_view v.items) o
        ≡ each_some spec_group (pairs (members_view members.now.entries))) }
    ensures names { IfOk result (λ o. IfSome o (λ v. map (λ x. x.name.now) v.items ≡ names_of members.now.entries)) }
    ensures ascend { IfOk result (λ o. IfSome o (λ v. IsAscending (map (λ x. x.name.now) v.items))) }
{
    let mut groups = Vec::with_capacity(alloc, members.len())?;
    for (name, value) in members.iter() {
        match group_of(alloc, name.as_str(), value)? {
            None => return Ok(None),
            Some(group) => groups.push(group)?,
        }
    }
    Ok(Some(groups))
}

/// The declared groups, ascending by the bytes of their names: none where there is no such member.
pub(crate) fn groups_of<'a>(
    alloc: Global,
    told: Option<&'a Value>,
) -> Result<Option<Vec<GroupDraft<'a>>>, AllocError>
    ensures exact { IfOk result (λ o. option_map (λ v. map group_view v.items) o
        ≡ option_map_or (each_member spec_group) (option_map (λ v. json_view v.now) told.entry) (Some [])) }
    ensures ascend { IfOk result (λ o. IfSome o (λ v. IsAscending (map (λ x. x.name.now) v.items))) }
{
    let Some(value) = told else {
        return Ok(Some(Vec::new(alloc)));
    };
    match value.as_object() {
        None => Ok(None),
        Some(members) => groups_in(alloc, members),
    }
}
