//! Messages by their keys. Where a value is not of the form, a function here answers `None`.
ghost use Rattle.std.specs.Prelude.{◌≡◌, IfOk, IfSome, [], Some, map, option_map};
ghost use Rattle.std.specs.Option.{option_map_or};
ghost use Rattle.serde_json.specs.View.{view as json_view, members_view};
ghost use Rattle.fv_datum.specs.Forms.{each_member};
ghost use Rattle.fv_datum.specs.Members.{pairs, each_some};
ghost use Rattle.fv_declare_draft.specs.DraftViews.{message_view};
ghost use Rattle.fv_declare_draft.specs.Messages.{message_draft_of as spec_message};
ghost use Rattle.fv_datum.specs.Ascending.{IsAscending};

use crate::draft::MessageDraft;
use serde_json::{Map, Value};
use std::alloc::{AllocError, Global};

fn messages_in<'a>(
    alloc: Global,
    members: &'a Map<String, Value>,
) -> Result<Option<Vec<MessageDraft<'a>>>, AllocError>
    ensures exact { IfOk result (λ o. option_map (λ v. map message_view v.items) o
        ≡ each_some spec_message (pairs (members_view members.now.entries))) }
    ensures ascend { IfOk result (λ o. IfSome o (λ v. IsAscending (map (λ x. x.key.now) v.items))) }
{
    let mut messages = Vec::with_capacity(alloc, members.len())?;
    for (key, value) in members.iter() {
        match value.as_str() {
            None => return Ok(None),
            Some(template) => messages.push(MessageDraft {
                key: key.as_str(),
                template,
            })?,
        }
    }
    Ok(Some(messages))
}

/// The messages, ascending by the bytes of their keys: none where there is no such member.
pub(crate) fn messages_of<'a>(
    alloc: Global,
    told: Option<&'a Value>,
) -> Result<Option<Vec<MessageDraft<'a>>>, AllocError>
    ensures exact { IfOk result (λ o. option_map (λ v. map message_view v.items) o
        ≡ option_map_or (each_member spec_message) (option_map (λ v. json_view v.now) told.entry) (Some [])) }
    ensures ascend { IfOk result (λ o. IfSome o (λ v. IsAscending (map (λ x. x.key.now) v.items))) }
{
    let Some(value) = told else {
        return Ok(Some(Vec::new(alloc)));
    };
    match value.as_object() {
        None => Ok(None),
        Some(members) => messages_in(alloc, members),
    }
}
