//! The draft that a JSON value is. Where a value is not of the form, a function here answers
//! `None`.
ghost use Rattle.std.specs.Prelude.{◌≡◌, IfOk, IfSome, map, option_map};
ghost use Rattle.serde_json.specs.View.{view as json_view, members_view};
ghost use Rattle.fv_datum.specs.Members.{pairs, each_some};
ghost use Rattle.fv_declare_draft.specs.Drafts.{field_of as spec_field, type_of as spec_type, form_of as spec_form, draft_of as spec_draft};
ghost use Rattle.fv_declare_draft.specs.DraftViews.{field_view, type_view, form_view, draft_view};
ghost use Rattle.fv_datum.specs.Ascending.{IsAscending};
ghost use Rattle.fv_datum.specs.EntryNames.{names_of};

use crate::draft::{Draft, FieldDraft, FormDraft, TypeDraft};
use crate::groups::groups_of;
use crate::messages::messages_of;
use crate::places::{Held, place_of};
use crate::uses::uses_of;
use fv_datum::{has_only, names_of, object_at, text_at, told_names_of};
use fv_declare_definition::definitions_of;
use serde_json::{Map, Value};
use std::alloc::{AllocError, Global};

/// A field with its place.
fn field_of<'a>(
    alloc: Global,
    name: &'a str,
    value: &'a Value,
) -> Result<Option<FieldDraft<'a>>, AllocError>
    ensures exact { IfOk result (λ o. option_map field_view o ≡ spec_field (name.now, json_view value.now)) }
    ensures name { IfOk result (λ o. IfSome o (λ x. x.name.now ≡ name.now)) }
{
    match place_of(alloc, &[], value)? {
        None => Ok(None),
        Some(
            Held {
                type_use,
                uses,
                cascades,
            },
        ) => Ok(Some(FieldDraft {
            name,
            type_use,
            uses,
            cascades,
        })),
    }
}

fn fields_of<'a>(
    alloc: Global,
    members: &'a Map<String, Value>,
) -> Result<Option<Vec<FieldDraft<'a>>>, AllocError>
    ensures exact { IfOk result (λ o. option_map (λ v. map field_view v.items) o
        ≡ each_some spec_field (pairs (members_view members.now.entries))) }
    ensures names { IfOk result (λ o. IfSome o (λ v. map (λ x. x.name.now) v.items ≡ names_of members.now.entries)) }
    ensures ascend { IfOk result (λ o. IfSome o (λ v. IsAscending (map (λ x. x.name.now) v.items))) }
{
    let mut fields = Vec::with_capacity(alloc, members.len())?;
    for (name, value) in members.iter() {
        match field_of(alloc, name.as_str(), value)? {
            None => return Ok(None),
            Some(field) => fields.push(field)?,
        }
    }
    Ok(Some(fields))
}

/// `{"fields":{..},"constraints":[..],"sequence":[GROUP]}`, `constraints` and `sequence` may be missing.
fn type_of<'a>(
    alloc: Global,
    name: &'a str,
    value: &'a Value,
) -> Result<Option<TypeDraft<'a>>, AllocError>
    ensures exact { IfOk result (λ o. option_map type_view o ≡ spec_type (name.now, json_view value.now)) }
    ensures name { IfOk result (λ o. IfSome o (λ x. x.name.now ≡ name.now)) }
{
    if !has_only(value, &["fields", "constraints", "sequence"]) {
        return Ok(None);
    }
    let Some(fields) = object_at(value, "fields") else {
        return Ok(None);
    };
    let Some(fields) = fields_of(alloc, fields)? else {
        return Ok(None);
    };
    let Some(uses) = uses_of(alloc, value.get("constraints"))? else {
        return Ok(None);
    };
    match told_names_of(alloc, value.get("sequence"))? {
        None => Ok(None),
        Some(sequence) => Ok(Some(TypeDraft {
            name,
            fields,
            uses,
            sequence,
        })),
    }
}

fn types_of<'a>(
    alloc: Global,
    members: &'a Map<String, Value>,
) -> Result<Option<Vec<TypeDraft<'a>>>, AllocError>
    ensures exact { IfOk result (λ o. option_map (λ v. map type_view v.items) o
        ≡ each_some spec_type (pairs (members_view members.now.entries))) }
    ensures names { IfOk result (λ o. IfSome o (λ v. map (λ x. x.name.now) v.items ≡ names_of members.now.entries)) }
    ensures ascend { IfOk result (λ o. IfSome o (λ v. IsAscending (map (λ x. x.name.now) v.items))) }
{
    let mut types = Vec::with_capacity(alloc, members.len())?;
    for (name, value) in members.iter() {
        match type_of(alloc, name.as_str(), value)? {
            None => return Ok(None),
            Some(declared) => types.push(declared)?,
        }
    }
    Ok(Some(types))
}

/// `{"root":TYPE,"groups":[GROUP]}`, `groups` may be missing.
fn form_of<'a>(
    alloc: Global,
    name: &'a str,
    value: &'a Value,
) -> Result<Option<FormDraft<'a>>, AllocError>
    ensures exact { IfOk result (λ o. option_map form_view o ≡ spec_form (name.now, json_view value.now)) }
    ensures name { IfOk result (λ o. IfSome o (λ x. x.name.now ≡ name.now)) }
{
    if !has_only(value, &["root", "groups"]) {
        return Ok(None);
    }
    let Some(root) = text_at(value, "root") else {
        return Ok(None);
    };
    match names_of(alloc, value.get("groups"))? {
        None => Ok(None),
        Some(groups) => Ok(Some(FormDraft { name, root, groups })),
    }
}

fn forms_of<'a>(
    alloc: Global,
    members: &'a Map<String, Value>,
) -> Result<Option<Vec<FormDraft<'a>>>, AllocError>
    ensures exact { IfOk result (λ o. option_map (λ v. map form_view v.items) o
        ≡ each_some spec_form (pairs (members_view members.now.entries))) }
    ensures names { IfOk result (λ o. IfSome o (λ v. map (λ x. x.name.now) v.items ≡ names_of members.now.entries)) }
    ensures ascend { IfOk result (λ o. IfSome o (λ v. IsAscending (map (λ x. x.name.now) v.items))) }
{
    let mut forms = Vec::with_capacity(alloc, members.len())?;
    for (name, value) in members.iter() {
        match form_of(alloc, name.as_str(), value)? {
            None => return Ok(None),
            Some(form) => forms.push(form)?,
        }
    }
    Ok(Some(forms))
}

/// The draft that a JSON value is, where it has the form of declarations:
/// `{"types":{..},"forms":{..},"groups":{..},"constraints":{..},"messages":{..}}`, only `types` and
/// `forms` are required.
pub fn draft_of<'a>(alloc: Global, value: &'a Value) -> Result<Option<Draft<'a>>, AllocError>
    ensures { IfOk result (λ o. option_map draft_view o ≡ spec_draft (json_view value.now)) }
{
    if !has_only(
        value,
        &["types", "forms", "groups", "constraints", "messages"],
    ) {
        return Ok(None);
    }
    let Some(types) = object_at(value, "types") else {
        return Ok(None);
    };
    let Some(forms) = object_at(value, "forms") else {
        return Ok(None);
    };
    let Some(types) = types_of(alloc, types)? else {
        return Ok(None);
    };
    let Some(forms) = forms_of(alloc, forms)? else {
        return Ok(None);
    };
    let Some(groups) = groups_of(alloc, value.get("groups"))? else {
        return Ok(None);
    };
    let Some(definitions) = definitions_of(alloc, value.get("constraints"))? else {
        return Ok(None);
    };
    match messages_of(alloc, value.get("messages"))? {
        None => Ok(None),
        Some(messages) => Ok(Some(Draft {
            types,
            forms,
            definitions,
            groups,
            messages,
        })),
    }
}
