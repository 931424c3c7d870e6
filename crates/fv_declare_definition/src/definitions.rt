//! The declared constraints of a draft. Where a value is not of the form, a function here answers
//! `None`.
ghost use Rattle.std.specs.Prelude.{◌≡◌, IfOk, [], Some, None, false, map, option_map};
ghost use Rattle.std.specs.Option.{option_map_or};
ghost use Rattle.serde_json.specs.Find.{as_bool};
ghost use Rattle.serde_json.specs.View.{view as json_view, members_view};
ghost use Rattle.fv_datum.specs.Attributes.{attribute_view};
ghost use Rattle.fv_datum.specs.Forms.{each_member};
ghost use Rattle.fv_datum.specs.Lookup.{at_name};
ghost use Rattle.fv_datum.specs.Members.{pairs, each_some};
ghost use Rattle.fv_declare_definition.specs.Attributes.{attribute_of as spec_attribute};
ghost use Rattle.fv_declare_definition.specs.Written.{attribute_kinds, attribute_definition_of, number_in, rule_number_of, rule_number_at, rule_of as spec_rule, definition_of as spec_definition};
ghost use Rattle.fv_declare_definition.specs.DefinitionViews.{attribute_definition_view, attribute_entry, rule_view, definition_view, definition_entry};

use crate::adding::add_last;
use crate::attributes::attribute_of;
use crate::composing::composings_of;
use crate::definition::{AttributeDefinition, Definition, Rule};
use crate::message::own_message_of;
use fv_datum::{Attribute, AttributeKind, has_only, text_at};
use serde_json::{Map, Value};
use std::alloc::{AllocError, Global};
use std::collections::BTreeMap;

/// The kind of an attribute, by the word for it.
pub fn kind_named(name: &str) -> Option<AttributeKind>
    ensures { result ≡ at_name name.now attribute_kinds }
{
    match name {
        "integer" => Some(AttributeKind::Integer),
        "text" => Some(AttributeKind::Text),
        "boolean" => Some(AttributeKind::Boolean),
        "texts" => Some(AttributeKind::Texts),
        _ => None,
    }
}

/// An attribute's default: none where it has no such member.
fn default_of(alloc: Global, told: Option<&Value>) -> Result<Option<Option<Attribute>>, AllocError>
    ensures { IfOk result (λ o. option_map (λ d. option_map attribute_view d) o
        ≡ option_map_or (λ j. option_map (λ a. Some a) (spec_attribute j))
        (option_map (λ v. json_view v.now) told.entry) (Some None)) }
{
    match told {
        None => Ok(Some(None)),
        Some(value) => match attribute_of(alloc, value)? {
            None => Ok(None),
            Some(attribute) => Ok(Some(Some(attribute))),
        },
    }
}

/// `{"kind":KIND,"default":VALUE}`, `default` may be missing.
fn attribute_definition_of(
    alloc: Global,
    value: &Value,
) -> Result<Option<AttributeDefinition>, AllocError>
    ensures { (name : _) → IfOk result (λ o. option_map (λ a. (name, attribute_definition_view a)) o
        ≡ attribute_definition_of (name, json_view value.now)) }
{
    if !has_only(value, &["kind", "default"]) {
        return Ok(None);
    }
    let Some(kind) = text_at(value, "kind").and_then(kind_named) else {
        return Ok(None);
    };
    match default_of(alloc, value.get("default"))? {
        None => Ok(None),
        Some(default) => Ok(Some(AttributeDefinition { kind, default })),
    }
}

fn attribute_definitions_in(
    alloc: Global,
    members: &Map<String, Value>,
) -> Result<Option<BTreeMap<String, AttributeDefinition>>, AllocError>
    ensures { IfOk result (λ o. option_map (λ m. map attribute_entry m.entries) o
        ≡ each_some attribute_definition_of (pairs (members_view members.now.entries))) }
{
    let mut attributes = BTreeMap::new(alloc);
    for (name, value) in members.iter() {
        match attribute_definition_of(alloc, value)? {
            None => return Ok(None),
            Some(attribute) => add_last(&mut attributes, name, attribute)?,
        }
    }
    Ok(Some(attributes))
}

/// The attributes of a declared constraint: none where it has no such member.
fn attribute_definitions_of(
    alloc: Global,
    told: Option<&Value>,
) -> Result<Option<BTreeMap<String, AttributeDefinition>>, AllocError>
    ensures { IfOk result (λ o. option_map (λ m. map attribute_entry m.entries) o
        ≡ option_map_or (each_member attribute_definition_of) (option_map (λ v. json_view v.now) told.entry) (Some [])) }
{
    let Some(value) = told else {
        return Ok(Some(BTreeMap::new(alloc)));
    };
    match value.as_object() {
        None => Ok(None),
        Some(members) => attribute_definitions_in(alloc, members),
    }
}

/// A rule's number, from 0 to 4294967295.
fn number_in(number: i64) -> Option<u32>
    ensures { result ≡ number_in number }
{
    if number < 0 || number > 4294967295 {
        return None;
    }
    Some(number as u32)
}

fn rule_number_of(value: &Value) -> Option<u32>
    ensures { result ≡ rule_number_of (json_view value.now) }
{
    number_in(value.as_i64()?)
}

/// The rule's number at a member that is the only one.
fn rule_number_at(value: &Value, name: &str) -> Option<u32>
    ensures { result ≡ rule_number_at name.now (json_view value.now) }
{
    if !has_only(value, &[name]) {
        return None;
    }
    rule_number_of(value.get(name)?)
}

/// `{"field":N}` or `{"object":N}`.
pub fn rule_of(value: &Value) -> Option<Rule>
    ensures { option_map rule_view result ≡ spec_rule (json_view value.now) }
{
    match rule_number_at(value, "field") {
        Some(number) => Some(Rule::Data(number)),
        None => match rule_number_at(value, "object") {
            Some(number) => Some(Rule::Objects(number)),
            None => None,
        },
    }
}

/// The rule of a declared constraint: none where it has no such member.
fn told_rule_of(told: Option<&Value>) -> Option<Option<Rule>>
    ensures { option_map (λ r. option_map rule_view r) result
        ≡ option_map_or (λ j. option_map (λ r. Some r) (spec_rule j)) (option_map (λ v. json_view v.now) told.entry)
        (Some None) }
{
    match told {
        None => Some(None),
        Some(value) => match rule_of(value) {
            None => None,
            Some(rule) => Some(Some(rule)),
        },
    }
}

/// Whether a declared constraint reports as one: not where it has no such member.
fn single_of(told: Option<&Value>) -> Option<bool>
    ensures { result ≡ option_map_or as_bool (option_map (λ v. json_view v.now) told.entry) (Some false) }
{
    match told {
        None => Some(false),
        Some(value) => value.as_bool(),
    }
}

/// `{"attributes":{..},"compose":[..],"rule":RULE,"single":BOOL,"message":TEMPLATE}`, all may be
/// missing.
fn definition_of(alloc: Global, value: &Value) -> Result<Option<Definition>, AllocError>
    ensures { (name : _) → IfOk result (λ o. option_map (λ d. (name, definition_view d)) o
        ≡ spec_definition (name, json_view value.now)) }
{
    if !has_only(
        value,
        &["attributes", "compose", "rule", "single", "message"],
    ) {
        return Ok(None);
    }
    let Some(attributes) = attribute_definitions_of(alloc, value.get("attributes"))? else {
        return Ok(None);
    };
    let Some(rule) = told_rule_of(value.get("rule")) else {
        return Ok(None);
    };
    let Some(composing) = composings_of(alloc, value.get("compose"))? else {
        return Ok(None);
    };
    let Some(single) = single_of(value.get("single")) else {
        return Ok(None);
    };
    match own_message_of(alloc, value)? {
        None => Ok(None),
        Some(message) => Ok(Some(Definition {
            attributes,
            rule,
            composing,
            single,
            message,
        })),
    }
}

fn definitions_in(
    alloc: Global,
    members: &Map<String, Value>,
) -> Result<Option<BTreeMap<String, Definition>>, AllocError>
    ensures { IfOk result (λ o. option_map (λ m. map definition_entry m.entries) o
        ≡ each_some spec_definition (pairs (members_view members.now.entries))) }
{
    let mut definitions = BTreeMap::new(alloc);
    for (name, value) in members.iter() {
        match definition_of(alloc, value)? {
            None => return Ok(None),
            Some(definition) => add_last(&mut definitions, name, definition)?,
        }
    }
    Ok(Some(definitions))
}

/// The declared constraints: none where there is no such member.
pub fn definitions_of(
    alloc: Global,
    told: Option<&Value>,
) -> Result<Option<BTreeMap<String, Definition>>, AllocError>
    ensures { IfOk result (λ o. option_map (λ m. map definition_entry m.entries) o
        ≡ option_map_or (each_member spec_definition) (option_map (λ v. json_view v.now) told.entry) (Some [])) }
{
    let Some(value) = told else {
        return Ok(Some(BTreeMap::new(alloc)));
    };
    match value.as_object() {
        None => Ok(None),
        Some(members) => definitions_in(alloc, members),
    }
}
