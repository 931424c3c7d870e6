//! Whether two JSON values are the same, as `==` tells it too, of which nothing is promised for a type that holds
//! itself.
ghost use Rattle.std.specs.Prelude.{◌≡◌, option_map};
ghost use Rattle.serde_json.specs.Find.{get_member};
ghost use Rattle.serde_json.specs.View as json;
ghost use Rattle.fv_explain_over.specs.Same.{same, same_items, same_members, same_number};

use serde_json::{Map, Number, Value};

/// Whether two numbers are the same.
fn are_same_numbers(own: &Number, other: &Number) -> bool
    ensures { result ≡ same_number (json.number_view own.now) (json.number_view other.now) }
{
    own == other
}

/// Whether two values are the same.
#[cycle(same)]
pub(crate) fn are_same(own: &Value, other: &Value) -> bool
    ensures { result ≡ same (json.view own.now) (json.view other.now) }
{
    match own {
        Value::Null => other.is_null(),
        Value::Bool(own) => match other.as_bool() {
            Some(other) => *own == other,
            None => false,
        },
        Value::Number(own) => match other.as_number() {
            Some(other) => are_same_numbers(own, other),
            None => false,
        },
        Value::String(own) => match other.as_str() {
            Some(other) => own.as_str() == other,
            None => false,
        },
        Value::Array(own) => match other.as_array() {
            Some(other) => have_same_items(own, other),
            None => false,
        },
        Value::Object(own) => match other.as_object() {
            Some(other) => have_same_members(own, other),
            None => false,
        },
    }
}

/// Whether two arrays have the same items.
#[cycle(same)]
fn have_same_items(own: &[Value], other: &[Value]) -> bool
    ensures { result ≡ same_items (json.items_view own.now) (json.items_view other.now) }
{
    if own.len() != other.len() {
        return false;
    }
    for (item, facing) in own.iter().zip(other.iter()) {
        if !are_same(item, facing) {
            return false;
        }
    }
    true
}

/// Whether two objects have the same members.
#[cycle(same)]
fn have_same_members(own: &Map<String, Value>, other: &Map<String, Value>) -> bool
    ensures { result ≡ same_members (json.members_view own.now.entries) (json.members_view other.now.entries) }
{
    if own.len() != other.len() {
        return false;
    }
    for (name, value) in own.iter() {
        match member(other, name.as_str()) {
            None => return false,
            Some(facing) => {
                if !are_same(value, facing) {
                    return false;
                }
            }
        }
    }
    true
}

/// The member of a name.
pub(crate) fn member<'a>(members: &'a Map<String, Value>, name: &str) -> Option<&'a Value>
    ensures { option_map (λ v. json.view v.now) result ≡ get_member name.now (json.members_view members.now.entries) }
{
    members.get(name)
}
