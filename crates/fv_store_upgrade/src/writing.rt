//! A JSON value is written as it stands, if no number in it is a float.
ghost use Rattle.std.specs.Prelude.{◌≡◌, string_bytes};
ghost use Rattle.std.specs.Option.{ok_or};
ghost use Rattle.serde_json.specs.View.{view as json_view, items_view, members_view};
ghost use Rattle.serde_json.specs.Written.{has_float, items_have_float, members_have_float};
ghost use Rattle.fv_datum.specs.Outcomes.{Gives};
ghost use Rattle.fv_store_upgrade.specs.Upgraded.{fields_in};
ghost use Rattle.fv_store_upgrade.specs.declared.fault.UpgradeFault.TheVariants.{Damaged};

use crate::fault::UpgradeFault;
use serde_json::{Map, Value};
use std::alloc::Global;

/// Whether a number in a value is a float: one with a point or an exponent, `-0`, or an integer beyond 64 bits.
#[cycle(float)]
fn has_float(value: &Value) -> bool
    ensures { result ≡ has_float (json_view value.now) }
{
    match value {
        Value::Number(number) => number.is_f64(),
        Value::Array(items) => items_have_float(items),
        Value::Object(members) => members_have_float(members),
        _ => false,
    }
}

/// The same of an array's items.
#[cycle(float)]
fn items_have_float(items: &Vec<Value>) -> bool
    ensures { result ≡ items_have_float (items_view items.now.items) }
{
    for item in items {
        if has_float(item) {
            return true;
        }
    }
    false
}

/// The same of an object's members.
#[cycle(float)]
fn members_have_float(members: &Map<String, Value>) -> bool
    ensures { result ≡ members_have_float (members_view members.now.entries) }
{
    for (_, value) in members.iter() {
        if has_float(value) {
            return true;
        }
    }
    false
}

/// The text of an object with no space. `Damaged` where the value is none, or a number in it is a float; `Memory`
/// at any place.
pub(crate) fn fields_text(alloc: Global, value: &Value) -> Result<String, UpgradeFault>
    ensures { Gives UpgradeFault.Memory string_bytes result (ok_or (fields_in (json_view value.now)) Damaged) }
{
    if !value.is_object() {
        return Err(UpgradeFault::Damaged);
    }
    if has_float(value) {
        return Err(UpgradeFault::Damaged);
    }
    Ok(value.to_string(alloc)?)
}
