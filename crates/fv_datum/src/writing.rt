ghost use Rattle.std.specs.Prelude.{◌≡◌, []};
ghost use Rattle.std.specs.Option.{ok_or};
ghost use Rattle.serde_json.specs.Data as json;
ghost use Rattle.serde_json.specs.View.{view as json_view, items_view as json_items, members_view};
ghost use Rattle.fv_datum.specs.Outcomes.{Gives};
ghost use Rattle.fv_datum.specs.View.{view, items_view, entries_view};
ghost use Rattle.fv_datum.specs.Written.{datum_written, items_written, entries_written, keys_fit, is_null, is_text, key_of};

use crate::datum::Datum;
use crate::fault::DatumFault;
use serde_json::{Map, Value};
use std::alloc::Global;

/// A datum as JSON. A decimal keeps its text, an empty optional is `[]`.
///
/// `WrongKind` where a map's keys aren't texts ascending by their bytes; `Memory` at any place.
#[cycle(write)]
#[tactic(auto, using(crate::proofs::Unfit::unfit))]
pub fn write_datum(alloc: Global, datum: &Datum) -> Result<Value, DatumFault>
    ensures { Gives DatumFault.Memory json_view result (datum_written (view datum.now)) }
{
    match datum {
        Datum::Null => Ok(Value::Null),
        Datum::Text(text) => Ok(Value::String(text.clone()?)),
        Datum::Integer(number) => Ok(Value::from(*number)),
        Datum::Decimal(text) => Ok(Value::String(text.clone()?)),
        Datum::Boolean(flag) => Ok(Value::Bool(*flag)),
        Datum::Date(text) => Ok(Value::String(text.clone()?)),
        Datum::Instant(seconds) => Ok(Value::from(*seconds)),
        Datum::Ref(name) => Ok(Value::String(String::from_str(alloc, name.as_str())?)),
        Datum::List(items) => Ok(Value::Array(write_items(alloc, items)?)),
        Datum::Map(entries) => {
            if !keys_fit(entries) {
                return Err(DatumFault::WrongKind);
            }
            Ok(Value::Object(write_entries(alloc, entries)?))
        }
        Datum::Optional(content) => {
            let mut items = Vec::new(alloc);
            if is_null(content) {
                return Ok(Value::Array(items));
            }
            items.push(write_datum(alloc, content)?)?;
            Ok(Value::Array(items))
        }
    }
}

#[cycle(write)]
fn write_items(alloc: Global, items: &Vec<Datum>) -> Result<Vec<Value>, DatumFault>
    ensures { Gives DatumFault.Memory (λ v. json_items v.items) result
        (ok_or (items_written [] (items_view items.now.items)) DatumFault.WrongKind) }
{
    let mut out = Vec::with_capacity(alloc, items.len())?;
    for item in items {
        out.push(write_datum(alloc, item)?)?;
    }
    Ok(out)
}

#[cycle(write)]
fn write_entries(
    alloc: Global,
    entries: &Vec<(Datum, Datum)>,
) -> Result<Map<String, Value>, DatumFault>
    ensures { Gives DatumFault.Memory (λ m. members_view m.entries) result
        (ok_or (entries_written json.no_members (entries_view entries.now.items)) DatumFault.WrongKind) }
{
    let mut out = Map::new(alloc);
    for entry in entries {
        let value = write_datum(alloc, &entry.1)?;
        serde_json::put(&mut out, alloc, key_of(&entry.0), value)?;
    }
    Ok(out)
}

/// The text of a map's key; empty where the key is no text.
pub fn key_of(key: &Datum) -> &str
    ensures { result.now ≡ key_of (view key.now) }
{
    match key {
        Datum::Text(text) => text.as_str(),
        _ => "",
    }
}

/// Whether each key is a text, below the next by its bytes.
pub fn keys_fit(entries: &[(Datum, Datum)]) -> bool
    ensures { result ≡ keys_fit (entries_view entries.now) }
{
    for i in 0..entries.len() {
        if !is_text(&entries[i].0) {
            return false;
        }
        if i + 1 < entries.len() && key_of(&entries[i].0) >= key_of(&entries[i + 1].0) {
            return false;
        }
    }
    true
}

fn is_text(datum: &Datum) -> bool
    ensures { result ≡ is_text (view datum.now) }
{
    matches!(datum, Datum::Text(_))
}

/// Whether a datum is null.
pub fn is_null(datum: &Datum) -> bool
    ensures { result ≡ is_null (view datum.now) }
{
    matches!(datum, Datum::Null)
}
