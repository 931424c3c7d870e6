//! Objects and bundles as trees of JSON.
ghost use Rattle.std.specs.Prelude.{◌≡◌, IfOk};
ghost use Rattle.std.specs.List.{fold};
ghost use Rattle.serde_json.specs.Data as json;
ghost use Rattle.serde_json.specs.View.{view as json_view, members_view};
ghost use Rattle.fv_datum.specs.View.{view};
ghost use Rattle.fv_bundle.specs.Views.{object_view, objects_view, bundle_view};
ghost use Rattle.fv_bundle.specs.Writing.{IsWritten, datum_json};
ghost use Rattle.fv_model.specs.Writing.{fields_json, thing_json, bundle_json};

use fv_bundle::{Bundle, Object, Objects};
use fv_datum::{Datum, DatumFault, is_null, write_datum};
use serde_json::{Map, Value, put};
use std::alloc::{AllocError, Global};

/// A datum of an object as JSON.
fn datum_value(alloc: Global, datum: &Datum) -> Result<Value, AllocError>
    requires { IsWritten (view datum.now) }
    ensures { IfOk result (λ v. json_view v ≡ datum_json (view datum.now)) }
{
    match write_datum(alloc, datum) {
        Ok(value) => Ok(value),
        Err(DatumFault::WrongKind) => unreachable!(),
        Err(DatumFault::Memory) => Err(AllocError),
    }
}

/// The JSON object of an object's fields that aren't null.
pub fn write_fields(alloc: Global, object: &Object) -> Result<Value, AllocError>
    ensures { IfOk result (λ v. json_view v ≡ json.object (fields_json (object_view object.now).fields)) }
{
    let mut members = Map::new(alloc);
    for (name, datum) in object.fields() {
        if !is_null(datum) {
            let value = datum_value(alloc, datum)?;
            put(&mut members, alloc, name, value)?;
        }
    }
    Ok(Value::Object(members))
}

/// An object as JSON: its type and its fields.
fn write_object(alloc: Global, object: &Object) -> Result<Value, AllocError>
    ensures { IfOk result (λ v. json_view v ≡ thing_json (object_view object.now)) }
{
    let mut members = Map::new(alloc);
    put(
        &mut members,
        alloc,
        "type",
        Value::String(String::from_str(alloc, object.type_name())?),
    )?;
    put(&mut members, alloc, "fields", write_fields(alloc, object)?)?;
    Ok(Value::Object(members))
}

/// The objects as JSON, each by its name.
fn write_objects(alloc: Global, objects: &Objects) -> Result<Map<String, Value>, AllocError>
    ensures { IfOk result (λ m. members_view m.entries
        ≡ fold (λ ms o. json.put o.0 (thing_json o.1) ms) json.no_members (objects_view objects.now)) }
{
    let mut members = Map::new(alloc);
    for (name, object) in objects.iter() {
        let value = write_object(alloc, object)?;
        put(&mut members, alloc, name.as_str(), value)?;
    }
    Ok(members)
}

/// A bundle as JSON: null fields left out, `fields` always there.
pub fn write_bundle(alloc: Global, bundle: &Bundle) -> Result<Value, AllocError>
    ensures { IfOk result (λ v. json_view v ≡ bundle_json (bundle_view bundle.now)) }
{
    let mut members = Map::new(alloc);
    put(
        &mut members,
        alloc,
        "root",
        Value::String(String::from_str(alloc, bundle.root())?),
    )?;
    let objects = write_objects(alloc, bundle.objects())?;
    put(&mut members, alloc, "objects", Value::Object(objects))?;
    Ok(Value::Object(members))
}
