//! What the JSON of a bundle gives by its names.
ghost use Rattle.std.specs.Prelude.{◌≡◌, map, IfOk};
ghost use Rattle.serde_json.specs.View.{view as json_view, members_view};
ghost use Rattle.fv_datum.specs.Members.{pairs};
ghost use Rattle.fv_bundle.specs.Names.{object_types_view};
ghost use Rattle.fv_model_fault.specs.Given.{root_in, type_in};

use fv_bundle::TypeNames;
use fv_datum::text_at;
use indexmap::IndexMap;
use serde_json::{Map, Value};
use std::alloc::{AllocError, Global};

/// The root's name; empty where it isn't given.
pub(crate) fn root_of(bundle: &Value) -> &str
    ensures { result.now ≡ root_in (json_view bundle.now) }
{
    text_at(bundle, "root").unwrap_or("")
}

/// The name of an object's type; empty where it isn't given.
pub(crate) fn type_of(object: &Value) -> &str
    ensures { result.now ≡ type_in (json_view object.now) }
{
    text_at(object, "type").unwrap_or("")
}

/// The names of objects' types, each by its object's name.
pub(crate) fn type_names<'a>(
    alloc: Global,
    objects: &'a Map<String, Value>,
) -> Result<TypeNames<'a>, AllocError>
    ensures { IfOk result (λ m. object_types_view m ≡ map (λ o. (o.0, type_in o.1)) (pairs (members_view objects.now.entries))) }
{
    let mut names = IndexMap::with_capacity(alloc, objects.len())?;
    for (name, object) in objects.iter() {
        names.insert(name.as_str(), type_of(object))?;
    }
    Ok(names)
}
