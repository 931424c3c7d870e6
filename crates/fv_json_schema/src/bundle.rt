//! Bundles of a form, as a schema.
ghost use Rattle.std.specs.Prelude.{◌≡◌, ◌≢◌, ◌↔◌, IfErr, None, OnOk};
ghost use Rattle.fv_datum.specs.Lookup.{at_name};
ghost use Rattle.fv_json_schema.specs.FaultNames.{schema_fault_name};

use crate::effect::in_effect;
use crate::held::{Made, NAME};
use crate::object::object_schema;
use fv_bundle::{TypeId, Types};
use fv_declare_schema::{Form, Schema};
use serde_json::{Map, Value, json, put};
use std::alloc::{AllocError, AllocFailed, Global};
use thiserror::Error;

/// Why there is no schema.
#[derive(Clone, Copy, Debug, PartialEq, Eq, Error)]
pub enum SchemaFault {
    /// No form of the name is declared.
    #[error("no such form")]
    UnknownForm,
    /// An allocation was refused.
    #[error("out of memory")]
    Memory,
}

impl SchemaFault {
    /// The fault's name.
    pub fn name(&self) -> &str
        ensures { result.now ≡ schema_fault_name self.now }
    {
        match self {
            SchemaFault::UnknownForm => "UnknownForm",
            SchemaFault::Memory => "Memory",
        }
    }
}

impl From<AllocError> for SchemaFault {
    ghost use Rattle.std.specs.Prelude.{◌≡◌};
    ghost use Rattle.fv_json_schema.specs.declared.bundle.SchemaFault.TheVariants.{Memory};

    ghost from_gives = { λ _ fault. fault ≡ Memory };

    fn from(_e: AllocError) -> SchemaFault {
        SchemaFault::Memory
    }
}

impl<T: Drop> From<AllocFailed<T>> for SchemaFault {
    ghost use Rattle.std.specs.Prelude.{◌≡◌};
    ghost use Rattle.fv_json_schema.specs.declared.bundle.SchemaFault.TheVariants.{Memory};

    ghost from_gives = { λ _ fault. fault ≡ Memory };

    fn from(_e: AllocFailed<T>) -> SchemaFault {
        SchemaFault::Memory
    }
}

/// What the whole says of itself.
const COMMENT: &str =
    "What formd takes this takes. Not said: that references name objects of their types, what is asked of other objects than the root, UTF-8 sizes, how numbers are written, moments, rules";

/// The name behind that of a type for its objects that are validated.
const VALIDATED: &str = ".validated";

/// A reference to what is defined for a type, with something behind its name.
fn reference(alloc: Global, name: &str, behind: &str) -> Made<Value> {
    let target = format!(in alloc; "#/$defs/{name}{behind}")?;
    json!(in alloc; {"$ref": target})
}

/// For each type its objects, and those that are validated by the form's groups where no place converts them.
fn definitions(alloc: Global, schema: &Schema, form: &Form) -> Made<Value> {
    let types = schema.types();
    let mut all = Map::new(alloc);
    for index in 0..types.count() {
        let type_id = TypeId { index };
        let name = types.name(type_id);
        put(
            &mut all,
            alloc,
            name,
            object_schema(alloc, schema, type_id, &[])?,
        )?;
        let uses = in_effect(alloc, schema, type_id, &form.groups)?;
        let validated = format!(in alloc; "{name}{VALIDATED}")?;
        put(
            &mut all,
            alloc,
            validated.as_str(),
            object_schema(alloc, schema, type_id, &uses)?,
        )?;
    }
    Ok(Value::Object(all))
}

/// The objects of a bundle: at most 256, of whatever types.
fn objects_schema(alloc: Global, types: &Types) -> Made<Value> {
    let mut all = Vec::new(alloc);
    for index in 0..types.count() {
        all.push(reference(alloc, types.name(TypeId { index }), "")?)?;
    }
    json!(in alloc; {
        "type": "object",
        "minProperties": 1,
        "maxProperties": 256,
        "propertyNames": {"pattern": NAME},
        "additionalProperties": {"anyOf": all}
    })
}

/// Where the root has this name, the object of the name is validated.
fn named_root(alloc: Global, name: &str, root: &str) -> Made<Value> {
    let validated = reference(alloc, root, VALIDATED)?;
    let mut members = Map::new(alloc);
    put(&mut members, alloc, name, validated)?;
    let objects = json!(in alloc; {"required": [name], "properties": (Value::Object(members))})?;
    json!(in alloc; {
        "if": {"properties": {"root": {"const": name}}},
        "then": {"properties": {"objects": objects}}
    })
}

/// What is said of the root, whose name is one of many: some object is of its type and validated; so is the only one;
/// so is the one that is called `root` or like the form, where the root is.
fn root_rules(alloc: Global, root: &str, form: &str) -> Made<Vec<Value>> {
    let some = reference(alloc, root, VALIDATED)?;
    let only = reference(alloc, root, VALIDATED)?;
    let mut all = Vec::new(alloc);
    all.push(json!(in alloc; {
        "$comment": "some object is the root",
        "properties": {"objects": {"not": {"additionalProperties": {"not": some}}}}
    })?)?;
    all.push(json!(in alloc; {
        "if": {"properties": {"objects": {"maxProperties": 1}}},
        "then": {"properties": {"objects": {"additionalProperties": only}}}
    })?)?;
    all.push(named_root(alloc, "root", root)?)?;
    if form != "root" {
        all.push(named_root(alloc, form, root)?)?;
    }
    Ok(all)
}

fn bundle_schema(alloc: Global, schema: &Schema, name: &str, form: &Form) -> Made<Value> {
    let root = schema.types().name(form.root);
    let rules = root_rules(alloc, root, name)?;
    let objects = objects_schema(alloc, schema.types())?;
    let definitions = definitions(alloc, schema, form)?;
    json!(in alloc; {
        "$schema": "https://json-schema.org/draft/2020-12/schema",
        "$comment": COMMENT,
        "title": name,
        "type": "object",
        "required": ["objects", "root"],
        "additionalProperties": false,
        "properties": {"objects": objects, "root": {"type": "string", "pattern": NAME}},
        "allOf": rules,
        "$defs": definitions
    })
}

/// The form of a name, if one is declared.
fn form_of<'a>(schema: &'a Schema, form: &str) -> Option<&'a Form>
    ensures { (result ≡ None) ↔ (at_name form.now schema.now.forms ≡ None) }
{
    schema.forms().get(form)
}

/// A JSON Schema of the bundles that a put of a form may bring, as its member `bundle`, in one line: of draft 2020-12, in
/// words that readers of draft-07 take too.
///
/// What a put is taken with it takes, whatever the moment. It says the types of all objects; what constraints ask, by the
/// groups of the form, it says of the root alone, since an object of any type may lie in a bundle unreached and is judged
/// by nothing: of some object, as the root is one; of the only one; and of the one that is called `root` or like the form
/// where the root is called so. For each type T there is `$defs/T.validated` too, for a form of an object that is judged.
///
/// `UnknownForm` where no form of the name is declared; `Memory` at any place.
pub fn schema_text(alloc: Global, schema: &Schema, form: &str) -> Result<String, SchemaFault>
    ensures declared { OnOk result (at_name form.now schema.now.forms ≢ None) }
    ensures unknown { IfErr result (λ fault. fault ≡ SchemaFault.UnknownForm → at_name form.now schema.now.forms ≡ None) }
{
    let Some(found) = form_of(schema, form) else {
        return Err(SchemaFault::UnknownForm);
    };
    let value = bundle_schema(alloc, schema, form, found)?;
    Ok(value.to_string(alloc)?)
}
