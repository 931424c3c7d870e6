//! Objects of a type, as schemas.
use crate::held::{Field, Made, held};
use fv_bundle::{Fields, TypeId};
use fv_constraint_tree::{Occurrence, Test};
use fv_declare_schema::{Place, Schema};
use serde_json::{Map, Value, json, put};
use std::alloc::Global;

/// The names of what each object of JavaScript inherits: some readers find it under `properties` where no member is, and
/// not where one is.
const INHERITED: [&str; 12] = [
    "__defineGetter__",
    "__defineSetter__",
    "__lookupGetter__",
    "__lookupSetter__",
    "__proto__",
    "constructor",
    "hasOwnProperty",
    "isPrototypeOf",
    "propertyIsEnumerable",
    "toLocaleString",
    "toString",
    "valueOf",
];

/// The members that objects of JSON may have, and the names of those that have to be there.
#[derive(Drop)]
struct Members {
    alloc: Global,
    properties: Map<String, Value>,
    /// Those whose names are inherited, by patterns.
    patterns: Map<String, Value>,
    required: Vec<Value>,
}

impl Members {
    fn new(alloc: Global) -> Members {
        Members {
            alloc,
            properties: Map::new(alloc),
            patterns: Map::new(alloc),
            required: Vec::new(alloc),
        }
    }

    /// Adds a member of a name.
    fn add(&mut self, name: &str, value: Value) -> Made<()> {
        if INHERITED.contains(&name) {
            let pattern = format!(in self.alloc; "^{name}$")?;
            return put(&mut self.patterns, self.alloc, pattern.as_str(), value);
        }
        put(&mut self.properties, self.alloc, name, value)
    }

    /// Asks for a member of a name.
    fn require(&mut self, name: &str) -> Made<()> {
        Ok(self.required.push(json!(in self.alloc; name)?)?)
    }

    /// A schema of objects of JSON that have these members and no others.
    fn closed(self) -> Made<Map<String, Value>> {
        let Members {
            alloc,
            properties,
            patterns,
            required,
        } = self;
        let mut made = Map::new(alloc);
        put(&mut made, alloc, "type", json!(in alloc; "object")?)?;
        put(&mut made, alloc, "additionalProperties", Value::Bool(false))?;
        put(&mut made, alloc, "properties", Value::Object(properties))?;
        if !patterns.is_empty() {
            let patterns = Value::Object(patterns);
            put(&mut made, alloc, "patternProperties", patterns)?;
        }
        if !required.is_empty() {
            put(&mut made, alloc, "required", Value::Array(required))?;
        }
        Ok(made)
    }
}

/// The fields of a type, with these uses of constraints.
fn fields_members(
    alloc: Global,
    schema: &Schema,
    fields: &Fields,
    uses: &[usize],
) -> Made<Members> {
    let mut members = Members::new(alloc);
    for (number, (name, type_use)) in fields.iter().enumerate() {
        let field = Field {
            alloc,
            schema,
            uses,
            number,
        };
        let mut steps = Vec::new(alloc);
        members.add(name.as_str(), held(&field, &mut steps, type_use, true)?)?;
        if field.asked(&steps, type_use.kind())?.refuses_null {
            members.require(name.as_str())?;
        }
    }
    Ok(members)
}

/// Adds the names of the constraints that one is made of and that ask a rule.
fn add_rules(text: &mut String, occurrence: &Occurrence) -> Made<()> {
    for number in 0..occurrence.size() {
        match occurrence.node(number) {
            Some(node) if !matches!(node.test, Test::Nothing) => {
                write!(text, " {}", node.constraint())?;
            }
            _ => {}
        }
    }
    Ok(())
}

/// The constraints of whole objects, which no schema says.
fn comment(alloc: Global, schema: &Schema, uses: &[usize]) -> Made<Option<String>> {
    let mut text = String::from_str(alloc, "not said here:")?;
    let mut is_said = true;
    for number in uses {
        match schema.occurrences().get(*number) {
            Some(placed) if matches!(placed.place(), Place::Whole) => {
                is_said = false;
                add_rules(&mut text, placed.occurrence())?;
            }
            _ => {}
        }
    }
    Ok(if is_said { None } else { Some(text) })
}

/// The schema of the objects of a type that meet these uses of constraints, by their places among all.
pub(crate) fn object_schema(
    alloc: Global,
    schema: &Schema,
    type_id: TypeId,
    uses: &[usize],
) -> Made<Value> {
    let name = schema.types().name(type_id);
    let Some(fields) = schema.types().fields_at(type_id) else {
        return json!(in alloc; {});
    };
    let fields = fields_members(alloc, schema, fields, uses)?;
    let mut members = Members::new(alloc);
    members.require("type")?;
    if !fields.required.is_empty() {
        members.require("fields")?;
    }
    members.add("type", json!(in alloc; {"const": name})?)?;
    members.add("fields", Value::Object(fields.closed()?))?;
    let mut made = members.closed()?;
    if let Some(text) = comment(alloc, schema, uses)? {
        put(&mut made, alloc, "$comment", Value::String(text))?;
    }
    Ok(Value::Object(made))
}
