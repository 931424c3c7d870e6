//! Comparing: what declarations change over others.
ghost use Rattle.std.specs.Prelude.{◌≡◌, ◌⊎◌, ℕ, Err, IfErr, IfOk, List, None, Ok, OnOk, Some, map};
ghost use Rattle.std.specs.List.{flat_map};
ghost use Rattle.serde_json.specs.View.{view as json_view};
ghost use Rattle.fv_datum.specs.Parsing.{json_of};
ghost use Rattle.fv_declare_judging.specs.Declares.{Declares};
ghost use Rattle.fv_engine_lines.specs.Lines.{ended};
ghost use Rattle.fv_engine_lines.specs.Writes.{Breaks, Sends};
ghost use Rattle.fv_explain_over.specs.Lines.{TellsOver};
ghost use Rattle.formd_words.specs.Failures.{IsRefused};
ghost use Rattle.formd_words.specs.Refused.{TellsRefused};

use crate::failure::Failure;
use crate::telling::schema_of;
use crate::writing::write_lines;
use fv_datum::{JsonFault, read_json};
use fv_declare::{DeclFault, Schema};
use fv_engine_lines::Output;
use fv_explain_over::{Declared, tell_over};
use fv_registry::RuleSet;
use indexmap::IndexMap;
use serde_json::Value;
use std::alloc::{AllocError, Global};

/// Declarations that are compared: what they declare, and their JSON.
#[derive(Drop)]
struct Side {
    schema: Schema,
    value: Value,
}

/// The JSON of declarations.
fn json_of(alloc: Global, text: &[u8]) -> Result<Value, Failure>
    ensures read { IfOk result (λ value. json_of text.now ≡ Some (json_view value)) }
    ensures refused { IfErr result (IsRefused (λ fault. json_of text.now ≡ None) ⊥) }
{
    match read_json(alloc, text) {
        Ok(value) => Ok(value),
        Err(JsonFault::NotJson) => Err(Failure::Declarations(DeclFault::NotJson)),
        Err(JsonFault::Memory) => Err(Failure::Memory),
    }
}

/// Declarations that are compared, read. Refused as `schema_of` refuses them.
fn side_of<R: RuleSet, W: Output>(
    alloc: Global,
    text: &[u8],
    as_json: bool,
    registry: &R,
    output: &mut W,
) -> Result<Side, Failure>
    ensures taken { IfOk result (λ side. Declares (R.known registry.now) text.now (Ok side.schema)
        × (json_of text.now ≡ Some (json_view side.value))) }
    ensures unwritten { OnOk result (output.new ≡ output.old) }
    ensures refused { IfErr result (IsRefused (λ fault. Declares (R.known registry.now) text.now (Err fault)
        × ((lines : List (List ℕ)) × TellsRefused (R.known registry.now) text.now as_json fault lines
        × Sends W.contents W.takes W.flushes output.old output.new (flat_map ended lines)))
        ((lines : List (List ℕ)) × Breaks W.contents W.takes W.fails output.old output.new (flat_map ended lines))) }
{
    let schema = schema_of(alloc, text, as_json, registry, output)?;
    let value = json_of(alloc, text)?;
    Ok(Side { schema, value })
}

/// The forms, each with the name of its root's type.
fn forms_of(alloc: Global, schema: &Schema) -> Result<IndexMap<&str, &str>, AllocError>
    ensures { IfOk result (λ forms. map (λ e. (e.0.now, e.1.now)) forms.entries ≡ schema.now.forms) }
{
    let mut forms = IndexMap::new(alloc);
    for (name, form) in schema.forms().iter() {
        forms.insert(name.as_str(), schema.types().name(form.root))?;
    }
    Ok(forms)
}

/// Writes what one side adds, changes and removes over the other.
fn tell_sides<W: Output>(
    alloc: Global,
    new: &Side,
    old: &Side,
    as_json: bool,
    output: &mut W,
) -> Result<(), Failure>
    ensures told { OnOk result ((lines : List (List ℕ))
        × TellsOver as_json (json_view old.now.value) old.now.schema.types old.now.schema.forms
        (json_view new.now.value) new.now.schema.types new.now.schema.forms lines
        × Sends W.contents W.takes W.flushes output.old output.new (flat_map ended lines)) }
    ensures untold { IfErr result (IsRefused (λ fault. ⊥)
        ((lines : List (List ℕ)) × Breaks W.contents W.takes W.fails output.old output.new (flat_map ended lines))) }
{
    let forms = forms_of(alloc, &new.schema)?;
    let old_forms = forms_of(alloc, &old.schema)?;
    let over = Declared {
        value: &old.value,
        types: old.schema.types(),
        forms: &old_forms,
    };
    let declared = Declared {
        value: &new.value,
        types: new.schema.types(),
        forms: &forms,
    };
    let told = tell_over(alloc, declared, over, as_json)?;
    write_lines(alloc, &told.lines, output)
}

/// Writes what declarations add, change and remove over others, and whether each record of the others is read again
/// under them.
///
/// Refused by the fault of the declarations that are compared, then by that of the others, each as `schema_of`
/// refuses them; then as not written; for want of memory at any place.
pub(crate) fn compare<R: RuleSet, W: Output>(
    alloc: Global,
    text: &[u8],
    old_text: &[u8],
    as_json: bool,
    registry: &R,
    output: &mut W,
) -> Result<(), Failure>
    // What the one text declares is told over what the other does.
    ensures told { OnOk result ((new old : _) × Declares (R.known registry.now) text.now (Ok new)
        × Declares (R.known registry.now) old_text.now (Ok old) × (json old_json : _) × (json_of text.now ≡ Some json)
        × (json_of old_text.now ≡ Some old_json) × (lines : List (List ℕ))
        × TellsOver as_json old_json old.types old.forms json new.types new.forms lines
        × Sends W.contents W.takes W.flushes output.old output.new (flat_map ended lines)) }
    // The fault of the first that has one was told.
    ensures refused { IfErr result (IsRefused (λ fault. (told : List ℕ) × (Declares (R.known registry.now) told (Err fault)
        × ((told ≡ text.now) ⊎ ((told ≡ old_text.now) × ((new : _) × Declares (R.known registry.now) text.now (Ok new))))
        × ((lines : List (List ℕ)) × TellsRefused (R.known registry.now) told as_json fault lines
        × Sends W.contents W.takes W.flushes output.old output.new (flat_map ended lines))))
        ((lines : List (List ℕ)) × Breaks W.contents W.takes W.fails output.old output.new (flat_map ended lines))) }
{
    let new = side_of(alloc, text, as_json, registry, output)?;
    let old = side_of(alloc, old_text, as_json, registry, output)?;
    tell_sides(alloc, &new, &old, as_json, output)
}
