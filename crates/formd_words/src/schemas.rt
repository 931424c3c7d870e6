//! Schemas: a form's bundles as JSON Schema.
ghost use Rattle.std.specs.Prelude.{◌≡◌, ◌≢◌, ℕ, Err, IfErr, List, None, Ok, OnOk, false};
ghost use Rattle.std.specs.List.{flat_map};
ghost use Rattle.fv_datum.specs.Lookup.{at_name};
ghost use Rattle.fv_declare_judging.specs.Declares.{Declares};
ghost use Rattle.fv_engine_lines.specs.Lines.{ended};
ghost use Rattle.fv_engine_lines.specs.Writes.{Breaks, Sends};
ghost use Rattle.formd_words.specs.Failures.{IsRefusedForForm};
ghost use Rattle.formd_words.specs.Refused.{TellsRefused};

use crate::failure::Failure;
use crate::telling::schema_of;
use crate::writing::write_as_is;
use fv_engine_lines::Output;
use fv_json_schema::{SchemaFault, schema_text};
use fv_registry::RuleSet;
use std::alloc::Global;

impl From<SchemaFault> for Failure {
    ghost use Rattle.std.specs.Prelude.{◌≡◌};
    ghost use Rattle.formd_words.specs.Failures.{schema_failure};

    ghost from_gives = { λ fault told. told ≡ schema_failure fault };

    fn from(fault: SchemaFault) -> Failure {
        match fault {
            SchemaFault::UnknownForm => Failure::UnknownForm,
            SchemaFault::Memory => Failure::Memory,
        }
    }
}

/// Writes the JSON Schema of a form's bundles, in one line.
///
/// Refused by the fault of the declarations, as `schema_of` refuses them; then as a form that isn't declared, then as
/// not written; for want of memory at any place.
pub(crate) fn write_schema<R: RuleSet, W: Output>(
    alloc: Global,
    text: &[u8],
    form: &str,
    registry: &R,
    output: &mut W,
) -> Result<(), Failure>
    ensures taken { OnOk result ((ds : _) × Declares (R.known registry.now) text.now (Ok ds)
        × (at_name form.now ds.forms ≢ None)) }
    ensures written { OnOk result ((line : List ℕ)
        × Sends W.contents W.takes W.flushes output.old output.new (ended line)) }
    ensures refused { IfErr result (IsRefusedForForm (λ fault. Declares (R.known registry.now) text.now (Err fault)
        × ((lines : List (List ℕ)) × TellsRefused (R.known registry.now) text.now false fault lines
        × Sends W.contents W.takes W.flushes output.old output.new (flat_map ended lines)))
        ((ds : _) × Declares (R.known registry.now) text.now (Ok ds) × (at_name form.now ds.forms ≡ None))
        ((bs : List ℕ) × Breaks W.contents W.takes W.fails output.old output.new bs)) }
{
    let schema = schema_of(alloc, text, false, registry, output)?;
    let mut told = schema_text(alloc, &schema, form)?;
    told.push('\n')?;
    write_as_is(told.as_bytes(), output)
}
