//! Telling: what declarations declare, or where they are wrong.
ghost use Rattle.std.specs.Prelude.{◌≡◌, ℕ, Err, IfErr, IfOk, List, Ok, OnOk};
ghost use Rattle.std.specs.List.{flat_map};
ghost use Rattle.fv_declare_judging.specs.Declares.{Declares};
ghost use Rattle.fv_engine_lines.specs.Lines.{ended};
ghost use Rattle.fv_engine_lines.specs.Writes.{Breaks, Sends};
ghost use Rattle.fv_explain.specs.Explained.{TellsFault, TellsLines};
ghost use Rattle.formd_words.specs.Refused.{TellsRefused};
ghost use Rattle.formd_words.specs.Failures.{IsRefused};

use crate::failure::Failure;
use crate::writing::write_lines;
use fv_declare::{DeclFault, Schema, read_schema};
use fv_engine_lines::Output;
use fv_explain::explain;
use fv_registry::RuleSet;
use std::alloc::Global;

/// Writes what declarations declare, or where their first fault is.
///
/// Refused as not written, then by the fault of the declarations; for want of memory at any place.
pub(crate) fn tell<R: RuleSet, W: Output>(
    alloc: Global,
    text: &[u8],
    as_json: bool,
    registry: &R,
    output: &mut W,
) -> Result<(), Failure>
    // Their lines were written.
    ensures taken { OnOk result ((ds : _) × Declares (R.known registry.now) text.now (Ok ds) × ((lines : List (List ℕ))
        × TellsLines as_json ds lines × Sends W.contents W.takes W.flushes output.old output.new (flat_map ended lines))) }
    // The line of their fault was.
    ensures refused { IfErr result (IsRefused (λ fault. Declares (R.known registry.now) text.now (Err fault)
        × ((lines : List (List ℕ)) × TellsFault as_json fault lines
        × Sends W.contents W.takes W.flushes output.old output.new (flat_map ended lines)))
        ((lines : List (List ℕ)) × Breaks W.contents W.takes W.fails output.old output.new (flat_map ended lines))) }
{
    let told = explain(alloc, registry, text, as_json)?;
    write_lines(alloc, &told.lines, output)?;
    match told.fault {
        None => Ok(()),
        Some(fault) => Err(Failure::from(fault)),
    }
}

/// The schema of declarations. Refused by their fault, where it is written what `tell` writes of them, or as that
/// isn't written; for want of memory at any place.
pub(crate) fn schema_of<R: RuleSet, W: Output>(
    alloc: Global,
    text: &[u8],
    as_json: bool,
    registry: &R,
    output: &mut W,
) -> Result<Schema, Failure>
    ensures taken { IfOk result (λ schema. Declares (R.known registry.now) text.now (Ok schema)) }
    ensures unwritten { OnOk result (output.new ≡ output.old) }
    ensures refused { IfErr result (IsRefused (λ fault. Declares (R.known registry.now) text.now (Err fault)
        × ((lines : List (List ℕ)) × TellsRefused (R.known registry.now) text.now as_json fault lines
        × Sends W.contents W.takes W.flushes output.old output.new (flat_map ended lines)))
        ((lines : List (List ℕ)) × Breaks W.contents W.takes W.fails output.old output.new (flat_map ended lines))) }
{
    match read_schema(alloc, registry, text) {
        Ok(schema) => Ok(schema),
        Err(DeclFault::Memory) => Err(Failure::Memory),
        Err(fault) => {
            tell(alloc, text, as_json, registry, output)?;
            Err(Failure::from(fault))
        }
    }
}
