//! Declarations of a file: whether they are taken.
ghost use Rattle.std.specs.Prelude.{codes, Err, IfErr, Ok, OnOk};
ghost use Rattle.fv_declare_judging.specs.Declares.{Declares};
ghost use Rattle.fv_engine_lines.specs.Writes.{Breaks, Sends};
ghost use Rattle.formd_words.specs.Failures.{IsRefused};

use crate::failure::Failure;
use formd_task::read_file;
use fv_declare::read_schema;
use fv_engine_lines::{Output, write_line};
use fv_registry::RuleSet;
use std::alloc::Global;
use std::fs::Files;

/// Says `ok`, flushed, where declarations are taken with some rules.
///
/// Refused by the fault of the declarations, then as not written; for want of memory at any place.
fn check_declarations<R: RuleSet, W: Output>(
    alloc: Global,
    text: &[u8],
    registry: &R,
    output: &mut W,
) -> Result<(), Failure>
    ensures taken { OnOk result ((ds : _) × Declares (R.known registry.now) text.now (Ok ds)) }
    ensures said { OnOk result (Sends W.contents W.takes W.flushes output.old output.new (codes "ok\n")) }
    ensures refused { IfErr result (IsRefused (λ fault. Declares (R.known registry.now) text.now (Err fault))
        (Breaks W.contents W.takes W.fails output.old output.new (codes "ok\n"))) }
{
    let _ = read_schema(alloc, registry, text)?;
    Ok(write_line(output, b"ok\n")?)
}

/// The same of the declarations of the file at a path, refused before as not readable.
pub(crate) fn check_file<F: Files, R: RuleSet, W: Output>(
    alloc: Global,
    files: &F,
    path: &str,
    registry: &R,
    output: &mut W,
) -> Result<(), Failure> {
    let text = read_file(alloc, files, path)?;
    check_declarations(alloc, &text, registry, output)
}
