//! The demonstration: declarations of one form of one type, with three constraints.
ghost use Rattle.std.specs.Prelude.{◌≡◌, ℕ, IfErr, List, OnOk, ⊤};
ghost use Rattle.fv_engine_lines.specs.Reads.{ReadFails, ReadsThen};
ghost use Rattle.fv_engine_lines.specs.Writes.{Breaks};
ghost use Rattle.formd_words.specs.Failures.{IsUnserved};

use crate::failure::Failure;
use fv_engine::{Engine, FixedClock, serve};
use fv_engine_lines::{Input, Output};
use fv_registry::RuleSet;
use sqlite::{Connection, MemStore};
use std::alloc::Global;

pub(crate) const DECLARATIONS: &[u8] =
    br#"{"types":{"Item":{"fields":{"count":{"type":"integer","constraints":[{"constraint":"Min","with":{"value":1}}]},"name":{"type":"text","constraints":[{"constraint":"NotNull"},{"constraint":"Size","with":{"min":1,"max":3}}]}}}},"forms":{"item":{"root":"Item"}}}"#;

/// An engine of these declarations over a new database in memory.
pub(crate) fn in_memory<R: RuleSet + Drop>(
    alloc: Global,
    registry: R,
    declarations: &[u8],
) -> Result<Engine<R, MemStore>, Failure>
    requires { R.means registry }
    ensures { IfErr result (IsUnserved ⊥ ⊥ ⊤) }
{
    let Ok(connection) = Connection::open_in_memory(alloc) else {
        return Err(Failure::Memory);
    };
    match Engine::open(alloc, registry, declarations, connection) {
        Ok(engine) => Ok(engine),
        Err((fault, _)) => Err(Failure::from(fault)),
    }
}

/// Serves the demonstration's declarations over a database in memory at the moment 0.
pub(crate) fn serve_demonstration<R: RuleSet + Drop, I: Input, W: Output>(
    alloc: Global,
    registry: R,
    reader: &mut I,
    output: &mut W,
) -> Result<(), Failure>
    requires { R.means registry }
    ensures ended { OnOk result (ReadsThen I.gives I.ends 4294967296 reader.old reader.new) }
    // A read failed, or a write; or nothing was read or written.
    ensures failed { IfErr result (IsUnserved (ReadFails I.gives I.fails 4294967296 reader.old reader.new)
        ((mid : W) × (bs : List ℕ) × Breaks W.contents W.takes W.fails mid output.new bs)
        ((reader.new ≡ reader.old) × (output.new ≡ output.old))) }
{
    let mut engine = in_memory(alloc, registry, DECLARATIONS)?;
    serve(alloc, &mut engine, reader, output, &mut FixedClock::new(0))?;
    Ok(())
}
