//! Exporting: the declarations in force and the records of a database, as command lines.
ghost use Rattle.std.specs.Prelude.{ℕ, List, OnOk};
ghost use Rattle.fv_engine_lines.specs.Writes.{Sends};

use crate::failure::Failure;
use crate::standing::{close_standing, open_standing};
use fv_engine::{Engine, ExportFault};
use fv_engine_lines::Output;
use fv_registry::RuleSet;
use fv_store::OpenStoreFault;

/// Declarations of nothing, for an opening at which the database's own are in force.
const NOTHING: &[u8] = br#"{"types":{},"forms":{}}"#;

impl From<ExportFault> for Failure {
    ghost use Rattle.std.specs.Prelude.{◌≡◌};
    ghost use Rattle.formd_words.specs.Failures.{export_failure};

    ghost from_gives = { λ fault told. told ≡ export_failure fault };

    fn from(fault: ExportFault) -> Failure {
        match fault {
            ExportFault::Store => Failure::Store(OpenStoreFault::Store),
            ExportFault::Write => Failure::Write,
            ExportFault::Memory => Failure::Memory,
        }
    }
}

/// Writes the declarations in force and the records of the database at a path, as command lines. It is
/// opened as it is to be served, so that nobody else has it meanwhile; that migrates one of version 1, and
/// nothing else is changed.
///
/// Refused as a database not opened, also where no file is there or it is empty, then by the fault of
/// the database, then by that of the declarations that it keeps, then as not written or as a store that
/// failed; for want of memory at any place. No file is left that wasn't there.
pub(crate) fn export_file<R: RuleSet + Drop, W: Output>(
    rt: &HostRuntime,
    path: &str,
    registry: R,
    output: &mut W,
) -> Result<(), Failure>
    requires { R.means registry }
    ensures written { OnOk result ((bs : List ℕ) × Sends W.contents W.takes W.flushes output.old output.new bs) }
{
    let alloc = rt.alloc();
    let (connection, absent) = open_standing(rt, path)?;
    let mut engine = match Engine::open(alloc, registry, NOTHING, connection) {
        Ok(engine) => engine,
        Err((fault, connection)) => {
            close_standing(rt, &absent, connection);
            return Err(Failure::from(fault));
        }
    };
    let exported = engine.export(alloc, output);
    close_standing(rt, &absent, engine.into_connection());
    Ok(exported?)
}
