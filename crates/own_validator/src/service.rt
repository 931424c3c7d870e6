ghost use Rattle.std.specs.Prelude.{OnOk};
ghost use Rattle.fv_engine_lines.specs.Reads.{ReadsThen};

use anyhow::Error;
use fv_engine::{Engine, FixedClock, Input, Output, serve};
use fv_registry::RuleSet;
use sqlite::Connection;
use std::alloc::Global;

/// An order has a code, which is asked by rule 7.
const DECLARATIONS: &[u8] =
    br#"{"types":{"Order":{"fields":{"code":{"type":"text","constraints":[{"constraint":"Capitals"}]}}}},"forms":{"order":{"root":"Order"}},"constraints":{"Capitals":{"rule":{"field":7}}}}"#;

/// Serves orders over a database in memory, until the reader's end. The rules are asked to mean what is
/// stated of them: the program that hands them in owes it.
pub(crate) fn serve_orders<R: RuleSet + Drop, I: Input, O: Output>(
    alloc: Global,
    rules: R,
    reader: &mut I,
    output: &mut O,
) -> Result<(), Error>
    requires { R.means rules }
    ensures { OnOk result (ReadsThen I.gives I.ends 4294967296 reader.old reader.new) }
{
    let connection = Connection::open_in_memory(alloc)?;
    let mut engine = match Engine::open(alloc, rules, DECLARATIONS, connection) {
        Ok(engine) => engine,
        Err((fault, _)) => return Err(Error::from(fault)),
    };
    serve(alloc, &mut engine, reader, output, &mut FixedClock::new(0))?;
    Ok(())
}
