//! Serving: declarations from a file, over a database.
ghost use Rattle.std.specs.Prelude.{◌≡◌, ◌⊎◌, ℕ, IfErr, IfOk, IsErrAnd, List, Ok, OnOk};
ghost use Rattle.sqlite.specs.Held.{state};
ghost use Rattle.fv_declare_judging.specs.Declares.{Declares};
ghost use Rattle.fv_engine_lines.specs.Reads.{ReadFails, ReadsThen};
ghost use Rattle.fv_engine_lines.specs.Writes.{Breaks};
ghost use Rattle.formd_words.specs.Answering.{EndsAt, IsToldAs};
ghost use Rattle.formd_words.specs.Failures.{IsUnserved};
ghost use Rattle.formd_words.specs.Openings.{IsUnopened, IsUnstarted};

use crate::answering::answer_told;
use crate::failure::Failure;
use formd_task::{NotOpened, Service, absent_at, close_refused, open_database, read_file};
use fv_engine::{Clock, Engine};
use fv_engine_lines::{Input, Output, Responder};
use fv_registry::RuleSet;
use sqlite::{Alter, Connection, File, FileStore};
use std::alloc::Global;

impl From<NotOpened> for Failure {
    ghost use Rattle.std.specs.Prelude.{◌≡◌};
    ghost use Rattle.formd_words.specs.Failures.{opening_failure};

    ghost from_gives = { λ fault told. told ≡ opening_failure fault };

    fn from(refused: NotOpened) -> Failure {
        match refused {
            NotOpened::Memory => Failure::Memory,
            NotOpened::Refused => Failure::CannotOpen,
        }
    }
}

/// An engine over a database, under its own declarations, or under those handed in where it is empty.
///
/// Refused by the fault of the declarations handed in, then by that of the database, then by the fault of those
/// that it keeps; for want of memory at any place. A refusal hands the connection back.
fn open_over<R: RuleSet + Drop, S: Alter + Drop>(
    alloc: Global,
    registry: R,
    declarations: &[u8],
    connection: Connection<S>,
) -> Result<Engine<R, S>, (Failure, Connection<S>)>
    requires { R.means registry }
    ensures declared { IfOk result (λ e. (e.known ≡ R.known registry)
        × Declares e.known e.text (Ok e.machine.declared)) }
    ensures refused { IfErr result (λ r. IsUnopened (R.known registry) declarations.now
        (state S.Store connection) (state S.Store r.1) r.0) }
{
    match Engine::open(alloc, registry, declarations, connection) {
        Ok(engine) => Ok(engine),
        Err((fault, connection)) => Err((Failure::from(fault), connection)),
    }
}

/// An engine over the database of a service, which alone knows whether its files were there.
///
/// Refused as declarations not readable, then as a database not opened, then by the fault of the
/// file's declarations, then by that of the database, then by the fault of those that it keeps; for
/// want of memory at any place. Where it is, no file is left that wasn't there.
fn open_engine<R: RuleSet + Drop>(
    rt: &HostRuntime,
    service: &Service<'_>,
    registry: R,
) -> Result<Engine<R, FileStore<File>>, Failure>
    requires { R.means registry }
    ensures declared { IfOk result (λ e. (e.known ≡ R.known registry)
        × Declares e.known e.text (Ok e.machine.declared)) }
    ensures refused { IfErr result (IsUnstarted (R.known registry)) }
{
    let alloc = rt.alloc();
    let declarations = read_file(alloc, rt, service.declarations)?;
    let absent = absent_at(rt, service.database)?;
    let connection = open_database(rt, service.database, &absent)?;
    match open_over(alloc, registry, &declarations, connection) {
        Ok(engine) => Ok(engine),
        Err((failure, connection)) => {
            close_refused(rt, &absent, connection);
            Err(failure)
        }
    }
}

/// Serves the database at a path, until the reader's end: under its own declarations, or under those
/// of the file where it is empty.
///
/// Refused as `open_engine` refuses it, then as not read or not written. Where nothing is served, no file
/// is left that wasn't there. What was answered as stored is kept, also where the database isn't closed in
/// order: the next opening finds it.
pub(crate) fn serve_files<R: RuleSet + Drop, I: Input, W: Output, C: Clock>(
    rt: &HostRuntime,
    service: Service<'_>,
    registry: R,
    reader: &mut I,
    output: &mut W,
    clock: &mut C,
) -> Result<(), Failure>
    requires { R.means registry }
    ensures ended { OnOk result (ReadsThen I.gives I.ends 4294967296 reader.old reader.new) }
    // A read failed, or a write; or nothing was read or written.
    ensures failed { IfErr result (IsUnserved (ReadFails I.gives I.fails 4294967296 reader.old reader.new)
        ((mid : W) × (bs : List ℕ) × Breaks W.contents W.takes W.fails mid output.new bs)
        ((reader.new ≡ reader.old) × (output.new ≡ output.old))) }
    // No engine was opened; or one by declarations answered the lines, at the given moment or at the clock's, up to a
    // fault that is told.
    ensures served { IsErrAnd result (IsUnstarted (R.known registry))
        ⊎ ((engine : _) × (last : _) × (fault : _) × (engine.known ≡ R.known registry)
        × Declares engine.known engine.text (Ok engine.machine.declared)
        × EndsAt ⟦<Engine<R, FileStore<File>> as Responder>⟧.step C.ticks W.Output
        (I.remaining reader.old) (I.remaining reader.new)
        fault service.entry.clock (engine, clock.old, output.old) (last, clock.new, output.new)
        × IsToldAs fault result) }
{
    let mut engine = open_engine(rt, &service, registry)?;
    let served = answer_told(
        rt.alloc(),
        &mut engine,
        service.clock,
        reader,
        output,
        clock,
    );
    let _ = engine.into_connection().close();
    served
}
