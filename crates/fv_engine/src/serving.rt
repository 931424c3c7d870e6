ghost use Rattle.std.specs.Prelude.{◌≡◌, ◌⊎◌, ℕ, List, OnOk, IsErrOf};
ghost use Rattle.fv_engine_machine.specs.Services.{GoesOn, Responds, Turned, reign_of};
ghost use Rattle.fv_store.specs.Stock.{stock_state};
ghost use Rattle.fv_engine_lines.specs.Lines.{WholeLines, AllLines};
ghost use Rattle.fv_engine_lines.specs.Reads.{ReadAtMost, ReadFails, ReadsThen};
ghost use Rattle.fv_engine_lines.specs.Runs.{Served, Stopped};
ghost use Rattle.fv_engine_lines.specs.Writes.{Breaks, Sends};

use crate::engine::Engine;
use fv_engine_lines::{Clock, Input, Output, ServeFault, answer_lines};
use fv_registry::RuleSet;
use sqlite::Alter;
use std::alloc::Global;

/// Answers each line of the input by a line, until the input ends: lines are ended by byte 10, the
/// last also without its end. The clock is asked once a line. Each reply is written whole, with its
/// end, and flushed.
///
/// The declarations in force and the records are those of a map beside declarations, which each line
/// turns by one step. From the line on at which the disk fails and shuts the database no command that
/// changes records or declarations is told as taken.
///
/// `Memory` where the room for a line was refused; `Read` where a read failed or there were 2^32
/// reads; `Write` where a write or a flush failed or a write took nothing.
pub fn serve<R: RuleSet + Drop, S: Alter, I: Input, O: Output, C: Clock>(
    alloc: Global,
    engine: &mut Engine<R, S>,
    reader: &mut I,
    writer: &mut O,
    clock: &mut C,
) -> Result<(), ServeFault>
    // It read at most 2^32 times, however it ended.
    ensures reads { ReadAtMost I.reads 4294967296 reader.old reader.new }
    // All lines of the input were answered, each reply written with its end and flushed.
    ensures ok { OnOk result (GoesOn (stock_state S.Store) engine.old engine.new
        (λ x y. Served (Turned x.known R.meaning) C.ticks (Sends O.contents O.takes O.flushes)
        (AllLines (I.remaining reader.old) (I.remaining reader.new))
        (reign_of x, clock.old, writer.old) (reign_of y, clock.new, writer.new))) }
    // Each read gave bytes, but the last, which gave nothing.
    ensures ended { OnOk result (ReadsThen I.gives I.ends 4294967296 reader.old reader.new) }
    // The same for the whole lines that were read.
    ensures read { IsErrOf result ServeFault.Read
        → GoesOn (stock_state S.Store) engine.old engine.new
        (λ x y. Served (Turned x.known R.meaning) C.ticks (Sends O.contents O.takes O.flushes)
        (WholeLines (I.remaining reader.old) (I.remaining reader.new))
        (reign_of x, clock.old, writer.old) (reign_of y, clock.new, writer.new)) }
    // A read failed behind those that gave bytes, or there were 2^32 of these.
    ensures read_cause { IsErrOf result ServeFault.Read
        → ReadFails I.gives I.fails 4294967296 reader.old reader.new }
    // The same for some lines of these, the last reply whole, in part or missing, and then a call failed.
    ensures write { IsErrOf result ServeFault.Write
        → GoesOn (stock_state S.Store) engine.old engine.new
        (λ x y. Stopped (Turned x.known R.meaning) C.ticks (Sends O.contents O.takes O.flushes) (Breaks O.contents O.takes O.fails)
        (I.remaining reader.old) (I.remaining reader.new)
        (reign_of x, clock.old, writer.old) (reign_of y, clock.new, writer.new)) }
    // A call of the output failed, or a write took nothing, whatever the database holds.
    ensures write_cause { IsErrOf result ServeFault.Write
        → (mid : O) × (bs : List ℕ) × Breaks O.contents O.takes O.fails mid writer.new bs }
    // Each read gave bytes, but perhaps the last, which may have given nothing.
    ensures write_reads { IsErrOf result ServeFault.Write
        → ReadsThen I.gives (λ x y. I.gives x y ⊎ I.ends x y) 4294967296 reader.old reader.new }
    // The same runs, however they ended: each step with what the connection to the database has to
    // do with it.
    ensures causes { OnOk result (GoesOn (stock_state S.Store) engine.old engine.new
        (λ x y. Served (Responds R.meaning) C.ticks (Sends O.contents O.takes O.flushes)
        (AllLines (I.remaining reader.old) (I.remaining reader.new))
        (x, clock.old, writer.old) (y, clock.new, writer.new))) }
    ensures read_causes { IsErrOf result ServeFault.Read
        → GoesOn (stock_state S.Store) engine.old engine.new
        (λ x y. Served (Responds R.meaning) C.ticks (Sends O.contents O.takes O.flushes)
        (WholeLines (I.remaining reader.old) (I.remaining reader.new))
        (x, clock.old, writer.old) (y, clock.new, writer.new)) }
    ensures write_causes { IsErrOf result ServeFault.Write
        → GoesOn (stock_state S.Store) engine.old engine.new
        (λ x y. Stopped (Responds R.meaning) C.ticks (Sends O.contents O.takes O.flushes) (Breaks O.contents O.takes O.fails)
        (I.remaining reader.old) (I.remaining reader.new)
        (x, clock.old, writer.old) (y, clock.new, writer.new)) }
    // Nothing was read.
    ensures memory { IsErrOf result ServeFault.Memory → (reader.new ≡ reader.old) × (writer.new ≡ writer.old)
        × (engine.new ≡ engine.old) × (clock.new ≡ clock.old) }
{
    answer_lines(alloc, engine, reader, writer, clock)
}
