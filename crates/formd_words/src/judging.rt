//! Judging: lines answered without records.
ghost use Rattle.std.specs.Prelude.{◌≡◌, ◌⊎◌, ℕ, Err, IfErr, IfOk, IsErrAnd, List, Ok, OnOk};
ghost use Rattle.fv_declare_judging.specs.Declares.{Declares};
ghost use Rattle.fv_engine_lines.specs.Reads.{ReadFails, ReadsThen};
ghost use Rattle.fv_engine_lines.specs.Writes.{Breaks};
ghost use Rattle.formd_words.specs.Answering.{EndsAt, IsToldAs};
ghost use Rattle.formd_words.specs.Failures.{IsRefused, IsUnserved};
ghost use Rattle.formd_words.specs.Openings.{IsUndeclared};

use crate::answering::answer_told;
use crate::failure::Failure;
use formd_task::{Service, read_file};
use fv_engine::{Clock, LineJudge};
use fv_engine_lines::{Input, Output, Responder};
use fv_registry::RuleSet;
use std::alloc::Global;

/// A judge by declarations. Refused by their fault; for want of memory at any place.
fn judge_by<R: RuleSet + Drop>(
    alloc: Global,
    registry: R,
    declarations: &[u8],
) -> Result<LineJudge<R>, Failure>
    requires { R.means registry }
    ensures rules { IfOk result (λ judge. judge.rules ≡ registry) }
    ensures declared { IfOk result (λ judge. Declares (R.known registry) declarations.now (Ok judge.book)) }
    ensures refused { IfErr result (IsRefused (λ fault. Declares (R.known registry) declarations.now (Err fault)) ⊥) }
{
    Ok(LineJudge::new(alloc, registry, declarations)?)
}

/// Answers lines under the declarations of a file, until the reader's end, each as a service that has
/// no record would. Nothing is kept.
///
/// Refused as declarations not readable, then by their fault, then as not read or not written; for want
/// of memory at any place.
pub(crate) fn judge_file<R: RuleSet + Drop, I: Input, W: Output, C: Clock>(
    rt: &HostRuntime,
    service: Service<'_>,
    registry: R,
    reader: &mut I,
    output: &mut W,
    clock: &mut C,
) -> Result<(), Failure>
    requires { R.means registry }
    ensures ended { OnOk result (ReadsThen I.gives I.ends 4294967296 reader.old reader.new) }
    // A read failed, or a write; or nothing was read or written.
    ensures failed { IfErr result (IsUnserved (ReadFails I.gives I.fails 4294967296 reader.old reader.new)
        ((mid : W) × (bs : List ℕ) × Breaks W.contents W.takes W.fails mid output.new bs)
        ((reader.new ≡ reader.old) × (output.new ≡ output.old))) }
    // There is no judge; or one by declarations answered the lines, at the given moment or at the clock's, up to a
    // fault that is told.
    ensures judged { IsErrAnd result (IsUndeclared (R.known registry))
        ⊎ ((text : List ℕ) × (judge : _) × (last : _) × (fault : _) × (judge.rules ≡ registry)
        × Declares (R.known registry) text (Ok judge.book)
        × EndsAt ⟦<LineJudge<R> as Responder>⟧.step C.ticks W.Output (I.remaining reader.old) (I.remaining reader.new)
        fault service.entry.clock (judge, clock.old, output.old) (last, clock.new, output.new)
        × IsToldAs fault result) }
{
    let alloc = rt.alloc();
    let declarations = read_file(alloc, rt, service.declarations)?;
    let mut judge = judge_by(alloc, registry, &declarations)?;
    answer_told(alloc, &mut judge, service.clock, reader, output, clock)
}
