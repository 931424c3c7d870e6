//! Answering: lines at the clock's moments, or all at one.
ghost use Rattle.std.specs.Prelude.{◌≡◌, ℕ, IfErr, IsErrOf, List, OnOk, Some, None};
ghost use Rattle.fv_engine_lines.specs.Reads.{ReadFails, ReadsThen};
ghost use Rattle.fv_engine_lines.specs.Writes.{Breaks};
ghost use Rattle.formd_words.specs.Answering.{Ends, EndsAt, IsToldAs, Stands};
ghost use Rattle.formd_words.specs.Failures.{IsUnserved};

use crate::failure::Failure;
use fv_engine_lines::{Clock, FixedClock, Input, Output, Responder, ServeFault, answer_lines};
use std::alloc::Global;

/// Answers lines until the reader's end, at the moment of a clock that is given, or at those of the other.
///
/// Refused as `answer_lines` refuses them.
pub(crate) fn answer_at<P: Responder, I: Input, W: Output, C: Clock>(
    alloc: Global,
    responder: &mut P,
    fixed: Option<FixedClock>,
    reader: &mut I,
    output: &mut W,
    clock: &mut C,
) -> Result<(), ServeFault>
    ensures ended { OnOk result (ReadsThen I.gives I.ends 4294967296 reader.old reader.new) }
    ensures unread { IsErrOf result ServeFault.Read → ReadFails I.gives I.fails 4294967296 reader.old reader.new }
    ensures broke { IsErrOf result ServeFault.Write
        → (mid : W) × (bs : List ℕ) × Breaks W.contents W.takes W.fails mid output.new bs }
    ensures none { IsErrOf result ServeFault.Memory → (reader.new ≡ reader.old) × (output.new ≡ output.old) }
    ensures ticking { fixed ≡ None → Ends P.step C.ticks W.contents W.takes W.flushes W.fails
        (I.remaining reader.old) (I.remaining reader.new) result
        (responder.old, clock.old, output.old) (responder.new, clock.new, output.new) }
    ensures standing { (given : FixedClock) → fixed ≡ Some given → (clock.new ≡ clock.old)
        × ((last : FixedClock) × Ends P.step Stands W.contents W.takes W.flushes W.fails
        (I.remaining reader.old) (I.remaining reader.new) result
        (responder.old, given, output.old) (responder.new, last, output.new)) }
{
    match fixed {
        None => answer_lines(alloc, responder, reader, output, clock),
        Some(mut standing) => answer_lines(alloc, responder, reader, output, &mut standing),
    }
}

/// The same, its fault told as a failure.
pub(crate) fn answer_told<P: Responder, I: Input, W: Output, C: Clock>(
    alloc: Global,
    responder: &mut P,
    fixed: Option<FixedClock>,
    reader: &mut I,
    output: &mut W,
    clock: &mut C,
) -> Result<(), Failure>
    ensures ended { OnOk result (ReadsThen I.gives I.ends 4294967296 reader.old reader.new) }
    ensures failed { IfErr result (IsUnserved (ReadFails I.gives I.fails 4294967296 reader.old reader.new)
        ((mid : W) × (bs : List ℕ) × Breaks W.contents W.takes W.fails mid output.new bs)
        ((reader.new ≡ reader.old) × (output.new ≡ output.old))) }
    ensures ends { (fault : _) × EndsAt P.step C.ticks W.Output (I.remaining reader.old) (I.remaining reader.new)
        fault fixed (responder.old, clock.old, output.old) (responder.new, clock.new, output.new)
        × IsToldAs fault result }
{
    Ok(answer_at(alloc, responder, fixed, reader, output, clock)?)
}
