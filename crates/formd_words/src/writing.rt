//! Writing: texts and lines, flushed.
ghost use Rattle.std.specs.Prelude.{◌≡◌, IfErr, IfOk, OnOk, map, string_bytes};
ghost use Rattle.std.specs.List.{flat_map};
ghost use Rattle.fv_engine_lines.specs.Lines.{ended};
ghost use Rattle.fv_engine_lines.specs.Writes.{Breaks, Sends};
ghost use Rattle.formd_words.specs.Failures.{IsUnwritten};

use crate::failure::Failure;
use fv_engine_lines::{Output, write_line};
use std::alloc::{AllocError, Global};

/// Writes bytes as they are, and flushes.
pub(crate) fn write_as_is<W: Output>(text: &[u8], output: &mut W) -> Result<(), Failure>
    ensures written { OnOk result (Sends W.contents W.takes W.flushes output.old output.new text.now) }
    ensures unwritten { IfErr result (λ failure. (failure ≡ Failure.Write)
        × Breaks W.contents W.takes W.fails output.old output.new text.now) }
{
    Ok(write_line(output, text)?)
}

/// Lines, each with its end.
fn with_ends(alloc: Global, lines: &[String]) -> Result<Vec<u8>, AllocError>
    ensures { IfOk result (λ text. text.items ≡ flat_map ended (map string_bytes lines.now)) }
{
    let mut text = Vec::new(alloc);
    'lines: for line in lines {
        text.extend_from_slice(line.as_bytes())?;
        text.push(b'\n')?;
    }
    Ok(text)
}

/// Writes lines, each with its end, and flushes.
pub(crate) fn write_lines<W: Output>(
    alloc: Global,
    lines: &[String],
    output: &mut W,
) -> Result<(), Failure>
    ensures written { OnOk result
        (Sends W.contents W.takes W.flushes output.old output.new (flat_map ended (map string_bytes lines.now))) }
    ensures unwritten { IfErr result (IsUnwritten (output.new ≡ output.old)
        (Breaks W.contents W.takes W.fails output.old output.new (flat_map ended (map string_bytes lines.now)))) }
{
    let text = with_ends(alloc, lines)?;
    write_as_is(&text, output)
}
