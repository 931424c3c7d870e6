ghost use Rattle.std.specs.Prelude.{◌≡◌, ◌<◌, ℕ, IfOk, List, MatchResult, OnOk, OnErr, Option, codes};
ghost use Rattle.std.specs.Io.{WritesAtMost};
ghost use Rattle.std.specs.Io.KnownBytes.{Appends, Keeps, WriteAppends};
ghost use Rattle.fv_engine_lines.specs.Reads.{Times};
ghost use Rattle.fv_engine_lines.specs.Writes.{AppendsFront, Breaks, Sends};

use std::io;
use std::io::Write;
use thiserror::Error;

/// What replies are written to. Each writer of std is one.
pub trait Output {
    /// The bytes that were written, where they are known.
    ghost contents: { Self → Option (List ℕ) };

    /// From the output before a write that took bytes to the output after it.
    ghost takes: { Self → Self → Type 0 };

    /// From the output before a flush to the output after it.
    ghost flushes: { Self → Self → Type 0 };

    /// From the output before a call that failed, or a write that took nothing, to the output after it.
    ghost fails: { Self → Self → Type 0 };

    /// Writes once, from the front of some bytes: how many were taken.
    fn write_some(&mut self, bytes: &[u8]) -> io::Result<usize>
        ensures bound { WritesAtMost result bytes.now }
        ensures bytes { WriteAppends (contents self.old) (contents self.new) result bytes.now }
        ensures took { IfOk result (λ n. 0 < n → takes self.old self.new) }
        ensures failed { MatchResult result (λ n. n ≡ 0 → fails self.old self.new) (λ _. fails self.old self.new) };

    /// Flushes what was written.
    fn flush_all(&mut self) -> io::Result<()>
        ensures bytes { Keeps (contents self.old) (contents self.new) }
        ensures flushed { MatchResult result (λ _. flushes self.old self.new) (λ _. fails self.old self.new) };
}

impl<W: Write> Output for W {
    ghost use Rattle.std.specs.Prelude.{⊤};

    ghost contents = { W.contents };

    // A writer of std doesn't tell what a write or a flush is, nor why a call failed.
    ghost takes = { λ old new. ⊤ };

    ghost flushes = { λ old new. ⊤ };

    ghost fails = { λ old new. ⊤ };

    fn write_some(&mut self, bytes: &[u8]) -> io::Result<usize> {
        self.write(bytes)
    }

    fn flush_all(&mut self) -> io::Result<()> {
        self.flush()
    }
}

/// A write or a flush failed, or a write took nothing.
#[derive(Clone, Copy, Debug, PartialEq, Eq, Error)]
#[error("a write failed")]
pub struct WriteFailed;

impl WriteFailed {
    /// The fault's name.
    pub fn name(&self) -> &str
        ensures { result.now ≡ codes "Write" }
    {
        "Write"
    }
}

/// Writes all of the bytes, by its own loop. Nothing is flushed.
pub fn write_bytes<W: Output>(writer: &mut W, bytes: &[u8]) -> Result<(), WriteFailed>
    ensures ok { OnOk result (Appends (W.contents writer.old) (W.contents writer.new) bytes.now) }
    ensures took { OnOk result ((n : ℕ) × Times W.takes n writer.old writer.new) }
    ensures err { OnErr result (Breaks W.contents W.takes W.fails writer.old writer.new bytes.now) }
{
    let mut at = 0;
    while at < bytes.len() {
        match writer.write_some(&bytes[at..]) {
            Ok(0) => return Err(WriteFailed),
            Ok(n) => at += n,
            Err(_) => return Err(WriteFailed),
        }
    }
    Ok(())
}

/// Flushes what was written.
fn flush<W: Output>(writer: &mut W) -> Result<(), WriteFailed>
    ensures kept { Keeps (W.contents writer.old) (W.contents writer.new) }
    ensures ok { OnOk result (W.flushes writer.old writer.new) }
    ensures err { OnErr result (W.fails writer.old writer.new) }
{
    match writer.flush_all() {
        Ok(()) => Ok(()),
        Err(_) => Err(WriteFailed),
    }
}

/// Writes a line, its end among its bytes, and flushes.
pub fn write_line<W: Output>(writer: &mut W, line: &[u8]) -> Result<(), WriteFailed>
    ensures ok { OnOk result (Sends W.contents W.takes W.flushes writer.old writer.new line.now) }
    ensures err { OnErr result (Breaks W.contents W.takes W.fails writer.old writer.new line.now) }
{
    write_bytes(writer, line)?;
    flush(writer)
}
