ghost use Rattle.std.specs.Prelude.{◌≡◌, ◌<◌, ℕ, ◌≤◌, List, Option, IfOk, OnErr, length};
ghost use Rattle.std.specs.Io.{ReadsAtMost};
ghost use Rattle.std.specs.Io.KnownBytes.{ReadConsumes};

use std::io;
use std::io::Read;

/// What lines are read from. Each reader of std is one.
pub trait Input {
    /// The bytes that reads will give from here on, where they are known.
    ghost remaining: { Self → Option (List ℕ) };

    /// From the input before a read, however it went, to the input after it.
    ghost reads: { Self → Self → Type 0 };

    /// From the input before a read that gave bytes to the input after it.
    ghost gives: { Self → Self → Type 0 };

    /// From the input before a read that failed to the input after it.
    ghost fails: { Self → Self → Type 0 };

    /// From the input before a read that gave nothing into some room to the input after it.
    ghost ends: { Self → Self → Type 0 };

    /// Reads once, into the front of a chunk of at most 4,096 bytes: how many came. None came only at the
    /// end, or without room.
    fn fill(&mut self, chunk: &mut [u8]) -> io::Result<usize>
        requires { length chunk.old ≤ 4096 }
        ensures bound { ReadsAtMost result chunk.new }
        ensures bytes { ReadConsumes (remaining self.old) (remaining self.new) result chunk.new }
        ensures read { reads self.old self.new }
        ensures gave { IfOk result (λ n. 0 < n → gives self.old self.new) }
        ensures failed { OnErr result (fails self.old self.new) }
        ensures ended { IfOk result (λ n. n ≡ 0 → 0 < length chunk.new → ends self.old self.new) };
}

impl<R: Read> Input for R {
    ghost use Rattle.std.specs.Prelude.{⊤};
    ghost use Rattle.std.specs.Io.KnownBytes.{IsAtEnd};
    ghost use Rattle.fv_engine_lines.specs.Reads.{GivesAtMost};

    ghost remaining = { R.remaining };

    ghost reads = { λ old new. GivesAtMost 4096 (R.remaining old) (R.remaining new) };

    ghost gives = { λ old new. GivesAtMost 4096 (R.remaining old) (R.remaining new) };

    // A reader of std doesn't tell why a read failed.
    ghost fails = { λ old new. ⊤ };

    ghost ends = { λ old new. IsAtEnd (R.remaining new) };

    fn fill(&mut self, chunk: &mut [u8]) -> io::Result<usize> {
        self.read(chunk)
    }
}
