ghost use Rattle.std.specs.Prelude.{◌≡◌, ℕ, ℤ, ◌<◌, List, length};
ghost use Rattle.fv_datum.specs.Moments.{IsMoment};
ghost use Rattle.fv_engine_lines.specs.Lines.{ended};

use std::alloc::Global;

/// The longest line, in bytes without its end.
pub const LIMIT: usize = 1048576;

/// What a line is answered with.
pub trait Text {
    /// The bytes of the line that is written, without its end.
    ghost bytes: { Self → List ℕ };

    /// The line that is written, with its end.
    fn line(&self) -> &str
        ensures { result.now ≡ ended (bytes self.now) };
}

/// What answers lines.
pub trait Responder {
    type Reply: Text + Drop;

    /// From what answers a line, by the line, the moment and the reply, to what answers the next.
    ghost step: { Self → List ℕ → ℤ → List ℕ → Self → Type 0 };

    /// Answers a line.
    fn answer_line(&mut self, alloc: Global, line: &[u8], now: i64) -> Self::Reply
        requires { IsMoment now }
        ensures { step self.old line.now now (Self.Reply.bytes result) self.new };

    /// Answers a line that is over the limit, whatever stands in it.
    fn answer_long(&mut self, now: i64) -> Self::Reply
        requires { IsMoment now }
        ensures { (line : List ℕ) → 1048576 < length line → step self.old line now (Self.Reply.bytes result) self.new };
}
