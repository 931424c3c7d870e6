ghost use Rattle.std.specs.Prelude.{◌≡◌, ◌≤◌, ◌<◌, ◌/◌, ◌⊎◌, ℕ, MatchResult, min, pos};
ghost use Rattle.std.specs.Duration.{as_nanos};
ghost use Rattle.fv_datum.specs.Moments.{IsMoment};

use fv_datum::{LAST_MOMENT, moment_ok};
use fv_engine_lines::Clock;
use std::io;
use std::rt::Clock as TimeSource;
use std::time::Duration;

/// What is asked for the time. Each clock of std is such a source.
pub trait Seconds {
    /// So many nanoseconds since 1970-01-01T00:00:00Z may be told.
    ghost tells: { Self → ℕ → Type 0 };

    /// Asking may fail.
    ghost fails: { Self → Type 0 };

    /// The time since 1970-01-01T00:00:00Z.
    fn passed(&self) -> io::Result<Duration>
        ensures { MatchResult result (λ time. tells self.now (as_nanos time)) (λ _. fails self.now) };
}

impl<T: TimeSource> Seconds for T {
    ghost use Rattle.std.specs.Prelude.{⊤};

    // A clock of std doesn't tell which time it is.
    ghost tells = { λ _ _. ⊤ };

    ghost fails = { λ _. ⊤ };

    fn passed(&self) -> io::Result<Duration> {
        self.since_1970()
    }
}

/// The machine's clock, clamped to the range of moments. Where it fails, as where it stands before
/// 1970, it gives its last answer, 0 at first.
pub struct MachineClock<'a, T: Seconds> {
    source: &'a T,
    last: i64,
    ghost in_range: { IsMoment last },
}

impl<'a, T: Seconds> MachineClock<'a, T> {
    /// The clock over a source of the time.
    pub fn new(source: &'a T) -> MachineClock<'a, T>
        ensures { (result.source.now ≡ source.now) × (result.last ≡ pos 0) }
    {
        MachineClock { source, last: 0 }
    }
}

impl<T: Seconds> Drop for MachineClock<'_, T> {
    fn drop(self) {
        let MachineClock { source: _, last: _ } = self;
    }
}

/// Seconds since 1970-01-01T00:00:00Z as a moment: those past the last are the last.
fn clamped(seconds: u64) -> i64
    ensures moment { IsMoment result }
    ensures within { seconds ≤ 253402128000 → result ≡ pos seconds }
    ensures past { 253402128000 < seconds → result ≡ pos 253402128000 }
{
    match i64::try_from(seconds) {
        Ok(seconds) => if moment_ok(seconds) {
            seconds
        } else {
            LAST_MOMENT
        },
        Err(_) => LAST_MOMENT,
    }
}

impl<T: Seconds> Clock for MachineClock<'_, T> {
    ghost use Rattle.std.specs.Prelude.{◌≡◌, ◌/◌, ◌⊎◌, ℕ, min, pos};

    ghost ticks = { λ old moment new. (new.source ≡ old.source) × (new.last ≡ moment)
        × (((nanos : ℕ) × T.tells old.source.now nanos × (moment ≡ pos (min (nanos / 1_000_000_000) 253402128000)))
        ⊎ (T.fails old.source.now × (moment ≡ old.last))) };

    fn now(&mut self) -> i64 {
        if let Ok(passed) = self.source.passed() {
            self.last = clamped(passed.as_secs());
        }
        self.last
    }
}
