ghost use Rattle.std.specs.Prelude.{◌≡◌};
ghost use Rattle.fv_datum.specs.Moments.{IsMoment};

use crate::clock::Clock;

/// A clock that stands still, as for a demonstration or a test.
#[derive(Drop)]
pub struct FixedClock {
    moment: i64,
    ghost in_range: { IsMoment moment },
}

impl FixedClock {
    /// The clock that stands at a moment, in whole seconds since 1970-01-01T00:00:00Z.
    pub fn new(moment: i64) -> FixedClock
        requires { IsMoment moment }
        ensures { result.moment ≡ moment }
    {
        FixedClock { moment }
    }
}

impl Clock for FixedClock {
    ghost use Rattle.std.specs.Prelude.{◌≡◌};

    ghost ticks = { λ old moment new. (moment ≡ old.moment) × (new ≡ old) };

    fn now(&mut self) -> i64 {
        self.moment
    }
}
