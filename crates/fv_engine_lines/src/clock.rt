ghost use Rattle.std.specs.Prelude.{ℤ};
ghost use Rattle.fv_datum.specs.Moments.{IsMoment};

/// What tells the moment.
pub trait Clock {
    /// From the clock before a reading and its answer to the clock after it.
    ghost ticks: { Self → ℤ → Self → Type 0 };

    /// The moment now, in seconds since 1970-01-01T00:00:00Z.
    fn now(&mut self) -> i64
        ensures ticks { ticks self.old result self.new }
        ensures moment { IsMoment result };
}
