ghost use Rattle.std.specs.Prelude.{IsTrue, ◌↔◌, ◌≡◌};
ghost use Rattle.fv_datum.specs.Moments.{IsMoment, is_moment};

/// The first moment, 0001-01-01T00:00:00Z, in seconds since 1970-01-01T00:00:00Z.
const FIRST_MOMENT: i64 = -62135596800;

/// The last moment, 9999-12-30T00:00:00Z, in seconds since 1970-01-01T00:00:00Z.
pub const LAST_MOMENT: i64 = 253402128000;

/// Whether a number of seconds since 1970-01-01T00:00:00Z is a moment: from 0001-01-01T00:00:00Z
/// to 9999-12-30T00:00:00Z.
pub fn moment_ok(seconds: i64) -> bool
    ensures range { IsTrue result ↔ IsMoment seconds }
    ensures test { result ≡ is_moment seconds }
{
    (FIRST_MOMENT..=LAST_MOMENT).contains(&seconds)
}
