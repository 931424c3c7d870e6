//! AssertTrue and AssertFalse.
ghost use Rattle.std.specs.Prelude.{◌≡◌, not};
ghost use Rattle.fv_datum.specs.View.{view};
ghost use Rattle.fv_builtin.specs.Passing.{passes, boolean_of};

use fv_datum::Datum;

pub(crate) fn is_true(datum: &Datum) -> bool
    ensures { result ≡ passes (λ b. b) (boolean_of (view datum.now)) }
{
    match datum {
        Datum::Boolean(flag) => *flag,
        _ => true,
    }
}

pub(crate) fn is_false(datum: &Datum) -> bool
    ensures { result ≡ passes not (boolean_of (view datum.now)) }
{
    match datum {
        Datum::Boolean(flag) => !*flag,
        _ => true,
    }
}
