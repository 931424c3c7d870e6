//! NotBlank: a text has some character that is no white space, by Unicode's White_Space.
ghost use Rattle.std.specs.Prelude.{◌≡◌, ◌&&◌, not};
ghost use Rattle.fv_datum.specs.View.{view};
ghost use Rattle.fv_datum.specs.Written.{is_null};
ghost use Rattle.fv_builtin.specs.Passing.{passes, text_of};
ghost use Rattle.fv_builtin.specs.Sizes.{has_ink};

use fv_datum::{Datum, is_null};

pub(crate) fn is_not_blank(datum: &Datum) -> bool
    ensures { result ≡ (not (is_null (view datum.now)) && passes has_ink (text_of (view datum.now))) }
{
    match datum {
        Datum::Text(text) => has_ink(text.as_str()),
        _ => !is_null(datum),
    }
}

/// Some character is no white space.
fn has_ink(text: &str) -> bool
    ensures { result ≡ has_ink text.now }
{
    text.chars().any(|c| !c.is_whitespace())
}
