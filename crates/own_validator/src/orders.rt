ghost use Rattle.std.specs.Prelude.{◌≡◌};
ghost use Rattle.std.specs.Char.{is_ascii_uppercase};
ghost use Rattle.std.specs.List.{list_all};
ghost use Rattle.fv_datum.specs.View.{view};
ghost use Rattle.own_validator.specs.Orders.{capitals, decides, decides_object};

use fv_datum::Datum;
use fv_registry::Meaning;

/// The rules of this program.
#[derive(Drop)]
pub(crate) struct Orders;

impl Meaning for Orders {
    ghost decides = { decides };

    ghost decides_object = { decides_object };
}

fn all_capitals(text: &str) -> bool
    ensures { result ≡ list_all is_ascii_uppercase text.now }
{
    text.as_bytes().iter().all(|byte| byte.is_ascii_uppercase())
}

/// Rule 7: null, or a text of capital letters alone.
pub(crate) fn capitals(datum: &Datum) -> bool
    ensures { result ≡ capitals (view datum.now) }
{
    match datum {
        Datum::Null => true,
        Datum::Text(text) => all_capitals(text.as_str()),
        _ => false,
    }
}
