//! The check digit of a card's number, by Luhn's formula.
ghost use Rattle.std.specs.Prelude.{◌≡◌, true, reverse, ◌%◌, ◌<◌};
ghost use Rattle.fv_datum.specs.Decimals.{are_digits};
ghost use Rattle.fv_datum.specs.View.{view};
ghost use Rattle.fv_house.specs.Luhn.{luhn, luhn_text, luhn_sum, doubled};

use fv_datum::{Datum, are_digits};

/// Takes a datum.
///
/// True for null, and for a text of one or more ASCII digits whose sum is a multiple of 10, where
/// from the right every second digit is doubled, less 9 where above 9. False for any other text, the
/// empty one too, and for a datum of another kind.
pub fn luhn(datum: &Datum) -> bool
    ensures { result ≡ luhn (view datum.now) }
{
    match datum {
        Datum::Null => true,
        Datum::Text(text) => luhn_text(text.as_str()),
        _ => false,
    }
}

fn luhn_text(text: &str) -> bool
    ensures { result ≡ luhn_text text.now }
{
    let bytes = text.as_bytes();
    if !are_digits(bytes) {
        return false;
    }
    last_digit(bytes) == 0
}

/// Twice a digit, less 9 where above 9.
fn doubled(digit: u8) -> u8
    requires { digit < 10 }
    ensures { result ≡ doubled digit }
{
    let twice = 2 * digit;
    if twice > 9 { twice - 9 } else { twice }
}

/// The last digit of the sum, which stays small however many digits there are.
fn last_digit(bytes: &[u8]) -> u8
    requires { are_digits bytes.now ≡ true }
    ensures { result ≡ luhn_sum (reverse bytes.now) % 10 }
{
    let mut rest = 0u8;
    let mut second = false;
    let mut left = bytes.len();
    while left > 0 {
        left -= 1;
        let digit = bytes[left] - b'0';
        rest = (rest + if second { doubled(digit) } else { digit }) % 10;
        second = !second;
    }
    rest
}
