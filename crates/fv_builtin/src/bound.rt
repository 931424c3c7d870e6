//! Min, Max, DecimalMin, DecimalMax, Positive, PositiveOrZero, Negative and NegativeOrZero: a
//! number stands to a bound. Digits: a number has at most so many digits before the point, and at
//! most so many behind it. Numbers are in units of 10^-9.
ghost use Rattle.std.specs.Prelude.{◌≡◌, ◌^◌, ◌*ℤ◌, pos, int_le, int_lt, if◌then◌else◌, ◌&&◌, codes};
ghost use Rattle.fv_datum.specs.View.{view};
ghost use Rattle.fv_builtin.specs.Given.{whole_bound, decimal_bound, count_at};
ghost use Rattle.fv_builtin.specs.declared.name.BuiltinName.TheVariants.{Min, DecimalMin, Digits};
ghost use Rattle.fv_builtin.specs.Numbers.{number_of, has_integral, has_fraction};
ghost use Rattle.fv_builtin.specs.Passing.{passes};
ghost use Rattle.std.specs.Option.{option_zip};

use crate::given::{boolean_or, count_in, integer_or, text_of};
use crate::table::INCLUSIVE;
use fv_datum::{Attrs, Datum, decimal_units};

/// 10^9, the units of 1.
const ONE: u128 = 1_000_000_000;

/// The `value` of Min or Max, in units of 10^-9.
pub(crate) fn whole_bound(attrs: &Attrs) -> Option<i128>
    ensures { result ≡ whole_bound Min attrs.now }
{
    Some(whole_units(integer_or(attrs.find("value"), None)?))
}

/// The `value` of DecimalMin or DecimalMax, in units of 10^-9, and whether it is included.
pub(crate) fn decimal_bound(attrs: &Attrs) -> Option<(i128, bool)>
    ensures { result ≡ decimal_bound DecimalMin attrs.now }
{
    let value = text_of(attrs.find("value"))?;
    let units = decimal_units(value)?;
    let inclusive = boolean_or(attrs.find("inclusive"), Some(INCLUSIVE))?;
    Some((units, inclusive))
}

/// The number of an integer or of a decimal, if the datum is one.
pub(crate) fn number_of(datum: &Datum) -> Option<i128>
    ensures { result ≡ number_of (view datum.now) }
{
    match datum {
        Datum::Integer(number) => Some(whole_units(*number)),
        Datum::Decimal(text) => decimal_units(text.as_str()),
        _ => None,
    }
}

/// A whole number in units of 10^-9.
pub(crate) fn whole_units(number: i64) -> i128
    ensures { result ≡ number *ℤ pos (10 ^ 9) }
{
    number as i128 * 1_000_000_000
}

pub(crate) fn is_at_least(bound: i128, datum: &Datum) -> bool
    ensures { result ≡ passes (λ n. int_le bound n) (number_of (view datum.now)) }
{
    match number_of(datum) {
        None => true,
        Some(number) => bound <= number,
    }
}

pub(crate) fn is_above(bound: i128, datum: &Datum) -> bool
    ensures { result ≡ passes (λ n. int_lt bound n) (number_of (view datum.now)) }
{
    match number_of(datum) {
        None => true,
        Some(number) => bound < number,
    }
}

pub(crate) fn is_at_most(bound: i128, datum: &Datum) -> bool
    ensures { result ≡ passes (λ n. int_le n bound) (number_of (view datum.now)) }
{
    match number_of(datum) {
        None => true,
        Some(number) => number <= bound,
    }
}

pub(crate) fn is_below(bound: i128, datum: &Datum) -> bool
    ensures { result ≡ passes (λ n. int_lt n bound) (number_of (view datum.now)) }
{
    match number_of(datum) {
        None => true,
        Some(number) => number < bound,
    }
}

/// At least the bound or, without `inclusive`, above it.
pub(crate) fn is_from(bound: i128, inclusive: bool, datum: &Datum) -> bool
    ensures { result ≡ passes (λ n. if inclusive then int_le bound n else int_lt bound n)
        (number_of (view datum.now)) }
{
    if inclusive {
        is_at_least(bound, datum)
    } else {
        is_above(bound, datum)
    }
}

/// At most the bound or, without `inclusive`, below it.
pub(crate) fn is_up_to(bound: i128, inclusive: bool, datum: &Datum) -> bool
    ensures { result ≡ passes (λ n. if inclusive then int_le n bound else int_lt n bound)
        (number_of (view datum.now)) }
{
    if inclusive {
        is_at_most(bound, datum)
    } else {
        is_below(bound, datum)
    }
}

/// The counts `integer` and `fraction`.
pub(crate) fn digit_counts(attrs: &Attrs) -> Option<(u32, u32)>
    ensures { result ≡ option_zip (count_at Digits attrs.now (codes "integer"))
        (count_at Digits attrs.now (codes "fraction")) }
{
    let integer = count_in(integer_or(attrs.find("integer"), None)?)?;
    let fraction = count_in(integer_or(attrs.find("fraction"), None)?)?;
    Some((integer, fraction))
}

/// Zeros at the end of the fraction don't count, and neither does a whole part of 0.
pub(crate) fn has_digits(integer: u32, fraction: u32, datum: &Datum) -> bool
    ensures { result ≡ passes (λ n. has_integral integer n && has_fraction fraction n)
        (number_of (view datum.now)) }
{
    match number_of(datum) {
        None => true,
        Some(number) => has_integral(integer, number) && has_fraction(fraction, number),
    }
}

/// Any number of 128 bits has at most 30 digits before the point.
fn has_integral(count: u32, number: i128) -> bool
    ensures { result ≡ has_integral count number }
{
    let whole = number.unsigned_abs() / ONE;
    if count >= 30 {
        return true;
    }
    whole < 10u128.pow(count)
}

/// It has at most 9 behind it.
fn has_fraction(count: u32, number: i128) -> bool
    ensures { result ≡ has_fraction count number }
{
    if count >= 9 {
        return true;
    }
    let part = number.unsigned_abs() % ONE;
    part * 10u128.pow(count) % ONE == 0
}
