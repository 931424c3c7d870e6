//! Size and NotEmpty: how large a text, a list or a map is. A text is counted in UTF-16 code
//! units.
ghost use Rattle.std.specs.Prelude.{◌≡◌, ◌&&◌, not, nat_le, nat_lt};
ghost use Rattle.fv_datum.specs.View.{view};
ghost use Rattle.fv_datum.specs.Written.{is_null};
ghost use Rattle.fv_builtin.specs.Given.{size_bounds};
ghost use Rattle.fv_builtin.specs.Passing.{passes};
ghost use Rattle.fv_builtin.specs.Sizes.{units_of, utf16_size, size_of};

use crate::given::{count_in, integer_or};
use crate::table::{MAX_SIZE, MIN_SIZE};
use fv_datum::{Attrs, Datum, is_null};

/// The bounds `min` and `max`: the second is not below the first.
pub(crate) fn size_bounds(attrs: &Attrs) -> Option<(u32, u32)>
    ensures { result ≡ size_bounds attrs.now }
{
    let min = count_in(integer_or(attrs.find("min"), Some(MIN_SIZE))?)?;
    let max = count_in(integer_or(attrs.find("max"), Some(MAX_SIZE))?)?;
    if max < min { None } else { Some((min, max)) }
}

/// The size of a text, a list or a map.
#[tactic(auto, using(crate::proofs::Counts::list_size, crate::proofs::Counts::map_size))]
fn size_of(datum: &Datum) -> Option<u64>
    ensures { result ≡ size_of (view datum.now) }
{
    match datum {
        Datum::Text(text) => Some(utf16_size(text.as_str())),
        Datum::List(items) => Some(items.len() as u64),
        Datum::Map(entries) => Some(entries.len() as u64),
        _ => None,
    }
}

/// The number of UTF-16 code units of a text.
fn utf16_size(text: &str) -> u64
    ensures { result ≡ utf16_size text.now }
{
    let mut units: u64 = 0;
    for c in text.chars() {
        units += units_of(c);
    }
    units
}

/// The UTF-16 code units of a character: one up to U+FFFF, else two.
fn units_of(c: char) -> u64
    ensures { result ≡ units_of c }
{
    if (c as u32) < 0x10000 { 1 } else { 2 }
}

/// From `min` to `max`, both included.
pub(crate) fn is_sized(min: u32, max: u32, datum: &Datum) -> bool
    ensures { result ≡ passes (λ n. nat_le min n && nat_le n max) (size_of (view datum.now)) }
{
    match size_of(datum) {
        None => true,
        Some(size) => min as u64 <= size && size <= max as u64,
    }
}

/// Not null, and of a size above 0.
pub(crate) fn is_not_empty(datum: &Datum) -> bool
    ensures { result ≡ (not (is_null (view datum.now)) && passes (λ n. nat_lt 0 n) (size_of (view datum.now))) }
{
    if is_null(datum) {
        return false;
    }
    match size_of(datum) {
        None => true,
        Some(size) => 0 < size,
    }
}
