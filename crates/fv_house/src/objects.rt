//! Rules of objects: two dates in order, and a sum.
ghost use Rattle.std.specs.Prelude.{◌≡◌, ◌+ℤ◌};
ghost use Rattle.std.specs.Ordering.{int_eq};
ghost use Rattle.fv_bundle.specs.Views.{object_view};
ghost use Rattle.fv_house.specs.Objects.{not_after, sum_is};

use crate::named::{date, integer};
use fv_bundle::Object;
use fv_datum::Attrs;

/// Takes an object and the attributes in effect, of which `start` and `end` are names of fields.
///
/// False where both fields hold dates and the first is later. True for any other object: also where
/// an attribute is missing or is no text, or a field is missing or holds no date.
pub fn not_after(object: &Object, attrs: &Attrs) -> bool
    ensures { result ≡ not_after (object_view object.now) attrs.now }
{
    let Some(start) = date(object, attrs, "start") else {
        return true;
    };
    let Some(end) = date(object, attrs, "end") else {
        return true;
    };
    start <= end
}

/// Takes an object and the attributes in effect, of which `first`, `second` and `total` are names of
/// fields.
///
/// False where the three fields hold integers and the first two don't add up to the third, as
/// numbers without bounds. True for any other object: also where an attribute is missing or is no
/// text, or a field is missing or holds no integer.
pub fn sum_is(object: &Object, attrs: &Attrs) -> bool
    ensures { result ≡ sum_is (object_view object.now) attrs.now }
{
    let Some(first) = integer(object, attrs, "first") else {
        return true;
    };
    let Some(second) = integer(object, attrs, "second") else {
        return true;
    };
    let Some(total) = integer(object, attrs, "total") else {
        return true;
    };
    adds_up(first, second, total)
}

/// Whether two numbers make the third. The sum has more than 64 bits.
fn adds_up(first: i64, second: i64, total: i64) -> bool
    ensures { result ≡ int_eq (first +ℤ second) total }
{
    first as i128 + second as i128 == total as i128
}
