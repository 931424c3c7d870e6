//! What the attributes of a constraint on an object name: fields of the object.
ghost use Rattle.std.specs.Prelude.{◌≡◌, option_map};
ghost use Rattle.fv_datum.specs.View.{view};
ghost use Rattle.fv_bundle.specs.Views.{object_view};
ghost use Rattle.fv_registry.specs.NamedFields.{named};
ghost use Rattle.fv_house.specs.Named.{date_of, integer_of};

use fv_bundle::Object;
use fv_datum::{Attribute, Attrs, Datum};

/// The datum of the field that an attribute names; none without such a text or such a field.
fn named<'a>(object: &'a Object, attrs: &Attrs, key: &str) -> Option<&'a Datum>
    ensures { option_map (λ d. view d.now) result ≡ named (object_view object.now) attrs.now key.now }
{
    match attrs.find(key) {
        Some(Attribute::Text(name)) => object.field(name.as_str()),
        _ => None,
    }
}

/// The text of the date in the field that an attribute names.
pub(crate) fn date<'a>(object: &'a Object, attrs: &Attrs, key: &str) -> Option<&'a str>
    ensures { option_map (λ t. t.now) result ≡ date_of (named (object_view object.now) attrs.now key.now) }
{
    match named(object, attrs, key) {
        Some(Datum::Date(text)) => Some(text.as_str()),
        _ => None,
    }
}

/// The integer in the field that an attribute names.
pub(crate) fn integer(object: &Object, attrs: &Attrs, key: &str) -> Option<i64>
    ensures { result ≡ integer_of (named (object_view object.now) attrs.now key.now) }
{
    match named(object, attrs, key) {
        Some(Datum::Integer(number)) => Some(*number),
        _ => None,
    }
}
