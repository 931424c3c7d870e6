//! The attributes that are given, and their values in effect.
ghost use Rattle.std.specs.Prelude.{◌≡◌, option_map};
ghost use Rattle.std.specs.Option.{option_and_then, option_or};
ghost use Rattle.fv_datum.specs.Attributes.{attribute_view, integer, integer_in, text_in, boolean, boolean_in};
ghost use Rattle.fv_builtin.specs.Given.{count_in, has_foreign, has_kind};

use crate::name::BuiltinName;
use crate::table::kind_of_attribute;
use fv_datum::{Attribute, AttributeKind, Attrs};

/// The greatest count.
const GREATEST_COUNT: i64 = 2147483647;

/// A whole number as it is given, else the default.
pub(crate) fn integer_or(given: Option<&Attribute>, default: Option<i64>) -> Option<i64>
    ensures { result ≡ option_and_then integer_in (option_or (option_map (λ a. attribute_view a.now) given.entry)
        (option_map (λ n. integer n) default)) }
{
    match given {
        None => default,
        Some(Attribute::Integer(number)) => Some(*number),
        Some(_) => None,
    }
}

/// A boolean as it is given, else the default.
pub(crate) fn boolean_or(given: Option<&Attribute>, default: Option<bool>) -> Option<bool>
    ensures { result ≡ option_and_then boolean_in (option_or (option_map (λ a. attribute_view a.now) given.entry)
        (option_map (λ b. boolean b) default)) }
{
    match given {
        None => default,
        Some(Attribute::Boolean(flag)) => Some(*flag),
        Some(_) => None,
    }
}

/// A text, if one is given.
pub(crate) fn text_of(given: Option<&Attribute>) -> Option<&str>
    ensures { option_map (λ s. s.now) result
        ≡ option_and_then text_in (option_map (λ a. attribute_view a.now) given.entry) }
{
    match given {
        Some(Attribute::Text(text)) => Some(text.as_str()),
        _ => None,
    }
}

/// A whole number from 0 to 2147483647.
pub(crate) fn count_in(number: i64) -> Option<u32>
    ensures { result ≡ count_in number }
{
    if number < 0 || number > GREATEST_COUNT {
        return None;
    }
    Some(number as u32)
}

/// Whether an attribute is given that the constraint doesn't have, or has with another kind.
pub(crate) fn has_foreign(which: BuiltinName, attrs: &Attrs) -> bool
    ensures { result ≡ has_foreign which attrs.now }
{
    for (name, value) in attrs.entries().iter() {
        if !has_kind(kind_of_attribute(which, name.as_str()), value.kind()) {
            return true;
        }
    }
    false
}

fn has_kind(wanted: Option<AttributeKind>, kind: AttributeKind) -> bool
    ensures { result ≡ has_kind wanted kind }
{
    match wanted {
        None => false,
        Some(wanted) => wanted == kind,
    }
}
