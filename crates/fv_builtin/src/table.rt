//! What each built-in constraint takes: its attributes with their kinds and defaults, and the
//! kinds of data that it is on.
ghost use Rattle.std.specs.Prelude.{◌≡◌, map, option_map};
ghost use Rattle.fv_datum.specs.Attributes.{attribute_view};
ghost use Rattle.fv_builtin.specs.Table.{kind_of_attribute, required_attributes, default_of, takes};

use crate::name::BuiltinName;
use fv_datum::{Attribute, AttributeKind, Kind};

/// The default of Size's `min`.
pub(crate) const MIN_SIZE: i64 = 0;

/// The default of Size's `max`.
pub(crate) const MAX_SIZE: i64 = 2147483647;

/// The default of `inclusive`.
pub(crate) const INCLUSIVE: bool = true;

/// The kind of a constraint's attribute, if it has one of that name.
pub fn kind_of_attribute(which: BuiltinName, name: &str) -> Option<AttributeKind>
    ensures { result ≡ kind_of_attribute which name.now }
{
    match which {
        BuiltinName::Min | BuiltinName::Max => match name {
            "value" => Some(AttributeKind::Integer),
            _ => None,
        },
        BuiltinName::DecimalMin | BuiltinName::DecimalMax => match name {
            "value" => Some(AttributeKind::Text),
            "inclusive" => Some(AttributeKind::Boolean),
            _ => None,
        },
        BuiltinName::Digits => match name {
            "integer" | "fraction" => Some(AttributeKind::Integer),
            _ => None,
        },
        BuiltinName::Size => match name {
            "min" | "max" => Some(AttributeKind::Integer),
            _ => None,
        },
        BuiltinName::Pattern => match name {
            "regexp" => Some(AttributeKind::Text),
            _ => None,
        },
        _ => None,
    }
}

/// The names of the attributes that a constraint has no default for.
pub fn required_attributes(which: BuiltinName) -> &'static [&'static str]
    ensures { map (λ name. name.now) result.now ≡ required_attributes which }
{
    match which {
        BuiltinName::Min | BuiltinName::Max | BuiltinName::DecimalMin | BuiltinName::DecimalMax =>
            &["value"],
        BuiltinName::Digits => &["integer", "fraction"],
        BuiltinName::Pattern => &["regexp"],
        _ => &[],
    }
}

/// The default of a constraint's attribute, if it has one.
pub(crate) fn default_of(which: BuiltinName, name: &str) -> Option<Attribute>
    ensures { option_map attribute_view result ≡ default_of which name.now }
{
    match which {
        BuiltinName::DecimalMin | BuiltinName::DecimalMax => match name {
            "inclusive" => Some(Attribute::Boolean(INCLUSIVE)),
            _ => None,
        },
        BuiltinName::Size => match name {
            "min" => Some(Attribute::Integer(MIN_SIZE)),
            "max" => Some(Attribute::Integer(MAX_SIZE)),
            _ => None,
        },
        _ => None,
    }
}

/// Whether a constraint is on data of a kind.
pub fn takes_kind(which: BuiltinName, kind: Kind) -> bool
    ensures { result ≡ takes which kind }
{
    match which {
        BuiltinName::Null | BuiltinName::NotNull => true,
        BuiltinName::AssertTrue | BuiltinName::AssertFalse => matches!(kind, Kind::Boolean),
        BuiltinName::Min
        | BuiltinName::Max
        | BuiltinName::DecimalMin
        | BuiltinName::DecimalMax
        | BuiltinName::Positive
        | BuiltinName::PositiveOrZero
        | BuiltinName::Negative
        | BuiltinName::NegativeOrZero
        | BuiltinName::Digits => matches!(kind, Kind::Integer | Kind::Decimal),
        BuiltinName::Size | BuiltinName::NotEmpty => {
            matches!(kind, Kind::Text | Kind::List | Kind::Map)
        }
        BuiltinName::NotBlank | BuiltinName::Pattern => matches!(kind, Kind::Text),
        BuiltinName::Past
        | BuiltinName::PastOrPresent
        | BuiltinName::Future
        | BuiltinName::FutureOrPresent => matches!(kind, Kind::Date | Kind::Instant),
    }
}
