//! Whether two type uses hold the same.
ghost use Rattle.std.specs.Prelude.{◌≡◌, ◌↔◌, IsTrue};
ghost use Rattle.fv_bundle.specs.Types.{type_use_view};
ghost use Rattle.fv_widening.specs.Same.{is_same};

use fv_bundle::TypeUse;

/// Whether both hold data of the same kind: references to the same type, and lists, maps and optionals of the
/// same.
pub fn is_same(own: &TypeUse, other: &TypeUse) -> bool
    ensures tells { IsTrue result ↔ (type_use_view own.now ≡ type_use_view other.now) }
{
    are_same(own, other)
}

/// The same, as a test.
pub(crate) fn are_same(own: &TypeUse, other: &TypeUse) -> bool
    ensures { result ≡ is_same (type_use_view own.now) (type_use_view other.now) }
{
    match own {
        TypeUse::Text => matches!(other, TypeUse::Text),
        TypeUse::Integer => matches!(other, TypeUse::Integer),
        TypeUse::Decimal => matches!(other, TypeUse::Decimal),
        TypeUse::Boolean => matches!(other, TypeUse::Boolean),
        TypeUse::Date => matches!(other, TypeUse::Date),
        TypeUse::Instant => matches!(other, TypeUse::Instant),
        TypeUse::Ref(name) => match other.target() {
            Some(target) => name.as_str() == target,
            None => false,
        },
        TypeUse::List(held) => match other.items() {
            Some(items) => are_same(held, items),
            None => false,
        },
        TypeUse::Map(held) => match other.values() {
            Some(values) => are_same(held, values),
            None => false,
        },
        TypeUse::Optional(held) => match other.content() {
            Some(content) => are_same(held, content),
            None => false,
        },
    }
}
