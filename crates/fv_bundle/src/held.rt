//! What a type use holds or refers to.
ghost use Rattle.std.specs.Prelude.{◌≡◌, option_map};
ghost use Rattle.fv_bundle.specs.Held.{target, items, values, content};
ghost use Rattle.fv_bundle.specs.Types.{type_use_view};

use crate::type_use::TypeUse;

impl TypeUse {
    /// The name of the type of the objects that it refers to.
    pub fn target(&self) -> Option<&str>
        ensures { option_map (λ s. s.now) result ≡ target (type_use_view self.now) }
    {
        match self {
            TypeUse::Ref(name) => Some(name.as_str()),
            TypeUse::Text
            | TypeUse::Integer
            | TypeUse::Decimal
            | TypeUse::Boolean
            | TypeUse::Date
            | TypeUse::Instant
            | TypeUse::List(_)
            | TypeUse::Map(_)
            | TypeUse::Optional(_) => None,
        }
    }

    /// What the items of its lists are.
    pub fn items(&self) -> Option<&TypeUse>
        ensures { option_map (λ u. type_use_view u.now) result ≡ items (type_use_view self.now) }
    {
        match self {
            TypeUse::List(held) => Some(held),
            TypeUse::Text
            | TypeUse::Integer
            | TypeUse::Decimal
            | TypeUse::Boolean
            | TypeUse::Date
            | TypeUse::Instant
            | TypeUse::Ref(_)
            | TypeUse::Map(_)
            | TypeUse::Optional(_) => None,
        }
    }

    /// What the values of its maps are.
    pub fn values(&self) -> Option<&TypeUse>
        ensures { option_map (λ u. type_use_view u.now) result ≡ values (type_use_view self.now) }
    {
        match self {
            TypeUse::Map(held) => Some(held),
            TypeUse::Text
            | TypeUse::Integer
            | TypeUse::Decimal
            | TypeUse::Boolean
            | TypeUse::Date
            | TypeUse::Instant
            | TypeUse::Ref(_)
            | TypeUse::List(_)
            | TypeUse::Optional(_) => None,
        }
    }

    /// What its optionals hold.
    pub fn content(&self) -> Option<&TypeUse>
        ensures { option_map (λ u. type_use_view u.now) result ≡ content (type_use_view self.now) }
    {
        match self {
            TypeUse::Optional(held) => Some(held),
            TypeUse::Text
            | TypeUse::Integer
            | TypeUse::Decimal
            | TypeUse::Boolean
            | TypeUse::Date
            | TypeUse::Instant
            | TypeUse::Ref(_)
            | TypeUse::List(_)
            | TypeUse::Map(_) => None,
        }
    }
}
