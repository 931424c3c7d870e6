ghost use Rattle.std.specs.Prelude.{◌≡◌};
ghost use Rattle.fv_datum.specs.Attributes.{attribute_view};
ghost use Rattle.fv_datum.specs.AttributeKinds.{attribute_kind};

use crate::attrs::Attribute;

/// What an attribute's value is.
#[derive(Clone, Copy, Debug, PartialEq, Eq)]
pub enum AttributeKind {
    /// A whole number of 64 bits.
    Integer,
    Text,
    Boolean,
    /// A list of texts.
    Texts,
}

impl Attribute {
    /// What the value is.
    pub fn kind(&self) -> AttributeKind
        ensures { result ≡ attribute_kind (attribute_view self.now) }
    {
        match self {
            Attribute::Integer(_) => AttributeKind::Integer,
            Attribute::Text(_) => AttributeKind::Text,
            Attribute::Boolean(_) => AttributeKind::Boolean,
            Attribute::Texts(_) => AttributeKind::Texts,
        }
    }
}
