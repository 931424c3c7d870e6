ghost use Rattle.std.specs.Prelude.{◌≡◌, nat_lt, IfOk};
ghost use Rattle.fv_bundle.specs.Types.{kind_of, nested, type_use_view};

use fv_datum::Kind;
use std::alloc::AllocError;

/// What a field of a type holds: a datum of a plain kind, a reference, or a list, map or optional of
/// what a type use holds; or null.
#[derive(Debug, PartialEq, Eq, Drop)]
pub enum TypeUse {
    Text,
    Integer,
    Decimal,
    Boolean,
    Date,
    Instant,
    /// The name of an object of the bundle, of the type of this name.
    Ref(String),
    List(Box<TypeUse>),
    /// From texts to what the type use holds.
    Map(Box<TypeUse>),
    Optional(Box<TypeUse>),
}

impl TypeUse {
    /// The kind of the data.
    pub fn kind(&self) -> Kind
        ensures { result ≡ kind_of (type_use_view self.now) }
    {
        match self {
            TypeUse::Text => Kind::Text,
            TypeUse::Integer => Kind::Integer,
            TypeUse::Decimal => Kind::Decimal,
            TypeUse::Boolean => Kind::Boolean,
            TypeUse::Date => Kind::Date,
            TypeUse::Instant => Kind::Instant,
            TypeUse::Ref(_) => Kind::Ref,
            TypeUse::List(_) => Kind::List,
            TypeUse::Map(_) => Kind::Map,
            TypeUse::Optional(_) => Kind::Optional,
        }
    }

    /// The same type use.
    pub fn copy(&self) -> Result<TypeUse, AllocError>
        ensures { IfOk result (λ u. type_use_view u ≡ type_use_view self.now) }
    {
        copy_of(self)
    }
}

fn copy_of(type_use: &TypeUse) -> Result<TypeUse, AllocError>
    ensures { IfOk result (λ u. type_use_view u ≡ type_use_view type_use.now) }
{
    match type_use {
        TypeUse::Text => Ok(TypeUse::Text),
        TypeUse::Integer => Ok(TypeUse::Integer),
        TypeUse::Decimal => Ok(TypeUse::Decimal),
        TypeUse::Boolean => Ok(TypeUse::Boolean),
        TypeUse::Date => Ok(TypeUse::Date),
        TypeUse::Instant => Ok(TypeUse::Instant),
        TypeUse::Ref(name) => Ok(TypeUse::Ref(name.clone()?)),
        TypeUse::List(held) => Ok(TypeUse::List(Box::new(*Box::allocator(held), copy_of(held)?)?)),
        TypeUse::Map(held) => Ok(TypeUse::Map(Box::new(*Box::allocator(held), copy_of(held)?)?)),
        TypeUse::Optional(held) => Ok(TypeUse::Optional(Box::new(
            *Box::allocator(held),
            copy_of(held)?,
        )?)),
    }
}

/// Whether more containers than this number stand one in another.
pub(crate) fn is_deeper(type_use: &TypeUse, most: usize) -> bool
    ensures { result ≡ nat_lt most (nested (type_use_view type_use.now)) }
{
    match type_use {
        TypeUse::List(held) | TypeUse::Map(held) | TypeUse::Optional(held) => most == 0
            || is_deeper(held, most - 1),
        _ => false,
    }
}
