ghost use Rattle.std.specs.Prelude.{◌≡◌};
ghost use Rattle.fv_bundle.specs.FaultNames.{types_fault_name};
ghost use Rattle.fv_bundle.specs.declared.fault.TypesFault.TheVariants.{Memory};

use std::alloc::AllocFailed;
use thiserror::Error;

/// Why declared types weren't taken.
#[derive(Clone, Copy, Debug, PartialEq, Eq, Error)]
pub enum TypesFault {
    /// A field refers to a type that isn't declared.
    #[error("a reference to a type that isn't declared")]
    UnknownType,
    /// More than 256 types, a type of more than 256 fields, or more than four containers one in another.
    #[error("too many types, fields or nested containers")]
    TooLarge,
    /// An allocation was refused.
    #[error("out of memory")]
    Memory,
}

impl TypesFault {
    /// The fault's name.
    pub fn name(&self) -> &str
        ensures { result.now ≡ types_fault_name self.now }
    {
        match self {
            TypesFault::UnknownType => "UnknownType",
            TypesFault::TooLarge => "TooLarge",
            TypesFault::Memory => "Memory",
        }
    }
}

impl<T: Drop> From<AllocFailed<T>> for TypesFault {
    ghost from_gives = { λ _ e. e ≡ Memory };

    fn from(_e: AllocFailed<T>) -> TypesFault {
        TypesFault::Memory
    }
}

/// Where declared types have a fault, by numbers from 0 in the order of their maps.
#[derive(Clone, Copy, Debug, PartialEq, Eq)]
pub enum TypesAt {
    /// The types as a whole: there are too many.
    Types,
    /// A type, which has too many fields.
    Type(usize),
    /// A type, and which of its fields.
    Field(usize, usize),
}

/// Why declared types weren't taken, and where that is.
#[derive(Clone, Copy, Debug, PartialEq, Eq, Error)]
#[error("{fault}")]
pub struct PlacedTypesFault {
    pub fault: TypesFault,
    /// None for want of memory.
    pub at: Option<TypesAt>,
}

impl<T: Drop> From<AllocFailed<T>> for PlacedTypesFault {
    ghost use Rattle.std.specs.Prelude.{◌≡◌, None};

    ghost from_gives = { λ _ e. (e.fault ≡ Memory) × (e.at ≡ None) };

    fn from(_e: AllocFailed<T>) -> PlacedTypesFault {
        PlacedTypesFault {
            fault: TypesFault::Memory,
            at: None,
        }
    }
}
