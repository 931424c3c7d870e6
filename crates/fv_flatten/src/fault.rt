ghost use Rattle.std.specs.Prelude.{◌≡◌};
ghost use Rattle.fv_flatten.specs.FaultNames.{flatten_fault_name};
ghost use Rattle.fv_flatten.specs.declared.fault.FlattenFault.TheVariants.{Memory};

use fv_constraint::ConstraintAt;
use std::alloc::{AllocError, AllocFailed};
use thiserror::Error;

/// Why a use of a constraint isn't flattened.
#[derive(Clone, Copy, Debug, PartialEq, Eq, Error)]
pub enum FlattenFault {
    /// A constraint is composed of itself, directly or through others.
    #[error("a constraint that is composed of itself")]
    CyclicComposition,
    /// A declared constraint with neither a rule nor a composing constraint.
    #[error("a constraint with neither a rule nor a composing constraint")]
    EmptyConstraint,
    /// More than 1,024 constraints in a tree.
    #[error("too large")]
    TooLarge,
    /// A rule that isn't registered for its sort.
    #[error("a rule that isn't registered")]
    UnknownRule,
    /// An unknown, missing or wrongly kinded attribute, a value that the constraint refuses, a
    /// default of another kind than its attribute, or an override that doesn't suit.
    #[error("an attribute that the constraint refuses")]
    Attribute,
    /// A constraint at a place of another sort, or of data of a kind that it doesn't take.
    #[error("a constraint at a place of another sort or kind")]
    UnexpectedType,
    /// A pattern that the `regex` crate doesn't build.
    #[error("a pattern that isn't built")]
    BadPattern,
    /// An allocation was refused.
    #[error("out of memory")]
    Memory,
}

impl FlattenFault {
    /// The fault's name.
    pub fn name(&self) -> &str
        ensures { result.now ≡ flatten_fault_name self.now }
    {
        match self {
            FlattenFault::CyclicComposition => "CyclicComposition",
            FlattenFault::EmptyConstraint => "EmptyConstraint",
            FlattenFault::TooLarge => "TooLarge",
            FlattenFault::UnknownRule => "UnknownRule",
            FlattenFault::Attribute => "Attribute",
            FlattenFault::UnexpectedType => "UnexpectedType",
            FlattenFault::BadPattern => "BadPattern",
            FlattenFault::Memory => "Memory",
        }
    }
}

impl From<AllocError> for FlattenFault {
    ghost from_gives = { λ _ e. e ≡ Memory };

    fn from(_e: AllocError) -> FlattenFault {
        FlattenFault::Memory
    }
}

impl<T: Drop> From<AllocFailed<T>> for FlattenFault {
    ghost from_gives = { λ _ e. e ≡ Memory };

    fn from(_e: AllocFailed<T>) -> FlattenFault {
        FlattenFault::Memory
    }
}

/// Why uses of constraints aren't flattened, and where that is.
#[derive(Clone, Copy, Debug, PartialEq, Eq, Error)]
#[error("{fault}")]
pub struct PlacedFlattenFault {
    pub fault: FlattenFault,
    /// None for a constraint that is composed of itself and for a tree that is too large; for want
    /// of memory, the constraint at which it was wanting, if there is one.
    pub at: Option<ConstraintAt>,
}

impl From<AllocError> for PlacedFlattenFault {
    ghost from_gives = { λ _ e. e.fault ≡ Memory };

    fn from(_e: AllocError) -> PlacedFlattenFault {
        PlacedFlattenFault {
            fault: FlattenFault::Memory,
            at: None,
        }
    }
}

impl<T: Drop> From<AllocFailed<T>> for PlacedFlattenFault {
    ghost from_gives = { λ _ e. e.fault ≡ Memory };

    fn from(_e: AllocFailed<T>) -> PlacedFlattenFault {
        PlacedFlattenFault {
            fault: FlattenFault::Memory,
            at: None,
        }
    }
}

impl From<PlacedFlattenFault> for FlattenFault {
    ghost from_gives = { λ p e. e ≡ p.fault };

    fn from(placed: PlacedFlattenFault) -> FlattenFault {
        placed.fault
    }
}
