ghost use Rattle.std.specs.Prelude.{◌≡◌};
ghost use Rattle.fv_validate.specs.FaultNames.{validate_fault_name, walk_fault, property_fault};
ghost use Rattle.fv_validate.specs.declared.fault.ValidateFault.TheVariants.{Memory};

use fv_walk::{PropertyFault, WalkFault};
use std::alloc::AllocError;
use thiserror::Error;

/// Why a bundle, or a field, wasn't validated.
#[derive(Clone, Copy, Debug, PartialEq, Eq, Drop, Error)]
pub enum ValidateFault {
    /// A group that is asked for isn't declared.
    #[error("unknown group")]
    UnknownGroup,
    /// The type isn't declared, or has no such field.
    #[error("no such field")]
    NoSuchField,
    /// The request has more than 4,096 visits.
    #[error("too many visits")]
    TooManyVisits,
    /// Memory was refused.
    #[error("out of memory")]
    Memory,
}

impl ValidateFault {
    /// The fault's name.
    pub fn name(&self) -> &str
        ensures { result.now ≡ validate_fault_name self.now }
    {
        match self {
            ValidateFault::UnknownGroup => "UnknownGroup",
            ValidateFault::NoSuchField => "NoSuchField",
            ValidateFault::TooManyVisits => "TooManyVisits",
            ValidateFault::Memory => "Memory",
        }
    }
}

impl From<WalkFault> for ValidateFault {
    ghost from_gives = { λ f e. e ≡ walk_fault f };

    fn from(fault: WalkFault) -> ValidateFault {
        match fault {
            WalkFault::UnknownGroup => ValidateFault::UnknownGroup,
            WalkFault::TooManyVisits => ValidateFault::TooManyVisits,
            WalkFault::Memory => ValidateFault::Memory,
        }
    }
}

impl From<PropertyFault> for ValidateFault {
    ghost from_gives = { λ f e. e ≡ property_fault f };

    fn from(fault: PropertyFault) -> ValidateFault {
        match fault {
            PropertyFault::NoSuchField => ValidateFault::NoSuchField,
            PropertyFault::TooManyVisits => ValidateFault::TooManyVisits,
            PropertyFault::Memory => ValidateFault::Memory,
        }
    }
}

impl From<AllocError> for ValidateFault {
    ghost from_gives = { λ _ e. e ≡ Memory };

    fn from(_e: AllocError) -> ValidateFault {
        ValidateFault::Memory
    }
}
