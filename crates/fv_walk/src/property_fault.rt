ghost use Rattle.std.specs.Prelude.{◌≡◌};
ghost use Rattle.fv_walk.specs.PropertyFaultNames.{property_fault_name};
ghost use Rattle.fv_walk.specs.declared.property_fault.PropertyFault.TheVariants.{Memory};

use std::alloc::AllocError;
use thiserror::Error;

/// Why a field wasn't judged.
#[derive(Clone, Copy, Debug, PartialEq, Eq, Drop, Error)]
pub enum PropertyFault {
    /// The object's type has no such field.
    #[error("no such field")]
    NoSuchField,
    /// The request has more than 4,096 visits.
    #[error("too many visits")]
    TooManyVisits,
    /// Memory was refused.
    #[error("out of memory")]
    Memory,
}

impl PropertyFault {
    /// The fault's name.
    pub fn name(&self) -> &str
        ensures { result.now ≡ property_fault_name self.now }
    {
        match self {
            PropertyFault::NoSuchField => "NoSuchField",
            PropertyFault::TooManyVisits => "TooManyVisits",
            PropertyFault::Memory => "Memory",
        }
    }
}

impl From<AllocError> for PropertyFault {
    ghost from_gives = { λ _ e. e ≡ Memory };

    fn from(_e: AllocError) -> PropertyFault {
        PropertyFault::Memory
    }
}
