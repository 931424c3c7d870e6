ghost use Rattle.std.specs.Prelude.{◌≡◌};
ghost use Rattle.fv_walk.specs.FaultNames.{walk_fault_name};
ghost use Rattle.fv_walk.specs.declared.fault.WalkFault.TheVariants.{Memory};

use std::alloc::AllocError;
use thiserror::Error;

/// Why a walk wasn't made.
#[derive(Clone, Copy, Debug, PartialEq, Eq, Drop, Error)]
pub enum WalkFault {
    /// A group that is asked for isn't declared.
    #[error("unknown group")]
    UnknownGroup,
    /// The request has more than 4,096 visits.
    #[error("too many visits")]
    TooManyVisits,
    /// Memory was refused.
    #[error("out of memory")]
    Memory,
}

impl WalkFault {
    /// The fault's name.
    pub fn name(&self) -> &str
        ensures { result.now ≡ walk_fault_name self.now }
    {
        match self {
            WalkFault::UnknownGroup => "UnknownGroup",
            WalkFault::TooManyVisits => "TooManyVisits",
            WalkFault::Memory => "Memory",
        }
    }
}

impl From<AllocError> for WalkFault {
    ghost from_gives = { λ _ e. e ≡ Memory };

    fn from(_e: AllocError) -> WalkFault {
        WalkFault::Memory
    }
}
