ghost use Rattle.std.specs.Prelude.{◌≡◌};
ghost use Rattle.fv_builtin.specs.FaultNames.{builtin_fault_name};
ghost use Rattle.fv_builtin.specs.declared.fault.BuiltinFault.TheVariants.{Memory};

use std::alloc::{AllocError, AllocFailed};
use thiserror::Error;

/// Why a use of a built-in constraint isn't taken.
#[derive(Clone, Copy, Debug, PartialEq, Eq, Error)]
pub enum BuiltinFault {
    /// An unknown, missing or wrongly kinded attribute, or a value that the constraint refuses.
    #[error("an attribute that the constraint doesn't take")]
    Attribute,
    /// The constraint isn't on data of this kind.
    #[error("a kind that the constraint isn't on")]
    UnexpectedType,
    /// The pattern isn't built, for another cause than memory.
    #[error("a pattern that isn't built")]
    BadPattern,
    /// An allocation was refused.
    #[error("out of memory")]
    Memory,
}

impl BuiltinFault {
    /// The fault's name.
    pub fn name(&self) -> &str
        ensures { result.now ≡ builtin_fault_name self.now }
    {
        match self {
            BuiltinFault::Attribute => "Attribute",
            BuiltinFault::UnexpectedType => "UnexpectedType",
            BuiltinFault::BadPattern => "BadPattern",
            BuiltinFault::Memory => "Memory",
        }
    }
}

impl From<AllocError> for BuiltinFault {
    ghost from_gives = { λ _ e. e ≡ Memory };

    fn from(_e: AllocError) -> BuiltinFault {
        BuiltinFault::Memory
    }
}

impl<T: Drop> From<AllocFailed<T>> for BuiltinFault {
    ghost from_gives = { λ _ e. e ≡ Memory };

    fn from(_e: AllocFailed<T>) -> BuiltinFault {
        BuiltinFault::Memory
    }
}
