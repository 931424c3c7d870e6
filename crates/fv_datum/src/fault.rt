ghost use Rattle.std.specs.Prelude.{◌≡◌};
ghost use Rattle.fv_datum.specs.declared.fault.DatumFault.TheVariants.{Memory};
ghost use Rattle.fv_datum.specs.FaultNames.{datum_fault_name};

use std::alloc::{AllocError, AllocFailed};
use thiserror::Error;

/// Why a datum wasn't read or written.
#[derive(Clone, Copy, Debug, PartialEq, Eq, Error)]
pub enum DatumFault {
    /// The value is not of the kind.
    #[error("a datum of another kind")]
    WrongKind,
    /// An allocation was refused.
    #[error("out of memory")]
    Memory,
}

impl DatumFault {
    /// The fault's name.
    pub fn name(&self) -> &str
        ensures { result.now ≡ datum_fault_name self.now }
    {
        match self {
            DatumFault::WrongKind => "WrongKind",
            DatumFault::Memory => "Memory",
        }
    }
}

impl From<AllocError> for DatumFault {
    ghost from_gives = { λ _ e. e ≡ Memory };

    fn from(_e: AllocError) -> DatumFault {
        DatumFault::Memory
    }
}

impl<T: Drop> From<AllocFailed<T>> for DatumFault {
    ghost from_gives = { λ _ e. e ≡ Memory };

    fn from(_e: AllocFailed<T>) -> DatumFault {
        DatumFault::Memory
    }
}
