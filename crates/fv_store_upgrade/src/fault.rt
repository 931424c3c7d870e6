//! Why a database isn't migrated.
ghost use Rattle.std.specs.Prelude.{◌≡◌};
ghost use Rattle.fv_store_upgrade.specs.Faults.{fault_of, json_fault, upgrade_fault_name};
ghost use Rattle.fv_store_upgrade.specs.declared.fault.UpgradeFault.TheVariants.{Memory};

use fv_datum::JsonFault;
use sqlite::ErrorCode;
use std::alloc::{AllocError, AllocFailed};
use thiserror::Error;

/// Why a database wasn't migrated. It is as it was.
#[derive(Clone, Copy, Debug, PartialEq, Eq, Error)]
pub enum UpgradeFault {
    /// A row isn't the text of a bundle by its form.
    #[error("a row that is no bundle")]
    Damaged,
    /// The database refused, for another cause than want of memory.
    #[error("the database refused")]
    Database,
    /// An allocation was refused.
    #[error("out of memory")]
    Memory,
}

impl UpgradeFault {
    /// The fault's name.
    pub fn name(&self) -> &str
        ensures { result.now ≡ upgrade_fault_name self.now }
    {
        match self {
            UpgradeFault::Damaged => "Damaged",
            UpgradeFault::Database => "Database",
            UpgradeFault::Memory => "Memory",
        }
    }
}

impl From<sqlite::Error> for UpgradeFault {
    ghost from_gives = { λ e fault. fault ≡ fault_of e };

    fn from(error: sqlite::Error) -> UpgradeFault {
        match error {
            sqlite::Error::SqliteFailure(ErrorCode::OutOfMemory) => UpgradeFault::Memory,
            _ => UpgradeFault::Database,
        }
    }
}

impl From<AllocError> for UpgradeFault {
    ghost from_gives = { λ _ fault. fault ≡ Memory };

    fn from(_error: AllocError) -> UpgradeFault {
        UpgradeFault::Memory
    }
}

impl<T: Drop> From<AllocFailed<T>> for UpgradeFault {
    ghost from_gives = { λ _ fault. fault ≡ Memory };

    fn from(_failed: AllocFailed<T>) -> UpgradeFault {
        UpgradeFault::Memory
    }
}

impl From<JsonFault> for UpgradeFault {
    ghost from_gives = { λ e fault. fault ≡ json_fault e };

    fn from(fault: JsonFault) -> UpgradeFault {
        match fault {
            JsonFault::NotJson => UpgradeFault::Damaged,
            JsonFault::Memory => UpgradeFault::Memory,
        }
    }
}
