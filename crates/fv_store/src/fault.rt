//! How a call of the store fails.
ghost use Rattle.std.specs.Prelude.{◌≡◌};
ghost use Rattle.fv_store.specs.FaultNames.{store_fault_name, open_store_fault_name};
ghost use Rattle.fv_store.specs.Faults.{fault_of, json_fault, bundle_fault, open_fault_of, upgrade_fault};
ghost use Rattle.fv_store.specs.declared.fault.OpenStoreFault.TheVariants as refusal;
ghost use Rattle.fv_store.specs.declared.fault.StoreFault.TheVariants.{Memory};

use fv_datum::JsonFault;
use fv_model::BundleFault;
use fv_store_upgrade::UpgradeFault;
use sqlite::{Error, ErrorCode};
use std::alloc::AllocError;

/// Why a call of the store was refused. Nothing has changed, unless the disk failed and shut the database.
#[derive(Clone, Copy, Debug, PartialEq, Eq, thiserror::Error)]
pub enum StoreFault {
    /// The database refused, for another cause than want of memory, or a row spells no record.
    #[error("the database refused, or a row spells no record")]
    Store,
    /// An allocation was refused.
    #[error("out of memory")]
    Memory,
}

impl StoreFault {
    /// The fault's name.
    pub fn name(&self) -> &str
        ensures { result.now ≡ store_fault_name self.now }
    {
        match self {
            StoreFault::Store => "Store",
            StoreFault::Memory => "Memory",
        }
    }
}

impl From<Error> for StoreFault {
    ghost from_gives = { λ e fault. fault ≡ fault_of e };

    fn from(error: Error) -> StoreFault {
        match error {
            Error::SqliteFailure(ErrorCode::OutOfMemory) => StoreFault::Memory,
            _ => StoreFault::Store,
        }
    }
}

impl From<AllocError> for StoreFault {
    ghost from_gives = { λ _ fault. fault ≡ Memory };

    fn from(_error: AllocError) -> StoreFault {
        StoreFault::Memory
    }
}

impl From<JsonFault> for StoreFault {
    ghost from_gives = { λ e fault. fault ≡ json_fault e };

    fn from(fault: JsonFault) -> StoreFault {
        match fault {
            JsonFault::NotJson => StoreFault::Store,
            JsonFault::Memory => StoreFault::Memory,
        }
    }
}

impl From<BundleFault> for StoreFault {
    ghost from_gives = { λ e fault. fault ≡ bundle_fault e };

    fn from(fault: BundleFault) -> StoreFault {
        match fault {
            BundleFault::Memory => StoreFault::Memory,
            _ => StoreFault::Store,
        }
    }
}

/// Why a store wasn't opened. The database is as it was, unless the disk failed and shut it.
#[derive(Clone, Copy, Debug, PartialEq, Eq, thiserror::Error)]
pub enum OpenStoreFault {
    /// The tables are of another version.
    #[error("tables of another version")]
    OtherVersion,
    /// The database refused, for another cause than want of memory, or isn't of this form, or a row of
    /// version 1 spells no record.
    #[error("the database refused")]
    Store,
    /// An allocation was refused.
    #[error("out of memory")]
    Memory,
}

impl OpenStoreFault {
    /// The fault's name.
    pub fn name(&self) -> &str
        ensures { result.now ≡ open_store_fault_name self.now }
    {
        match self {
            OpenStoreFault::OtherVersion => "OtherVersion",
            OpenStoreFault::Store => "Store",
            OpenStoreFault::Memory => "Memory",
        }
    }
}

impl From<Error> for OpenStoreFault {
    ghost from_gives = { λ e fault. fault ≡ open_fault_of e };

    fn from(error: Error) -> OpenStoreFault {
        match error {
            Error::SqliteFailure(ErrorCode::OutOfMemory) => OpenStoreFault::Memory,
            _ => OpenStoreFault::Store,
        }
    }
}

impl From<AllocError> for OpenStoreFault {
    ghost from_gives = { λ _ fault. fault ≡ refusal.Memory };

    fn from(_error: AllocError) -> OpenStoreFault {
        OpenStoreFault::Memory
    }
}

impl From<UpgradeFault> for OpenStoreFault {
    ghost from_gives = { λ e fault. fault ≡ upgrade_fault e };

    fn from(fault: UpgradeFault) -> OpenStoreFault {
        match fault {
            UpgradeFault::Memory => OpenStoreFault::Memory,
            _ => OpenStoreFault::Store,
        }
    }
}
