ghost use Rattle.std.specs.Prelude.{◌≡◌};
ghost use Rattle.fv_registry.specs.FaultNames.{registry_fault_name};
ghost use Rattle.fv_registry.specs.declared.fault.RegistryFault.TheVariants.{Memory};

use std::alloc::AllocError;
use thiserror::Error;

/// Why validators aren't taken.
#[derive(Clone, Copy, Debug, PartialEq, Eq, Error)]
pub enum RegistryFault {
    /// A rule's number stands twice over both lists.
    #[error("a rule's number stands twice")]
    DuplicateRule,
    /// More than 256 validators.
    #[error("more than 256 validators")]
    TooMany,
    /// An allocation was refused.
    #[error("out of memory")]
    Memory,
}

impl RegistryFault {
    /// The fault's name.
    pub fn name(&self) -> &str
        ensures { result.now ≡ registry_fault_name self.now }
    {
        match self {
            RegistryFault::DuplicateRule => "DuplicateRule",
            RegistryFault::TooMany => "TooMany",
            RegistryFault::Memory => "Memory",
        }
    }
}

impl From<AllocError> for RegistryFault {
    ghost from_gives = { λ _ e. e ≡ Memory };

    fn from(_e: AllocError) -> RegistryFault {
        RegistryFault::Memory
    }
}
