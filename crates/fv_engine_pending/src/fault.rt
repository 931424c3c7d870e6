ghost use Rattle.std.specs.Prelude.{◌≡◌};
ghost use Rattle.fv_engine_pending.specs.FaultNames.{part_fault_name};

use fv_model::BundleFault;
use thiserror::Error;

/// Why a part of a command can't be done.
#[derive(Clone, Copy, Debug, PartialEq, Eq, Error)]
pub enum PartFault {
    /// The form of a put isn't declared.
    #[error("a form that isn't declared")]
    UnknownForm,
    /// The bundle of a put, or what a set names or gives, has a fault.
    #[error("bundle refused")]
    Bundle(BundleFault),
    /// The id of a set or a remove has no record.
    #[error("no such record")]
    NoRecord,
    /// An allocation was refused.
    #[error("out of memory")]
    Memory,
}

impl PartFault {
    /// The fault's name.
    pub fn name(&self) -> &str
        ensures { result.now ≡ part_fault_name self.now }
    {
        match self {
            PartFault::UnknownForm => "UnknownForm",
            PartFault::Bundle(_) => "Bundle",
            PartFault::NoRecord => "NoRecord",
            PartFault::Memory => "Memory",
        }
    }
}
