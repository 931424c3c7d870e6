ghost use Rattle.std.specs.Prelude.{◌≡◌};
ghost use Rattle.fv_model.specs.FaultNames.{bundle_fault_name, bundle_fault_code};
ghost use Rattle.fv_model.specs.declared.fault.BundleFault.TheVariants.{Memory};

use std::alloc::{AllocError, AllocFailed};
use thiserror::Error;

/// Why a JSON value is no bundle, or a change isn't made in one.
#[derive(Clone, Copy, Debug, PartialEq, Eq, Error)]
pub enum BundleFault {
    /// The value is not of a bundle's form.
    #[error("not a bundle")]
    Shape,
    /// An object's name is no name.
    #[error("an object's name is no name")]
    BadName,
    /// The root names no object.
    #[error("the root names no object")]
    RootMissing,
    /// An object's type isn't declared.
    #[error("an object's type isn't declared")]
    UnknownType,
    /// A field is given that the object's type doesn't have.
    #[error("a field that the type doesn't have")]
    UnknownField,
    /// A datum is not of its field's type use.
    #[error("a datum of another kind")]
    WrongKind,
    /// A reference names no object.
    #[error("a reference to no object")]
    DanglingRef,
    /// A reference names an object of another type than declared.
    #[error("a reference to an object of another type")]
    RefType,
    /// A limit is passed.
    #[error("too large")]
    TooLarge,
    /// The root is of another type than the one that is asked.
    #[error("the root is of another type")]
    RootType,
    /// A change names an object that the bundle doesn't have.
    #[error("no such object")]
    NoObject,
    /// An allocation was refused.
    #[error("out of memory")]
    Memory,
}

impl BundleFault {
    /// The fault's name.
    pub fn name(&self) -> &str
        ensures { result.now ≡ bundle_fault_name self.now }
    {
        match self {
            BundleFault::Shape => "Shape",
            BundleFault::BadName => "BadName",
            BundleFault::RootMissing => "RootMissing",
            BundleFault::UnknownType => "UnknownType",
            BundleFault::UnknownField => "UnknownField",
            BundleFault::WrongKind => "WrongKind",
            BundleFault::DanglingRef => "DanglingRef",
            BundleFault::RefType => "RefType",
            BundleFault::TooLarge => "TooLarge",
            BundleFault::RootType => "RootType",
            BundleFault::NoObject => "NoObject",
            BundleFault::Memory => "Memory",
        }
    }

    /// The fault's code in replies; empty for want of memory, which has a reply of its own.
    pub fn code(&self) -> &str
        ensures { result.now ≡ bundle_fault_code self.now }
    {
        match self {
            BundleFault::Shape => "B0",
            BundleFault::BadName => "B1",
            BundleFault::RootMissing => "B2",
            BundleFault::UnknownType => "B3",
            BundleFault::UnknownField => "B4",
            BundleFault::WrongKind => "B5",
            BundleFault::DanglingRef => "B6",
            BundleFault::RefType => "B7",
            BundleFault::TooLarge => "B8",
            BundleFault::RootType => "B9",
            BundleFault::NoObject => "B10",
            BundleFault::Memory => "",
        }
    }
}

impl From<AllocError> for BundleFault {
    ghost from_gives = { λ _ e. e ≡ Memory };

    fn from(_e: AllocError) -> BundleFault {
        BundleFault::Memory
    }
}

impl<T: Drop> From<AllocFailed<T>> for BundleFault {
    ghost from_gives = { λ _ e. e ≡ Memory };

    fn from(_e: AllocFailed<T>) -> BundleFault {
        BundleFault::Memory
    }
}
