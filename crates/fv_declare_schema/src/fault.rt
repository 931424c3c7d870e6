ghost use Rattle.std.specs.Prelude.{◌≡◌};
ghost use Rattle.fv_declare_schema.specs.FaultNames.{group_fault_name};
ghost use Rattle.fv_declare_schema.specs.declared.fault.GroupFault.TheVariants.{Memory};

use std::alloc::AllocError;
use thiserror::Error;

/// Why declared groups weren't taken.
#[derive(Clone, Copy, Debug, PartialEq, Eq, Error)]
pub enum GroupFault {
    /// A group inherits a group, or a sequence has a member, that isn't declared.
    #[error("a group that isn't declared")]
    UnknownGroup,
    /// A group inherits itself, directly or through others.
    #[error("a group that inherits itself")]
    CyclicInheritance,
    /// A sequence contains itself, directly or through others.
    #[error("a sequence that contains itself")]
    CyclicSequence,
    /// A group inherits a sequence.
    #[error("a group that inherits a sequence")]
    SequenceMisused,
    /// More than 256 groups, or more than 32 that one inherits or that are members of one.
    #[error("too many groups")]
    TooLarge,
    /// An allocation was refused.
    #[error("out of memory")]
    Memory,
}

impl GroupFault {
    /// The fault's name.
    pub fn name(&self) -> &str
        ensures { result.now ≡ group_fault_name self.now }
    {
        match self {
            GroupFault::UnknownGroup => "UnknownGroup",
            GroupFault::CyclicInheritance => "CyclicInheritance",
            GroupFault::CyclicSequence => "CyclicSequence",
            GroupFault::SequenceMisused => "SequenceMisused",
            GroupFault::TooLarge => "TooLarge",
            GroupFault::Memory => "Memory",
        }
    }
}

impl From<AllocError> for GroupFault {
    ghost from_gives = { λ _ e. e ≡ Memory };

    fn from(_e: AllocError) -> GroupFault {
        GroupFault::Memory
    }
}

/// A name that a group is declared with.
#[derive(Clone, Copy, Debug, PartialEq, Eq)]
pub struct NameAt {
    /// The group's number; that of `Default` is 0.
    pub group: usize,
    /// The name's number among those that the group is declared with.
    pub name: usize,
}

/// A limit that groups can pass.
#[derive(Clone, Copy, Debug, PartialEq, Eq)]
pub enum GroupLimit {
    /// That of all groups.
    Groups,
    /// That of the names that a group is declared with, by the group's number.
    Group(usize),
}

/// Why declared groups weren't taken, and where that is.
#[derive(Clone, Copy, Debug, PartialEq, Eq)]
pub struct PlacedGroupFault {
    pub fault: GroupFault,
    /// The name that is at fault; none for a cycle and for want of memory.
    pub at: Option<NameAt>,
}

impl From<AllocError> for PlacedGroupFault {
    ghost use Rattle.std.specs.Prelude.{◌≡◌, None};

    ghost from_gives = { λ _ e. (e.fault ≡ Memory) × (e.at ≡ None) };

    fn from(_e: AllocError) -> PlacedGroupFault {
        PlacedGroupFault {
            fault: GroupFault::Memory,
            at: None,
        }
    }
}
