ghost use Rattle.std.specs.Prelude.{◌≡◌};
ghost use Rattle.fv_declare_judging.specs.FaultNames.{decl_fault_name, decl_fault_code};

use fv_declare_groups::GroupingFault;
use fv_flatten::FlattenFault;
use fv_message::MessageFault;
use std::alloc::{AllocError, AllocFailed};
use thiserror::Error;

/// Why declarations aren't taken.
#[derive(Clone, Copy, Debug, PartialEq, Eq, Error)]
pub enum DeclFault {
    /// Not UTF-8, or not JSON.
    #[error("not JSON")]
    NotJson,
    /// Not of the form of declarations.
    #[error("not declarations")]
    Shape,
    /// A declared name that is no name, `Default` declared, a group named like a type, or a constraint
    /// named like a built-in.
    #[error("a declared name that is no name or is taken")]
    BadName,
    /// A type or constraint that isn't declared or built in.
    #[error("a type or constraint that isn't declared")]
    UnknownName,
    /// A group that isn't declared, or in a type's sequence another type.
    #[error("a group that isn't declared")]
    UnknownGroup,
    /// A group inherits itself, directly or through others.
    #[error("a group that inherits itself")]
    CyclicInheritance,
    /// A sequence contains itself, directly or through others.
    #[error("a sequence that contains itself")]
    CyclicSequence,
    /// A sequence is inherited, or a constraint is in it.
    #[error("a sequence that is inherited or a constraint's group")]
    SequenceMisused,
    /// A type's sequence doesn't contain the type.
    #[error("a type's sequence without the type")]
    SequenceLacksType,
    /// A member of a type's sequence is, inherits or expands to a group that is or inherits `Default`.
    #[error("a type's sequence with the default group")]
    DefaultInTypeSequence,
    /// Validation of what is no reference, or a conversion where nothing is validated or of a sequence.
    #[error("a conversion or validation that can't stand where it does")]
    ConversionMisplaced,
    /// A constraint that is composed of itself, directly or through others.
    #[error("a constraint that is composed of itself")]
    CyclicComposition,
    /// A declared constraint with neither a rule nor a composing constraint.
    #[error("a constraint with neither a rule nor a composing constraint")]
    EmptyConstraint,
    /// A limit is passed.
    #[error("too large")]
    TooLarge,
    /// A rule that isn't registered for its sort.
    #[error("a rule that isn't registered")]
    UnknownRule,
    /// An unknown, missing or wrongly kinded attribute, a value that the constraint refuses, a
    /// default of another kind than its attribute, or an override that isn't of an attribute by one
    /// of its kind.
    #[error("an attribute that the constraint refuses")]
    Attribute,
    /// A constraint at a place of another sort, or of data of a kind that it doesn't take.
    #[error("a constraint at a place of another sort or kind")]
    UnexpectedType,
    /// A pattern that the `regex` crate doesn't build.
    #[error("a pattern that isn't built")]
    BadPattern,
    /// A message that is no template, or the key of one that is no parameter's name.
    #[error("a message that isn't well written")]
    MessageSyntax,
    /// A message by key whose text leads back to the key.
    #[error("a message that contains itself")]
    MessageCycle,
    /// An allocation was refused.
    #[error("out of memory")]
    Memory,
}

impl DeclFault {
    /// The fault's name.
    pub fn name(&self) -> &str
        ensures { result.now ≡ decl_fault_name self.now }
    {
        match self {
            DeclFault::NotJson => "NotJson",
            DeclFault::Shape => "Shape",
            DeclFault::BadName => "BadName",
            DeclFault::UnknownName => "UnknownName",
            DeclFault::UnknownGroup => "UnknownGroup",
            DeclFault::CyclicInheritance => "CyclicInheritance",
            DeclFault::CyclicSequence => "CyclicSequence",
            DeclFault::SequenceMisused => "SequenceMisused",
            DeclFault::SequenceLacksType => "SequenceLacksType",
            DeclFault::DefaultInTypeSequence => "DefaultInTypeSequence",
            DeclFault::ConversionMisplaced => "ConversionMisplaced",
            DeclFault::CyclicComposition => "CyclicComposition",
            DeclFault::EmptyConstraint => "EmptyConstraint",
            DeclFault::TooLarge => "TooLarge",
            DeclFault::UnknownRule => "UnknownRule",
            DeclFault::Attribute => "Attribute",
            DeclFault::UnexpectedType => "UnexpectedType",
            DeclFault::BadPattern => "BadPattern",
            DeclFault::MessageSyntax => "MessageSyntax",
            DeclFault::MessageCycle => "MessageCycle",
            DeclFault::Memory => "Memory",
        }
    }

    /// The fault's code; empty for want of memory.
    pub fn code(&self) -> &str
        ensures { result.now ≡ decl_fault_code self.now }
    {
        match self {
            DeclFault::NotJson => "F1",
            DeclFault::Shape => "F2",
            DeclFault::BadName => "F3",
            DeclFault::UnknownName => "F4",
            DeclFault::UnknownGroup => "F5",
            DeclFault::CyclicInheritance => "F6",
            DeclFault::CyclicSequence => "F7",
            DeclFault::SequenceMisused => "F8",
            DeclFault::SequenceLacksType => "F9",
            DeclFault::DefaultInTypeSequence => "F10",
            DeclFault::ConversionMisplaced => "F11",
            DeclFault::CyclicComposition => "F12",
            DeclFault::EmptyConstraint => "F13",
            DeclFault::TooLarge => "F14",
            DeclFault::UnknownRule => "F15",
            DeclFault::Attribute => "F16",
            DeclFault::UnexpectedType => "F17",
            DeclFault::BadPattern => "F18",
            DeclFault::MessageSyntax => "F19",
            DeclFault::MessageCycle => "F20",
            DeclFault::Memory => "",
        }
    }
}

impl From<AllocError> for DeclFault {
    ghost use Rattle.std.specs.Prelude.{◌≡◌};
    ghost use Rattle.fv_declare_judging.specs.declared.fault.DeclFault.TheVariants.{Memory};

    ghost from_gives = { λ _ e. e ≡ Memory };

    fn from(_e: AllocError) -> DeclFault {
        DeclFault::Memory
    }
}

impl<T: Drop> From<AllocFailed<T>> for DeclFault {
    ghost use Rattle.std.specs.Prelude.{◌≡◌};
    ghost use Rattle.fv_declare_judging.specs.declared.fault.DeclFault.TheVariants.{Memory};

    ghost from_gives = { λ _ e. e ≡ Memory };

    fn from(_e: AllocFailed<T>) -> DeclFault {
        DeclFault::Memory
    }
}

impl From<GroupingFault> for DeclFault {
    ghost use Rattle.std.specs.Prelude.{◌≡◌};
    ghost use Rattle.fv_declare_judging.specs.FaultNames.{grouping_fault};

    ghost from_gives = { λ f e. e ≡ grouping_fault f };

    fn from(fault: GroupingFault) -> DeclFault {
        match fault {
            GroupingFault::UnknownGroup => DeclFault::UnknownGroup,
            GroupingFault::CyclicInheritance => DeclFault::CyclicInheritance,
            GroupingFault::CyclicSequence => DeclFault::CyclicSequence,
            GroupingFault::SequenceMisused => DeclFault::SequenceMisused,
            GroupingFault::SequenceLacksType => DeclFault::SequenceLacksType,
            GroupingFault::DefaultInTypeSequence => DeclFault::DefaultInTypeSequence,
            GroupingFault::ConversionMisplaced => DeclFault::ConversionMisplaced,
            GroupingFault::Memory => DeclFault::Memory,
        }
    }
}

impl From<FlattenFault> for DeclFault {
    ghost use Rattle.std.specs.Prelude.{◌≡◌};
    ghost use Rattle.fv_declare_judging.specs.FaultNames.{flatten_fault};

    ghost from_gives = { λ f e. e ≡ flatten_fault f };

    fn from(fault: FlattenFault) -> DeclFault {
        match fault {
            FlattenFault::CyclicComposition => DeclFault::CyclicComposition,
            FlattenFault::EmptyConstraint => DeclFault::EmptyConstraint,
            FlattenFault::TooLarge => DeclFault::TooLarge,
            FlattenFault::UnknownRule => DeclFault::UnknownRule,
            FlattenFault::Attribute => DeclFault::Attribute,
            FlattenFault::UnexpectedType => DeclFault::UnexpectedType,
            FlattenFault::BadPattern => DeclFault::BadPattern,
            FlattenFault::Memory => DeclFault::Memory,
        }
    }
}

impl From<MessageFault> for DeclFault {
    ghost use Rattle.std.specs.Prelude.{◌≡◌};
    ghost use Rattle.fv_declare_judging.specs.FaultNames.{message_fault};

    ghost from_gives = { λ f e. e ≡ message_fault f };

    fn from(fault: MessageFault) -> DeclFault {
        match fault {
            MessageFault::TooLarge => DeclFault::TooLarge,
            MessageFault::MessageSyntax => DeclFault::MessageSyntax,
            MessageFault::MessageCycle => DeclFault::MessageCycle,
            MessageFault::Memory => DeclFault::Memory,
        }
    }
}
