use crate::fault::DeclFault;
use fv_bundle::TypesAt;
use fv_constraint::ConstraintAt;
use fv_declare_groups::{GroupingAt, PlacedGroupingFault};
use fv_declare_schema::GroupLimit;
use fv_flatten::PlacedFlattenFault;
use fv_message::{MessageFault, MessagesAt};
use std::alloc::AllocError;

/// Where a declared name is at fault, or one that names what is declared, by numbers from 0 in the order of a
/// draft.
#[derive(Clone, Copy, Debug, PartialEq, Eq)]
pub enum NamesAt {
    /// A type's name.
    Type(usize),
    /// A type, and the name of which of its fields.
    Field(usize, usize),
    /// A form's name.
    Form(usize),
    /// A declared constraint's name.
    Definition(usize),
    /// A declared constraint, and the name of which of its attributes.
    Attribute(usize, usize),
    /// A group's name; `Default` has no number here.
    Group(usize),
    /// A use, which names a constraint.
    Use(usize),
    /// A form, which names its root.
    Root(usize),
    /// A field, which refers to a type.
    Reference(TypesAt),
}

/// Where the wording of declarations is at fault, by numbers from 0 in the order of a draft.
#[derive(Clone, Copy, Debug, PartialEq, Eq)]
pub enum WordingAt {
    /// A use's message.
    Use(usize),
    /// A declared constraint's message.
    Definition(usize),
    /// A declared constraint, and the message of which of the constraints that it is composed of.
    Composing(usize, usize),
    /// In the messages by key.
    Messages(MessagesAt),
}

/// What is wrong with the wording of declarations, and where that is.
#[derive(Clone, Copy, Debug, PartialEq, Eq)]
pub(crate) struct PlacedWording {
    pub fault: MessageFault,
    /// None for a cycle and for want of memory.
    pub at: Option<WordingAt>,
}

/// Where declarations pass a limit, by numbers from 0 in the order of a draft.
#[derive(Clone, Copy, Debug, PartialEq, Eq)]
pub enum LimitAt {
    /// In the types and their fields.
    Types(TypesAt),
    /// How many forms there are.
    Forms,
    /// How many constraints are declared.
    Definitions,
    /// In the groups.
    Groups(GroupLimit),
    /// A type, how many members its sequence has.
    Sequence(usize),
    /// How long a template is or a key's text becomes, or how many messages there are.
    Wording(WordingAt),
    /// A use, at which the nodes of all trees become too many.
    Use(usize),
}

/// Where declarations have a fault, by numbers in the order of a draft.
#[derive(Clone, Copy, Debug, PartialEq, Eq)]
pub enum At {
    /// In the names that are declared or that name what is declared.
    Names(NamesAt),
    /// In the groups that are named or declared.
    Groups(GroupingAt),
    /// In the constraints that are declared or used.
    Constraints(ConstraintAt),
    /// At a limit.
    Limit(LimitAt),
    /// In the wording.
    Wording(WordingAt),
}

/// Why declarations aren't taken, and where.
#[derive(Clone, Copy, Debug, PartialEq, Eq)]
pub struct PlacedFault {
    pub fault: DeclFault,
    /// None for a fault whose place isn't looked for; of no meaning for want of memory.
    pub at: Option<At>,
}

impl From<AllocError> for PlacedFault {
    ghost use Rattle.std.specs.Prelude.{◌≡◌, None};
    ghost use Rattle.fv_declare_judging.specs.declared.fault.DeclFault.TheVariants.{Memory};

    ghost from_gives = { λ _ p. (p.fault ≡ Memory) × (p.at ≡ None) };

    fn from(_e: AllocError) -> PlacedFault {
        PlacedFault {
            fault: DeclFault::Memory,
            at: None,
        }
    }
}

impl From<DeclFault> for PlacedFault {
    ghost use Rattle.std.specs.Prelude.{◌≡◌, None};

    ghost from_gives = { λ f p. (p.fault ≡ f) × (p.at ≡ None) };

    fn from(fault: DeclFault) -> PlacedFault {
        PlacedFault { fault, at: None }
    }
}

impl From<PlacedGroupingFault> for PlacedFault {
    ghost use Rattle.std.specs.Prelude.{◌≡◌, option_map};
    ghost use Rattle.fv_declare_judging.specs.FaultNames.{grouping_fault};
    ghost use Rattle.fv_declare_judging.specs.declared.placed.At.TheVariants.{Groups};

    ghost from_gives = { λ g p. (p.fault ≡ grouping_fault g.fault) × (p.at ≡ option_map Groups g.at) };

    fn from(placed: PlacedGroupingFault) -> PlacedFault {
        let at = match placed.at {
            None => None,
            Some(at) => Some(At::Groups(at)),
        };
        PlacedFault {
            fault: DeclFault::from(placed.fault),
            at,
        }
    }
}

impl From<PlacedFlattenFault> for PlacedFault {
    ghost use Rattle.std.specs.Prelude.{◌≡◌, option_map};
    ghost use Rattle.fv_declare_judging.specs.FaultNames.{flatten_fault};
    ghost use Rattle.fv_declare_judging.specs.declared.placed.At.TheVariants.{Constraints};

    ghost from_gives = { λ c p. (p.fault ≡ flatten_fault c.fault) × (p.at ≡ option_map Constraints c.at) };

    fn from(placed: PlacedFlattenFault) -> PlacedFault {
        let at = match placed.at {
            None => None,
            Some(at) => Some(At::Constraints(at)),
        };
        PlacedFault {
            fault: DeclFault::from(placed.fault),
            at,
        }
    }
}

impl From<AllocError> for PlacedWording {
    ghost use Rattle.std.specs.Prelude.{◌≡◌};
    ghost use Rattle.fv_message.specs.declared.fault.MessageFault.TheVariants.{Memory};

    ghost from_gives = { λ _ p. p.fault ≡ Memory };

    fn from(_e: AllocError) -> PlacedWording {
        PlacedWording {
            fault: MessageFault::Memory,
            at: None,
        }
    }
}

impl From<PlacedWording> for PlacedFault {
    ghost use Rattle.std.specs.Prelude.{◌≡◌, option_map};
    ghost use Rattle.fv_declare_judging.specs.FaultNames.{message_fault};
    ghost use Rattle.fv_declare_judging.specs.declared.placed.At.TheVariants.{Wording};

    ghost from_gives = { λ w p. (p.fault ≡ message_fault w.fault) × (p.at ≡ option_map Wording w.at) };

    fn from(placed: PlacedWording) -> PlacedFault {
        let at = match placed.at {
            None => None,
            Some(at) => Some(At::Wording(at)),
        };
        PlacedFault {
            fault: DeclFault::from(placed.fault),
            at,
        }
    }
}
