ghost use Rattle.std.specs.Prelude.{◌≡◌};
ghost use Rattle.fv_message.specs.FaultNames.{message_fault_name};
ghost use Rattle.fv_message.specs.declared.fault.MessageFault.TheVariants.{Memory};

use std::alloc::{AllocError, AllocFailed};
use thiserror::Error;

/// Why a user's messages weren't taken.
#[derive(Clone, Copy, Debug, PartialEq, Eq, Error)]
pub enum MessageFault {
    /// More than 1,024 messages, a template of more than 4,096 bytes, or a key whose text becomes
    /// longer than 65,536 bytes.
    #[error("too many or too long messages")]
    TooLarge,
    /// A text that is no template, or a key that is no parameter's name.
    #[error("a message that isn't well written")]
    MessageSyntax,
    /// A key whose text leads back to it.
    #[error("a message that contains itself")]
    MessageCycle,
    /// An allocation was refused.
    #[error("out of memory")]
    Memory,
}

impl MessageFault {
    /// The fault's name.
    pub fn name(&self) -> &str
        ensures { result.now ≡ message_fault_name self.now }
    {
        match self {
            MessageFault::TooLarge => "TooLarge",
            MessageFault::MessageSyntax => "MessageSyntax",
            MessageFault::MessageCycle => "MessageCycle",
            MessageFault::Memory => "Memory",
        }
    }
}

impl From<AllocError> for MessageFault {
    ghost from_gives = { λ _ e. e ≡ Memory };

    fn from(_e: AllocError) -> MessageFault {
        MessageFault::Memory
    }
}

/// Where a user's messages have a fault, by numbers from 0 in the order of their map.
#[derive(Clone, Copy, Debug, PartialEq, Eq)]
pub enum MessagesAt {
    /// The messages as a whole.
    Messages,
    /// The key of a message.
    Key(usize),
    /// The text of a message.
    Text(usize),
    /// What the text of a key becomes, by the key's number among all keys: the user's, and behind them
    /// those of the built-in messages that the user gives no text.
    Full(usize),
}

/// Why a user's messages weren't taken, and where that is.
#[derive(Clone, Copy, Debug, PartialEq, Eq, Error)]
#[error("{fault}")]
pub struct PlacedMessageFault {
    pub fault: MessageFault,
    /// None for want of memory, and for a cycle, whose keys `key_ring` tells.
    pub at: Option<MessagesAt>,
}

impl From<AllocError> for PlacedMessageFault {
    ghost use Rattle.std.specs.Prelude.{◌≡◌, None};

    ghost from_gives = { λ _ e. (e.fault ≡ Memory) × (e.at ≡ None) };

    fn from(_e: AllocError) -> PlacedMessageFault {
        PlacedMessageFault {
            fault: MessageFault::Memory,
            at: None,
        }
    }
}
