//! Declared constraints, and how they are written: JSON in, definitions with their attributes and
//! composing constraints out, or none where the form isn't kept.
#![tactic(auto)]

mod adding;
mod attributes;
mod composing;
mod definition;
mod definitions;
mod message;

pub use attributes::attrs_of;
pub use definition::{AttributeDefinition, Composing, Definition, Rule};
pub use definitions::{definitions_of, kind_named, rule_of};
pub use message::message_of;
