//! Commands: the JSON of a line in, what it asks for out, or none where the form isn't kept.
#![tactic(auto)]

mod command;
mod part;

pub use command::{
    Command, MOST_GROUPS, StoredField, TypeField, command_of, limit_in, redeclare_of,
};
pub use part::{MOST_PARTS, Part, id_in};
