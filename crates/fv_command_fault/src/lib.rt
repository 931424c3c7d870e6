//! At which member of a command, or of a part of a batch, what it names isn't there: a form, a record, a group, a
//! type, an object or a field.
#![tactic(auto)]

mod fields;
mod named;
mod place;
mod placing;

pub use place::{Absence, CommandPlace};
pub use placing::{place_in_command, place_in_part};
