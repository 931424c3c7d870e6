//! The faults of declarations in words. Which fault it is, and where, `fv_declare` has answered by numbers: here
//! they become the member that is at fault, by the JSON members on the way to it, and what is wrong there. Where a
//! text is no JSON, the library that reads it tells. Other explanations take from here how places and values are
//! shown in a line, and what isn't of its form in words, a command's too.
#![tactic(auto)]

mod constraints;
mod drafts;
mod grouping;
mod limits;
mod locating;
mod misfits;
mod naming;
mod rings;
mod shown;
mod told;
mod trees;

pub use drafts::to_use;
pub use locating::locate;
pub use misfits::command_shape;
pub use shown::{ATTRIBUTES, Named, Quoted, Who, built_in_key, find_message, kind_word, reported};
pub use told::{Found, Told, Untold, Written};
