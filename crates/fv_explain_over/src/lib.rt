//! What declarations add, change and remove over others, by places, and whether each record that the others allow is
//! read again under them.
#![tactic(auto)]

mod differing;
mod lines;
mod narrowed;
mod same;
mod telling;

pub use telling::{Compared, Declared, tell_over};
