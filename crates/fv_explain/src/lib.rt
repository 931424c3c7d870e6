//! Declarations explained: what they declare, a line for each constraint, group and form, and warnings of what
//! they may not mean; or where they are refused, and why.
#![tactic(auto)]

mod declared;
mod explaining;
mod lines;

pub use explaining::{Explained, explain};
