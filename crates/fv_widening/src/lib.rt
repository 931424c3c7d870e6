//! Whether declarations leave each record that others allow readable, and where they may not.
#![tactic(auto)]

mod narrowing;
mod same;

pub use narrowing::{Narrowed, narrowings};
pub use same::is_same;
