//! Commands of the service, what they are answered and what stands behind each, which crates of tests run
//! over streams and files that fail.
#![tactic(auto)]

mod all_commands;
mod rules;
mod script;

pub use all_commands::ALL_COMMANDS;
pub use rules::NoRules;
pub use script::{Command, QUESTIONS, Script, Shown};
