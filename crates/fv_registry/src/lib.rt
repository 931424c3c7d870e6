//! Validators that a program hands in: each is a closure that answers for a rule by its number.
//! What the rules mean is stated beside them, by a `Meaning`.
#![tactic(auto)]

mod fault;
mod kinds;
mod meaning;
mod registry;
mod rule_set;
mod rules;
mod validator;

pub use fault::RegistryFault;
pub use meaning::Meaning;
pub use registry::Registry;
pub use rule_set::{RuleSet, Ruled};
pub use validator::{FieldCall, FieldValidator, ObjectCall, ObjectValidator};
