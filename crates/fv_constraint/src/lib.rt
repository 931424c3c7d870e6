//! Composition: what constraints stand for, what is refused of their definitions, and the trees that
//! these compose, planned (Jakarta Bean Validation 3.0, "Constraint composition").
#![tactic(auto)]

mod at;
mod composing;
mod composition;
mod copying;
mod definitions;
mod effect;
mod meant;
mod numbers;
mod planning;
mod refusals;
mod ring;
mod unknown;

pub use at::ConstraintAt;
pub use composing::foreign_given;
pub use composition::Composition;
pub use definitions::{bad_definition_at, empty_definition, unknown_rule_at};
pub use effect::{in_effect, value_of};
pub use fv_declare_definition::Definition;
pub use meant::{Meant, meant_by};
pub use planning::Planned;
pub use ring::composition_ring;
pub use unknown::unknown_composing;
