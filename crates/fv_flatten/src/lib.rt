//! Flattening: the uses of constraints flattened to the trees that declared constraints compose. Each
//! becomes an occurrence, or the first fault is told (Jakarta Bean Validation 3.0, "Constraint
//! composition").
#![tactic(auto)]

mod fault;
mod flattening;
mod nodes;
mod placed;
mod refusals;
mod uniqueness;
mod used;

pub use fault::{FlattenFault, PlacedFlattenFault};
pub use flattening::{flatten, flatten_all};
pub use fv_constraint_tree::{Occurrence, report, report_object};
pub use uniqueness::{tree_is_unique, trees_are_unique};
pub use used::Use;
