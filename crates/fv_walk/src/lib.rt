//! What fails in a bundle, by a request for groups: the objects that the root reaches through valid
//! references, along each way to them (Jakarta Bean Validation 3.0, "Validation routine" and "Graph
//! validation"); and what fails in one field of one object ("Validation methods": `validateProperty`
//! and `validateValue`).
#![tactic(auto)]

pub mod by_id;
mod by_name;
mod counting;
mod course;
mod failure;
mod fault;
mod field_telling;
mod laws;
mod property;
mod property_fault;
mod telling;
mod walking;

pub use by_name::{groups_named, visits, walk, walk_counted};
pub use failure::Failure;
pub use fault::WalkFault;
pub use laws::{failures_of_a_field_are_told_apart, objects_are_of_their_types};
pub use property_fault::PropertyFault;
pub use walking::Walked;
