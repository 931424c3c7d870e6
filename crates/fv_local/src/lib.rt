//! What fails of an object's own constraints in a group (Jakarta Bean Validation 3.0, "Validation
//! routine"): those that the group reaches at the object's type, in the group and in the groups that it
//! inherits ("Group inheritance"), and where a type redefines `Default` those of each rank of its
//! sequence ("Redefining the Default group for a class"). And what a bundle is asked, to be judged by
//! declarations: its objects by their numbers, the references that
//! are followed from each, and the groups that are carried on (Jakarta Bean Validation 3.0, "Graph
//! validation" and "Group conversion"); and the property path of a part of an object
//! ("ConstraintViolation").
#![tactic(auto)]

mod asked;
mod conversion;
mod failure;
mod field;
mod graph;
mod judge;
mod laws;
mod parts;
mod path;
mod reach;
mod reached;
mod request_laws;
mod rulebook;
mod standing;
mod type_uses;
mod uses;
mod way;

pub use asked::distinct_or_default;
pub use conversion::converted;
pub use failure::{LocalFailure, Spot};
pub use graph::ObjectGraph;
pub use laws::{below_has_each_once, below_is_what_is_inherited};
pub use path::push_spot;
pub use reach::Reach;
pub use request_laws::{violations_are_told_apart, visits_need_no_judging};
pub use rulebook::Rulebook;
pub use way::Way;
