//! What declarations declare: a schema has the types, each use of a constraint where it stands, with
//! all that the constraint is composed of, the forms, the groups, the places whose objects are
//! validated, and the messages. Of its groups it tells which ones a group inherits, and the plain groups
//! that a sequence of groups stands for, in order.
#![tactic(auto)]

mod acyclic;
mod declared;
mod draft;
mod fault;
mod graph;
mod groups;
mod laws;
mod marking;
mod place;
mod rings;
mod schema;

pub use declared::GroupId;
pub use draft::GroupDraft;
pub use fault::{GroupFault, GroupLimit, NameAt, PlacedGroupFault};
pub use graph::GroupGraph;
pub use groups::{Groups, add_new};
pub use laws::{ranks_are_plain, ranks_unfold};
pub use place::{GroupConversion, Place, Placed, ValidPlace};
pub use rings::{inheritance_ring, sequence_ring};
pub use schema::{Form, NumberedParts, Schema};
