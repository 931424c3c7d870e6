//! The groups of declarations: whether uses of constraints, sequences, conversions and forms name them
//! as they may, and what they then name by its number.
#![tactic(auto)]

mod at;
mod conversions;
mod declared;
mod fault;
mod found;
mod judging;
mod numbers;
mod places;
mod rings;
mod sequences;
mod unknown;

pub use at::{CascadeAt, GroupingAt};
pub use fault::{GroupingFault, PlacedGroupingFault};
pub use judging::{Grouping, grouped};
pub use numbers::{groups_named, sequences_of};
pub use places::valid_places;
pub use rings::{inheritance_ring, sequence_ring};
pub use sequences::long_sequence;
