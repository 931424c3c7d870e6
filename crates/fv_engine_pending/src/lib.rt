//! The parts of a command are read against a schema and made on records on the way, before anything is
//! written: those that they need are found in the store, each part is made of what the parts before
//! have left, and what is left becomes changes. Records are judged here by the groups of their forms: those
//! that a command leaves on the way, and all that are stored, each read again under other declarations from
//! what is written of it.
#![tactic(auto)]

mod applying;
mod fault;
mod finding;
mod judging;
mod parts;
mod pending;
mod rejudging;

pub use applying::apply_all;
pub use fault::PartFault;
pub use finding::find_records;
pub use judging::{judge, judge_record};
pub use parts::{SetStep, Step, read_parts};
pub use pending::Pending;
pub use rejudging::{RejudgeFault, judge_all};
