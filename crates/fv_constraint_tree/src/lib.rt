//! Composed constraints: what a tree of constraints reports of a datum or of an object.
//!
//! Each element of a list is judged by itself, so what is called once for each is inlined.
#![tactic(auto)]

mod node;
mod occurrence;
mod passing;
mod reporting;

pub use node::{Node, Target, Test};
pub use occurrence::Occurrence;
pub use passing::passes_all;
pub use reporting::{report, report_object};
