//! Where a command line is refused: one line of plain words for what a reply tells by a code alone.
#![tactic(auto)]

mod bundles;
mod commands;
mod explain;
mod records;

pub use explain::{explain_refusal, records_asked};
pub use fv_explain_faults::Untold;
