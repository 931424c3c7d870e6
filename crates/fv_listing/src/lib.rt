//! What fails in a bundle, by a plain list of its visits: at each visit what fails there, but for the
//! visits that a failing visit shadows. It is slow, and for tests alone: it is what the walk of
//! `fv_walk` is compared with.
#![tactic(auto)]

mod course;
mod listing;
mod path;
mod turn;
mod visit;

pub use listing::list_failures;
