//! Validation: the violations of declared constraints of a bundle, or of one field, at a moment, for the groups that are
//! asked for, as a listing (Jakarta Bean Validation 3.0, "Validation routine" and
//! "ConstraintViolation").
#![tactic(auto)]

pub mod by_id;
mod by_name;
mod fault;
mod fields;
mod validating;

pub use by_name::{validate, validate_property, validate_value};
pub use fault::ValidateFault;
pub use validating::{Judged, Violation};
