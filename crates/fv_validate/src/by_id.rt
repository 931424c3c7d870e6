//! The same for groups by their numbers, which are those of the declarations.
pub use crate::fields::{validate_property, validate_value};
pub use crate::validating::validate;
