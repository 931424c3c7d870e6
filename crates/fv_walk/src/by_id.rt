//! The same requests for groups by their numbers, which are those of the declarations.
pub use crate::counting::visits;
pub use crate::property::failures_of_field;
pub use crate::walking::{walk_counted, walk_typed};
