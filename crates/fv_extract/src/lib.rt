//! What stands at a place in an object: the elements of lists, the keys and values of maps, and the
//! content of optionals (Jakarta Bean Validation 3.0, "Container element constraints").
#![tactic(auto)]

mod finding;
mod place;

pub use finding::{Found, Inside, extended, find};
pub use place::{Locus, Part, Place, Step};
