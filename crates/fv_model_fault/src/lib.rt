//! Where a bundle, a datum that is set in one, or a datum by itself has the fault for which it is refused: which
//! object, which of its fields, and which value in that field's datum.
#![tactic(auto)]

mod descent;
mod given;
mod inside;
mod objects;
mod place;
mod placing;
mod search;
mod setting;

pub use place::{DatumSet, FaultPlace, Inner, SetPlace};
pub use placing::{place_in_bundle, place_in_value};
pub use setting::place_in_set;
