//! Types of objects, what their fields hold and the data that JSON spells for them; and bundles, named
//! objects of declared types, each with its data, and whether they are well-typed.
#![tactic(auto)]

mod bundle;
mod fault;
mod fields;
mod flaws;
mod held;
mod spelled;
mod type_use;
mod types;
mod typing;

pub use bundle::{Bundle, Object, Objects};
pub use fault::{PlacedTypesFault, TypesAt, TypesFault};
pub use fields::ObjectFields;
pub use flaws::{Flaws, TypeNames, flaws_among, flaws_of, is_other, type_at};
pub use spelled::read_use;
pub use type_use::TypeUse;
pub use types::{Fields, TypeId, Types, use_in};
pub use typing::is_of_use;
