//! Property paths: where in a value a constraint violation stands, by one text that can be read back
//! (Jakarta Bean Validation 3.0, "ConstraintViolation").
#![tactic(auto)]

mod key;
mod laws;
mod node;
mod path;
mod text;

pub use laws::text_is_injective;
pub use node::Node;
pub use path::Path;
pub use text::read;
