//! The built-in constraints: what each asks of its attributes and of the kind of its place, and
//! what it says of a datum at a moment.
#![tactic(auto)]

mod blank;
mod bound;
mod builtin;
mod compiled;
mod defaults;
mod draft;
mod fault;
mod given;
mod name;
mod pattern;
mod patterns;
mod size;
mod table;
mod time;
mod truth;

pub use builtin::Builtin;
pub use defaults::put_defaults;
pub use draft::takes_attributes;
pub use fault::BuiltinFault;
pub use name::{BuiltinName, builtin_named, is_builtin};
pub use patterns::Patterns;
pub use table::{kind_of_attribute, required_attributes, takes_kind};
