//! Bundles read from JSON, data by themselves, and one datum of a bundle changed; and bundles and the
//! fields of objects as JSON, and as texts that are written straight from them.
#![tactic(auto)]

mod build;
mod draft;
mod fault;
mod faults;
mod given_datum;
mod naming;
mod objects;
mod parts;
mod setting;
mod singles;
mod spelled;
mod text;
mod tree;
mod writable;

pub use fault::BundleFault;
pub use fv_bundle::{
    Bundle, Fields, Object, ObjectFields, Objects, TypeId, TypeUse, Types, TypesFault, is_of_use,
};
pub use objects::read_objects;
pub use parts::Part;
pub use setting::set_field;
pub use singles::single;
pub use spelled::{read_bundle, read_value};
pub use text::{fields_text, quoted};
pub use tree::{write_bundle, write_fields};
