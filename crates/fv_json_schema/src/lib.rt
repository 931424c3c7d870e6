//! Schemas of bundles: what a put of a form may bring, as JSON Schema, for browsers and for generators of types and forms.
//!
//! What a put is taken with a schema takes. What it can't say is left out, and named in a `$comment` at its place.
#![tactic(auto)]

mod asked;
mod bound;
mod bundle;
mod effect;
mod held;
mod object;
mod regexp;

pub use bundle::{SchemaFault, schema_text};
