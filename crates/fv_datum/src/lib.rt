//! Data: what the field of a record holds, its kinds, names and attributes, the JSON that is
//! written of it and the JSON that spells it. JSON is read and written by `serde_json`.
#![tactic(auto)]

mod attribute_kind;
mod attrs;
mod datum;
mod day;
mod decimal;
mod fault;
mod kind;
mod moment;
mod name;
mod name_lists;
mod parsing;
mod plain_datum;
mod writing;

pub use attribute_kind::AttributeKind;
pub use attrs::{Attribute, Attrs};
pub use datum::Datum;
pub use day::{day_of, today};
pub use decimal::{are_digits, decimal_units};
pub use fault::DatumFault;
pub use kind::Kind;
pub use moment::{LAST_MOMENT, moment_ok};
pub use name::{Name, is_name};
pub use name_lists::{names_in, names_of, told_names_of};
pub use parsing::{JsonFault, has_only, object_at, read_json, read_text, text_at};
pub use plain_datum::{read_datum, spells_datum};
pub use writing::{is_null, key_of, keys_fit, write_datum};
