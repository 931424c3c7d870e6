//! The defaults of the built-in constraints, put in where nothing is given.
ghost use Rattle.std.specs.Prelude.{◌≡◌, ℕ, List, true, cond, OnOk, map, bytes_eq};
ghost use Rattle.fv_datum.specs.Attributes.{entry_view};
ghost use Rattle.fv_datum.specs.Lookup.{at_name};
ghost use Rattle.fv_builtin.specs.Given.{in_effect};
ghost use Rattle.fv_datum.specs.Maps.{ascends};

use crate::name::BuiltinName;
use crate::table::default_of;
use fv_datum::Attribute;
use std::alloc::{AllocError, Global};
use std::collections::BTreeMap;

/// Puts the default of an attribute in, if it has one and nothing stands at its name.
fn put_default(
    alloc: Global,
    which: BuiltinName,
    entries: &mut BTreeMap<String, Attribute>,
    name: &str,
) -> Result<(), AllocError>
    ensures each { OnOk result ((other : List ℕ) → at_name other (map entry_view entries.new.entries)
        ≡ cond (bytes_eq other name.now) (in_effect which (map entry_view entries.old.entries) other)
        (at_name other (map entry_view entries.old.entries))) }
    ensures ascending { OnOk result (ascends (map entry_view entries.old.entries) ≡ true
        → ascends (map entry_view entries.new.entries) ≡ true) }
{
    if entries.contains_key(name) {
        return Ok(());
    }
    if let Some(value) = default_of(which, name) {
        let _ = entries.insert(String::from_str(alloc, name)?, value)?;
    }
    Ok(())
}

/// Puts the defaults of a constraint's attributes in where nothing stands at their names.
pub fn put_defaults(
    alloc: Global,
    which: BuiltinName,
    entries: &mut BTreeMap<String, Attribute>,
) -> Result<(), AllocError>
    ensures each { OnOk result ((name : List ℕ) → at_name name (map entry_view entries.new.entries)
        ≡ in_effect which (map entry_view entries.old.entries) name) }
    // What ascends, ascends after it too.
    ensures ascending { OnOk result (ascends (map entry_view entries.old.entries) ≡ true
        → ascends (map entry_view entries.new.entries) ≡ true) }
{
    match which {
        BuiltinName::DecimalMin | BuiltinName::DecimalMax => {
            put_default(alloc, which, entries, "inclusive")
        }
        BuiltinName::Size => {
            put_default(alloc, which, entries, "min")?;
            put_default(alloc, which, entries, "max")
        }
        _ => Ok(()),
    }
}
