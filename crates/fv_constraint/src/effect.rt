//! The attributes that constraints get.
ghost use Rattle.std.specs.Prelude.{◌≡◌, ℕ, List, true, None, IfOk, OnOk, cond, map, option_map, option_and_then, string_bytes, bytes_eq};
ghost use Rattle.std.specs.Option.{option_or};
ghost use Rattle.fv_datum.specs.Attributes.{attribute_view, entry_view};
ghost use Rattle.fv_datum.specs.Lookup.{at_name};
ghost use Rattle.fv_datum.specs.Maps.{ascends, IsMapOf};
ghost use Rattle.fv_constraint.specs.Meanings.{declared};
ghost use Rattle.fv_declare_definition.specs.DefinitionViews.{attribute_definition_view, composing_view, definition_view};
ghost use Rattle.fv_constraint.specs.MeantView.{meant_view};
ghost use Rattle.fv_constraint.specs.Effect.{attribute_default, effective, handed};

use crate::copying::{copy_entries, copy_of, put};
use crate::meant::Meant;
use fv_builtin::put_defaults;
use fv_datum::{Attribute, Attrs};
use fv_declare_definition::{AttributeDefinition, Composing, Definition};
use std::alloc::{AllocError, Global};
use std::collections::BTreeMap;

/// The value in effect of an attribute: that which is given, else the default.
pub fn value_of<'a>(
    attribute: &'a AttributeDefinition,
    given: &'a Attrs,
    name: &str,
) -> Option<&'a Attribute>
    ensures { option_map (λ v. attribute_view v.now) result
        ≡ option_or (at_name name.now given.now) (attribute_definition_view attribute.now).default }
{
    match given.find(name) {
        Some(value) => Some(value),
        None => attribute.default.as_ref(),
    }
}

/// Puts a copy of a value in, if there is one and nothing stands at its name.
fn fill(
    alloc: Global,
    entries: &mut BTreeMap<String, Attribute>,
    name: &String,
    value: Option<&Attribute>,
) -> Result<(), AllocError>
    ensures each { OnOk result ((other : List ℕ) → at_name other (map entry_view entries.new.entries)
        ≡ option_or (at_name other (map entry_view entries.old.entries))
        (cond (bytes_eq other (string_bytes name.now)) (option_map (λ v. attribute_view v.now) value.entry) None)) }
    ensures ascending { OnOk result (ascends (map entry_view entries.old.entries) ≡ true
        → ascends (map entry_view entries.new.entries) ≡ true) }
{
    if entries.contains_key(name.as_str()) {
        return Ok(());
    }
    if let Some(value) = value {
        put(entries, name, copy_of(alloc, value)?)?;
    }
    Ok(())
}

/// The default of a declared constraint's attribute, if it has one.
fn default_of<'a>(definition: &'a Definition, name: &str) -> Option<&'a Attribute>
    ensures { option_map (λ v. attribute_view v.now) result ≡ attribute_default (declared (definition_view definition.now)) name.now }
{
    match definition.attributes.get(name) {
        None => None,
        Some(attribute) => attribute.default.as_ref(),
    }
}

/// The value in effect of a declared constraint's attribute: that which is given, else the default.
fn effective<'a>(definition: &'a Definition, given: &'a Attrs, name: &str) -> Option<&'a Attribute>
    ensures { option_map (λ v. attribute_view v.now) result
        ≡ effective (declared (definition_view definition.now)) given.now name.now }
{
    match given.find(name) {
        Some(value) => Some(value),
        None => default_of(definition, name),
    }
}

/// What a composing constraint gets: what is given to it and, where nothing is given, what the
/// attributes that override its own have in effect in the constraint that it composes,
/// `definition`, which is given `given`.
pub(crate) fn handed(
    alloc: Global,
    composing: &Composing,
    definition: &Definition,
    given: &Attrs,
) -> Result<Attrs, AllocError>
    ensures { IfOk result (λ attrs. IsMapOf (handed (composing_view composing.now)
        (effective (declared (definition_view definition.now)) given.now)) attrs) }
{
    let mut entries = copy_entries(alloc, composing.with.entries())?;
    for (name, outer) in composing.overrides.iter() {
        fill(
            alloc,
            &mut entries,
            name,
            effective(definition, given, outer.as_str()),
        )?;
    }
    Ok(Attrs::new(entries))
}

/// Puts the defaults of a declared constraint's attributes in where nothing stands at their names.
fn put_declared(
    alloc: Global,
    definition: &Definition,
    entries: &mut BTreeMap<String, Attribute>,
) -> Result<(), AllocError>
    ensures each { OnOk result ((name : List ℕ) → at_name name (map entry_view entries.new.entries)
        ≡ effective (declared (definition_view definition.now)) (map entry_view entries.old.entries) name) }
    ensures ascending { OnOk result (ascends (map entry_view entries.old.entries) ≡ true
        → ascends (map entry_view entries.new.entries) ≡ true) }
{
    for (name, attribute) in definition.attributes.iter() {
        fill(alloc, entries, name, attribute.default.as_ref())?;
    }
    Ok(())
}

/// Puts the defaults of a constraint's attributes in where nothing stands at their names.
fn put_effective(
    alloc: Global,
    meant: Meant,
    entries: &mut BTreeMap<String, Attribute>,
) -> Result<(), AllocError>
    ensures each { OnOk result ((name : List ℕ) → at_name name (map entry_view entries.new.entries)
        ≡ effective (meant_view meant.entry) (map entry_view entries.old.entries) name) }
    ensures ascending { OnOk result (ascends (map entry_view entries.old.entries) ≡ true
        → ascends (map entry_view entries.new.entries) ≡ true) }
{
    match meant {
        Meant::BuiltIn(which) => put_defaults(alloc, which, entries),
        Meant::Declared(definition) => put_declared(alloc, definition, entries),
    }
}

/// The attributes in effect of a constraint: those that are given, and the defaults of the others.
pub fn in_effect(alloc: Global, meant: Meant, given: &Attrs) -> Result<Attrs, AllocError>
    ensures { IfOk result (λ attrs. IsMapOf (effective (meant_view meant.entry) given.now) attrs) }
{
    let mut entries = copy_entries(alloc, given.entries())?;
    put_effective(alloc, meant, &mut entries)?;
    Ok(Attrs::new(entries))
}
