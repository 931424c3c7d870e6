ghost use Rattle.std.specs.Prelude.{◌≡◌, map, option_map};
ghost use Rattle.fv_constraint.specs.Meanings.{meant_by};
ghost use Rattle.fv_declare_definition.specs.DefinitionViews.{definition_entry};
ghost use Rattle.fv_constraint.specs.MeantView.{meant_view};

use fv_builtin::{BuiltinName, builtin_named};
use fv_declare_definition::Definition;
use std::collections::BTreeMap;

/// What a constraint's name stands for.
#[derive(Clone, Copy)]
pub enum Meant<'a> {
    BuiltIn(BuiltinName),
    Declared(&'a Definition),
}

/// What a constraint's name stands for, if it is built in or declared: built-in constraints come
/// first.
pub fn meant_by<'a>(definitions: &'a BTreeMap<String, Definition>, name: &str) -> Option<Meant<'a>>
    ensures { option_map meant_view result ≡ meant_by (map definition_entry definitions.now.entries) name.now }
{
    match builtin_named(name) {
        Some(which) => Some(Meant::BuiltIn(which)),
        None => match definitions.get(name) {
            None => None,
            Some(definition) => Some(Meant::Declared(definition)),
        },
    }
}
