//! The object, the type or the field that a command names and isn't there.
ghost use Rattle.std.specs.Prelude.{◌≡◌, IfSome, Some, None, is_some, option_map, if◌then◌else◌};
ghost use Rattle.std.specs.Option.{option_map_or};
ghost use Rattle.fv_bundle.specs.Views.{bundle_view};
ghost use Rattle.fv_command_fault.specs.Named.{IsStored, field_in};
ghost use Rattle.fv_command_fault.specs.Whereabouts.{IsAt};
ghost use Rattle.fv_datum.specs.Lookup.{at_name};
ghost use Rattle.fv_engine_command.specs.CommandView.{command_view};
ghost use Rattle.fv_bundle.specs.TypesView.{types_view};
ghost use Rattle.fv_store.specs.Records.{Records};

use crate::place::{Absence, CommandPlace};
use fv_bundle::{Bundle, Types, use_in};
use fv_declare_schema::Schema;
use fv_engine_command::Command;

/// Whether the type of that name is declared, and has a field of that name.
fn has_field(types: &Types, type_name: &str, field: &str) -> bool
    ensures { result ≡ is_some (field_in (types_view types.now) type_name.now field.now) }
{
    match types.fields(type_name) {
        Some(fields) => use_in(fields, field).is_some(),
        None => false,
    }
}

/// The object of a bundle, or else the field of its type, that isn't there.
fn absent_in_bundle(
    types: &Types,
    bundle: &Bundle,
    object: &str,
    field: &str,
) -> Option<CommandPlace>
    ensures { result ≡ option_map_or (λ o. if is_some (field_in (types_view types.now) o.type_name field.now) then None else Some CommandPlace.Field)
        (at_name object.now (bundle_view bundle.now).objects) (Some CommandPlace.Object) }
{
    match bundle.object(object) {
        None => Some(CommandPlace::Object),
        Some(found) if has_field(types, found.type_name(), field) => None,
        Some(_) => Some(CommandPlace::Field),
    }
}

/// The type, or else its field, that isn't there.
fn absent_in_types(types: &Types, type_name: &str, field: &str) -> Option<CommandPlace>
    ensures { result ≡ option_map_or (λ fields. if is_some (at_name field.now fields) then None else Some CommandPlace.Field)
        (at_name type_name.now (types_view types.now)) (Some CommandPlace.«Type») }
{
    match types.fields(type_name) {
        None => Some(CommandPlace::Type),
        Some(fields) if use_in(fields, field).is_none() => Some(CommandPlace::Field),
        Some(_) => None,
    }
}

/// The object or the field of a checkfield, the type or the field of a checkvalue, that isn't there.
pub(crate) fn absent_field(
    schema: &Schema,
    stored: Option<&Bundle>,
    command: &Command,
) -> Option<CommandPlace>
    ensures placed { (m : Records) → IsStored m (command_view command.now) (option_map (λ b. bundle_view b.now) stored.entry)
        → IfSome result (IsAt schema.now m (command_view command.now) Absence.Field) }
    ensures exact { (m : Records) → IsStored m (command_view command.now) (option_map (λ b. bundle_view b.now) stored.entry)
        → (p : _) → IsAt schema.now m (command_view command.now) Absence.Field p → result ≡ Some p }
{
    match command {
        Command::CheckField { at, .. } => {
            absent_in_bundle(schema.types(), stored?, at.object, at.field)
        }
        Command::CheckValue { at, .. } => absent_in_types(schema.types(), at.type_name, at.field),
        _ => None,
    }
}
