ghost use Rattle.std.specs.Prelude.{◌≡◌, IfSome, Some, None, not, ◌&&◌, is_some, option_map, option_and_then, map, if◌then◌else◌};
ghost use Rattle.fv_bundle.specs.Views.{bundle_view};
ghost use Rattle.fv_command_fault.specs.Named.{IsStored, form_of, id_of, names_of};
ghost use Rattle.fv_command_fault.specs.Whereabouts.{IsAt};
ghost use Rattle.fv_datum.specs.Lookup.{at_name};
ghost use Rattle.fv_engine_command.specs.Commands as spec;
ghost use Rattle.fv_engine_command.specs.CommandView.{command_view, part_view};
ghost use Rattle.fv_declare_schema.specs.Whereabouts.{first_unknown};
ghost use Rattle.fv_store.specs.Records.{Records};

use crate::fields::absent_field;
use crate::named::{form_of, names_of, needs_record};
use crate::place::{Absence, CommandPlace};
use fv_bundle::Bundle;
use fv_declare_schema::{Groups, Schema};
use fv_engine_command::{Command, Part};

/// The form of a command, where it isn't declared.
fn absent_form(schema: &Schema, command: &Command) -> Option<CommandPlace>
    ensures { result ≡ option_and_then (λ form. if is_some (at_name form schema.now.forms) then None else Some CommandPlace.Form)
        (form_of (command_view command.now)) }
{
    match schema.root_of(form_of(command)?) {
        None => Some(CommandPlace::Form),
        Some(_) => None,
    }
}

/// The id of a command that needs a record at it, where there is none.
fn absent_record(stored: Option<&Bundle>, command: &Command) -> Option<CommandPlace>
    ensures { result ≡ (if is_some (id_of (command_view command.now)) && not (is_some stored.entry) then Some CommandPlace.Id else None) }
{
    if needs_record(command) && stored.is_none() {
        return Some(CommandPlace::Id);
    }
    None
}

/// The first of the names that is no group's.
#[tactic(auto, using(fv_first::proofs::Turns::name_turn))]
fn first_unknown(groups: &Groups, names: &[&str]) -> Option<usize>
    ensures { result ≡ first_unknown groups.now (map (λ n. n.now) names.now) }
{
    for (number, name) in names.iter().enumerate() {
        if groups.find(name).is_none() {
            return Some(number);
        }
    }
    None
}

/// The first of the groups of a command that isn't declared.
fn absent_group(schema: &Schema, command: &Command) -> Option<CommandPlace>
    ensures { result ≡ option_map CommandPlace.Group (first_unknown schema.now.groups (names_of (command_view command.now))) }
{
    let number = first_unknown(schema.groups(), names_of(command))?;
    Some(CommandPlace::Group(number))
}

/// Where a command names what isn't there; none where that is all there. `stored` is the bundle of the record at
/// its id, where there is one.
///
/// Of a batch it is told by `place_in_part`.
pub fn place_in_command(
    schema: &Schema,
    stored: Option<&Bundle>,
    command: &Command,
    absence: Absence,
) -> Option<CommandPlace>
    ensures placed { (m : Records) → IsStored m (command_view command.now) (option_map (λ b. bundle_view b.now) stored.entry)
        → IfSome result (IsAt schema.now m (command_view command.now) absence) }
    ensures exact { (m : Records) → IsStored m (command_view command.now) (option_map (λ b. bundle_view b.now) stored.entry)
        → (p : _) → IsAt schema.now m (command_view command.now) absence p → result ≡ Some p }
{
    match absence {
        Absence::Form => absent_form(schema, command),
        Absence::Record => absent_record(stored, command),
        Absence::Group => absent_group(schema, command),
        Absence::Field => absent_field(schema, stored, command),
    }
}

/// Where a part of a batch names what isn't there, of the records that the parts before it leave: its form, or the
/// id, where these have no record. None where the part names no such thing, or its form is declared.
///
/// It looks at no record: for `Absence::Record` it answers the id of every set and every remove. So that is to be asked
/// only where the part was refused for it.
pub fn place_in_part(schema: &Schema, part: &Part, absence: Absence) -> Option<CommandPlace>
    ensures placed { (left : Records) → IsStored left (spec.alone (part_view part.now)) None
        → IfSome result (IsAt schema.now left (spec.alone (part_view part.now)) absence) }
    ensures exact { (left : Records) → IsStored left (spec.alone (part_view part.now)) None
        → (p : _) → IsAt schema.now left (spec.alone (part_view part.now)) absence p → result ≡ Some p }
{
    place_in_command(schema, None, &Command::Alone(*part), absence)
}
