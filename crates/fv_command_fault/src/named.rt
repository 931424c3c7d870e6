//! What a command names.
ghost use Rattle.std.specs.Prelude.{◌≡◌, is_some, map, option_map};
ghost use Rattle.fv_command_fault.specs.Named.{form_of, id_of, names_of};
ghost use Rattle.fv_engine_command.specs.CommandView.{command_view};

use fv_engine_command::{Command, Part};

/// The form of a list, or of a put by itself.
pub(crate) fn form_of<'a>(command: &Command<'a>) -> Option<&'a str>
    ensures { option_map (λ s. s.now) result ≡ form_of (command_view command.now) }
{
    match command {
        Command::Alone(Part::Put { form, .. }) => Some(*form),
        Command::List { form, .. } => Some(*form),
        _ => None,
    }
}

/// Whether a command needs a record at its id.
pub(crate) fn needs_record(command: &Command) -> bool
    ensures { result ≡ is_some (id_of (command_view command.now)) }
{
    match command {
        Command::Alone(Part::Set { .. })
        | Command::Alone(Part::Remove { .. })
        | Command::Get { .. }
        | Command::Check { .. }
        | Command::CheckField { .. } => true,
        _ => false,
    }
}

/// The names of the groups that a check asks for; none of another command.
pub(crate) fn names_of<'c, 'a>(command: &'c Command<'a>) -> &'c [&'a str]
    ensures { map (λ n. n.now) result.now ≡ names_of (command_view command.now) }
{
    match command {
        Command::Check { groups, .. }
        | Command::CheckField { groups, .. }
        | Command::CheckValue { groups, .. } => groups,
        _ => &[],
    }
}
