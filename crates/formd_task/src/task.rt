ghost use Rattle.std.specs.Prelude.{◌≡◌, ◌⊎◌, IfErr, IfOk};
ghost use Rattle.clap.specs.Values.{kind_of};
ghost use Rattle.fv_datum.specs.Moments.{IsMoment};

use clap::error::ErrorKind;
use clap::{Arg, ArgAction, ArgGroup, ArgMatches, Command, Error, value_parser};
use fv_datum::moment_ok;
use fv_engine_lines::FixedClock;
use std::alloc::Global;

/// The version of the program, that of the files that it writes, and the kit that proved and built it.
pub const VERSION: &str = "0.9.0, files of version 2, rattle-kit-13f";

/// What the words ask.
#[derive(Drop)]
pub enum Task<'a> {
    /// Serve the demonstration's declarations.
    Demonstration,
    /// Say whether the declarations of the file at this path are taken.
    Declarations(&'a str),
    /// Say what declarations declare, or where they are wrong.
    Explain(Explain<'a>),
    /// Write the declarations in force and the records of the database at this path, as command lines.
    Export(&'a str),
    /// Serve declarations over a database.
    Serve(Service<'a>),
    /// Serve declarations over a database in memory, and tell in words why lines are refused.
    Rehearse(Service<'a>),
    /// Judge lines by declarations, without any record.
    Judge(Service<'a>),
    /// Say which version this is.
    Version,
}

/// Where declarations are.
#[derive(Clone, Copy)]
pub enum Source<'a> {
    /// In the file at this path.
    File(&'a str),
    /// In force in the database at this path.
    Database(&'a str),
}

/// In which form it is told what declarations declare.
#[derive(Clone, Copy)]
pub enum Telling<'a> {
    /// In words, a line each.
    Words,
    /// As JSON, an object a line.
    Json,
    /// As the text of the declarations.
    Text,
    /// As the JSON Schema of the bundles of the form of this name.
    Schema(&'a str),
    /// By what differs from other declarations; as JSON where that is asked.
    Over(Source<'a>, bool),
}

/// What is explained.
#[derive(Clone, Copy)]
pub struct Explain<'a> {
    /// Where the declarations are.
    pub declarations: Source<'a>,
    /// In which form they are told.
    pub telling: Telling<'a>,
}

/// What is served.
#[derive(Drop)]
pub struct Service<'a> {
    /// The path of the file with the declarations.
    pub declarations: &'a str,
    /// The path of the database; empty for one in memory, and for none.
    pub database: &'a str,
    /// The clock that stands at the moment that was given, if one was.
    pub clock: Option<FixedClock>,
}

/// `declarations FILE`.
fn declarations_command<'a>(alloc: Global) -> Result<Command<'a>, Error> {
    let file = Arg::new(alloc, "file")
        .value_name("FILE")
        .required(true)
        .help("The file with the declarations");
    Ok(
        Command::new(alloc, "declarations")
            .about("Reads declarations and prints ok where they are taken.")
            .arg(file)?,
    )
}

/// `--NAME`.
fn flag<'a>(alloc: Global, name: &'a str, help: &'a str) -> Arg<'a> {
    Arg::new(alloc, name)
        .long(name)
        .action(ArgAction::SetTrue)
        .help(help)
}

/// `--NAME VALUE`.
fn option<'a>(alloc: Global, name: &'a str, value: &'a str, help: &'a str) -> Arg<'a> {
    Arg::new(alloc, name)
        .long(name)
        .value_name(value)
        .help(help)
}

/// `FILE | --database FILE`.
fn with_source<'a>(alloc: Global, command: Command<'a>) -> Result<Command<'a>, Error> {
    let file = Arg::new(alloc, "file")
        .value_name("FILE")
        .help("The file with the declarations");
    let database = option(
        alloc,
        "database",
        "FILE",
        "The declarations in force in this database",
    );
    let source = ArgGroup::new(alloc, "source")
        .arg("file")?
        .arg("database")?
        .required(true);
    Ok(command.arg(file)?.arg(database)?.group(source)?)
}

/// `[--text | --schema FORM | --over FILE | --over-database FILE]`.
fn with_telling<'a>(alloc: Global, command: Command<'a>) -> Result<Command<'a>, Error> {
    let text = flag(alloc, "text", "Their text, as it was given").conflicts_with("json")?;
    let schema = option(
        alloc,
        "schema",
        "FORM",
        "The JSON Schema of this form's bundles",
    )
    .conflicts_with("json")?;
    let over = option(
        alloc,
        "over",
        "FILE",
        "What they add, change and remove over the declarations of this file",
    );
    let over_database = option(
        alloc,
        "over-database",
        "FILE",
        "The same over the declarations in force in this database",
    );
    let telling = ArgGroup::new(alloc, "telling")
        .arg("text")?
        .arg("schema")?
        .arg("over")?
        .arg("over-database")?;
    Ok(
        command
            .arg(text)?
            .arg(schema)?
            .arg(over)?
            .arg(over_database)?
            .group(telling)?,
    )
}

/// `explain (FILE | --database FILE) [--json] [--text | --schema FORM | --over FILE | --over-database FILE]`.
fn explain_command<'a>(alloc: Global) -> Result<Command<'a>, Error> {
    let command = Command::new(alloc, "explain").about(
        "Writes what declarations declare, with warnings, or where their first fault is.",
    );
    let told = with_source(alloc, command)?.arg(flag(alloc, "json", "One JSON object a line"))?;
    with_telling(alloc, told)
}

/// `export --database FILE`.
fn export_command<'a>(alloc: Global) -> Result<Command<'a>, Error> {
    let database = option(alloc, "database", "FILE", "The database").required(true);
    Ok(
        Command::new(alloc, "export")
            .about(
                "Writes the declarations in force and the records of a database, as command lines.",
            )
            .arg(database)?,
    )
}

/// `--now SECONDS`.
fn now_argument<'a>(alloc: Global) -> Arg<'a> {
    Arg::new(alloc, "now")
        .long("now")
        .value_name("SECONDS")
        .value_parser(value_parser!(i64))
        .help(
            "The moment of every command, in seconds since 1970 (the machine's clock where not given)",
        )
}

/// `--declarations FILE`.
fn declarations_argument<'a>(alloc: Global, help: &'a str) -> Arg<'a> {
    Arg::new(alloc, "declarations")
        .long("declarations")
        .value_name("FILE")
        .required(true)
        .help(help)
}

/// `judge --declarations FILE [--now SECONDS]`.
fn judge_command<'a>(alloc: Global) -> Result<Command<'a>, Error> {
    Ok(
        Command::new(alloc, "judge")
            .about(
                "Answers command lines as where there is no record, under declarations. Keeps nothing.",
            )
            .arg(declarations_argument(alloc, "The declarations"))?
            .arg(now_argument(alloc))?,
    )
}

/// `rehearse --declarations FILE [--now SECONDS]`.
fn rehearse_command<'a>(alloc: Global) -> Result<Command<'a>, Error> {
    Ok(
        Command::new(alloc, "rehearse")
            .about(
                "Answers command lines over a database in memory, and says on standard error where a line is wrong. Keeps nothing.",
            )
            .arg(declarations_argument(alloc, "The declarations"))?
            .arg(now_argument(alloc))?,
    )
}

/// `serve --declarations FILE --database FILE [--now SECONDS]`.
fn serve_command<'a>(alloc: Global) -> Result<Command<'a>, Error> {
    let declarations = declarations_argument(
        alloc,
        "The declarations for a database that is empty; any other keeps its own",
    );
    let database = Arg::new(alloc, "database")
        .long("database")
        .value_name("FILE")
        .required(true)
        .help("The database, made where there is none");
    Ok(
        Command::new(alloc, "serve")
            .about("Answers command lines over a database, under declarations.")
            .arg(declarations)?
            .arg(database)?
            .arg(now_argument(alloc))?,
    )
}

/// `version`.
fn version_command<'a>(alloc: Global) -> Command<'a> {
    Command::new(alloc, "version").about("Prints which version this is.")
}

/// The words that the program knows.
fn command<'a>(alloc: Global) -> Result<Command<'a>, Error> {
    Ok(
        Command::new(alloc, "formd")
            .about("Judges and stores the records of a form: command lines in, replies out.")
            .bin_name("formd")?
            .no_binary_name(true)
            .version(VERSION)
            .subcommand(serve_command(alloc)?)?
            .subcommand(judge_command(alloc)?)?
            .subcommand(declarations_command(alloc)?)?
            .subcommand(explain_command(alloc)?)?
            .subcommand(rehearse_command(alloc)?)?
            .subcommand(export_command(alloc)?)?
            .subcommand(version_command(alloc))?,
    )
}

/// The clock that stands at a moment; refused by a command where the seconds are none.
fn clock_at(alloc: Global, seconds: i64, command: Command<'_>) -> Result<FixedClock, Error>
    ensures taken { IfOk result (λ clock. clock.moment ≡ seconds) }
    ensures refused { IfErr result (λ e. (kind_of e ≡ ErrorKind.OutOfMemory)
        ⊎ (kind_of e ≡ ErrorKind.ValueValidation) × (IsMoment seconds → ⊥)) }
{
    if moment_ok(seconds) {
        return Ok(FixedClock::new(seconds));
    }
    let text = format!(in alloc;
        "invalid value '{seconds}' for '--now <SECONDS>': it lies outside 0001-01-01T00:00:00Z to 9999-12-30T00:00:00Z"
    )?;
    let mut command = command;
    Err(command.error(ErrorKind::ValueValidation, text.as_str())?)
}

/// What `serve`, `judge` or `rehearse` asks.
fn service_of<'a>(
    alloc: Global,
    given: &ArgMatches<'a>,
    command: Command<'_>,
) -> Result<Service<'a>, Error> {
    let clock = match given.get_one::<i64>("now") {
        None => None,
        Some(seconds) => Some(clock_at(alloc, seconds, command)?),
    };
    Ok(Service {
        declarations: given.get_str("declarations").unwrap_or(""),
        database: given.get_str("database").unwrap_or(""),
        clock,
    })
}

/// The declarations over which others are told, where some are given.
fn over_of<'a>(given: &ArgMatches<'a>) -> Option<Source<'a>> {
    if let Some(path) = given.get_str("over") {
        return Some(Source::File(path));
    }
    match given.get_str("over-database") {
        Some(path) => Some(Source::Database(path)),
        None => None,
    }
}

/// In which form it is told.
fn telling_of<'a>(given: &ArgMatches<'a>) -> Telling<'a> {
    let as_json = given.get_flag("json");
    if let Some(old) = over_of(given) {
        return Telling::Over(old, as_json);
    }
    if let Some(form) = given.get_str("schema") {
        return Telling::Schema(form);
    }
    if given.get_flag("text") {
        return Telling::Text;
    }
    if as_json {
        Telling::Json
    } else {
        Telling::Words
    }
}

/// What `explain` asks.
fn explain_of<'a>(given: &ArgMatches<'a>) -> Explain<'a> {
    let declarations = match given.get_str("database") {
        Some(path) => Source::Database(path),
        None => Source::File(given.get_str("file").unwrap_or("")),
    };
    Explain {
        declarations,
        telling: telling_of(given),
    }
}

/// What the words ask by a subcommand.
fn asked_of<'a>(alloc: Global, words: &'a [String]) -> Result<Task<'a>, Error> {
    let matches = command(alloc)?.try_get_matches_from(words)?;
    match matches.subcommand() {
        Some(("serve", given)) => Ok(Task::Serve(service_of(
            alloc,
            given,
            serve_command(alloc)?.bin_name("formd serve")?,
        )?)),
        Some(("judge", given)) => Ok(Task::Judge(service_of(
            alloc,
            given,
            judge_command(alloc)?.bin_name("formd judge")?,
        )?)),
        Some(("rehearse", given)) => Ok(Task::Rehearse(service_of(
            alloc,
            given,
            rehearse_command(alloc)?.bin_name("formd rehearse")?,
        )?)),
        Some(("explain", given)) => Ok(Task::Explain(explain_of(given))),
        Some(("export", given)) => Ok(Task::Export(given.get_str("database").unwrap_or(""))),
        Some(("version", _)) => Ok(Task::Version),
        Some((_, given)) => Ok(Task::Declarations(given.get_str("file").unwrap_or(""))),
        None => Ok(Task::Demonstration),
    }
}

/// What the words ask, without the program's name. Refused by their text for the user, also where
/// they call for help, or for want of memory.
pub fn task_of<'a>(alloc: Global, words: &'a [String]) -> Result<Task<'a>, Error> {
    let asked = asked_of(alloc, words);
    if let Err(refused) = &asked {
        if refused.kind() == ErrorKind::DisplayVersion {
            return Ok(Task::Version);
        }
    }
    asked
}
