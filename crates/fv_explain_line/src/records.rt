//! Why a command was refused, over the records that it names, as they are stored and as its parts leave them: C4 to C9.
use crate::commands::{Words, absence_words, data_words};
use crate::explain::{ErrorReply, bundle_fault, json_of};
use fv_bundle::Bundle;
use fv_command_fault::{Absence, place_in_command, place_in_part};
use fv_datum::text_at;
use fv_engine_command::{Command, Part, command_of};
use fv_engine_pending::{PartFault, Pending, apply_all, read_parts};
use fv_explain_faults::{Found, Told, Untold, Written, say};
use fv_model::{BundleFault, read_bundle};
use fv_store::Stored;
use fv_walk::{WalkFault, visits};
use serde_json::Value;
use std::alloc::{AllocError, Global};

/// The id of a part.
fn id_of<'a>(part: &Part<'a>) -> &'a str {
    match *part {
        Part::Put { id, .. } | Part::Set { id, .. } | Part::Remove { id } => id,
    }
}

/// The ids of the records that the JSON of a command names, those of a batch in the order of its parts.
pub(crate) fn ids_of(alloc: Global, command: &Value) -> Result<Vec<&str>, AllocError> {
    match command.get("parts").and_then(Value::as_array) {
        Some(parts) => parts
            .iter()
            .filter_map(|part| text_at(part, "id"))
            .collect(alloc),
        None => text_at(command, "id").into_iter().collect(alloc),
    }
}

/// The record that the reply to a get shows; none where it shows none.
fn shown_by(out: &Words, reply: &str) -> Told<Option<Stored>> {
    let alloc = out.found.alloc;
    let reply = json_of(alloc, reply.as_bytes())?;
    let (Some(form), Some(bundle)) = (text_at(&reply, "form"), reply.get("bundle")) else {
        return Ok(None);
    };
    let form = String::from_str(alloc, form)?;
    match read_bundle(alloc, out.schema.types(), None, bundle) {
        Ok(bundle) => Ok(Some(Stored { form, bundle })),
        Err(BundleFault::Memory) => Err(Untold::Memory),
        Err(_) => Ok(None),
    }
}

/// The records that a command names as they are stored, by the replies to gets of them.
fn stored_for<'a>(out: &Words, command: &'a Value, gets: &[String]) -> Told<Pending<'a>> {
    let mut stored = Pending::new(out.found.alloc);
    for (id, reply) in ids_of(out.found.alloc, command)?.iter().zip(gets.iter()) {
        stored.leave(*id, shown_by(out, reply.as_str())?)?;
    }
    Ok(stored)
}

/// What parts leave on records.
fn left_by<'a>(out: &Words, parts: &[Part<'a>], mut records: Pending<'a>) -> Told<Pending<'a>> {
    let (alloc, schema) = (out.found.alloc, out.schema);
    let steps = read_parts(alloc, schema, parts)?.ok_or(Untold::Absent)?;
    match apply_all(&mut records, alloc, schema.types(), steps) {
        Ok(()) => Ok(records),
        Err((_, PartFault::Memory)) => Err(Untold::Memory),
        Err(_) => Err(Untold::Absent),
    }
}

/// The record at an id, where there are both.
fn record_at<'p, 'a>(records: &'p Pending<'a>, id: Option<&'a str>) -> Option<&'p Stored> {
    records.records().get(&id?)?.as_ref()
}

/// Whether a bundle has more visits for these groups than there may be.
fn is_over(out: &Words, bundle: &Bundle, groups: &[String]) -> Told<bool> {
    match visits(out.found.alloc, out.schema, bundle, groups) {
        Err(WalkFault::TooManyVisits) => Ok(true),
        Err(WalkFault::Memory) => Err(Untold::Memory),
        _ => Ok(false),
    }
}

/// The first of the groups that are asked for, or of `Default` where none is, with which, together with those before
/// it, a bundle has more visits than there may be.
fn first_over<'g>(out: &Words, bundle: &Bundle, asked: &[&'g str]) -> Told<Option<&'g str>> {
    let mut groups = Vec::with_capacity(out.found.alloc, asked.len())?;
    if asked.is_empty() && is_over(out, bundle, &groups)? {
        return Ok(Some("Default"));
    }
    for name in asked {
        groups.push(String::from_str(out.found.alloc, name)?)?;
        if is_over(out, bundle, &groups)? {
            return Ok(Some(*name));
        }
    }
    Ok(None)
}

/// The names of the groups that a form asks for.
fn asked_by<'s>(out: &Words<'s>, form: &str) -> Told<Vec<&'s str>> {
    let groups = out.schema.groups();
    let asked = out.schema.groups_of(form).ok_or(Untold::Absent)?;
    let names = asked.iter().map(|group| groups.name(*group));
    Ok(names.collect(out.found.alloc)?)
}

/// Adds with which group a record has too many visits.
fn over_words(out: &mut Found, id: &str, group: &str) -> Written {
    write!(out.place, "record \"{id}\"")?;
    say!(out; "more than 4096 visits with the group {group}")
}

/// Goes, of a batch, to the last part that has an id.
fn to_last(out: &mut Found, command: &Command, id: &str) -> Written {
    if let Command::Batch { parts } = command {
        let last = parts.iter().rposition(|part| id_of(part) == id);
        write!(out.place, "parts[{}], ", last.unwrap_or(0))?;
    }
    Ok(())
}

/// Adds the first record, by the order of its parts, that a command leaves with too many visits for the groups of its
/// form, and with which group.
fn left_words<'a>(
    out: &mut Words,
    command: &Command<'a>,
    parts: &[Part<'a>],
    stored: Pending<'a>,
) -> Written {
    let left = left_by(out, parts, stored)?;
    for part in parts {
        let id = id_of(part);
        if let Some(Stored { form, bundle }) = record_at(&left, Some(id)) {
            let asked = asked_by(out, form.as_str())?;
            if let Some(group) = first_over(out, bundle, &asked)? {
                to_last(&mut out.found, command, id)?;
                over_words(&mut out.found, id, group)?;
                return say!(out.found; " of the form {form}");
            }
        }
    }
    Err(Untold::Absent)
}

/// Adds which record has too many visits, and with which group; of a check of one field that it asks for too many.
fn visits_words<'a>(out: &mut Words, command: &Command<'a>, stored: Pending<'a>) -> Written {
    match command {
        Command::Alone(part) => left_words(out, command, &[*part], stored),
        Command::Batch { parts } => left_words(out, command, parts, stored),
        Command::Check { id, groups } => {
            let record = record_at(&stored, Some(*id)).ok_or(Untold::Absent)?;
            let group = first_over(out, &record.bundle, groups)?;
            over_words(&mut out.found, id, group.ok_or(Untold::Absent)?)
        }
        Command::CheckField { .. } | Command::CheckValue { .. } => {
            out.found.member("groups")?;
            out.found.add("more than 4096 visits, one for each plain group of a sequence")
        }
        Command::Get { .. } | Command::List { .. } => Err(Untold::Absent),
    }
}

/// Adds why a command that isn't a batch, or a part of one, was refused, by what was read and by its JSON: C4 to C8.
fn alone_words<'a>(
    out: &mut Words,
    refusal: ErrorReply,
    (command, told): (&Command<'a>, &'a Value),
    records: &Pending<'a>,
) -> Written {
    let bundle = record_at(records, text_at(told, "id")).map(|record| &record.bundle);
    let absence = match (refusal.code, refusal.fault.and_then(bundle_fault)) {
        ("C4", _) => Absence::Form,
        ("C5", Some(fault)) => return data_words(out, told, bundle, fault),
        ("C6", _) => Absence::Record,
        ("C7", _) => Absence::Group,
        ("C8", _) => Absence::Field,
        _ => return Err(Untold::Absent),
    };
    let place = match (command, refusal.part) {
        (Command::Alone(part), Some(_)) => place_in_part(out.schema, part, absence),
        _ => place_in_command(out.schema, bundle, command, absence),
    };
    absence_words(out, told, bundle, place.ok_or(Untold::Absent)?)
}

/// Adds why a command was refused: C4 to C9. `gets` are the replies to gets of the records that it names. Of a batch
/// the part of the refusal's number is told, on the records as the parts before it leave them.
pub(crate) fn command_words(
    out: &mut Words,
    refusal: ErrorReply,
    line: &Value,
    gets: &[String],
) -> Written {
    let command = command_of(out.found.alloc, line)?.ok_or(Untold::Absent)?;
    let stored = stored_for(out, line, gets)?;
    match (&command, refusal.part) {
        _ if refusal.code == "C9" => visits_words(out, &command, stored),
        (Command::Batch { parts }, Some(number)) => {
            let told = line.get("parts").and_then(|parts| parts.get(number));
            let told = told.ok_or(Untold::Absent)?;
            let part = parts.get(number).ok_or(Untold::Absent)?;
            let before = parts.get(..number).ok_or(Untold::Absent)?;
            let records = left_by(out, before, stored)?;
            alone_words(out, refusal, (&Command::Alone(*part), told), &records)
        }
        _ => alone_words(out, refusal, (&command, line), &stored),
    }
}
