//! A refusal in words; a redeclare's for its text, or for a stored record: C9, C13 and C14.
use crate::bundles::put_words;
use crate::commands::{Words, unknown_form};
use crate::records::{command_words, ids_of};
use fv_datum::{JsonFault, read_json, text_at};
use fv_declare::{DeclFault, read_placed};
use fv_declare_schema::Schema;
use fv_engine_command::redeclare_of;
use fv_explain_faults::{Found, Told, Untold, Written, command_shape, locate, say};
use fv_model::BundleFault;
use fv_registry::RuleSet;
use serde_json::Value;
use std::alloc::Global;
use std::{fmt, str};

/// The parts of a reply that refuses: its code and name, the fault of a bundle or of declarations, the part of a
/// batch, and the id of a record that doesn't fit declarations.
#[derive(Clone, Copy)]
pub(crate) struct ErrorReply<'a> {
    pub(crate) code: &'a str,
    pub(crate) name: &'a str,
    pub(crate) fault: Option<&'a str>,
    pub(crate) part: Option<usize>,
    pub(crate) id: Option<&'a str>,
}

/// The refusal that a reply is, if it is one.
fn refusal_of(reply: &Value) -> Option<ErrorReply<'_>> {
    let part = reply.get("part").and_then(Value::as_u64);
    Some(ErrorReply {
        code: reply.get("error")?.as_str()?,
        name: reply.get("name")?.as_str()?,
        fault: reply.get("fault").and_then(Value::as_str),
        part: part.map(|number| number as usize),
        id: reply.get("id").and_then(Value::as_str),
    })
}

/// The code and the name, and behind them the fault and the part, if there are any.
impl fmt::Display for ErrorReply<'_> {
    fn fmt<W: fmt::Write>(&self, f: &mut fmt::Formatter<W>) -> fmt::Result {
        write!(f, "{} {}", self.code, self.name)?;
        if let Some(fault) = self.fault {
            write!(f, " {fault}")?;
        }
        match self.part {
            None => Ok(()),
            Some(part) => write!(f, ", parts[{part}]"),
        }
    }
}

/// The fault of a bundle of that code.
pub(crate) fn bundle_fault(code: &str) -> Option<BundleFault> {
    match code {
        "B0" => Some(BundleFault::Shape),
        "B1" => Some(BundleFault::BadName),
        "B2" => Some(BundleFault::RootMissing),
        "B3" => Some(BundleFault::UnknownType),
        "B4" => Some(BundleFault::UnknownField),
        "B5" => Some(BundleFault::WrongKind),
        "B6" => Some(BundleFault::DanglingRef),
        "B7" => Some(BundleFault::RefType),
        "B8" => Some(BundleFault::TooLarge),
        "B9" => Some(BundleFault::RootType),
        "B10" => Some(BundleFault::NoObject),
        _ => None,
    }
}

/// The JSON value that bytes are.
pub(crate) fn json_of(alloc: Global, bytes: &[u8]) -> Told<Value> {
    match read_json(alloc, bytes) {
        Ok(value) => Ok(value),
        Err(JsonFault::NotJson) => Err(Untold::Absent),
        Err(JsonFault::Memory) => Err(Untold::Memory),
    }
}

/// Adds what is wrong with bytes that are no JSON, as the library that reads them tells it: C2.
fn not_json_words(out: &mut Found, line: &[u8]) -> Written {
    if line.is_empty() {
        return out.add("an empty line");
    }
    let error = Value::from_slice(out.alloc, line).err();
    let error = error.ok_or(Untold::Absent)?;
    let column = error.column();
    if error.is_memory() {
        Err(Untold::Memory)
    } else if str::from_utf8(line).is_err() {
        say!(out; "no UTF-8 at column {column}")
    } else if error.is_eof() {
        out.add("the line ends before its JSON does")
    } else {
        say!(out; "no JSON can go on at column {column}")
    }
}

/// Adds what of a stored record doesn't fit other declarations. `record` is a get's reply.
fn unfit_words(schema: &Schema, out: &mut Found, refusal: ErrorReply, record: &Value) -> Written {
    let form = text_at(record, "form").ok_or(Untold::Absent)?;
    let found = Found::new(out.alloc);
    let mut unfit = Words { schema, found };
    match (refusal.fault.and_then(bundle_fault), record.get("bundle")) {
        (Some(fault), Some(bundle)) => put_words(&mut unfit, (form, bundle), fault)?,
        _ => unknown_form(&mut unfit, form)?,
    }
    write!(out.place, "record \"{}\"", refusal.id.unwrap_or(""))?;
    say!(out; "{}", unfit.found)
}

/// Adds why a redeclare was refused: C9, C13 and C14. `records` has the reply to a get of the record that doesn't fit
/// its text.
fn redeclare_words<R: RuleSet>(
    out: &mut Found,
    rules: &R,
    text: &str,
    refusal: ErrorReply,
    records: &[String],
) -> Written {
    if refusal.code == "C9" {
        return say!(out at "text"; "a stored record has more than 4096 visits by these declarations");
    }
    if !matches!(refusal.code, "C13" | "C14") {
        return Err(Untold::Absent);
    }
    match read_placed(out.alloc, rules, text.as_bytes()) {
        Ok(schema) => {
            let record = records.first().ok_or(Untold::Absent)?;
            let record = json_of(out.alloc, record.as_bytes())?;
            unfit_words(&schema, out, refusal, &record)
        }
        Err(placed) if matches!(placed.fault, DeclFault::Memory) => Err(Untold::Memory),
        Err(placed) => {
            let found = locate(out.alloc, rules, text.as_bytes(), placed)?;
            say!(out at "text"; "{found}")
        }
    }
}

/// The ids of the records that gets have to show before `explain_refusal` can tell where a line is wrong; none
/// where it needs no record. Untold where the reply is no refusal.
pub fn records_asked(alloc: Global, line: &[u8], reply: &str) -> Told<Vec<String>> {
    let reply = json_of(alloc, reply.as_bytes())?;
    let refusal = refusal_of(&reply).ok_or(Untold::Absent)?;
    let mut ids = Vec::new(alloc);
    match refusal.code {
        "C4" | "C5" | "C6" | "C7" | "C8" | "C9" => {
            let line = json_of(alloc, line)?;
            for id in ids_of(alloc, &line)? {
                ids.push(String::from_str(alloc, id)?)?;
            }
        }
        "C14" => ids.push(String::from_str(alloc, refusal.id.unwrap_or(""))?)?,
        _ => {}
    }
    Ok(ids)
}

/// Why a line was refused, in one line of words, for C2 to C9, C13 and C14: the column at which no JSON can go on; the
/// member that a command can't have, lacks or has in another form; the form, id, group, type, object or field that
/// isn't there, and those that are; the value that is wrong, and what it should be; the record that has too many
/// visits, and with which group; the place in declarations that are handed in. Untold for any other reply.
///
/// `line` and `reply` are without their ends, the rules and the schema those in force at the line, and `records` the
/// replies to a get of each record that `records_asked` names, in its order, taken at once after the line.
pub fn explain_refusal<R: RuleSet>(
    alloc: Global,
    rules: &R,
    schema: &Schema,
    line: &[u8],
    reply: &str,
    records: &[String],
) -> Told<String> {
    let reply = json_of(alloc, reply.as_bytes())?;
    let refusal = refusal_of(&reply).ok_or(Untold::Absent)?;
    let found = Found::new(alloc);
    let mut out = Words { schema, found };
    if refusal.code == "C2" {
        not_json_words(&mut out.found, line)?;
        return Ok(format!(in alloc; "{refusal}: {}", out.found)?);
    }
    let value = json_of(alloc, line)?;
    match (refusal.code, redeclare_of(&value)) {
        ("C3", _) => command_shape(&mut out.found, &value)?,
        (_, Some(text)) => redeclare_words(&mut out.found, rules, text, refusal, records)?,
        (_, None) => command_words(&mut out, refusal, &value, records)?,
    }
    Ok(format!(in alloc; "{refusal}: {}", out.found)?)
}
