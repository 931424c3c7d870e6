use crate::constraints::constraint_at;
use crate::drafts::Refused;
use crate::grouping::grouping_at;
use crate::limits::{limit_at, wording_at};
use crate::misfits::shape;
use crate::naming::name_at;
use crate::rings::ring_of;
use crate::say;
use crate::told::{Found, Told, Untold, Written};
use fv_datum::read_json;
use fv_declare_draft::{Draft, draft_of, uses_in};
use fv_declare_judging::{At, DeclFault, PlacedFault};
use fv_registry::RuleSet;
use serde_json::Value;
use std::alloc::Global;
use std::str;

/// Where bytes are no JSON, as the library that reads them tells it.
fn not_json(out: &mut Found, bytes: &[u8]) -> Written {
    let error = Value::from_slice(out.alloc, bytes).err();
    let error = error.ok_or(Untold::Absent)?;
    if error.is_memory() {
        return Err(Untold::Memory);
    }
    let (line, column) = (error.line(), error.column());
    write!(out.place, "line {line}, column {column}")?;
    if str::from_utf8(bytes).is_err() {
        say!(out; "what stands here isn't UTF-8")
    } else if error.is_eof() {
        say!(out; "the text ends before its JSON does")
    } else {
        say!(out; "no JSON goes on with what stands here")
    }
}

/// A fault of a draft.
fn in_draft<R: RuleSet>(out: &mut Found, rules: &R, draft: &Draft, placed: PlacedFault) -> Written {
    let uses = uses_in(out.alloc, &draft.types)?;
    let fault = placed.fault;
    let refused = Refused { fault, draft, uses };
    match placed.at {
        Some(At::Names(place)) => name_at(&refused, out, place),
        Some(At::Groups(place)) => grouping_at(&refused, out, place),
        Some(At::Constraints(place)) => constraint_at(&refused, out, rules, place),
        Some(At::Limit(place)) => limit_at(&refused, out, place),
        Some(At::Wording(place)) => wording_at(&refused, out, place),
        None => ring_of(&refused, out),
    }
}

/// A fault of declarations.
fn tell<R: RuleSet>(out: &mut Found, rules: &R, bytes: &[u8], placed: PlacedFault) -> Written {
    if matches!(placed.fault, DeclFault::NotJson) {
        return not_json(out, bytes);
    }
    let value = read_json(out.alloc, bytes).map_err(|_| Untold::Memory)?;
    if matches!(placed.fault, DeclFault::Shape) {
        return shape(out, &value);
    }
    let draft = draft_of(out.alloc, &value)?.ok_or(Untold::Absent)?;
    in_draft(out, rules, &draft, placed)
}

/// The first fault of declarations, which `read_placed` answers of these bytes with these rules, in words: the
/// place of a member by the members on the way to it, that of `NotJson` by line and column, and what is wrong
/// there; `declarations` are the whole. Untold for want of memory alone.
pub fn locate<R: RuleSet>(
    alloc: Global,
    rules: &R,
    bytes: &[u8],
    placed: PlacedFault,
) -> Told<Found> {
    let mut found = Found::new(alloc);
    match tell(&mut found, rules, bytes, placed) {
        Err(Untold::Absent) => {
            found = Found::new(alloc);
            write!(found.text, "{}", placed.fault)?;
        }
        told => told?,
    }
    if found.place.is_empty() {
        found.place.push_str("declarations")?;
    }
    Ok(found)
}
