//! What leads back to itself, in words: groups that inherit themselves, sequences that contain themselves,
//! constraints that are composed of themselves, and keys whose texts lead back to them.
use crate::drafts::{Refused, at, entry_at};
use crate::say;
use crate::shown::{Named, find_message};
use crate::told::{Found, Untold, Written};
use fv_constraint::composition_ring;
use fv_datum::is_name;
use fv_declare_draft::Draft;
use fv_declare_groups::{inheritance_ring, sequence_ring};
use fv_declare_judging::{DeclFault, user_messages};
use fv_message::key_ring;

/// The most names of a ring that are shown.
const MOST_SHOWN: usize = 20;

/// Adds a name of a ring: one that is no name, as a message's key, as a JSON string.
fn push_name(out: &mut Found, name: &str) -> Written {
    if is_name(name) {
        out.add(name)
    } else {
        out.add(Named(name))
    }
}

/// Adds, at its member of the least number, a ring in a part of the declarations, as `A -> B -> A`, of numbers with
/// names. `leads` says how each leads to the next, if not by its text.
fn push_ring(out: &mut Found, part: &str, ring: &[(usize, &str)], leads: Option<&str>) -> Written {
    let least = ring.iter().map(|(number, _)| *number).min();
    let first = ring.iter().position(|(number, _)| Some(*number) == least);
    let first = first.ok_or(Untold::Absent)?;
    let (_, name) = *at(ring, first)?;
    out.path(&[part, name])?;
    match leads {
        Some(leads) => say!(out; "{name} {leads} itself: ")?,
        None => out.add("the text leads back to its key: ")?,
    }
    let turned = ring.iter().skip(first).chain(ring.iter().take(first));
    for (_, name) in turned.take(MOST_SHOWN) {
        push_name(out, name)?;
        out.add(" -> ")?;
    }
    if ring.len() > MOST_SHOWN {
        out.add("… -> ")?;
    }
    push_name(out, name)
}

/// A ring of groups by their numbers, of which `Default` is the first.
fn of_groups(refused: &Refused, out: &mut Found, ring: Option<Vec<usize>>, leads: &str) -> Written {
    let mut members = Vec::new(out.alloc);
    for number in &ring.ok_or(Untold::Absent)? {
        let name = match *number {
            0 => "Default",
            number => refused.group_at(number)?.name,
        };
        members.push((*number, name))?;
    }
    push_ring(out, "groups", &members, Some(leads))
}

/// A ring of declared constraints.
fn of_definitions(draft: &Draft, out: &mut Found) -> Written {
    let mut members = Vec::new(out.alloc);
    for number in &composition_ring(out.alloc, &draft.definitions)?.ok_or(Untold::Absent)? {
        members.push((*number, entry_at(&draft.definitions, *number)?.0))?;
    }
    push_ring(out, "constraints", &members, Some("is composed of"))
}

/// A ring of keys, from the first on that the draft has a message of.
fn of_keys(draft: &Draft, out: &mut Found) -> Written {
    let messages = &draft.messages;
    let ring = key_ring(out.alloc, user_messages(out.alloc, messages)?)?;
    let ring = ring.ok_or(Untold::Absent)?;
    let mut members = Vec::new(out.alloc);
    for key in &ring {
        let number = find_message(messages, key.as_str()).unwrap_or(messages.len());
        members.push((number, key.as_str()))?;
    }
    push_ring(out, "messages", &members, None)
}

/// A fault that is a ring.
pub(crate) fn ring_of(refused: &Refused, out: &mut Found) -> Written {
    let (alloc, draft) = (out.alloc, refused.draft);
    match refused.fault {
        DeclFault::CyclicInheritance => {
            of_groups(refused, out, inheritance_ring(alloc, draft)?, "inherits")
        }
        DeclFault::CyclicSequence => {
            of_groups(refused, out, sequence_ring(alloc, draft)?, "contains")
        }
        DeclFault::CyclicComposition => of_definitions(draft, out),
        DeclFault::MessageCycle => of_keys(draft, out),
        _ => Err(Untold::Absent),
    }
}
