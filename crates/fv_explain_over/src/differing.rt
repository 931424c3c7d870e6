//! Where two JSON documents of declarations differ.
ghost use Rattle.std.specs.Prelude.{◌≡◌, ◌<◌, ◌≤◌, [], false, Some, IfOk, OnOk, length, map, max, option_map, reverse, string_bytes};
ghost use Rattle.serde_json.specs.View.{members_view, view};
ghost use Rattle.fv_explain_over.specs.Adding.{Adds, NewChange, SomeMember, found_view};
ghost use Rattle.fv_explain_over.specs.Changes.{AreTold, IsChange, IsItemChange, ItemsChange, LevelsChange, MemberChange, MembersChange, Only, WholeChange, change_text, same_front};
ghost use Rattle.fv_explain_over.specs.Lines.{line_text};

use crate::lines::{OverLine, Written, inside, item, text_of};
use crate::same::{are_same, member};
use serde_json::{Map, Value};
use std::alloc::{AllocError, Global};
use std::collections::BTreeMap;

/// How many members lead to a place at most that is told: `types.Order.fields.pieces.type` is the deepest.
const DEEPEST: usize = 5;

/// What became of what stands at a place.
#[derive(Clone, Copy)]
enum Change {
    Added,
    Changed,
    Removed,
}

/// Adds a change.
fn add(found: &mut BTreeMap<String, Change>, place: String, change: Change) -> Written
    ensures { OnOk result (Adds (found_view found.old) (found_view found.new) (Only (string_bytes place) change)) }
{
    found.insert(place, change)?;
    Ok(())
}

/// What became of the item at an index, by where the others end.
fn item_change(index: usize, old_end: usize, new_end: usize) -> Change
    ensures { index < max old_end new_end → IsItemChange index old_end new_end result }
{
    if index >= new_end {
        Change::Removed
    } else if index >= old_end {
        Change::Added
    } else {
        Change::Changed
    }
}

/// How many items are the same in front.
fn same_front(old: &[Value], new: &[Value]) -> usize
    ensures exact { result ≡ same_front (map view old.now) (map view new.now) }
    ensures within_old { result ≤ length old.now }
    ensures within_new { result ≤ length new.now }
{
    let shorter = old.len().min(new.len());
    for number in 0..shorter {
        if !are_same(&old[number], &new[number]) {
            return number;
        }
    }
    shorter
}

/// How many items are the same at the end.
fn same_back(old: &[Value], new: &[Value]) -> usize
    ensures exact { result ≡ same_front (reverse (map view old.now)) (reverse (map view new.now)) }
    ensures within_old { result ≤ length old.now }
    ensures within_new { result ≤ length new.now }
{
    let shorter = old.len().min(new.len());
    for number in 0..shorter {
        if !are_same(&old[old.len() - 1 - number], &new[new.len() - 1 - number]) {
            return number;
        }
    }
    shorter
}

/// Adds the changes of the items of two arrays, between those that are the same in front and at the end.
fn add_items(
    alloc: Global,
    found: &mut BTreeMap<String, Change>,
    at: &str,
    old: &[Value],
    new: &[Value],
) -> Written
    ensures { OnOk result (Adds (found_view found.old) (found_view found.new)
        (ItemsChange at.now (map view old.now) (map view new.now))) }
{
    let front = same_front(old, new);
    let back = same_back(&old[front..], &new[front..]);
    let (old_end, new_end) = (old.len() - back, new.len() - back);
    for index in front..old_end.max(new_end) {
        add(
            found,
            item(alloc, at, index)?,
            item_change(index, old_end, new_end),
        )?;
    }
    Ok(())
}

/// Adds the changes of two values that differ, by the items of arrays, and else as a whole.
fn add_whole(
    alloc: Global,
    found: &mut BTreeMap<String, Change>,
    at: String,
    old: &Value,
    new: &Value,
) -> Written
    ensures { OnOk result (Adds (found_view found.old) (found_view found.new)
        (WholeChange (string_bytes at) (view old.now) (view new.now))) }
{
    match (old.as_array(), new.as_array()) {
        (Some(old), Some(new)) => add_items(alloc, found, at.as_str(), old, new),
        _ => add(found, at, Change::Changed),
    }
}

/// Adds the changes of two values that differ, by what stands in objects so many levels deep.
#[cycle(add)]
fn add_inside(
    alloc: Global,
    found: &mut BTreeMap<String, Change>,
    at: String,
    old: &Value,
    new: &Value,
    levels: usize,
) -> Written
    ensures { OnOk result (Adds (found_view found.old) (found_view found.new)
        (LevelsChange levels (string_bytes at) (view old.now) (view new.now))) }
{
    if levels == 0 {
        return add_whole(alloc, found, at, old, new);
    }
    match (old.as_object(), new.as_object()) {
        (Some(old), Some(new)) => add_members(alloc, found, at.as_str(), old, new, levels - 1),
        _ => add_whole(alloc, found, at, old, new),
    }
}

/// Adds the changes of a member of two objects, as far as each has it.
#[cycle(add)]
fn add_member(
    alloc: Global,
    found: &mut BTreeMap<String, Change>,
    at: String,
    old: &Value,
    new: Option<&Value>,
    levels: usize,
) -> Written
    ensures { OnOk result (Adds (found_view found.old) (found_view found.new)
        (MemberChange (LevelsChange levels) (string_bytes at) (Some (view old.now))
        (option_map (λ v. view v.now) new.entry))) }
{
    match new {
        None => add(found, at, Change::Removed),
        Some(new) => if are_same(old, new) {
            Ok(())
        } else {
            add_inside(alloc, found, at, old, new, levels)
        },
    }
}

/// Adds the changes of the members of an object over another.
#[cycle(add)]
fn add_members(
    alloc: Global,
    found: &mut BTreeMap<String, Change>,
    at: &str,
    old: &Map<String, Value>,
    new: &Map<String, Value>,
    levels: usize,
) -> Written
    ensures { OnOk result (Adds (found_view found.old) (found_view found.new)
        (MembersChange (LevelsChange levels) at.now (members_view old.now.entries) (members_view new.now.entries))) }
{
    for (name, value) in old.iter() {
        let place = inside(alloc, at, name.as_str())?;
        add_member(
            alloc,
            found,
            place,
            value,
            member(new, name.as_str()),
            levels,
        )?;
    }
    add_new_members(alloc, found, at, old, new)
}

/// Adds the members that an object alone has.
fn add_new_members(
    alloc: Global,
    found: &mut BTreeMap<String, Change>,
    at: &str,
    old: &Map<String, Value>,
    new: &Map<String, Value>,
) -> Written
    ensures { OnOk result (Adds (found_view found.old) (found_view found.new)
        (SomeMember (NewChange at.now (members_view old.now.entries)) (members_view new.now.entries))) }
{
    for (name, _) in new.iter() {
        if member(old, name.as_str()).is_none() {
            add(found, inside(alloc, at, name.as_str())?, Change::Added)?;
        }
    }
    Ok(())
}

/// The changes of a document over another.
fn changes(alloc: Global, old: &Value, new: &Value) -> Result<BTreeMap<String, Change>, AllocError>
    ensures { IfOk result (λ found. Adds [] (found_view found) (IsChange (view old.now) (view new.now))) }
{
    let mut found = BTreeMap::new(alloc);
    add_member(
        alloc,
        &mut found,
        String::new(alloc),
        old,
        Some(new),
        DEEPEST,
    )?;
    Ok(found)
}

/// The line of a change at a place.
fn change_line(place: &str, change: Change) -> OverLine<'_>
    ensures { line_text result ≡ change_text (place.now, change) }
{
    match change {
        Change::Added => OverLine::Added { place },
        Change::Changed => OverLine::Changed { place },
        Change::Removed => OverLine::Removed { place },
    }
}

/// A line for each place at which a document differs from another, in the order of the places.
pub(crate) fn changed_lines(
    alloc: Global,
    json: bool,
    old: &Value,
    new: &Value,
) -> Result<Vec<String>, AllocError>
    ensures { IfOk result (λ lines. AreTold json (view old.now) (view new.now) (map string_bytes lines.items)) }
{
    let mut lines = Vec::new(alloc);
    for (place, change) in changes(alloc, old, new)?.iter() {
        lines.push(text_of(alloc, json, &change_line(place.as_str(), *change))?)?;
    }
    Ok(lines)
}
