//! The lines of what is declared: constraints where they are used, groups and forms; and of the limits that are used.
ghost use Rattle.std.specs.Prelude.{◌≡◌, ◌<◌, ◌≤◌, ◌+◌, ◌++◌, ◌∷◌, [], ℕ, List, codes, length, map, string_bytes, IfOk, IfSome, OnOk};
ghost use Rattle.fv_bundle.specs.Types.{fields_at, name_at as type_name};
ghost use Rattle.fv_bundle.specs.TypesView.{types_view};
ghost use Rattle.fv_declare_schema.specs.Declarations.{count_nodes};
ghost use Rattle.fv_declare_schema.specs.PlacedView.{placed_view};
ghost use Rattle.fv_declare_schema.specs.Tables.{indices};
ghost use Rattle.fv_explain.specs.Adding.{Adds};
ghost use Rattle.fv_explain.specs.Explained.{AreFormLines, AreGroupLines, AreInherited, AreLinesOfUses, AreUseLines, IsFormLine, IsGroupLine, IsLimits, IsPartLine, IsShown, IsUseLine, group_names, most_fields};
ghost use Rattle.fv_explain.specs.Lines.{limits_text, line_text, names_in, part_line_text};

use crate::lines::{
    Attributes, ExplainedLine, FormLine, Limit, LimitsLine, Lines, PartLine, UseLine,
};
use fv_bundle::{TypeId, Types};
use fv_datum::Attrs;
use fv_declare_draft::MessageDraft;
use fv_declare_schema::{Form, GroupId, Groups, Placed, Schema};
use fv_explain_faults::{Told, Untold, Written, built_in_key, find_message, reported};
use fv_explain_warnings::{reached, validated};
use fv_message::Messages;
use indexmap::IndexMap;
use std::alloc::Global;
use std::collections::BTreeMap;

/// The names of groups.
fn names_of<'a>(alloc: Global, groups: &'a Groups, numbers: &[GroupId]) -> Told<Vec<&'a str>>
    ensures { IfOk result (λ names. names_in names.items ≡ group_names groups.now (indices numbers.now)) }
{
    let mut names = Vec::with_capacity(alloc, numbers.len())?;
    for number in numbers {
        names.push(groups.name(*number))?;
    }
    Ok(names)
}

/// The key that a template is alone, in its braces.
fn key_alone(text: &str) -> Option<&str>
    ensures { IfSome result (λ key. text.now ≡ codes "{" ++ (key.now ++ codes "}")) }
{
    text.strip_prefix("{")?.strip_suffix("}")
}

/// A message's template as it is shown: where it is a key alone, the key's text.
fn shown(alloc: Global, messages: (&Messages, &[MessageDraft]), text: &str) -> Told<String>
    ensures { IfOk result (λ s. IsShown text.now (string_bytes s)) }
{
    let Some(key) = key_alone(text) else {
        return Ok(String::from_str(alloc, text)?);
    };
    let (built_in, user) = messages;
    let number = find_message(user, key);
    match number.and_then(|number| user.get(number)) {
        Some(message) => Ok(String::from_str(alloc, message.template)?),
        None if built_in_key(key).is_some() => {
            let none = Attrs::new(BTreeMap::new(alloc));
            Ok(built_in.text(alloc, text, &none)?)
        }
        None => Ok(String::from_str(alloc, text)?),
    }
}

/// The line of a use.
fn use_line<'a>(
    alloc: Global,
    groups: &'a Groups,
    messages: (&Messages, &[MessageDraft]),
    placed: &'a Placed,
    place: &'a str,
) -> Told<ExplainedLine<'a>>
    ensures { IfOk result (λ line. IsUseLine groups.now (placed_view placed.now) (line_text line)) }
{
    let Some(node) = placed.occurrence().node(0) else {
        return Err(Untold::Absent);
    };
    let groups = names_of(alloc, groups, placed.groups())?;
    let message = shown(alloc, messages, node.message())?;
    Ok(ExplainedLine::Constraint(UseLine {
        number: placed.number(),
        place,
        constraint: node.constraint(),
        attributes: Attributes(&node.attributes),
        groups,
        message,
    }))
}

/// The constraint of a number that a used one is composed of, by the number and the name of the one that is reported.
fn part_of<'a>(
    alloc: Global,
    messages: (&Messages, &[MessageDraft]),
    placed: &'a Placed,
    number: usize,
    reported: (Option<usize>, &'a str),
) -> Told<PartLine<'a>>
    requires { (placed_view placed.now).number + number ≤ 1024 }
    ensures { IfOk result (λ part. IsPartLine (placed_view placed.now) number (part_line_text part)) }
{
    let Some(node) = placed.occurrence().node(number) else {
        return Err(Untold::Absent);
    };
    let message = shown(alloc, messages, node.message())?;
    let (by, reported_name) = reported;
    let used = placed.number();
    Ok(PartLine {
        number: used + number,
        used,
        constraint: node.constraint(),
        attributes: Attributes(&node.attributes),
        reported: by.map(|by| used.saturating_add(by)),
        reported_name,
        message,
    })
}

/// The line of such a constraint.
fn part_line<'a>(
    alloc: Global,
    messages: (&Messages, &[MessageDraft]),
    placed: &'a Placed,
    number: usize,
    reported: (Option<usize>, &'a str),
) -> Told<ExplainedLine<'a>>
    requires { (placed_view placed.now).number + number ≤ 1024 }
    ensures { IfOk result (λ line. IsPartLine (placed_view placed.now) number (line_text line)) }
{
    let part = part_of(alloc, messages, placed, number, reported)?;
    Ok(ExplainedLine::Part(part))
}

/// Adds the lines of a use, and of the constraints that it is composed of, in preorder.
fn add_use<'a>(
    lines: &mut Lines,
    groups: &'a Groups,
    messages: (&Messages, &[MessageDraft]),
    placed: &'a Placed,
    place: &'a str,
) -> Written
    requires { (placed_view placed.now).number + count_nodes ((placed_view placed.now).tree ∷ []) ≤ 1024 }
    ensures { OnOk result ((more : List (List ℕ)) × Adds lines.old more lines.new
        × AreUseLines lines.old.json groups.now (placed_view placed.now) more) }
{
    let line = use_line(lines.alloc, groups, messages, placed, place)?;
    lines.add(&line)?;
    let occurrence = placed.occurrence();
    let all = reported(lines.alloc, occurrence)?;
    for number in 1..occurrence.size() {
        let by = all.get(number).and_then(|(_, by)| *by);
        let other = by.and_then(|by| all.get(by));
        let name = other.map_or("", |(node, _)| node.constraint());
        let line = part_line(lines.alloc, messages, placed, number, (by, name))?;
        lines.add(&line)?;
    }
    Ok(())
}

/// The place of a use.
fn place_at(places: &[String], index: usize) -> &str {
    match places.get(index) {
        Some(place) => place.as_str(),
        None => "",
    }
}

/// Adds the lines of constraints, at their places.
pub(crate) fn add_constraints(
    lines: &mut Lines,
    schema: &Schema,
    user: &[MessageDraft],
    places: &[String],
) -> Written
    ensures { OnOk result ((more : List (List ℕ)) × Adds lines.old more lines.new
        × AreLinesOfUses lines.old.json schema.now more) }
{
    let built_in = Messages::read(lines.alloc, IndexMap::new(lines.alloc));
    let built_in = built_in.map_err(|_| Untold::Memory)?;
    let messages = (&built_in, user);
    let groups = schema.groups();
    let uses = schema.occurrences();
    for (index, placed) in uses.iter().enumerate() {
        let place = place_at(places, index);
        add_use(lines, groups, messages, placed, place)?;
    }
    Ok(())
}

/// The names of the groups that a group is or inherits.
fn inherited<'a>(alloc: Global, groups: &'a Groups, group: GroupId) -> Told<Vec<&'a str>>
    requires { group.index < length groups.now }
    ensures { IfOk result (λ names. (found : List ℕ) × AreInherited groups.now group.index found
        × (names_in names.items ≡ group_names groups.now found)) }
{
    let mut names = Vec::new(alloc);
    for index in 0..groups.count() {
        let other = GroupId { index };
        if groups.inherits(group, other) {
            names.push(groups.name(other))?;
        }
    }
    Ok(names)
}

/// The line of a group.
fn group_line<'a>(alloc: Global, groups: &'a Groups, group: GroupId) -> Told<ExplainedLine<'a>>
    requires { group.index < length groups.now }
    ensures { IfOk result (λ line. IsGroupLine groups.now group.index (line_text line)) }
{
    let name = groups.name(group);
    if groups.is_sequence(group) {
        let sequence = names_of(alloc, groups, groups.ranks(group))?;
        return Ok(ExplainedLine::Sequence { name, sequence });
    }
    let inherits = inherited(alloc, groups, group)?;
    Ok(ExplainedLine::Group { name, inherits })
}

/// Adds the lines of the declared groups.
pub(crate) fn add_groups(lines: &mut Lines, groups: &Groups) -> Written
    ensures { OnOk result ((more : List (List ℕ)) × Adds lines.old more lines.new
        × AreGroupLines lines.old.json groups.now more) }
{
    for index in 1..groups.count() {
        let line = group_line(lines.alloc, groups, GroupId { index })?;
        lines.add(&line)?;
    }
    Ok(())
}

/// The line of a form.
fn form_line<'a>(
    alloc: Global,
    schema: &'a Schema,
    name: &'a str,
    form: &'a Form,
) -> Told<ExplainedLine<'a>>
    ensures { IfOk result (λ line. IsFormLine schema.now.groups
        ((name.now, type_name schema.now.types form.now.root.index), (name.now, indices form.now.groups.items)) (line_text line)) }
{
    let types = schema.types();
    let by_valid = validated(alloc, schema, &[form.root.index])?;
    let by_any = reached(alloc, types, &[form.root.index])?;
    let name_at = |index| types.name(TypeId { index });
    let valid = (0..types.count()).filter(|index| by_valid.contains(index));
    let plain = (0..types.count()).filter(|index| by_any.contains(index)
        && !by_valid.contains(index));
    Ok(ExplainedLine::Form(FormLine {
        name,
        root: types.name(form.root),
        groups: names_of(alloc, schema.groups(), &form.groups)?,
        valid: valid.map(name_at).collect(alloc)?,
        plain: plain.map(name_at).collect(alloc)?,
    }))
}

/// Adds the lines of forms.
pub(crate) fn add_forms(lines: &mut Lines, schema: &Schema) -> Written
    ensures { OnOk result ((more : List (List ℕ)) × Adds lines.old more lines.new
        × AreFormLines lines.old.json schema.now more) }
{
    for (name, form) in schema.forms() {
        let line = form_line(lines.alloc, schema, name.as_str(), form)?;
        lines.add(&line)?;
    }
    Ok(())
}

/// How much is used of what may be.
fn limit(used: usize, most: usize) -> Limit
    ensures used { result.used ≡ used }
    ensures most { result.most ≡ most }
{
    Limit { used, most }
}

/// How many constraints uses have, with all that they are composed of.
fn constraints(uses: &[Placed]) -> usize
    requires { count_nodes (map (λ o. o.tree) (map placed_view uses.now)) ≤ 1024 }
    ensures { result ≡ count_nodes (map (λ o. o.tree) (map placed_view uses.now)) }
{
    let mut count = 0;
    for placed in uses {
        count += placed.occurrence().size();
    }
    count
}

/// How many fields a type has.
fn fields_of(types: &Types, id: TypeId) -> usize
    ensures { result ≡ length (fields_at (types_view types.now) id.index) }
{
    match types.fields_at(id) {
        Some(fields) => fields.len(),
        None => 0,
    }
}

/// The most fields that a type has.
#[tactic(auto, using(crate::proofs::Fields::fields_more))]
fn fields(types: &Types) -> usize
    ensures { result ≡ most_fields (types_view types.now) }
{
    let mut most = 0;
    for index in 0..types.count() {
        most = fields_of(types, TypeId { index }).max(most);
    }
    most
}

/// The limits that are used.
pub(crate) fn limits(schema: &Schema) -> LimitsLine
    ensures { IsLimits schema.now (limits_text result) }
{
    LimitsLine {
        constraints: limit(constraints(schema.occurrences()), 1024),
        fields: limit(fields(schema.types()), 256),
        forms: limit(schema.forms().len(), 256),
        groups: limit(schema.groups().count(), 256),
    }
}
