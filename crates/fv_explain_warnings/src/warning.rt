//! Warnings as they are found; groups in which no constraint stands, messages that none shows, and types whose constraints
//! no form judges.
use crate::reach::{inherits, validated};
use crate::twice::members_twice;
use crate::uses::add_uses;
use fv_bundle::TypeId;
use fv_declare_draft::{Draft, MessageDraft};
use fv_declare_schema::{GroupId, Groups, Schema};
use fv_explain_faults::{Found, Told, Written, built_in_key, say};
use fv_registry::RuleSet;
use indexmap::IndexSet;
use std::alloc::Global;
use std::fmt::Display;

/// The groups in which a constraint stands.
fn used_groups(alloc: Global, schema: &Schema) -> Told<IndexSet<usize>> {
    let mut used: IndexSet<usize> = IndexSet::new(alloc);
    for placed in schema.occurrences() {
        used.extend(placed.groups().iter().map(|group| group.index))?;
    }
    Ok(used)
}

/// Whether a constraint stands in a plain group or in what it inherits.
fn is_used(groups: &Groups, used: &IndexSet<usize>, group: GroupId) -> bool {
    let mut all = used.iter().map(|index| GroupId { index: *index });
    all.any(|other| inherits(groups, group, other))
}

/// Adds a warning for each declared group in which no constraint stands.
fn add_empty(out: &mut Warned, schema: &Schema) -> Written {
    let groups = schema.groups();
    let used = used_groups(out.alloc, schema)?;
    for index in 1..groups.count() {
        let group = GroupId { index };
        let mut ranks = groups.ranks(group).iter();
        if !ranks.any(|rank| is_used(groups, &used, *rank)) {
            say!(out at "groups", groups.name(group);
                "no constraint stands in this group or in what it stands for, so that a check of it finds nothing: right where nothing is to be asked"
            )?;
        }
    }
    Ok(())
}

/// Adds a warning for each message that no use may show, but for those of built-in constraints.
fn add_unused(out: &mut Warned, messages: &[MessageDraft]) -> Written {
    for (number, message) in messages.iter().enumerate() {
        if !out.shown.contains(&number) && built_in_key(message.key).is_none() {
            say!(out at "messages", message.key; "no constraint that is used shows this message")?;
        }
    }
    Ok(())
}

/// Adds a warning for each type with constraints that no form reaches through `valid`; none where there is no form.
fn add_unreached(out: &mut Warned, schema: &Schema) -> Written {
    if schema.forms().is_empty() {
        return Ok(());
    }
    let roots = schema.forms().values().map(|form| form.root.index);
    let roots: Vec<usize> = roots.collect(out.alloc)?;
    let judged = validated(out.alloc, schema, &roots)?;
    for index in 0..schema.types().count() {
        let mut uses = schema.occurrences().iter();
        if !judged.contains(&index) && uses.any(|placed| placed.type_id().index == index) {
            say!(out at "types", schema.types().name(TypeId { index });
                "no form reaches this type through valid, so that its constraints are asked by checkfield and checkvalue alone"
            )?;
        }
    }
    Ok(())
}

/// Warnings as they are found, each at the place that is looked at.
#[derive(Drop)]
pub(crate) struct Warned {
    pub(crate) alloc: Global,
    pub(crate) place: String,
    /// The messages that uses may show, by their numbers.
    pub(crate) shown: IndexSet<usize>,
    all: Vec<Found>,
}

impl Warned {
    /// Adds a warning.
    pub(crate) fn add<D: Display + Drop>(&mut self, words: D) -> Written {
        let mut found = Found::new(self.alloc);
        found.place.push_str(self.place.as_str())?;
        found.add(words)?;
        Ok(self.all.push(found)?)
    }

    /// Looks at a member of a member and so on.
    fn path(&mut self, names: &[&str]) -> Written {
        let mut found = Found::new(self.alloc);
        found.path(names)?;
        self.place = found.place;
        Ok(())
    }
}

/// The warnings of declarations, which stand in these bytes, as a draft and with the places of its uses: members
/// that stand twice; attributes of rules that name no field of the kind; patterns that take more than
/// ASCII; parameters of messages that nothing stands for; groups in which no constraint stands; messages that
/// nothing shows; and types whose constraints no form judges.
pub fn warnings<R: RuleSet>(
    alloc: Global,
    rules: &R,
    schema: &Schema,
    bytes: &[u8],
    draft: &Draft,
    places: &[String],
) -> Told<Vec<Found>> {
    let mut out = Warned {
        alloc,
        place: String::new(alloc),
        shown: IndexSet::new(alloc),
        all: members_twice(alloc, bytes)?,
    };
    add_uses(&mut out, rules, (schema, &draft.messages), places)?;
    add_empty(&mut out, schema)?;
    add_unused(&mut out, &draft.messages)?;
    add_unreached(&mut out, schema)?;
    Ok(out.all)
}
