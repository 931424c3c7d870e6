//! The faults of groups in words.
use crate::drafts::{Refused, at, to_field, to_steps};
use crate::naming::undeclared;
use crate::say;
use crate::shown::kind_word;
use crate::told::{Found, Written};
use fv_declare_draft::{Conversion, cascades_in};
use fv_declare_groups::{CascadeAt, GroupingAt};
use fv_declare_judging::DeclFault;

/// One of the names in an array: a sequence where none may stand, else no group.
fn listed(refused: &Refused, out: &mut Found, names: &[&str], index: usize, rule: &str) -> Written {
    let name = at(names, index)?;
    out.item(index)?;
    match refused.fault {
        DeclFault::SequenceMisused => say!(out; "{name} is a sequence: {rule}"),
        _ => undeclared(out, "group", name),
    }
}

/// What is wrong with a member of the sequence of a type, whose name is `own`.
fn wrong_member(refused: &Refused, out: &mut Found, own: &str, name: &str) -> Written {
    let is_type = refused.draft.types.iter().any(|other| other.name == name);
    match refused.fault {
        DeclFault::DefaultInTypeSequence if name == "Default" => say!(out;
            "Default stands in the sequence that replaces it: {own} stands for it there"
        ),
        DeclFault::DefaultInTypeSequence => say!(out;
            "{name} inherits or contains Default, which the sequence replaces"
        ),
        _ if is_type => say!(out;
            "{name} is another type: only groups and {own} itself stand in its sequence"
        ),
        _ => undeclared(out, "group", name),
    }
}

/// What is wrong with a conversion.
fn wrong_conversion(refused: &Refused, out: &mut Found, conversion: &Conversion) -> Written {
    let (groups, from) = (&refused.draft.groups, conversion.from);
    let is_group = from == "Default" || groups.iter().any(|other| other.name == from);
    match refused.fault {
        DeclFault::ConversionMisplaced => say!(out;
            "{from} is a sequence: it isn't converted, only converted to"
        ),
        _ => undeclared(out, "group", if is_group { conversion.to } else { from }),
    }
}

/// A cascade.
fn of_cascade(refused: &Refused, out: &mut Found, number: usize, part: CascadeAt) -> Written {
    let cascades = cascades_in(out.alloc, &refused.draft.types)?;
    let given = at(&cascades, number)?;
    to_field(out, &refused.draft.types, given.type_index, given.field)?;
    to_steps(out, &given.placed.steps)?;
    match part {
        CascadeAt::Valid => {
            let kind = kind_word(given.placed.kind);
            say!(out at "valid"; "only references are valid, not {kind}")
        }
        CascadeAt::Convert => {
            say!(out at "convert"; "groups are converted only where valid is true")
        }
        CascadeAt::Conversion(number) => {
            let conversion = at(&given.placed.cascade.conversions, number)?;
            out.path(&["convert", conversion.from])?;
            wrong_conversion(refused, out, conversion)
        }
    }
}

/// A fault of groups.
pub(crate) fn grouping_at(refused: &Refused, out: &mut Found, place: GroupingAt) -> Written {
    match place {
        GroupingAt::Use(number, index) => {
            let names = refused.to_use(out, number)?.groups;
            out.member("groups")?;
            listed(refused, out, names, index, "no constraint stands in it")
        }
        GroupingAt::Group(number, index) => {
            let names = refused.to_names(out, number)?;
            listed(refused, out, names, index, "no group inherits it")
        }
        GroupingAt::Form(number, index) => {
            let form = at(&refused.draft.forms, number)?;
            out.path(&["forms", form.name, "groups"])?;
            listed(refused, out, &form.groups, index, "")
        }
        GroupingAt::Member(number, index) => {
            let (own, members) = refused.to_members(out, number)?;
            out.item(index)?;
            wrong_member(refused, out, own, at(members, index)?)
        }
        GroupingAt::Sequence(number) => {
            let (own, _) = refused.to_members(out, number)?;
            say!(out; "the sequence lacks {own}, its own type")
        }
        GroupingAt::Cascade(number, part) => of_cascade(refused, out, number, part),
    }
}
