//! The faults of constraints in the trees of uses, in words.
use crate::constraints::refused_at;
use crate::drafts::{Refused, at};
use crate::say;
use crate::shown::{KINDS, Named, Who, kind_word};
use crate::told::{Found, Told, Untold, Written, push_words};
use fv_builtin::takes_kind;
use fv_constraint::{Composition, Meant, Planned, meant_by, unknown_composing};
use fv_constraint_tree::Target;
use fv_datum::{Attribute, Kind};
use fv_declare_definition::Rule;
use fv_declare_draft::{Draft, Use};
use fv_declare_judging::DeclFault;
use fv_graph::Spot;
use fv_registry::RuleSet;
use std::alloc::Global;

/// The constraints in the tree of a use, in preorder.
fn planned<'a>(
    alloc: Global,
    draft: &'a Draft<'a>,
    given: &Use<'a>,
) -> Told<Vec<Spot<Planned<'a>>>> {
    if unknown_composing(&draft.definitions).is_some() {
        return Err(Untold::Absent);
    }
    let composition = Composition::new(alloc, &draft.definitions)?.ok_or(Untold::Absent)?;
    if meant_by(composition.definitions(), given.constraint).is_none() {
        return Err(Untold::Absent);
    }
    Ok(composition.plan(alloc, given.constraint, given.message, given.given)?)
}

/// Whether a constraint's own test takes data of a kind.
fn takes<R: RuleSet>(rules: &R, meant: Meant, kind: Kind) -> bool {
    match meant {
        Meant::BuiltIn(which) => takes_kind(which, kind),
        Meant::Declared(definition) => match definition.rule {
            None => true,
            Some(Rule::Data(number)) => rules.takes(number, kind),
            Some(Rule::Objects(_)) => false,
        },
    }
}

/// Adds the kinds that a constraint's own test takes.
fn push_taken<R: RuleSet>(out: &mut Found, rules: &R, meant: Meant) -> Written {
    let mut words = Vec::new(out.alloc);
    for (kind, word) in KINDS {
        if takes(rules, meant, kind) {
            words.push(word)?;
        }
    }
    push_words(out, &words, "no kind of data")
}

/// Adds why a constraint's own test isn't on what stands at a place.
fn misplaced<R: RuleSet>(
    out: &mut Found,
    rules: &R,
    (who, meant): (Who, Meant),
    target: Target,
) -> Written {
    match (target, meant) {
        (Target::Object, _) => say!(out; "{who} is for fields, not for a whole object"),
        (Target::Data(_), Meant::Declared(definition))
            if matches!(definition.rule, Some(Rule::Objects(_))) => {
            say!(out; "{who} is for whole objects, not for a field")
        }
        (Target::Data(kind), _) => {
            say!(out; "{who} takes ")?;
            push_taken(out, rules, meant)?;
            say!(out; ", not {}", kind_word(kind))
        }
    }
}

/// Adds why a constraint isn't built: its regular expression isn't taken.
fn unbuilt(out: &mut Found, who: Who, planned: &Planned) -> Written {
    let Some(Attribute::Text(regexp)) = planned.with.find("regexp") else {
        return Err(Untold::Absent);
    };
    let regexp = Named(regexp.as_str());
    say!(out; "regexp {regexp} of {who} is no regular expression that is taken")
}

/// A constraint in the tree of a use, by both their numbers.
pub(crate) fn node_at<R: RuleSet>(
    refused: &Refused,
    out: &mut Found,
    rules: &R,
    (number, node): (usize, usize),
) -> Written {
    let given = refused.to_use(out, number)?;
    let spots = planned(out.alloc, refused.draft, given)?;
    let planned = &at(&spots, node)?.value;
    let who = Who::in_tree(given.constraint, node, planned.constraint);
    match refused.fault {
        DeclFault::Attribute => refused_at(out, who, planned),
        DeclFault::BadPattern => unbuilt(out, who, planned),
        _ => misplaced(out, rules, (who, planned.meant), given.place.judged_at()),
    }
}
