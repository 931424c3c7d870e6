//! What is judged, whether a constraint's own test holds of it, and the nodes that a composed constraint reports.
ghost use Rattle.std.specs.Prelude.{◌≡◌, IfOk, true, ◌≤◌, ◌⊎◌, ◌↔◌, ◌||◌, ◌&&◌, [], ◌∷◌, length, take, map, false};
ghost use Rattle.fv_datum.specs.Moments.{IsMoment};
ghost use Rattle.fv_datum.specs.View.{view};
ghost use Rattle.fv_bundle.specs.Views.{object_view};
ghost use Rattle.fv_registry.specs.Rules.{knows_field, knows_object};
ghost use Rattle.fv_constraint_tree.specs.Fits.{test_fits, fits};
ghost use Rattle.fv_constraint_tree.specs.Says.{test_says, of_datum, of_object, refuses};
ghost use Rattle.fv_constraint_tree.specs.Views.{test_view, subject_view, node_view};
ghost use Rattle.std.specs.List.{list_all, list_any};
ghost use Rattle.fv_constraint_tree.specs.Reports.{is_bad, violated};
ghost use Rattle.fv_constraint_tree.specs.Trees.{root};

use crate::node::{Node, Test};
use crate::occurrence::Occurrence;
use fv_bundle::Object;
use fv_datum::{Attrs, Datum};
use fv_registry::{RuleSet, Ruled};
use std::alloc::{AllocError, Global};

/// What is judged.
#[derive(Clone, Copy)]
pub(crate) enum Subject<'a> {
    Datum(&'a Datum),
    Object(&'a Object),
}

/// Whether a rule of data that is there holds.
fn rule_holds<R: RuleSet>(rules: &Ruled<R>, rule: u32, datum: &Datum, attrs: &Attrs) -> bool
    requires { knows_field rule (R.known rules.now.rules) ≡ true }
    ensures { result ≡ R.meaning.decides rule (view datum.now) attrs.now }
{
    match rules.ask(rule, datum, attrs) {
        Some(answer) => answer,
        None => unreachable!(),
    }
}

/// Whether a rule of objects that is there holds.
fn object_rule_holds<R: RuleSet>(
    rules: &Ruled<R>,
    rule: u32,
    object: &Object,
    attrs: &Attrs,
) -> bool
    requires { knows_object rule (R.known rules.now.rules) ≡ true }
    ensures { result ≡ R.meaning.decides_object rule (object_view object.now) attrs.now }
{
    match rules.ask_object(rule, object, attrs) {
        Some(answer) => answer,
        None => unreachable!(),
    }
}

/// Whether a constraint's own test holds of a subject at a moment.
#[inline(always)]
pub(crate) fn says<R: RuleSet>(
    alloc: Global,
    rules: &Ruled<R>,
    node: &Node,
    subject: Subject,
    now: i64,
) -> Result<bool, AllocError>
    requires moment { IsMoment now }
    requires there { test_fits (R.known rules.now.rules) (test_view node.now.test) ≡ true }
    ensures { IfOk result (λ b. b
        ≡ test_says R.meaning now node.now.attributes (test_view node.now.test) (subject_view subject.entry)) }
{
    match (&node.test, subject) {
        (Test::BuiltIn(builtin), Subject::Datum(datum)) => builtin.holds(alloc, datum, now),
        (Test::Rule(rule), Subject::Datum(datum)) => {
            Ok(rule_holds(rules, *rule, datum, &node.attributes))
        }
        (Test::ObjectRule(rule), Subject::Object(object)) => {
            Ok(object_rule_holds(rules, *rule, object, &node.attributes))
        }
        _ => Ok(true),
    }
}

/// Whether one of these constraints refuses a subject at a moment.
fn any_refuses<R: RuleSet>(
    alloc: Global,
    rules: &Ruled<R>,
    nodes: &[Node],
    subject: Subject,
    now: i64,
) -> Result<bool, AllocError>
    requires moment { IsMoment now }
    requires fit { list_all (λ n. test_fits (R.known rules.now.rules) (test_view n.test)) nodes.now ≡ true }
    ensures { IfOk result (λ b. b
        ≡ list_any (λ n. refuses R.meaning now (subject_view subject.entry) (node_view n)) nodes.now) }
{
    for node in nodes {
        if !says(alloc, rules, node, subject, now)? {
            return Ok(true);
        }
    }
    Ok(false)
}

/// Whether a node is reported, before all nodes behind it: its own constraint refuses, or it reports
/// as one and one of those below it refuses.
#[inline(always)]
fn is_reported<R: RuleSet>(
    alloc: Global,
    rules: &Ruled<R>,
    node: &Node,
    behind: &[Node],
    subject: Subject,
    now: i64,
) -> Result<bool, AllocError>
    requires moment { IsMoment now }
    requires fit { list_all (λ n. test_fits (R.known rules.now.rules) (test_view n.test)) (node.now ∷ behind.now) ≡ true }
    requires room { node.now.below ≤ length behind.now }
    ensures { IfOk result (λ b. b ≡ (refuses R.meaning now (subject_view subject.entry) (node_view node.now)
        || (node.now.single && list_any (λ n. refuses R.meaning now (subject_view subject.entry) (node_view n))
        (take node.now.below behind.now)))) }
{
    let refuses = !says(alloc, rules, node, subject, now)?;
    if refuses || !node.single {
        return Ok(refuses);
    }
    any_refuses(alloc, rules, &behind[..node.below], subject, now)
}

/// The numbers of the nodes that are reported of a subject at a moment, in preorder.
#[inline(always)]
fn violated<R: RuleSet>(
    alloc: Global,
    rules: &Ruled<R>,
    occurrence: &Occurrence,
    subject: Subject,
    now: i64,
) -> Result<Vec<usize>, AllocError>
    requires moment { IsMoment now }
    requires fit { fits (R.known rules.now.rules) occurrence.now ≡ true }
    ensures { IfOk result (λ v. v.items
        ≡ map (λ r. r.0) (violated R.meaning now (subject_view subject.entry) 0 occurrence.now)) }
{
    let mut numbers = Vec::new(alloc);
    let mut number = 0;
    while number < occurrence.size() {
        let (node, behind) = occurrence.split_at(number);
        if is_reported(alloc, rules, node, behind, subject, now)? {
            numbers.push(number)?;
        }
        number += if node.single { node.below + 1 } else { 1 };
    }
    Ok(numbers)
}

/// The numbers of the nodes that are reported of a datum at a moment, in preorder.
///
/// A node that reports as one is reported alone where its own constraint or one below it refuses;
/// another where its own constraint refuses, before what is reported below it. Each is asked at most
/// once. Only the answer and a Pattern take memory.
pub fn report<R: RuleSet>(
    alloc: Global,
    rules: &Ruled<R>,
    occurrence: &Occurrence,
    datum: &Datum,
    now: i64,
) -> Result<Vec<usize>, AllocError>
    requires moment { IsMoment now }
    requires fit { fits (R.known rules.now.rules) occurrence.now ≡ true }
    ensures exact { IfOk result (λ v. v.items
        ≡ map (λ r. r.0) (violated R.meaning now (of_datum (view datum.now)) 0 occurrence.now)) }
    ensures some { IfOk result (λ v. (v.items ≡ [])
        ↔ (is_bad (refuses R.meaning now (of_datum (view datum.now))) occurrence.now ≡ false)) }
    ensures alone { IfOk result (λ v. (root occurrence.now).single ≡ true
        → (v.items ≡ []) ⊎ (v.items ≡ 0 ∷ [])) }
{
    violated(alloc, rules, occurrence, Subject::Datum(datum), now)
}

/// The same of an object.
pub fn report_object<R: RuleSet>(
    alloc: Global,
    rules: &Ruled<R>,
    occurrence: &Occurrence,
    object: &Object,
    now: i64,
) -> Result<Vec<usize>, AllocError>
    requires moment { IsMoment now }
    requires fit { fits (R.known rules.now.rules) occurrence.now ≡ true }
    ensures exact { IfOk result (λ v. v.items
        ≡ map (λ r. r.0) (violated R.meaning now (of_object (object_view object.now)) 0 occurrence.now)) }
    ensures some { IfOk result (λ v. (v.items ≡ [])
        ↔ (is_bad (refuses R.meaning now (of_object (object_view object.now))) occurrence.now ≡ false)) }
    ensures alone { IfOk result (λ v. (root occurrence.now).single ≡ true
        → (v.items ≡ []) ⊎ (v.items ≡ 0 ∷ [])) }
{
    violated(alloc, rules, occurrence, Subject::Object(object), now)
}
