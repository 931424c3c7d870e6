//! The violations of a bundle: the constraint of each number, the messages, and the order of a listing.
ghost use Rattle.std.specs.Prelude.{◌≡◌, map, option_map, slice_get, ◌↔◌, ◌≢◌, ◌<◌, All, [], length, string_bytes, IfOk, IfErr, OnOk};
ghost use Rattle.fv_declare_schema.specs.Declarations.{AreNumbered};
ghost use Rattle.fv_declare_schema.specs.PlacedView.{placed_view};
ghost use Rattle.fv_constraint_tree.specs.Views.{node_view};
ghost use Rattle.fv_validate.specs.Violations.{nodes_in, Reported, AreInOrder, AreListed, IsListing, IsMessageOf};
ghost use Rattle.fv_graph.specs.Graph.{IsIn};
ghost use Rattle.fv_validate.specs.Listing.{order, AreToldApart, made_by, IsMade};
ghost use Rattle.fv_validate.specs.ViolationView.{violation_view};
ghost use Rattle.std.specs.List.{AllByRecursion};
ghost use Rattle.std.specs.Option.{option_map_or};
ghost use Rattle.fv_datum.specs.Moments.{IsMoment};
ghost use Rattle.fv_declare_schema.specs.Tables.{indices};
ghost use Rattle.fv_message.specs.Evaluated.{full_text};
ghost use Rattle.fv_bundle.specs.Views.{bundle_view};
ghost use Rattle.fv_bundle.specs.WellTyped.{IsWellTyped};
ghost use Rattle.fv_path.specs.Paths.{IsPath};
ghost use Rattle.fv_walk.specs.Apart.{AreApart};
ghost use Rattle.fv_walk.specs.FailureView.{failure_view};
ghost use Rattle.fv_walk.specs.Visits.{HasTooManyVisits, HasFewVisits};

use crate::fault::ValidateFault;
use fv_bundle::Bundle;
use fv_constraint_tree::Node;
use fv_datum::Datum;
use fv_declare_schema::{GroupId, Placed};
use fv_local::Rulebook;
use fv_message::Messages;
use fv_registry::RuleSet;
use fv_walk::Failure;
use fv_walk::by_id::walk_typed;
use std::alloc::{AllocError, Global};
use std::cmp::Ordering;
/// A reported constraint (constraint violation).
#[derive(Drop)]
pub struct Violation {
    /// The property path: of a field or of a part of it; for a constraint on an object the path to that
    /// object, empty for the root.
    pub path: String,
    /// The constraint's name.
    pub constraint: String,
    /// The number of the constraint over the whole declarations.
    pub occurrence: usize,
    pub message: String,
    /// The datum that was refused, or the name of the object that was.
    pub value: Datum,
}

/// A record by its id, with its violations.
#[derive(Drop)]
pub struct Judged {
    pub id: String,
    pub violations: Vec<Violation>,
}

/// The constraint of a number, in the trees of these uses.
pub(crate) fn node_of(occurrences: &[Placed], number: usize) -> Option<&Node>
    requires { AreNumbered 0 (map placed_view occurrences.now) }
    ensures { option_map (λ n. node_view n.now) result ≡ slice_get (nodes_in (map placed_view occurrences.now)) number }
{
    let behind = occurrences.partition_point(|it| it.number() <= number);
    let placed = occurrences.get(behind.checked_sub(1)?)?;
    placed.occurrence().node(number - placed.number())
}

/// By the bytes of the path, then by the number of the constraint.
fn compare(a: &Violation, b: &Violation) -> Ordering
    ensures { result ≡ order (violation_view a.now) (violation_view b.now) }
{
    a.path.cmp(&b.path).then(a.occurrence.cmp(&b.occurrence))
}

/// Arranges violations as a listing has them: ascending, each once.
pub(crate) fn arrange(violations: &mut Vec<Violation>)
    requires { AreToldApart (map violation_view violations.old.items) }
    ensures same { (r : Reported) → IsIn (map violation_view violations.new.items) r
        ↔ IsIn (map violation_view violations.old.items) r }
    ensures ascending { AreInOrder (map violation_view violations.new.items) }
{
    violations.sort_unstable_by(|a, b| compare(a, b));
    violations.dedup_by(|a, b| compare(a, b).is_eq());
}

/// What the message of a constraint becomes; empty where there is no constraint.
fn message_of(alloc: Global, messages: &Messages, node: Option<&Node>) -> Result<String, AllocError>
    ensures made { IfOk result (λ s. string_bytes s ≡ option_map_or (λ n. full_text messages.now (node_view n.now).attributes (node_view n.now).message) node.entry []) }
    ensures message { IfOk result (λ s. IsMessageOf messages.now (option_map (λ n. node_view n.now) node.entry) (string_bytes s)) }
{
    match node {
        Some(node) => messages.text(alloc, node.message(), &node.attributes),
        None => Ok(String::new(alloc)),
    }
}

/// A failure, as it is reported.
#[tactic(auto, using(crate::proofs::Reports::is_made))]
fn violation_of(
    alloc: Global,
    occurrences: &[Placed],
    messages: &Messages,
    failure: Failure,
) -> Result<Violation, AllocError>
    requires { AreNumbered 0 (map placed_view occurrences.now) }
    ensures made { IfOk result (λ v. violation_view v
        ≡ made_by (map placed_view occurrences.now) messages.now (failure_view failure)) }
    ensures report { IfOk result (λ _. IsMade (map placed_view occurrences.now) messages.now (failure_view failure)) }
    ensures path { IsPath failure.path }
{
    let node = node_of(occurrences, failure.number);
    Ok(Violation {
        path: failure.path.write(alloc)?,
        constraint: String::from_str(alloc, node.map_or("", Node::constraint))?,
        occurrence: failure.number,
        message: message_of(alloc, messages, node)?,
        value: failure.value,
    })
}

/// Failures, as they are reported.
fn violations_of(
    alloc: Global,
    occurrences: &[Placed],
    messages: &Messages,
    failures: Vec<Failure>,
) -> Result<Vec<Violation>, AllocError>
    requires { AreNumbered 0 (map placed_view occurrences.now) }
    ensures reports { IfOk result (λ v. map violation_view v.items
        ≡ map (made_by (map placed_view occurrences.now) messages.now) (map failure_view failures.items)) }
    ensures made { IfOk result (λ _. AllByRecursion (IsMade (map placed_view occurrences.now) messages.now) (map failure_view failures.items)) }
    ensures paths { IfOk result (λ _. AllByRecursion (λ v. IsPath v.path) (map failure_view failures.items)) }
{
    let mut violations = Vec::with_capacity(alloc, failures.len())?;
    for failure in failures {
        violations.push(violation_of(alloc, occurrences, messages, failure)?)?;
    }
    Ok(violations)
}

/// Failures as a listing: each once, ascending by the bytes of its path, then by its number.
pub(crate) fn listing_of(
    alloc: Global,
    occurrences: &[Placed],
    messages: &Messages,
    failures: Vec<Failure>,
) -> Result<Vec<Violation>, AllocError>
    requires numbered { AreNumbered 0 (map placed_view occurrences.now) }
    requires apart { AreApart (map failure_view failures.items) }
    ensures { IfOk result (λ v. AreListed (map placed_view occurrences.now) messages.now
        (IsIn (map failure_view failures.items)) (map violation_view v.items)) }
{
    let mut violations = violations_of(alloc, occurrences, messages, failures)?;
    arrange(&mut violations);
    Ok(violations)
}

/// The violations of a well-typed bundle at a moment, in whole seconds since 1970-01-01T00:00:00Z, for
/// the groups that are asked for: each once, ascending by the bytes of the path, then by the number of
/// the constraint. The objects that the root reaches through valid references are validated, along
/// each way to them on which no object stands twice. Where no group is asked for, `Default` is.
///
/// The caller knows that the bundle is well-typed, and it isn't looked at again.
///
/// Refused by `TooManyVisits` for more than 4,096 visits, before any validator is asked; `Memory` at
/// any place.
pub fn validate<R: RuleSet>(
    alloc: Global,
    rulebook: &Rulebook<R>,
    bundle: &Bundle,
    asked: &[GroupId],
    now: i64,
) -> Result<Vec<Violation>, ValidateFault>
    requires moment { IsMoment now }
    requires typed { IsWellTyped rulebook.now.types (bundle_view bundle.now) }
    requires asked { All (λ g. g.index < length rulebook.now.groups) asked.now }
    ensures listing { IfOk result (λ v. IsListing R.meaning rulebook.now now (bundle_view bundle.now) (indices asked.now) (map violation_view v.items)) }
    // What is judged twice at one moment is judged alike.
    ensures alike { IfOk result (λ v. (vs : _) → IsListing R.meaning rulebook.now now (bundle_view bundle.now) (indices asked.now) vs
        → vs ≡ map violation_view v.items) }
    ensures few { OnOk result (HasFewVisits rulebook.now (bundle_view bundle.now) (indices asked.now)) }
    ensures many { IfErr result (λ fault. fault ≡ ValidateFault.TooManyVisits
        → HasTooManyVisits rulebook.now (bundle_view bundle.now) (indices asked.now)) }
    ensures known { IfErr result (λ fault. fault ≢ ValidateFault.UnknownGroup) }
    ensures no_field { IfErr result (λ fault. fault ≢ ValidateFault.NoSuchField) }
{
    let walked = walk_typed(alloc, rulebook, bundle, asked, now)?;
    let schema = rulebook.schema();
    Ok(listing_of(
        alloc,
        schema.occurrences(),
        schema.messages(),
        walked.failures,
    )?)
}
