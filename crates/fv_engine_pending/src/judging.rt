//! A record is judged by the groups of its form, and so are all that a command leaves on the way.
ghost use Rattle.std.specs.Prelude.{◌++◌, ◌∷◌, ◌<◌, ◌≡◌, [], All, MatchResult, OnOk, length, map};
ghost use Rattle.fv_datum.specs.Moments.{IsMoment};
ghost use Rattle.fv_declare_schema.specs.Tables.{indices};
ghost use Rattle.fv_engine_pending.specs.Judging.{AreListingsOf, IsListingOf, IsOfJudging, IsOverVisited, IsStanding, OneIsOverAmong, groups_of};
ghost use Rattle.fv_engine_pending.specs.Records.{some_of};
ghost use Rattle.fv_bundle.specs.WellTyped.{IsWellTyped};
ghost use Rattle.fv_engine_pending.specs.Fits.{AreTyped};
ghost use Rattle.fv_engine_pending.specs.Ways.{pending_view};
ghost use Rattle.fv_store.specs.Stored.{stored_view};
ghost use Rattle.fv_validate.specs.ViolationView.{judged_view, violation_view};

use crate::pending::Pending;
use fv_declare_schema::{GroupId, Schema};
use fv_local::Rulebook;
use fv_registry::RuleSet;
use fv_store::Stored;
use fv_validate::by_id::validate;
use fv_validate::{Judged, ValidateFault, Violation};
use std::alloc::{AllocError, Global};

/// The groups that a form asks for; none where it isn't declared.
fn asked_by<'a>(schema: &'a Schema, form: &str) -> &'a [GroupId]
    ensures groups { indices result.now ≡ groups_of schema.now form.now }
    ensures within { All (λ g. g.index < length schema.now.groups) result.now }
{
    match schema.groups_of(form) {
        Some(groups) => groups,
        None => &[],
    }
}

/// The violations of a record for the groups of its form; none where the form isn't declared.
///
/// Refused by `TooManyVisits` where it has more than 4,096 visits; by `Memory` at any place.
pub fn judge_record<R: RuleSet>(
    alloc: Global,
    book: &Rulebook<R>,
    stored: &Stored,
    now: i64,
) -> Result<Vec<Violation>, ValidateFault>
    requires moment { IsMoment now }
    requires typed { IsWellTyped book.now.types (stored_view stored.now).bundle }
    ensures { MatchResult result
        (λ v. IsListingOf R.meaning book.now now (stored_view stored.now) (map violation_view v.items))
        (λ fault. IsOfJudging fault
        × (fault ≡ ValidateFault.TooManyVisits → IsOverVisited book.now (stored_view stored.now))) }
{
    validate(
        alloc,
        book,
        &stored.bundle,
        asked_by(book.schema(), stored.form.as_str()),
        now,
    )
}

/// Adds violations under a copy of an id.
fn push_judged(
    alloc: Global,
    judged: &mut Vec<Judged>,
    id: &str,
    violations: Vec<Violation>,
) -> Result<(), AllocError>
    ensures { OnOk result (map judged_view judged.new.items ≡ map judged_view judged.old.items
        ++ (id.now, map violation_view violations.items) ∷ []) }
{
    let id = String::from_str(alloc, id)?;
    judged.push(Judged { id, violations })?;
    Ok(())
}

/// Adds a record by a copy of its id to those that have violations, if it has some for the groups of its
/// form.
pub(crate) fn add_judged<R: RuleSet>(
    alloc: Global,
    book: &Rulebook<R>,
    judged: &mut Vec<Judged>,
    id: &str,
    stored: &Stored,
    now: i64,
) -> Result<(), ValidateFault>
    requires moment { IsMoment now }
    requires typed { IsWellTyped book.now.types (stored_view stored.now).bundle }
    ensures { MatchResult result
        (λ _. (vs : _) × IsListingOf R.meaning book.now now (stored_view stored.now) vs
        × (map judged_view judged.new.items ≡ map judged_view judged.old.items ++ some_of id.now vs))
        (λ fault. IsOfJudging fault
        × (fault ≡ ValidateFault.TooManyVisits → IsOverVisited book.now (stored_view stored.now))) }
{
    let violations = judge_record(alloc, book, stored, now)?;
    if violations.is_empty() {
        return Ok(());
    }
    match push_judged(alloc, judged, id, violations) {
        Ok(()) => Ok(()),
        Err(_) => Err(ValidateFault::Memory),
    }
}

/// The records on the way that have violations for the groups of their forms, with all of them, by id.
///
/// Refused by `TooManyVisits` where one of the records has more than 4,096 visits; by `Memory` at any
/// place.
pub fn judge<R: RuleSet>(
    alloc: Global,
    book: &Rulebook<R>,
    pending: &Pending<'_>,
    now: i64,
) -> Result<Vec<Judged>, ValidateFault>
    requires moment { IsMoment now }
    requires typed { AreTyped book.now.types (pending_view pending.now) }
    ensures { MatchResult result
        (λ v. AreListingsOf R.meaning book.now now (IsStanding (pending_view pending.now)) (map judged_view v.items))
        (λ fault. IsOfJudging fault
        × (fault ≡ ValidateFault.TooManyVisits → OneIsOverAmong book.now (IsStanding (pending_view pending.now)))) }
{
    let mut judged = Vec::new(alloc);
    for (id, record) in pending.records().iter() {
        if let Some(stored) = record {
            add_judged(alloc, book, &mut judged, *id, stored, now)?;
        }
    }
    Ok(judged)
}
