//! A record is checked for groups by their names.
ghost use Rattle.std.specs.Prelude.{◌≡◌, ◌<◌, All, length, map, option_map, IfOk, IfSome};
ghost use Rattle.fv_datum.specs.Members.{each_some};
ghost use Rattle.fv_datum.specs.Moments.{IsMoment};
ghost use Rattle.fv_engine_command.specs.Commands.{check};
ghost use Rattle.fv_engine_machine.specs.Keeping.{Checks};
ghost use Rattle.fv_engine_machine.specs.Machines.{over, Becomes};
ghost use Rattle.fv_engine_machine.specs.Causes.{Handles};
ghost use Rattle.fv_declare_schema.specs.Groups.{group_number};
ghost use Rattle.fv_declare_schema.specs.Tables.{indices};
ghost use Rattle.fv_bundle.specs.Views.{bundle_view};
ghost use Rattle.fv_bundle.specs.WellTyped.{IsWellTyped};
ghost use Rattle.fv_engine_reply.specs.AnswerView.{answer_view};
ghost use Rattle.fv_store.specs.Stock.{stock_state as state};

use crate::refusing::{undone, unjudged};
use fv_bundle::Bundle;
use fv_declare_schema::{GroupId, Groups};
use fv_engine_reply::{Answer, Refusal};
use fv_local::Rulebook;
use fv_registry::RuleSet;
use fv_store::Store;
use fv_validate::by_id::validate;
use sqlite::Alter;
use std::alloc::{AllocError, Global};

/// The groups of these names, in order; none where one of them isn't declared.
pub(crate) fn groups_named(
    alloc: Global,
    groups: &Groups,
    names: &[&str],
) -> Result<Option<Vec<GroupId>>, AllocError>
    ensures numbers { IfOk result (λ o. option_map (λ v. indices v.items) o
        ≡ each_some (group_number groups.now) (map (λ n. n.now) names.now)) }
    ensures within { IfOk result (λ o. IfSome o (λ v. All (λ g. g.index < length groups.now) v.items)) }
{
    let mut found = Vec::with_capacity(alloc, names.len())?;
    for name in names {
        match groups.find(name) {
            None => return Ok(None),
            Some(group) => found.push(group)?,
        }
    }
    Ok(Some(found))
}

/// The violations of a bundle for groups by their names. Refused for a name that is no group's, then
/// for too many visits.
fn checked<R: RuleSet>(
    alloc: Global,
    book: &Rulebook<R>,
    bundle: &Bundle,
    names: &[&str],
    now: i64,
) -> Answer
    requires moment { IsMoment now }
    requires typed { IsWellTyped book.now.types (bundle_view bundle.now) }
    ensures { Checks R.meaning book.now now (bundle_view bundle.now) (map (λ n. n.now) names.now) (answer_view result) }
{
    let asked = match groups_named(alloc, book.schema().groups(), names) {
        Err(_) => return Answer::Refused(Refusal::Memory),
        Ok(None) => return Answer::Refused(Refusal::UnknownGroup),
        Ok(Some(asked)) => asked,
    };
    match validate(alloc, book, bundle, &asked, now) {
        Ok(violations) => Answer::Checked { violations },
        Err(fault) => Answer::Refused(unjudged(fault)),
    }
}

/// Checks a record.
pub(crate) fn check<R: RuleSet, S: Alter>(
    store: &mut Store<S>,
    alloc: Global,
    book: &Rulebook<R>,
    id: &str,
    names: &[&str],
    now: i64,
) -> Answer
    requires { IsMoment now }
    ensures text { store.new.text ≡ store.old.text }
    ensures becomes { Becomes (state S.Store) (over (state S.Store) book.now store.old)
        (over (state S.Store) book.now store.new)
        (λ x y. Handles R.meaning now (check id.now (map (λ n. n.now) names.now)) x (answer_view result) y) }
{
    match store.get(alloc, book.schema().types(), id) {
        Ok(None) => Answer::Refused(Refusal::NoRecord),
        Ok(Some(stored)) => checked(alloc, book, &stored.bundle, names, now),
        Err(fault) => Answer::Refused(undone(fault)),
    }
}
