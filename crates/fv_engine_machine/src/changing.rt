//! The parts of a command that changes records are made, judged at the end, and stored all together.
ghost use Rattle.std.specs.Prelude.{◌≡◌, ◌≢◌, ◌≤◌, IfOk, map, option_map};
ghost use Rattle.fv_engine_command.specs.CommandView.{part_view};
ghost use Rattle.fv_datum.specs.Moments.{IsMoment};
ghost use Rattle.fv_declare_schema.specs.Declarations.{Declarations};
ghost use Rattle.fv_engine_machine.specs.Keeping.{ChangesSo, FitsWhereHeld, IsOneSet, Keeps, Moves, Settles, rows_on, set_object, told_part};
ghost use Rattle.fv_engine_machine.specs.Machines.{Becomes, contents, over};
ghost use Rattle.fv_engine_machine.specs.Refusals.{part_refusal};
ghost use Rattle.fv_engine_machine.specs.Step.{done_by};
ghost use Rattle.fv_engine_pending.specs.Fits.{AreFitting, AreShort, AreTyped};
ghost use Rattle.fv_engine_pending.specs.Ways.{overlay, pending_view};
ghost use Rattle.fv_engine_reply.specs.Answers.{refused};
ghost use Rattle.fv_engine_reply.specs.AnswerView.{answer_view};
ghost use Rattle.fv_bundle.specs.Types.{Declared};
ghost use Rattle.fv_store.specs.Causes.{AreShort as ChangesShort, rows_of_all};
ghost use Rattle.fv_store.specs.Changes.{after_all, ChangesFit};
ghost use Rattle.fv_store.specs.Records.{Records, Roots};
ghost use Rattle.fv_store.specs.Stands.{Frame};
ghost use Rattle.fv_store.specs.Stock.{stock_state as state};

use crate::refusing::{part_refusal, undone, unjudged};
use fv_engine_command::Part;
use fv_engine_pending::{PartFault, Pending, apply_all, find_records, judge, read_parts};
use fv_engine_reply::{Answer, Done, Refusal};
use fv_local::Rulebook;
use fv_registry::RuleSet;
use fv_store::{Change, Store};
use sqlite::Alter;
use std::alloc::{AllocError, Global};

/// What a part by itself does, as it is told.
pub(crate) fn done_by(part: &Part) -> Done
    ensures { result ≡ done_by (part_view part.now) }
{
    match part {
        Part::Put { .. } => Done::Put,
        Part::Set { .. } => Done::Set,
        Part::Remove { .. } => Done::Remove,
    }
}

/// How a part that can't be done is told: in a batch with its number.
fn told_part(done: Done, part: usize, why: Refusal) -> Answer
    ensures { answer_view result ≡ told_part done part why }
{
    match done {
        Done::Batch => Answer::PartRefused { part, why },
        _ => Answer::Refused(why),
    }
}

/// The refusal of a part, or of all for want of memory.
pub(crate) fn unmade(done: Done, part: usize, fault: PartFault) -> Answer
    ensures memory { fault ≡ PartFault.Memory → answer_view result ≡ refused Refusal.Memory }
    ensures other { fault ≢ PartFault.Memory → answer_view result ≡ told_part done part (part_refusal fault) }
{
    match fault {
        PartFault::Memory => Answer::Refused(Refusal::Memory),
        _ => told_part(done, part, part_refusal(fault)),
    }
}

/// The name of the object that is set, where the parts are one set.
fn set_object<'a>(parts: &[Part<'a>]) -> Option<&'a str>
    ensures { option_map (λ s. s.now) result ≡ set_object (map part_view parts.now) }
{
    let [part] = parts else {
        return None;
    };
    match part {
        Part::Set { object, .. } => Some(*object),
        _ => None,
    }
}

/// The changes that leave the records as they are on the way; the change of one object alone, where
/// its name is given.
fn changes_of(
    alloc: Global,
    pending: Pending<'_>,
    object: Option<&str>,
) -> Result<Vec<Change>, AllocError>
    ensures after { IfOk result (λ v. (m : Records)
        → IsOneSet (option_map (λ s. s.now) object.entry) (pending_view pending.entry) m
        → after_all v.items m ≡ overlay (pending_view pending.entry) m) }
    ensures fit { IfOk result (λ v. (types : Declared) (forms : Roots) (m : Records)
        → IsOneSet (option_map (λ s. s.now) object.entry) (pending_view pending.entry) m
        → AreFitting types forms (pending_view pending.entry) → ChangesFit types forms v.items m) }
    ensures short { IfOk result (λ v. AreShort (pending_view pending.entry) → ChangesShort v.items) }
    ensures rows { IfOk result (λ v. (types : Declared) (m : Records) → AreTyped types (pending_view pending.entry)
        → IsOneSet (option_map (λ s. s.now) object.entry) (pending_view pending.entry) m
        → rows_of_all v.items ≤ rows_on (option_map (λ s. s.now) object.entry) (pending_view pending.entry)) }
{
    match object {
        Some(object) => pending.into_object(alloc, object),
        None => pending.into_changes(alloc),
    }
}

/// What is told of parts that are taken; and the object that is written alone, where they are one set.
#[derive(Clone, Copy)]
struct Taken<'a> {
    object: Option<&'a str>,
    done: Done,
}

/// Stores what stands on the way: one object alone, where its name is given.
fn keep<S: Alter>(store: &mut Store<S>, alloc: Global, pending: Pending, taken: &Taken) -> Answer
    ensures frame { Frame (state S.Store store.old) (state S.Store store.new) }
    ensures text { store.new.text ≡ store.old.text }
    ensures moves { (ds : Declarations) (bytes : _) (m : _) → AreTyped ds.types (pending_view pending.entry)
        → FitsWhereHeld (state S.Store store.old) (contents bytes ds m) (pending_view pending.entry)
        → IsOneSet (option_map (λ s. s.now) taken.now.object) (pending_view pending.entry) m
        → Moves (state S.Store) ds bytes m store.old store.new (λ x y. Keeps (rows_on (option_map (λ s. s.now) taken.now.object) (pending_view pending.entry)) (pending_view pending.entry) taken.now.done x (answer_view result) y) }
{
    match changes_of(alloc, pending, taken.object) {
        Err(_) => Answer::Refused(Refusal::Memory),
        Ok(changes) => match store.commit(alloc, &changes) {
            Ok(()) => Answer::Done(taken.done),
            Err(fault) => Answer::Refused(undone(fault)),
        },
    }
}

/// Judges what stands on the way, and stores it where nothing of it has a violation: one object alone,
/// where its name is given.
fn settle<R: RuleSet, S: Alter>(
    store: &mut Store<S>,
    alloc: Global,
    book: &Rulebook<R>,
    pending: Pending,
    taken: &Taken,
    now: i64,
) -> Answer
    requires moment { IsMoment now }
    requires typed { AreTyped book.now.types (pending_view pending) }
    ensures frame { Frame (state S.Store store.old) (state S.Store store.new) }
    ensures text { store.new.text ≡ store.old.text }
    ensures moves { (bytes : _) (m : _) → FitsWhereHeld (state S.Store store.old) (contents bytes book.now m) (pending_view pending.entry)
        → IsOneSet (option_map (λ s. s.now) taken.now.object) (pending_view pending.entry) m
        → Moves (state S.Store) book.now bytes m store.old store.new
        (λ x y. Settles R.meaning now (rows_on (option_map (λ s. s.now) taken.now.object) (pending_view pending.entry)) (pending_view pending.entry) taken.now.done x (answer_view result) y) }
{
    match judge(alloc, book, &pending, now) {
        Err(fault) => Answer::Refused(unjudged(fault)),
        Ok(records) => if records.is_empty() {
            keep(store, alloc, pending, taken)
        } else {
            Answer::Violated { records }
        },
    }
}

/// Makes parts in order and stores what they leave, all of it or nothing: refused for a put whose
/// bundle isn't of a bundle's form, then by the first part that can't be done, then where one of the
/// records that were put or set has more than 4,096 visits, then by the violations of all of them.
pub(crate) fn change<R: RuleSet, S: Alter>(
    store: &mut Store<S>,
    alloc: Global,
    book: &Rulebook<R>,
    parts: &[Part],
    done: Done,
    now: i64,
) -> Answer
    requires { IsMoment now }
    ensures text { store.new.text ≡ store.old.text }
    ensures becomes { Becomes (state S.Store) (over (state S.Store) book.now store.old)
        (over (state S.Store) book.now store.new)
        (λ x y. ChangesSo R.meaning now (map part_view parts.now) done x (answer_view result) y) }
{
    let schema = book.schema();
    let steps = match read_parts(alloc, schema, parts) {
        Err(_) => return Answer::Refused(Refusal::Memory),
        Ok(None) => return Answer::Refused(Refusal::Shape),
        Ok(Some(steps)) => steps,
    };
    let mut pending = match find_records(store, alloc, schema.types(), parts) {
        Err(fault) => return Answer::Refused(undone(fault)),
        Ok(pending) => pending,
    };
    match apply_all(&mut pending, alloc, schema.types(), steps) {
        Err((part, fault)) => unmade(done, part, fault),
        Ok(()) => {
            let taken = Taken {
                object: set_object(parts),
                done,
            };
            settle(store, alloc, book, pending, &taken, now)
        }
    }
}
