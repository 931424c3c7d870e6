//! Declarations are changed by a command.
ghost use Rattle.std.specs.Prelude.{◌≡◌, ◌≢◌, false, IfOk, IfErr, MatchResult, Ok, Err};
ghost use Rattle.fv_datum.specs.Moments.{IsMoment};
ghost use Rattle.fv_declare_judging.specs.Declares.{Declares};
ghost use Rattle.fv_declare_schema.specs.Declarations.{Declarations};
ghost use Rattle.fv_engine_command.specs.Commands.{redeclare};
ghost use Rattle.fv_engine_machine.specs.Keeping.{told_pass};
ghost use Rattle.fv_engine_machine.specs.Redeclaring.{misfit};
ghost use Rattle.fv_engine_machine.specs.Services.{Attends, GoesOn, serving};
ghost use Rattle.fv_engine_reply.specs.Answers.{misdeclared, redeclared, refused};
ghost use Rattle.fv_engine_reply.specs.AnswerView.{answer_view};
ghost use Rattle.fv_bundle.specs.Types.{FieldsApart, has_deep};
ghost use Rattle.fv_bundle.specs.TypesView.{types_view};
ghost use Rattle.fv_store.specs.Stock.{stock_state};

use crate::refusing::undone;
use crate::shared_rules::SharedRules;
use fv_bundle::Types;
use fv_declare::{DeclFault, read_schema};
use fv_engine_pending::{PartFault, RejudgeFault, judge_all};
use fv_engine_reply::{Answer, Misfit, Refusal};
use fv_local::Rulebook;
use fv_registry::RuleSet;
use fv_store::Store;
use sqlite::Alter;
use std::alloc::Global;
use std::mem::replace;

/// The rulebook of what a text declares, where these rules are there. Refused as `read_schema`.
pub fn read_rulebook<R: RuleSet + Drop>(
    alloc: Global,
    rules: &SharedRules<R>,
    text: &[u8],
) -> Result<Rulebook<SharedRules<R>>, DeclFault>
    ensures taken { IfOk result (λ b. Declares (R.known rules.now) text.now (Ok b)) }
    ensures refused { IfErr result (λ f. f ≢ DeclFault.Memory → Declares (R.known rules.now) text.now (Err f)) }
{
    let schema = read_schema(alloc, rules, text)?;
    let rules = rules.share()?;
    Ok(Rulebook::new(alloc, rules, schema)?)
}

/// The answer to declarations that aren't taken.
pub(crate) fn misdeclared(fault: DeclFault) -> Answer
    ensures memory { fault ≡ DeclFault.Memory → answer_view result ≡ refused Refusal.Memory }
    ensures other { fault ≢ DeclFault.Memory → answer_view result ≡ misdeclared fault }
{
    match fault {
        DeclFault::Memory => Answer::Refused(Refusal::Memory),
        _ => Answer::Misdeclared(fault),
    }
}

/// How the fault of a record that can't be read again is told.
fn misfit(fault: PartFault) -> Misfit
    ensures { result ≡ misfit fault }
{
    match fault {
        PartFault::Bundle(fault) => Misfit::Bundle(fault),
        _ => Misfit::UnknownForm,
    }
}

/// The answer where a pass over all records found one that can't be read again or that has too many
/// visits, or failed.
fn unjudged(fault: RejudgeFault) -> Answer
    ensures { answer_view result ≡ told_pass fault }
{
    match fault {
        RejudgeFault::Unfit { id, why } => Answer::Unfit {
            id,
            why: misfit(why),
        },
        RejudgeFault::TooManyVisits => Answer::Refused(Refusal::TooManyVisits),
        RejudgeFault::Store => Answer::Refused(Refusal::Store),
        RejudgeFault::Memory => Answer::Refused(Refusal::Memory),
    }
}

/// No type has another in it deeper than is written back.
pub(crate) fn are_shallow(_types: &Types)
    ensures { has_deep (types_view _types.now) ≡ false }
{}

/// Each field of a type has a name of its own.
fn are_apart(_types: &Types)
    ensures { FieldsApart (types_view _types.now) }
{}

/// Judges all stored records, read again under the declarations of a rulebook, and writes the text of
/// these declarations in place of those in force, where no record has a violation.
fn put_in_force<R: RuleSet, S: Alter>(
    store: &mut Store<S>,
    alloc: Global,
    next: &Rulebook<R>,
    text: &str,
    now: i64,
) -> Result<(), Answer>
    requires { IsMoment now }
    ensures { (known : _) (ds : Declarations) → has_deep ds.types ≡ false → Declares known text.now (Ok next.now)
        → MatchResult result
        (λ _. GoesOn (stock_state S.Store) (serving (stock_state S.Store) known ds store.old)
        (serving (stock_state S.Store) known next.now store.new)
        (λ x y. Attends R.meaning now (redeclare text.now) x redeclared y))
        (λ a. GoesOn (stock_state S.Store) (serving (stock_state S.Store) known ds store.old)
        (serving (stock_state S.Store) known ds store.new)
        (λ x y. Attends R.meaning now (redeclare text.now) x (answer_view a) y)) }
{
    are_apart(next.schema().types());
    match judge_all(store, alloc, next, now) {
        Err(fault) => Err(unjudged(fault)),
        Ok(records) => if records.is_empty() {
            match store.redeclare(alloc, text.as_bytes()) {
                Ok(()) => Ok(()),
                Err(fault) => Err(Answer::Refused(undone(fault))),
            }
        } else {
            Err(Answer::Violated { records })
        },
    }
}

/// Declarations are judged with all stored records, read again under them, and put in force: refused
/// by their first fault, then by the first record by id that can't be read again, then where one has
/// more than 4,096 visits for the groups of its form, then by the violations of all of them.
pub(crate) fn redeclare<R: RuleSet + Drop, S: Alter>(
    store: &mut Store<S>,
    alloc: Global,
    rules: &SharedRules<R>,
    book: &mut Rulebook<SharedRules<R>>,
    text: &str,
    now: i64,
) -> Answer
    requires { IsMoment now }
    ensures { GoesOn (stock_state S.Store) (serving (stock_state S.Store) (R.known rules.now) book.old store.old)
        (serving (stock_state S.Store) (R.known rules.now) book.new store.new)
        (λ x y. Attends R.meaning now (redeclare text.now) x (answer_view result) y) }
{
    are_shallow(book.schema().types());
    let next = match read_rulebook(alloc, rules, text.as_bytes()) {
        Err(fault) => return misdeclared(fault),
        Ok(next) => next,
    };
    match put_in_force(store, alloc, &next, text, now) {
        Ok(()) => {
            drop(replace(book, next));
            Answer::Redeclared
        }
        Err(answer) => {
            drop(next);
            answer
        }
    }
}
