//! A line is judged without a store: it is answered as by a service that has no record, and nothing of
//! it is kept.
ghost use Rattle.std.specs.Prelude.{Some, map, unwrap_or};
ghost use Rattle.fv_datum.specs.Moments.{IsMoment};
ghost use Rattle.fv_datum.specs.Parsing.{json_of};
ghost use Rattle.fv_engine_command.specs.CommandView.{part_view};
ghost use Rattle.fv_engine_command.specs.Commands.{alone, asks_json, command_of, list, redeclare, shape};
ghost use Rattle.fv_engine_machine.specs.Judges.{AnswersBare, ChangesBare, JudgesWay, RepliesBare, ServesBare};
ghost use Rattle.fv_engine_pending.specs.Fits.{AreTyped};
ghost use Rattle.fv_engine_pending.specs.Ways.{pending_view};
ghost use Rattle.fv_engine_reply.specs.AnswerView.{answer_view};
ghost use Rattle.fv_registry.specs.Meanings.{Meanings};
ghost use Rattle.serde_json.specs.View.{view as json_view};

use crate::changing::{done_by, unmade};
use crate::fields::check_value;
use crate::redeclaring::misdeclared;
use crate::refusing::unjudged;
use crate::shared_rules::SharedRules;
use fv_datum::{JsonFault, read_json};
use fv_declare::read_schema;
use fv_declare_schema::Schema;
use fv_engine_command::{Command, Part, command_of, redeclare_of};
use fv_engine_pending::{Pending, apply_all, judge, read_parts};
use fv_engine_reply::{Answer, Done, Refusal, Reply};
use fv_local::Rulebook;
use fv_registry::RuleSet;
use serde_json::Value;
use std::alloc::Global;

/// What a command that leaves these records is told: their violations, or that it is done.
fn judged<R: RuleSet>(
    alloc: Global,
    book: &Rulebook<R>,
    pending: &Pending,
    done: Done,
    now: i64,
) -> Answer
    requires moment { IsMoment now }
    requires typed { AreTyped book.now.types (pending_view pending.now) }
    ensures { JudgesWay R.meaning book.now now (pending_view pending.now) done (answer_view result) }
{
    match judge(alloc, book, pending, now) {
        Err(fault) => Answer::Refused(unjudged(fault)),
        Ok(records) => if records.is_empty() {
            Answer::Done(done)
        } else {
            Answer::Violated { records }
        },
    }
}

/// Makes parts in order where there is no record, and judges what they leave: refused as `change` is.
fn judge_parts<R: RuleSet>(
    alloc: Global,
    book: &Rulebook<R>,
    parts: &[Part],
    done: Done,
    now: i64,
) -> Answer
    requires { IsMoment now }
    ensures { ChangesBare R.meaning book.now now (map part_view parts.now) done (answer_view result) }
{
    let schema = book.schema();
    let steps = match read_parts(alloc, schema, parts) {
        Err(_) => return Answer::Refused(Refusal::Memory),
        Ok(None) => return Answer::Refused(Refusal::Shape),
        Ok(Some(steps)) => steps,
    };
    let mut pending = Pending::new(alloc);
    match apply_all(&mut pending, alloc, schema.types(), steps) {
        Err((part, fault)) => unmade(done, part, fault),
        Ok(()) => judged(alloc, book, &pending, done, now),
    }
}

/// Judges a part by itself.
fn judge_alone<R: RuleSet>(alloc: Global, book: &Rulebook<R>, part: Part, now: i64) -> Answer
    requires { IsMoment now }
    ensures { ServesBare R.meaning book.now now (alone (part_view part.entry)) (answer_view result) }
{
    let done = done_by(&part);
    judge_parts(alloc, book, &[part], done, now)
}

/// Lists the ids of a form, of which there is none.
fn list_none(alloc: Global, schema: &Schema, form: &str) -> Answer
    ensures { (means : Meanings) (now : _) (after : _) (limit : _)
        → ServesBare means schema.now now (list form.now after limit) (answer_view result) }
{
    match schema.root_of(form) {
        None => Answer::Refused(Refusal::UnknownForm),
        Some(_) => Answer::Ids {
            ids: Vec::new(alloc),
        },
    }
}

/// The answer to a line's JSON.
fn answer<R: RuleSet>(alloc: Global, book: &Rulebook<R>, value: &Value, now: i64) -> Answer
    requires { IsMoment now }
    ensures { ServesBare R.meaning book.now now (unwrap_or (command_of (json_view value.now)) shape) (answer_view result) }
{
    match command_of(alloc, value) {
        Err(_) => Answer::Refused(Refusal::Memory),
        Ok(None) => Answer::Refused(Refusal::Shape),
        Ok(Some(Command::Alone(part))) => judge_alone(alloc, book, part, now),
        Ok(Some(Command::Batch { parts })) => judge_parts(alloc, book, &parts, Done::Batch, now),
        Ok(Some(Command::Get { .. })) => Answer::Refused(Refusal::NoRecord),
        Ok(Some(Command::Check { .. })) => Answer::Refused(Refusal::NoRecord),
        Ok(Some(Command::CheckField { .. })) => Answer::Refused(Refusal::NoRecord),
        Ok(Some(Command::CheckValue { at, value, groups })) => {
            check_value(alloc, book, &at, value, &groups, now)
        }
        Ok(Some(Command::List { form, .. })) => list_none(alloc, book.schema(), form),
    }
}

/// The answer to declarations: taken, or their first fault. They aren't put in force.
fn judge_declarations<R: RuleSet>(alloc: Global, rules: &R, text: &str) -> Answer
    ensures { (means : Meanings) (ds : _) (now : _)
        → AnswersBare (R.known rules.now) means ds now (redeclare text.now) (answer_view result) }
{
    match read_schema(alloc, rules, text.as_bytes()) {
        Ok(schema) => {
            drop(schema);
            Answer::Redeclared
        }
        Err(fault) => misdeclared(fault),
    }
}

/// The answer to a line's JSON, declarations among what it may ask for.
fn attend<R: RuleSet>(
    alloc: Global,
    rules: &SharedRules<R>,
    book: &Rulebook<SharedRules<R>>,
    value: &Value,
    now: i64,
) -> Answer
    requires { IsMoment now }
    ensures { AnswersBare (R.known rules.now) R.meaning book.now now (asks_json (Some (json_view value.now))) (answer_view result) }
{
    match redeclare_of(value) {
        Some(text) => judge_declarations(alloc, rules, text),
        None => answer(alloc, book, value, now),
    }
}

/// The reply to a line's JSON.
fn reply_to<R: RuleSet>(
    alloc: Global,
    rules: &SharedRules<R>,
    book: &Rulebook<SharedRules<R>>,
    value: &Value,
    now: i64,
) -> Reply
    requires { IsMoment now }
    ensures { RepliesBare (R.known rules.now) R.meaning book.now now (asks_json (Some (json_view value.now))) result }
{
    let answer = attend(alloc, rules, book, value, now);
    Reply::of(alloc, &answer)
}

/// The reply to a line that isn't over the limit, under the declarations of the book, as a service that
/// has no record would answer it. Nothing changes.
pub fn judge_line<R: RuleSet>(
    alloc: Global,
    rules: &SharedRules<R>,
    book: &Rulebook<SharedRules<R>>,
    line: &[u8],
    now: i64,
) -> Reply
    requires { IsMoment now }
    ensures { RepliesBare (R.known rules.now) R.meaning book.now now (asks_json (json_of line.now)) result }
{
    match read_json(alloc, line) {
        Ok(value) => reply_to(alloc, rules, book, &value, now),
        Err(JsonFault::NotJson) => Reply::refused(alloc, Refusal::NotJson),
        Err(JsonFault::Memory) => Reply::refused(alloc, Refusal::Memory),
    }
}
