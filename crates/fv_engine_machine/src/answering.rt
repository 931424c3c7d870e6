//! What a command does to the records, and its answer.
ghost use Rattle.std.specs.Prelude.{◌≡◌, ℤ, Some, map, unwrap_or};
ghost use Rattle.fv_datum.specs.Moments.{IsMoment};
ghost use Rattle.fv_datum.specs.Parsing.{json_of};
ghost use Rattle.fv_declare_schema.specs.Declarations.{Declarations};
ghost use Rattle.fv_engine_machine.specs.Machines.{over, Becomes};
ghost use Rattle.fv_engine_machine.specs.Services.{GoesOn, Replies, serving};
ghost use Rattle.fv_engine_command.specs.CommandView.{part_view};
ghost use Rattle.fv_engine_command.specs.Commands.{alone, asks_json, batch, get, command_of, shape};
ghost use Rattle.fv_engine_machine.specs.Causes.{Handles, IsReplied};
ghost use Rattle.fv_registry.specs.Meanings.{Meanings};
ghost use Rattle.fv_engine_reply.specs.AnswerView.{answer_view};
ghost use Rattle.fv_bundle.specs.TypesView.{types_view};
ghost use Rattle.serde_json.specs.View.{view as json_view};
ghost use Rattle.fv_store.specs.Stock.{stock_state as state};

use crate::changing::{change, done_by};
use crate::checking::check;
use crate::fields::{check_field, check_value};
use crate::listing::list;
use crate::redeclaring::{are_shallow, redeclare};
use crate::refusing::undone;
use crate::shared_rules::SharedRules;
use fv_bundle::Types;
use fv_datum::{JsonFault, read_json};
use fv_engine_command::{Command, Part, command_of, redeclare_of};
use fv_engine_reply::{Answer, Done, Refusal, Reply};
use fv_local::Rulebook;
use fv_registry::RuleSet;
use fv_store::Store;
use serde_json::Value;
use sqlite::Alter;
use std::alloc::Global;

/// Makes a part by itself.
fn alone<R: RuleSet, S: Alter>(
    store: &mut Store<S>,
    alloc: Global,
    book: &Rulebook<R>,
    part: Part,
    now: i64,
) -> Answer
    requires { IsMoment now }
    ensures text { store.new.text ≡ store.old.text }
    ensures becomes { Becomes (state S.Store) (over (state S.Store) book.now store.old)
        (over (state S.Store) book.now store.new)
        (λ x y. Handles R.meaning now (alone (part_view part.entry)) x (answer_view result) y) }
{
    let done = done_by(&part);
    change(store, alloc, book, &[part], done, now)
}

/// Makes all parts of a batch, or none.
fn batch<R: RuleSet, S: Alter>(
    store: &mut Store<S>,
    alloc: Global,
    book: &Rulebook<R>,
    parts: &[Part],
    now: i64,
) -> Answer
    requires { IsMoment now }
    ensures text { store.new.text ≡ store.old.text }
    ensures becomes { Becomes (state S.Store) (over (state S.Store) book.now store.old)
        (over (state S.Store) book.now store.new)
        (λ x y. Handles R.meaning now (batch (map part_view parts.now)) x (answer_view result) y) }
{
    change(store, alloc, book, parts, Done::Batch, now)
}

/// Shows a record: by a reply at once, since what is written of it is text already.
fn get<S: Alter>(store: &mut Store<S>, alloc: Global, types: &Types, id: &str) -> Reply
    ensures text { store.new.text ≡ store.old.text }
    ensures becomes { (ds : Declarations) (means : Meanings) (now : ℤ) → ds.types ≡ types_view types.now
        → Becomes (state S.Store) (over (state S.Store) ds store.old) (over (state S.Store) ds store.new)
        (λ x y. IsReplied means now (get id.now) x result y) }
{
    are_shallow(types);
    match store.written(alloc, id) {
        Ok(None) => Reply::refused(alloc, Refusal::NoRecord),
        Ok(Some(written)) => {
            Reply::shown(alloc, id, written.form.as_str(), written.bundle.as_str())
        }
        Err(fault) => Reply::refused(alloc, undone(fault)),
    }
}

/// The reply to a line's JSON that is no redeclare.
fn reply<R: RuleSet, S: Alter>(
    store: &mut Store<S>,
    alloc: Global,
    book: &Rulebook<R>,
    value: &Value,
    now: i64,
) -> Reply
    requires { IsMoment now }
    ensures text { store.new.text ≡ store.old.text }
    ensures becomes { Becomes (state S.Store) (over (state S.Store) book.now store.old)
        (over (state S.Store) book.now store.new)
        (λ x y. IsReplied R.meaning now (unwrap_or (command_of (json_view value.now)) shape) x result y) }
{
    match command_of(alloc, value) {
        Err(_) => Reply::refused(alloc, Refusal::Memory),
        Ok(None) => Reply::refused(alloc, Refusal::Shape),
        Ok(Some(Command::Alone(part))) => Reply::of(alloc, &alone(store, alloc, book, part, now)),
        Ok(Some(Command::Batch { parts })) => {
            Reply::of(alloc, &batch(store, alloc, book, &parts, now))
        }
        Ok(Some(Command::Get { id })) => get(store, alloc, book.schema().types(), id),
        Ok(Some(Command::Check { id, groups })) => {
            Reply::of(alloc, &check(store, alloc, book, id, &groups, now))
        }
        Ok(Some(Command::CheckField { at, groups })) => {
            Reply::of(alloc, &check_field(store, alloc, book, &at, &groups, now))
        }
        Ok(Some(Command::CheckValue { at, value, groups })) => {
            Reply::of(alloc, &check_value(alloc, book, &at, value, &groups, now))
        }
        Ok(Some(Command::List { form, after, limit })) => {
            Reply::of(
                alloc,
                &list(store, alloc, book.schema(), form, after, limit),
            )
        }
    }
}

/// The reply to a line's JSON.
fn reply_to<R: RuleSet + Drop, S: Alter>(
    store: &mut Store<S>,
    alloc: Global,
    rules: &SharedRules<R>,
    book: &mut Rulebook<SharedRules<R>>,
    value: &Value,
    now: i64,
) -> Reply
    requires { IsMoment now }
    ensures { GoesOn (state S.Store) (serving (state S.Store) (R.known rules.now) book.old store.old)
        (serving (state S.Store) (R.known rules.now) book.new store.new)
        (λ x y. Replies R.meaning now (asks_json (Some (json_view value.now))) x result y) }
{
    match redeclare_of(value) {
        Some(text) => Reply::of(alloc, &redeclare(store, alloc, rules, book, text, now)),
        None => reply(store, alloc, book, value, now),
    }
}

/// The reply to a line that isn't over the limit: one step of the service. The declarations in force
/// are those of the book; a redeclare that is taken puts others there, with the same rules.
pub fn reply_to_line<R: RuleSet + Drop, S: Alter>(
    store: &mut Store<S>,
    alloc: Global,
    rules: &SharedRules<R>,
    book: &mut Rulebook<SharedRules<R>>,
    line: &[u8],
    now: i64,
) -> Reply
    requires { IsMoment now }
    ensures { GoesOn (state S.Store) (serving (state S.Store) (R.known rules.now) book.old store.old)
        (serving (state S.Store) (R.known rules.now) book.new store.new)
        (λ x y. Replies R.meaning now (asks_json (json_of line.now)) x result y) }
{
    match read_json(alloc, line) {
        Ok(value) => reply_to(store, alloc, rules, book, &value, now),
        Err(JsonFault::NotJson) => Reply::refused(alloc, Refusal::NotJson),
        Err(JsonFault::Memory) => Reply::refused(alloc, Refusal::Memory),
    }
}
