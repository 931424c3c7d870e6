//! The ids of a form are listed.
ghost use Rattle.std.specs.Prelude.{◌≡◌, option_map};
ghost use Rattle.fv_engine_command.specs.Commands.{list};
ghost use Rattle.fv_engine_machine.specs.Machines.{over, Becomes};
ghost use Rattle.fv_engine_machine.specs.Causes.{Handles};
ghost use Rattle.fv_registry.specs.Meanings.{Meanings};
ghost use Rattle.fv_engine_reply.specs.AnswerView.{answer_view};
ghost use Rattle.fv_store.specs.Stock.{stock_state as state};

use crate::refusing::undone;
use fv_declare_schema::Schema;
use fv_engine_reply::{Answer, Refusal};
use fv_store::Store;
use sqlite::Alter;
use std::alloc::Global;

/// Lists the ids of a form above one, so many at most.
pub(crate) fn list<S: Alter>(
    store: &mut Store<S>,
    alloc: Global,
    schema: &Schema,
    form: &str,
    after: Option<&str>,
    limit: u32,
) -> Answer
    ensures text { store.new.text ≡ store.old.text }
    ensures becomes { (means : Meanings) (now : _) → Becomes (state S.Store) (over (state S.Store) schema.now store.old)
        (over (state S.Store) schema.now store.new)
        (λ x y. Handles means now (list form.now (option_map (λ s. s.now) after.entry) limit) x (answer_view result) y) }
{
    match schema.root_of(form) {
        None => Answer::Refused(Refusal::UnknownForm),
        Some(_) => match store.list(alloc, form, after, limit) {
            Ok(ids) => Answer::Ids { ids },
            Err(fault) => Answer::Refused(undone(fault)),
        },
    }
}
