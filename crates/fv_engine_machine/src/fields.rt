//! One field of an object is checked for groups by their names: of a stored object, or of one that
//! isn't there yet.
ghost use Rattle.std.specs.Prelude.{◌≡◌, map, option_map, IfSome, MatchResult};
ghost use Rattle.fv_engine_command.specs.Commands.{check_field, check_value};
ghost use Rattle.fv_datum.specs.Moments.{IsMoment};
ghost use Rattle.fv_datum.specs.View.{view};
ghost use Rattle.fv_engine_machine.specs.Keeping.{ChecksField, IsValueOf, IsReadAt, IsMisreadAt, valued_by};
ghost use Rattle.fv_engine_machine.specs.Machines.{Machine, over, Becomes};
ghost use Rattle.fv_engine_machine.specs.Causes.{Handles};
ghost use Rattle.fv_bundle.specs.Views.{object_view};
ghost use Rattle.fv_bundle.specs.WellTyped.{IsOfType};
ghost use Rattle.fv_bundle.specs.TypesView.{types_view};
ghost use Rattle.fv_engine_reply.specs.Answers.{field_checked, value_checked};
ghost use Rattle.fv_engine_reply.specs.AnswerView.{answer_view};
ghost use Rattle.fv_store.specs.Records.{Records};
ghost use Rattle.serde_json.specs.View.{view as json_view};
ghost use Rattle.fv_store.specs.Stock.{stock_state as state};

use crate::checking::groups_named;
use crate::refusing::{misread, undone, unjudged};
use fv_bundle::{Object, Types, use_in};
use fv_datum::Datum;
use fv_engine_command::{StoredField, TypeField};
use fv_engine_reply::{Answer, Refusal};
use fv_local::Rulebook;
use fv_model::{BundleFault, read_value};
use fv_registry::RuleSet;
use fv_store::Store;
use fv_validate::by_id::{validate_property, validate_value};
use fv_walk::objects_are_of_their_types;
use serde_json::Value;
use sqlite::Alter;
use std::alloc::Global;

/// The violations of a field of a bundle's object for groups by their names. Refused for a name that
/// is no group's, then where there is no such object or its type has no such field, then for too many
/// visits.
fn object_checked<R: RuleSet>(
    alloc: Global,
    book: &Rulebook<R>,
    object: Option<&Object>,
    field: &str,
    names: &[&str],
    now: i64,
) -> Answer
    requires moment { IsMoment now }
    requires typed { IfSome object (λ o. IsOfType book.now.types (object_view o.now)) }
    ensures { ChecksField R.meaning book.now now (option_map (λ o. object_view o.now) object.entry) field.now
        (map (λ n. n.now) names.now) field_checked (answer_view result) }
{
    let asked = match groups_named(alloc, book.schema().groups(), names) {
        Err(_) => return Answer::Refused(Refusal::Memory),
        Ok(None) => return Answer::Refused(Refusal::UnknownGroup),
        Ok(Some(asked)) => asked,
    };
    let Some(object) = object else {
        return Answer::Refused(Refusal::NoSuchField);
    };
    match validate_property(alloc, book, object, field, &asked, now) {
        Ok(violations) => Answer::FieldChecked { violations },
        Err(fault) => Answer::Refused(unjudged(fault)),
    }
}

/// Checks a field of an object of a record.
pub(crate) fn check_field<R: RuleSet, S: Alter>(
    store: &mut Store<S>,
    alloc: Global,
    book: &Rulebook<R>,
    at: &StoredField,
    names: &[&str],
    now: i64,
) -> Answer
    requires { IsMoment now }
    ensures text { store.new.text ≡ store.old.text }
    ensures becomes { Becomes (state S.Store) (over (state S.Store) book.now store.old)
        (over (state S.Store) book.now store.new)
        (λ x y. Handles R.meaning now (check_field at.now.id.now at.now.object.now at.now.field.now
        (map (λ n. n.now) names.now)) x (answer_view result) y) }
{
    objects_are_of_their_types();
    match store.get(alloc, book.schema().types(), at.id) {
        Ok(None) => Answer::Refused(Refusal::NoRecord),
        Ok(Some(stored)) => {
            object_checked(
                alloc,
                book,
                stored.bundle.object(at.object),
                at.field,
                names,
                now,
            )
        }
        Err(fault) => Answer::Refused(undone(fault)),
    }
}

/// The datum that a value is in the field of that name in the type of that name; none where there is
/// no such field.
fn value_in(
    alloc: Global,
    types: &Types,
    type_name: &str,
    field: &str,
    value: &Value,
) -> Result<Option<Datum>, BundleFault>
    ensures { MatchResult result (λ o. IsReadAt (types_view types.now) type_name.now field.now (json_view value.now) (option_map view o))
        (λ why. IsMisreadAt (types_view types.now) type_name.now field.now (json_view value.now) why) }
{
    let Some(fields) = types.fields(type_name) else {
        return Ok(None);
    };
    let Some(type_use) = use_in(fields, field) else {
        return Ok(None);
    };
    match read_value(alloc, type_use, value) {
        Ok(datum) => Ok(Some(datum)),
        Err(fault) => Err(fault),
    }
}

/// The violations that a datum would have in the field of that name in the type of that name, for
/// groups by their names. Refused as `object_checked`: no datum stands for no such field.
fn datum_checked<R: RuleSet>(
    alloc: Global,
    book: &Rulebook<R>,
    at: &TypeField,
    datum: Option<&Datum>,
    names: &[&str],
    now: i64,
) -> Answer
    requires moment { IsMoment now }
    requires fits { IfSome datum (λ d. IsValueOf book.now.types at.now.type_name.now at.now.field.now (view d.now)) }
    ensures { ChecksField R.meaning book.now now (valued_by book.now.types at.now.type_name.now at.now.field.now (option_map (λ d. view d.now) datum.entry))
        at.now.field.now (map (λ n. n.now) names.now) value_checked (answer_view result) }
{
    let asked = match groups_named(alloc, book.schema().groups(), names) {
        Err(_) => return Answer::Refused(Refusal::Memory),
        Ok(None) => return Answer::Refused(Refusal::UnknownGroup),
        Ok(Some(asked)) => asked,
    };
    let Some(datum) = datum else {
        return Answer::Refused(Refusal::NoSuchField);
    };
    match validate_value(alloc, book, at.type_name, at.field, datum, &asked, now) {
        Ok(violations) => Answer::ValueChecked { violations },
        Err(fault) => Answer::Refused(unjudged(fault)),
    }
}

/// Checks a value that isn't stored. It needs no store.
pub(crate) fn check_value<R: RuleSet>(
    alloc: Global,
    book: &Rulebook<R>,
    at: &TypeField,
    value: &Value,
    names: &[&str],
    now: i64,
) -> Answer
    requires { IsMoment now }
    ensures { (x : Machine Records) → x.declared ≡ book.now
        → Handles R.meaning now (check_value at.now.type_name.now at.now.field.now (json_view value.now) (map (λ n. n.now) names.now)) x (answer_view result) x }
{
    match value_in(alloc, book.schema().types(), at.type_name, at.field, value) {
        Err(fault) => Answer::Refused(misread(fault)),
        Ok(datum) => datum_checked(alloc, book, at, datum.as_ref(), names, now),
    }
}
