//! The replies whose texts are made.
ghost use Rattle.std.specs.Prelude.{◌≡◌, ◌↔◌, false, None, Some, IfOk, IsSome, IsTrue, map, string_bytes, codes};
ghost use Rattle.fv_engine_lines.specs.Lines.{IsOpen};
ghost use Rattle.fv_datum.specs.View.{view};
ghost use Rattle.fv_bundle.specs.Bundles.{Bundled};
ghost use Rattle.fv_bundle.specs.Writing.{datum_json};
ghost use Rattle.fv_model.specs.Writing.{bundle_json};
ghost use Rattle.fv_engine_reply.specs.Answers.{violated, shown, ids as ids_told, misdeclared, unfit};
ghost use Rattle.fv_engine_reply.specs.Texts.{violation_json, judged_json, listing_json, refused_json, answer_json, answer_text};
ghost use Rattle.fv_validate.specs.ViolationView.{judged_view, violation_view};
ghost use Rattle.json.specs.Json.{document};
ghost use Rattle.serde_json.specs.Data as json;
ghost use Rattle.serde_json.specs.View.{items_of, view as json_view};
ghost use Rattle.serde_json.specs.Written.{compact_text, has_float};

use crate::answer::{Misfit, Refusal};
use crate::reply::Reply;
use fv_datum::{DatumFault, write_datum};
use fv_declare_judging::DeclFault;
use fv_model::{BundleFault, quoted};
use fv_validate::{Judged, Violation};
use json::{Scratch, is_valid};
use serde_json::{Value, json, push};
use std::alloc::{AllocError, Global};

/// The compact text of JSON without floats.
fn text_of(alloc: Global, value: &Value) -> Result<Reply, AllocError>
    requires { has_float (json_view value.now) ≡ false }
    ensures { IfOk result (λ r. r ≡ compact_text (json_view value.now)) }
{
    Reply::made(value.to_string(alloc)?)
}

/// The JSON array of values.
fn array_of(values: Vec<Value>) -> Value
    ensures { json_view result ≡ json.array (items_of (map json_view values.items)) }
{
    Value::Array(values)
}

fn bundle_refused_value(alloc: Global, fault: BundleFault) -> Result<Value, AllocError>
    ensures { IfOk result (λ v. json_view v ≡ refused_json None (Refusal.Bundle fault)) }
{
    let code = fault.code();
    json!(in alloc; {"error": "C5", "fault": code, "name": "Bundle"})
}

/// `{"error":"C5","fault":..,"name":"Bundle"}`.
pub(crate) fn bundle_refused(alloc: Global, fault: BundleFault) -> Result<Reply, AllocError>
    ensures { IfOk result (λ r. r ≡ compact_text (refused_json None (Refusal.Bundle fault))) }
{
    let value = bundle_refused_value(alloc, fault)?;
    text_of(alloc, &value)
}

/// The JSON of a violation's value; null for a datum that can't be written, which no bundle holds.
fn value_of(alloc: Global, violation: &Violation) -> Result<Value, AllocError>
    ensures { IfOk result (λ v. json_view v ≡ datum_json (view violation.now.value)) }
{
    match write_datum(alloc, &violation.value) {
        Ok(value) => Ok(value),
        Err(DatumFault::WrongKind) => Ok(Value::Null),
        Err(DatumFault::Memory) => Err(AllocError),
    }
}

/// `{"constraint":..,"message":..,"occurrence":..,"path":..,"value":..}`.
fn violation_value(alloc: Global, violation: &Violation) -> Result<Value, AllocError>
    ensures { IfOk result (λ v. json_view v ≡ violation_json (violation_view violation.now)) }
{
    let value = value_of(alloc, violation)?;
    let constraint = violation.constraint.as_str();
    let message = violation.message.as_str();
    let occurrence = violation.occurrence;
    let path = violation.path.as_str();
    json!(in alloc; {
        "constraint": constraint,
        "message": message,
        "occurrence": occurrence,
        "path": path,
        "value": value
    })
}

fn violation_values(alloc: Global, violations: &[Violation]) -> Result<Vec<Value>, AllocError>
    ensures { IfOk result (λ v. map json_view v.items ≡ map violation_json (map violation_view violations.now)) }
{
    let mut values = Vec::with_capacity(alloc, violations.len())?;
    for violation in violations {
        push(&mut values, violation_value(alloc, violation)?)?;
    }
    Ok(values)
}

/// `{"id":..,"violations":[..]}`.
fn judged_value(alloc: Global, judged: &Judged) -> Result<Value, AllocError>
    ensures { IfOk result (λ v. json_view v ≡ judged_json (judged_view judged.now)) }
{
    let id = judged.id.as_str();
    let violations = array_of(violation_values(alloc, &judged.violations)?);
    json!(in alloc; {"id": id, "violations": violations})
}

fn judged_values(alloc: Global, records: &[Judged]) -> Result<Vec<Value>, AllocError>
    ensures { IfOk result (λ v. map json_view v.items ≡ map judged_json (map judged_view records.now)) }
{
    let mut values = Vec::with_capacity(alloc, records.len())?;
    for judged in records {
        push(&mut values, judged_value(alloc, judged)?)?;
    }
    Ok(values)
}

fn violated_value(alloc: Global, records: &[Judged]) -> Result<Value, AllocError>
    ensures { IfOk result (λ v. json_view v ≡ answer_json (violated (map judged_view records.now))) }
{
    let records = array_of(judged_values(alloc, records)?);
    json!(in alloc; {"error": "C10", "name": "Violations", "records": records})
}

/// `{"error":"C10","name":"Violations","records":[..]}`, with the records that have violations.
pub(crate) fn violated(alloc: Global, records: &[Judged]) -> Result<Reply, AllocError>
    ensures { IfOk result (λ r. r ≡ answer_text (violated (map judged_view records.now))) }
{
    let value = violated_value(alloc, records)?;
    text_of(alloc, &value)
}

fn listing_value(alloc: Global, name: &str, violations: &[Violation]) -> Result<Value, AllocError>
    ensures { IfOk result (λ v. json_view v ≡ listing_json name.now (map violation_view violations.now)) }
{
    let violations = array_of(violation_values(alloc, violations)?);
    json!(in alloc; {"ok": name, "violations": violations})
}

/// `{"ok":NAME,"violations":[..]}`, for the check of that name.
pub(crate) fn listing(
    alloc: Global,
    name: &str,
    violations: &[Violation],
) -> Result<Reply, AllocError>
    ensures { IfOk result (λ r. r ≡ compact_text (listing_json name.now (map violation_view violations.now))) }
{
    let value = listing_value(alloc, name, violations)?;
    text_of(alloc, &value)
}

fn text_values(alloc: Global, texts: &[String]) -> Result<Vec<Value>, AllocError>
    ensures { IfOk result (λ v. map json_view v.items ≡ map (λ t. json.string t) (map string_bytes texts.now)) }
{
    let mut values = Vec::with_capacity(alloc, texts.len())?;
    for text in texts {
        push(
            &mut values,
            Value::String(String::from_str(alloc, text.as_str())?),
        )?;
    }
    Ok(values)
}

fn ids_value(alloc: Global, ids: &[String]) -> Result<Value, AllocError>
    ensures { IfOk result (λ v. json_view v ≡ answer_json (ids_told (map string_bytes ids.now))) }
{
    let ids = array_of(text_values(alloc, ids)?);
    json!(in alloc; {"ids": ids, "ok": "list"})
}

/// `{"ids":[..],"ok":"list"}`.
pub(crate) fn ids_listed(alloc: Global, ids: &[String]) -> Result<Reply, AllocError>
    ensures { IfOk result (λ r. r ≡ answer_text (ids_told (map string_bytes ids.now))) }
{
    let value = ids_value(alloc, ids)?;
    text_of(alloc, &value)
}

fn part_refused_value(alloc: Global, part: usize, why: Refusal) -> Result<Value, AllocError>
    ensures { IfOk result (λ v. json_view v ≡ refused_json (Some part) why) }
{
    let code = why.code();
    let name = why.name();
    match why {
        Refusal::Bundle(fault) => {
            let fault = fault.code();
            json!(in alloc; {"error": code, "fault": fault, "name": name, "part": part})
        }
        _ => json!(in alloc; {"error": code, "name": name, "part": part}),
    }
}

/// `{"error":..,"name":..,"part":..}`, with `fault` for a bundle.
pub(crate) fn part_refused(alloc: Global, part: usize, why: Refusal) -> Result<Reply, AllocError>
    ensures { IfOk result (λ r. r ≡ compact_text (refused_json (Some part) why)) }
{
    let value = part_refused_value(alloc, part, why)?;
    text_of(alloc, &value)
}

fn misdeclared_value(alloc: Global, fault: DeclFault) -> Result<Value, AllocError>
    ensures { IfOk result (λ v. json_view v ≡ answer_json (misdeclared fault)) }
{
    let code = fault.code();
    json!(in alloc; {"error": "C13", "fault": code, "name": "Declarations"})
}

/// `{"error":"C13","fault":..,"name":"Declarations"}`.
pub(crate) fn misdeclared(alloc: Global, fault: DeclFault) -> Result<Reply, AllocError>
    ensures { IfOk result (λ r. r ≡ answer_text (misdeclared fault)) }
{
    let value = misdeclared_value(alloc, fault)?;
    text_of(alloc, &value)
}

fn unfit_value(alloc: Global, id: &str, why: Misfit) -> Result<Value, AllocError>
    ensures { IfOk result (λ v. json_view v ≡ answer_json (unfit id.now why)) }
{
    let code = why.code();
    json!(in alloc; {"error": "C14", "fault": code, "id": id, "name": "Unfit"})
}

/// `{"error":"C14","fault":..,"id":..,"name":"Unfit"}`.
pub(crate) fn unfit(alloc: Global, id: &str, why: Misfit) -> Result<Reply, AllocError>
    ensures { IfOk result (λ r. r ≡ answer_text (unfit id.now why)) }
{
    let value = unfit_value(alloc, id, why)?;
    text_of(alloc, &value)
}

/// Whether a text is JSON in one line.
pub(crate) fn is_json_line(alloc: Global, text: &str) -> Result<bool, AllocError>
    ensures { IfOk result (λ b. IsTrue b ↔ (IsSome (document text.now) × IsOpen text.now)) }
{
    if text.as_bytes().contains(&b'\n') {
        Ok(false)
    } else {
        let mut scratch = Scratch::new(alloc);
        is_valid(text, &mut scratch)
    }
}

/// `{"bundle":..,"form":..,"id":..,"ok":"get"}`.
pub(crate) fn record_shown(
    alloc: Global,
    id: &str,
    form: &str,
    bundle: &str,
) -> Result<Reply, AllocError>
    ensures text { IfOk result (λ r. (b : Bundled) → bundle.now ≡ compact_text (bundle_json b)
        → r ≡ answer_text (shown id.now form.now b)) }
    ensures line { IfOk result (λ r. IsOpen bundle.now → IsOpen r) }
{
    let form = quoted(alloc, form)?;
    let id = quoted(alloc, id)?;
    let text = format!(in alloc;
        "{{\"bundle\":{bundle},\"form\":{form},\"id\":{id},\"ok\":\"get\"}}"
    )?;
    Reply::made(text)
}
