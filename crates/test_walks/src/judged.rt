//! The declarations of all rows, and what rows give as texts.
ghost use Rattle.std.specs.Prelude.{IfOk};
ghost use Rattle.fv_bundle.specs.Views.{bundle_view};
ghost use Rattle.fv_bundle.specs.WellTyped.{IsWellTyped};

use crate::ordered::Ordered;
use fv_bundle::Bundle;
use fv_datum::read_text;
use fv_declare::{Schema, read_schema};
use fv_local::Rulebook;
use fv_model::read_bundle;
use std::alloc::Global;
use std::process::Abort;
use std::test::Fail;

/// The declarations. Their constraints are numbered by types, fields and uses: 0 and 1 those of `Acct`, 2 and 3
/// of `Child`, 4 to 6 of `Item`, 7 and 8 of `Kid`, 9 of `Leg`, 10 of `Node`, 11 to 16 of `V`.
const DECLARATIONS: &str = r#"{"types":{
    "Acct":{"fields":{
        "sub":{"type":{"ref":"Acct"},"valid":true},
        "x":{"type":"text","constraints":[{"constraint":"NotNull"}]},
        "y":{"type":"text","constraints":[{"constraint":"NotNull","groups":["Strict"]}]}},
        "sequence":["Acct","Strict"]},
    "Child":{"fields":{
        "a":{"type":"text","constraints":[{"constraint":"NotNull","groups":["A"]}]},
        "b":{"type":"text","constraints":[{"constraint":"NotNull","groups":["B"]}]}}},
    "Item":{"fields":{
        "count":{"type":"integer","constraints":[{"constraint":"Min","with":{"value":1}}]},
        "name":{"type":"text","constraints":[{"constraint":"NotNull"},{"constraint":"Size","with":{"min":1,"max":3}}]}}},
    "K":{"fields":{"to":{"type":{"list":{"type":{"ref":"K"},"valid":true}}}}},
    "Kid":{"fields":{
        "d":{"type":"text","constraints":[{"constraint":"NotNull"}]},
        "o":{"type":"text","constraints":[{"constraint":"NotNull","groups":["Other"]}]}}},
    "Leg":{"fields":{"from":{"type":"date"},"to":{"type":"date"}},"constraints":[{"constraint":"Span"}]},
    "Link":{"fields":{"next":{"type":{"ref":"Link"},"valid":true,"convert":{"A":"S","B":"S","Default":"S"}}}},
    "Node":{"fields":{
        "code":{"type":"text","constraints":[{"constraint":"NotNull"}]},
        "left":{"type":{"ref":"Node"},"valid":true},
        "right":{"type":{"ref":"Node"},"valid":true},
        "self":{"type":{"ref":"Node"},"valid":true}}},
    "Parent":{"fields":{"kids":{"type":{"list":{"type":{"ref":"Child"},"valid":true,"convert":{"Default":"Steps"}}}}}},
    "Top":{"fields":{"c":{"type":{"ref":"Kid"},"valid":true,"convert":{"Default":"Other","Other":"Full"}}}},
    "Trip":{"fields":{"legs":{"type":{"list":{"type":{"ref":"Leg"},"valid":true}}}}},
    "V":{"fields":{
        "d":{"type":"decimal","constraints":[{"constraint":"Digits","with":{"fraction":1,"integer":2}}]},
        "e":{"type":"decimal","constraints":[{"constraint":"DecimalMin","with":{"inclusive":false,"value":"0.5"}}]},
        "m":{"type":{"map":{"type":"text"},"keys":[{"constraint":"Size","with":{"max":2}}]}},
        "n":{"type":"decimal","constraints":[{"constraint":"Min","with":{"value":1}}]},
        "opts":{"type":{"list":{"type":{"optional":{"type":"text","constraints":[{"constraint":"NotNull"}]}}}}},
        "t":{"type":"text","constraints":[{"constraint":"NotBlank"}]}}}},
    "groups":{"A":{},"B":{},"Full":{"inherits":["Default"]},"Other":{},"S":{"sequence":["A","B"]},
        "Steps":{"sequence":["A","B"]},"Strict":{}},
    "constraints":{"Span":{"attributes":{"end":{"default":"to","kind":"text"},"start":{"default":"from","kind":"text"}},
        "message":"start after end","rule":{"object":3}}},
    "forms":{}}"#;

/// What objects are judged by.
pub(crate) fn book_of(alloc: Global) -> Result<Rulebook<Ordered>, Fail> {
    let schema = read_schema(alloc, &Ordered, DECLARATIONS.as_bytes())?;
    Ok(Rulebook::new(alloc, Ordered, schema)?)
}

/// The bundle that a text is.
pub(crate) fn bundle_of(alloc: Global, schema: &Schema, text: &str) -> Result<Bundle, Fail>
    ensures { IfOk result (λ b. IsWellTyped schema.now.types (bundle_view b)) }
{
    let document = read_text(alloc, text)?;
    Ok(read_bundle(alloc, schema.types(), None, &document)?)
}

/// The names in a text.
pub(crate) fn names_of(alloc: Global, names: &str) -> Result<Vec<String>, Fail> {
    let mut asked = Vec::new(alloc);
    for name in names.split_whitespace() {
        asked.push(String::from_str(alloc, name)?)?;
    }
    Ok(asked)
}

/// What is found for a row is what is wanted of it.
pub(crate) fn check(rt: &impl Abort, found: &str, wanted: &str, row: &str) {
    assert_eq!(rt; found, wanted, "{row}");
}
