//! What fails in a bundle by the walk, which stops early, and by a plain list of all visits; how many
//! visits there are, and how many the walk enters.
ghost use Rattle.fv_bundle.specs.Views.{bundle_view};
ghost use Rattle.fv_bundle.specs.WellTyped.{IsWellTyped};

use crate::judged::{book_of, bundle_of, check, names_of};
use crate::ordered::Ordered;
use fv_bundle::Bundle;
use fv_datum::write_datum;
use fv_listing::list_failures;
use fv_local::Rulebook;
use fv_walk::{Failure, groups_named, visits, walk, walk_counted};
use std::alloc::Global;
use std::process::Abort;
use std::test::Fail;

/// Groups and a bundle: how many visits there are, how many of them are entered, and what fails, each with
/// its path, its number and its value. An object that stands on the way is left out; a type's own sequence
/// and a group beside it; a sequence by conversion, and one that is asked for; a chain of conversions; a
/// conversion that takes place once; a constraint on objects; seven objects that list each other.
const WALKS: &str = r#"
| {"root":"a","objects":{"a":{"type":"Node","fields":{"self":"a","left":"b","right":"b"}},"b":{"type":"Node"}}} => 3 3; code 10 null; left.code 10 null; right.code 10 null
Default | {"root":"a","objects":{"a":{"type":"Acct","fields":{"sub":"b"}},"b":{"type":"Acct","fields":{"y":"v"}}}} => 2 2; sub.x 0 null; x 0 null
Default | {"root":"a","objects":{"a":{"type":"Acct","fields":{"sub":"b","x":"v"}},"b":{"type":"Acct","fields":{"y":"v"}}}} => 2 2; sub.x 0 null; y 1 null
Default Strict | {"root":"a","objects":{"a":{"type":"Acct","fields":{"sub":"b"}},"b":{"type":"Acct","fields":{"y":"v"}}}} => 4 4; sub.x 0 null; x 0 null; y 1 null
Default | {"root":"p","objects":{"p":{"type":"Parent","fields":{"kids":["c","d"]}},"c":{"type":"Child"},"d":{"type":"Child","fields":{"a":"v"}}}} => 5 4; kids[0].a 2 null; kids[1].b 3 null
Steps | {"root":"p","objects":{"p":{"type":"Parent","fields":{"kids":["c","d"]}},"c":{"type":"Child"},"d":{"type":"Child","fields":{"a":"v"}}}} => 6 3; kids[0].a 2 null
Default | {"root":"l1","objects":{"l1":{"type":"Link","fields":{"next":"l2"}},"l2":{"type":"Link","fields":{"next":"l3"}},"l3":{"type":"Link","fields":{"next":"l4"}},"l4":{"type":"Link","fields":{"next":"l5"}},"l5":{"type":"Link","fields":{"next":"l6"}},"l6":{"type":"Link","fields":{"next":"l7"}},"l7":{"type":"Link","fields":{"next":"l8"}},"l8":{"type":"Link","fields":{"next":"l9"}},"l9":{"type":"Link","fields":{"next":"m0"}},"m0":{"type":"Link","fields":{"next":"m1"}},"m1":{"type":"Link","fields":{"next":"m2"}},"m2":{"type":"Link"}}} => 4095 4095
Full | {"root":"t","objects":{"t":{"type":"Top","fields":{"c":"k"}},"k":{"type":"Kid"}}} => 2 2; c.d 7 null
Default | {"root":"t","objects":{"t":{"type":"Top","fields":{"c":"k"}},"k":{"type":"Kid"}}} => 2 2; c.o 8 null
| {"root":"t","objects":{"t":{"type":"Trip","fields":{"legs":["b1","b2"]}},"b1":{"type":"Leg","fields":{"from":"2024-01-01","to":"2024-01-02"}},"b2":{"type":"Leg","fields":{"from":"2024-02-02","to":"2024-02-01"}}}} => 3 3; legs[1] 9 "b2"
| {"root":"b2","objects":{"b2":{"type":"Leg","fields":{"from":"2024-02-02","to":"2024-02-01"}}}} => 1 1;  9 "b2"
| {"root":"a","objects":{"a":{"type":"K","fields":{"to":["b","c","d","e","f","g"]}},"b":{"type":"K","fields":{"to":["a","c","d","e","f","g"]}},"c":{"type":"K","fields":{"to":["a","b","d","e","f","g"]}},"d":{"type":"K","fields":{"to":["a","b","c","e","f","g"]}},"e":{"type":"K","fields":{"to":["a","b","c","d","f","g"]}},"f":{"type":"K","fields":{"to":["a","b","c","d","e","g"]}},"g":{"type":"K","fields":{"to":["a","b","c","d","e","f"]}}}} => 1957 1957
"#;

/// A failure: its path, its number and its value.
fn failure_text(alloc: Global, failure: &Failure) -> Result<String, Fail> {
    let path = failure.path.write(alloc)?;
    let number = failure.number;
    let value = write_datum(alloc, &failure.value)?.to_string(alloc)?;
    Ok(format!(in alloc; "; {path} {number} {value}")?)
}

/// The failures, sorted, each once.
fn failures_text(alloc: Global, failures: &[Failure]) -> Result<String, Fail> {
    let mut parts = Vec::new(alloc);
    for failure in failures {
        parts.push(failure_text(alloc, failure)?)?;
    }
    parts.sort_unstable();
    parts.dedup();
    let mut text = String::new(alloc);
    for part in &parts {
        text.push_str(part.as_str())?;
    }
    Ok(text)
}

/// What fails in a bundle by the list of visits.
fn listed(
    alloc: Global,
    book: &Rulebook<Ordered>,
    bundle: &Bundle,
    asked: &[String],
) -> Result<String, Fail>
    requires { IsWellTyped book.now.types (bundle_view bundle.now) }
{
    let groups = groups_named(alloc, book.schema().groups(), asked)?;
    failures_text(alloc, &list_failures(alloc, book, bundle, &groups, 0)?)
}

/// How many visits a bundle has, and how many are entered; and what fails, by the walk that counts and by
/// the one that doesn't.
fn walked(
    alloc: Global,
    book: &Rulebook<Ordered>,
    bundle: &Bundle,
    asked: &[String],
) -> Result<(String, String, String), Fail> {
    let all = visits(alloc, book.schema(), bundle, asked)?;
    let counted = walk_counted(alloc, book, bundle, asked, 0)?;
    let entered = counted.entered;
    let counts = format!(in alloc; "{all} {entered}")?;
    let failures = failures_text(alloc, &counted.failures)?;
    let others = failures_text(alloc, &walk(alloc, book, bundle, asked, 0)?)?;
    Ok((counts, failures, others))
}

/// What all of them find in a bundle, which is the same.
fn found(
    alloc: Global,
    book: &Rulebook<Ordered>,
    bundle: &Bundle,
    asked: &[String],
) -> Result<String, Fail>
    requires { IsWellTyped book.now.types (bundle_view bundle.now) }
{
    let (counts, failures, others) = walked(alloc, book, bundle, asked)?;
    let listed = listed(alloc, book, bundle, asked)?;
    if failures.as_str() != others.as_str() || failures.as_str() != listed.as_str() {
        return Ok(format!(in alloc; "{failures} but {others} but {listed}")?);
    }
    Ok(format!(in alloc; "{counts}{failures}")?)
}

/// What is found for what a row gives.
fn found_of(alloc: Global, book: &Rulebook<Ordered>, given: &str) -> Result<String, Fail> {
    let (asked, bundle) = given.split_once("| ").ok_or("a bundle")?;
    let schema = book.schema();
    let bundle = bundle_of(alloc, schema, bundle)?;
    found(alloc, book, &bundle, &names_of(alloc, asked)?)
}

fn check_walks(rt: &impl Abort, alloc: Global) -> Result<(), Fail> {
    let book = book_of(alloc)?;
    for row in WALKS.trim().lines() {
        let (given, wanted) = row.split_once(" => ").ok_or("a row")?;
        check(rt, found_of(alloc, &book, given)?.as_str(), wanted, row);
    }
    Ok(())
}

#[test]
fn walks_and_lists_find_what_fails(rt: HostRuntime) -> Result<(), Fail> {
    check_walks(&rt, rt.alloc())
}
