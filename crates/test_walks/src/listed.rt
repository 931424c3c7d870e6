//! Violations as they are listed: of a bundle, of one field of an object, and of a value that none has
//! stored; and what fails in one object by its own constraints.
ghost use Rattle.std.specs.Prelude.{◌<◌, length};

use crate::judged::{book_of, bundle_of, check, names_of};
use crate::ordered::Ordered;
use fv_bundle::{Fields, Object};
use fv_datum::{Datum, read_text, write_datum};
use fv_declare_schema::GroupId;
use fv_local::Rulebook;
use fv_model::{read_value, single};
use fv_validate::{ValidateFault, Violation, validate, validate_property, validate_value};
use std::alloc::Global;
use std::process::Abort;
use std::test::Fail;

/// Groups and a bundle, or an object, a field and a bundle, or a type, a field and a value: the violations, each
/// with its path, constraint, number, value and message, or the fault. In front of those of a value stand the
/// numbers of all that fails in an object with this datum alone: of `V` also the blank `t`.
const LISTED: &str = r#"
| {"root":"a","objects":{"a":{"type":"Item","fields":{"count":1,"name":"abc"}}}} => nothing
| {"root":"a","objects":{"a":{"type":"Item","fields":{"count":1,"name":"😀bc"}}}} => name Size 6 "😀bc" size must be between 1 and 3;
| {"root":"a","objects":{"a":{"type":"Item"}}} => name NotNull 5 null must not be null;
| {"root":"a","objects":{"a":{"type":"Item","fields":{"count":0,"name":""}}}} => count Min 4 0 must be greater than or equal to 1;name Size 6 "" size must be between 1 and 3;
| {"root":"a","objects":{"a":{"type":"Node","fields":{"self":"a","left":"b","right":"b"}},"b":{"type":"Node"}}} => code NotNull 10 null must not be null;left.code NotNull 10 null must not be null;right.code NotNull 10 null must not be null;
| {"root":"t","objects":{"t":{"type":"Trip","fields":{"legs":["b1","b2"]}},"b1":{"type":"Leg"},"b2":{"type":"Leg","fields":{"from":"2024-02-02","to":"2024-02-01"}}}} => legs[1] Span 9 "b2" start after end;
Steps | {"root":"p","objects":{"p":{"type":"Parent","fields":{"kids":["c","d"]}},"c":{"type":"Child"},"d":{"type":"Child","fields":{"a":"v"}}}} => kids[0].a NotNull 2 null must not be null;
Nope | {"root":"a","objects":{"a":{"type":"Item"}}} => UnknownGroup
a y of {"root":"a","objects":{"a":{"type":"Acct","fields":{"sub":"b"}},"b":{"type":"Acct","fields":{"y":"v"}}}} => y NotNull 1 null must not be null;
a z of {"root":"a","objects":{"a":{"type":"Acct"}}} => NoSuchField
a left of {"root":"a","objects":{"a":{"type":"Node","fields":{"left":"b"}},"b":{"type":"Node"}}} => nothing
Item name = "abcd" => [6] name Size 6 "abcd" size must be between 1 and 3;
Item count = 0 => [4, 5] count Min 4 0 must be greater than or equal to 1;
V d = "12.50" => [16] nothing
V d = "12.05" => [11, 16] d Digits 11 "12.05" numeric value out of bounds (<2 digits>.<1 digits> expected);
V e = "0.50" => [12, 16] e DecimalMin 12 "0.50" must not be below 0.5 (inclusive: false);
V m = {"a\"]":"x"} => [13, 16] m["a\"]"].<map key> Size 13 "a\"]" size must be between 0 and 2;
V n = "0.999999999" => [14, 16] n Min 14 "0.999999999" must be greater than or equal to 1;
V opts = [null,[],[""]] => [15, 16] opts[1].<list element> NotNull 15 null must not be null;
V t = "" => [16] t NotBlank 16 "" must not be blank;
Acct y = "v" => [0] nothing
Acct x = "v" => [1] nothing
"#;

/// Adds a violation.
fn push_violation(text: &mut String, alloc: Global, violation: &Violation) -> Result<(), Fail> {
    let path = violation.path.as_str();
    let constraint = violation.constraint.as_str();
    let occurrence = violation.occurrence;
    let message = violation.message.as_str();
    let value = write_datum(alloc, &violation.value)?.to_string(alloc)?;
    write!(text, "{path} {constraint} {occurrence} {value} {message};")?;
    Ok(())
}

/// Violations in their order, or the name of the fault.
fn shown(alloc: Global, listed: Result<Vec<Violation>, ValidateFault>) -> Result<String, Fail> {
    let violations = match listed {
        Ok(violations) => violations,
        Err(fault) => return Ok(String::from_str(alloc, fault.name())?),
    };
    if violations.is_empty() {
        return Ok(String::from_str(alloc, "nothing")?);
    }
    let mut text = String::new(alloc);
    for violation in &violations {
        push_violation(&mut text, alloc, violation)?;
    }
    Ok(text)
}

/// The numbers of what fails in an object in a group.
fn local_of(
    alloc: Global,
    book: &Rulebook<Ordered>,
    object: &Object,
    group: GroupId,
) -> Result<Vec<usize>, Fail>
    requires { group.index < length book.now.groups }
{
    let mut numbers = Vec::new(alloc);
    for failure in &book.local(alloc, object, group, 0)? {
        numbers.push(failure.number)?;
    }
    numbers.sort_unstable();
    numbers.dedup();
    Ok(numbers)
}

/// What is listed of a datum for a field of a type.
fn of_datum(
    alloc: Global,
    book: &Rulebook<Ordered>,
    (type_name, field): (&str, &str),
    datum: &Datum,
) -> Result<String, Fail> {
    let schema = book.schema();
    let type_id = schema.types().find(type_name).ok_or("a type")?;
    let object = single(alloc, schema.types(), type_id, field, datum)?.ok_or("an object")?;
    let group = schema.groups().find("Default").ok_or("a group")?;
    let local = local_of(alloc, book, &object, group)?;
    let asked = Vec::new(alloc);
    let listed = validate_value(alloc, book, type_name, field, datum, &asked, 0);
    let listed = shown(alloc, listed)?;
    Ok(format!(in alloc; "{local:?} {listed}")?)
}

/// The datum that a JSON value is in a field.
fn datum_of(alloc: Global, fields: &Fields, field: &str, value: &str) -> Result<Datum, Fail> {
    let value = read_text(alloc, value)?;
    let held = fields.get(field).ok_or("a field")?;
    Ok(read_value(alloc, held, &value)?)
}

/// What is listed of a value for a field of a type.
fn of_value(
    alloc: Global,
    book: &Rulebook<Ordered>,
    place: &str,
    value: &str,
) -> Result<String, Fail> {
    let (type_name, field) = place.split_once(' ').ok_or("a field")?;
    let fields = book.schema().types().fields(type_name).ok_or("a type")?;
    let datum = datum_of(alloc, fields, field, value)?;
    of_datum(alloc, book, (type_name, field), &datum)
}

/// What is listed of one field of an object in a bundle.
fn of_property(
    alloc: Global,
    book: &Rulebook<Ordered>,
    place: &str,
    bundle: &str,
) -> Result<String, Fail> {
    let (object, field) = place.split_once(' ').ok_or("a field")?;
    let bundle = bundle_of(alloc, book.schema(), bundle)?;
    let object = bundle.object(object).ok_or("an object")?;
    let asked = Vec::new(alloc);
    shown(
        alloc,
        validate_property(alloc, book, object, field, &asked, 0),
    )
}

/// What is listed for what a row gives.
fn listed(alloc: Global, book: &Rulebook<Ordered>, given: &str) -> Result<String, Fail> {
    if let Some((place, value)) = given.split_once(" = ") {
        return of_value(alloc, book, place, value);
    }
    if let Some((place, bundle)) = given.split_once(" of ") {
        return of_property(alloc, book, place, bundle);
    }
    let (asked, bundle) = given.split_once("| ").ok_or("a bundle")?;
    let asked = names_of(alloc, asked)?;
    let bundle = bundle_of(alloc, book.schema(), bundle)?;
    shown(alloc, validate(alloc, book, &bundle, &asked, 0))
}

fn check_listed(rt: &impl Abort, alloc: Global) -> Result<(), Fail> {
    let book = book_of(alloc)?;
    for row in LISTED.trim().lines() {
        let (given, wanted) = row.split_once(" => ").ok_or("a row")?;
        check(rt, listed(alloc, &book, given)?.as_str(), wanted, row);
    }
    Ok(())
}

#[test]
fn violations_are_listed(rt: HostRuntime) -> Result<(), Fail> {
    check_listed(&rt, rt.alloc())
}
