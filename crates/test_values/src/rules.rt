//! Rules of the tests' own, asked by their numbers: 100 holds of null and of integers of at least 18, 200
//! of null and of texts of at most 3 bytes. And registries that are refused.
ghost use Rattle.std.specs.Prelude.{◌≡◌, true};
ghost use Rattle.fv_datum.specs.View.{view};
ghost use Rattle.test_values.specs.Trial.{at_least, short, trial};

use crate::given::{check, datum_of, type_use};
use fv_datum::{Attrs, Datum};
use fv_registry::{FieldCall, FieldValidator, Meaning, Registry, RuleSet, Ruled};
use std::alloc::Global;
use std::collections::BTreeMap;
use std::process::Abort;
use std::test::Fail;

/// What these rules mean.
#[derive(Drop)]
struct Trial;

impl Meaning for Trial {
    ghost decides = { trial };

    ghost decides_object = { λ _ _ _. true };
}

/// Null, or an integer of at least that number.
fn at_least(least: i64, datum: &Datum) -> bool
    ensures { result ≡ at_least least (view datum.now) }
{
    match datum {
        Datum::Null => true,
        Datum::Integer(number) => least <= *number,
        _ => false,
    }
}

/// Null, or a text of at most 3 bytes.
fn short(datum: &Datum) -> bool
    ensures { result ≡ short (view datum.now) }
{
    match datum {
        Datum::Null => true,
        Datum::Text(text) => text.len() <= 3,
        _ => false,
    }
}

/// A rule's number, what a field holds and a value: what the rule answers.
const ANSWERS: &str = r#"
100 I : 18 => Some(true)
100 I : 17 => Some(false)
100 I : null => Some(true)
200 I : 5 => Some(false)
200 T : "abc" => Some(true)
200 T : "abcd" => Some(false)
99 I : 18 => None
"#;

/// What a rule answers.
fn answered<R: RuleSet>(alloc: Global, rules: &Ruled<R>, given: &str) -> Result<String, Fail> {
    let (rule, rest) = given.split_once(' ').ok_or("a rule")?;
    let (held, value) = rest.split_once(" : ").ok_or("a value")?;
    let datum = datum_of(alloc, &type_use(alloc, held)?, value)?;
    let attrs = Attrs::new(BTreeMap::new(alloc));
    let answer = rules.ask(rule.parse::<u32>()?, &datum, &attrs);
    Ok(format!(in alloc; "{answer:?}")?)
}

/// The rules answer each row as it is wanted.
fn check_answers<R: RuleSet + Drop>(
    rt: &impl Abort,
    alloc: Global,
    rules: R,
    rows: &str,
) -> Result<(), Fail>
    requires { R.means rules }
{
    let rules = Ruled::new(rules);
    for row in rows.trim().lines() {
        let (given, wanted) = row.split_once(" => ").ok_or("a row")?;
        let found = answered(alloc, &rules, given)?;
        check(rt, found.as_str(), wanted, row);
    }
    Ok(())
}

#[test]
fn rules_answer_by_their_numbers(rt: HostRuntime) -> Result<(), Fail> {
    let alloc = rt.alloc();
    let least = 18;
    let call: FieldCall = Box::new(
        alloc,
        move |datum: &Datum, _attrs: &Attrs| at_least(least, datum),
    )?;
    let other: FieldCall = Box::new(alloc, |datum: &Datum, _attrs: &Attrs| short(datum))?;
    let fields = vec![in alloc;
        FieldValidator {
            rule: 100,
            kinds: Vec::new(alloc),
            call
        },
        FieldValidator {
            rule: 200,
            kinds: Vec::new(alloc),
            call: other
        },
    ]?;
    let registry = Registry::<Trial>::new(alloc, fields, Vec::new(alloc))?;
    check_answers(&rt, alloc, registry, ANSWERS)
}

#[test]
fn rules_answer_in_the_other_order(rt: HostRuntime) -> Result<(), Fail> {
    let alloc = rt.alloc();
    let least = 18;
    let call: FieldCall = Box::new(
        alloc,
        move |datum: &Datum, _attrs: &Attrs| at_least(least, datum),
    )?;
    let other: FieldCall = Box::new(alloc, |datum: &Datum, _attrs: &Attrs| short(datum))?;
    let fields = vec![in alloc;
        FieldValidator {
            rule: 200,
            kinds: Vec::new(alloc),
            call: other
        },
        FieldValidator {
            rule: 100,
            kinds: Vec::new(alloc),
            call
        },
    ]?;
    let registry = Registry::<Trial>::new(alloc, fields, Vec::new(alloc))?;
    check_answers(&rt, alloc, registry, ANSWERS)
}

#[test]
fn a_registry_without_validators_answers_nothing(rt: HostRuntime) -> Result<(), Fail> {
    let alloc = rt.alloc();
    let registry = Registry::<Trial>::new(alloc, Vec::new(alloc), Vec::new(alloc))?;
    check_answers(&rt, alloc, registry, "99 I : 18 => None")
}

/// A validator of a rule that holds of everything.
fn validator(alloc: Global, rule: u32) -> Result<FieldValidator, Fail> {
    Ok(FieldValidator {
        rule,
        kinds: Vec::new(alloc),
        call: Box::new(alloc, |_datum: &Datum, _attrs: &Attrs| true)?,
    })
}

/// The fault of validators of the rules below a number and of one more, or `taken`.
fn fault_of(alloc: Global, below: u32, more: u32) -> Result<String, Fail> {
    let mut fields = Vec::new(alloc);
    for rule in 0..below {
        fields.push(validator(alloc, rule)?)?;
    }
    fields.push(validator(alloc, more)?)?;
    match Registry::<Trial>::new(alloc, fields, Vec::new(alloc)) {
        Ok(_) => Ok(String::from_str(alloc, "taken")?),
        Err(fault) => Ok(String::from_str(alloc, fault.name())?),
    }
}

#[test]
fn rules_stand_once_and_256_at_most(rt: HostRuntime) -> Result<(), Fail> {
    for (below, more, wanted) in [
        (255, 255, "taken"),
        (256, 256, "TooMany"),
        (2, 1, "DuplicateRule"),
    ] {
        let found = fault_of(rt.alloc(), below, more)?;
        check(&rt, found.as_str(), wanted, "validators");
    }
    Ok(())
}
