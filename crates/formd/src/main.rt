//! The program `formd`: the words, streams and clock of the machine, and closures for the rules of
//! the house.
#![tactic(auto)]

use formd_task::MachineClock;
use formd_words::{Failure, given_words, run_words};
use fv_bundle::Object;
use fv_datum::{Attrs, Datum};
use fv_house::{house_registry, luhn, not_after, one_of, sum_is};
use fv_registry::{FieldCall, ObjectCall};
use std::process::ExitCode;

/// Makes the closures, does what the program's words ask, and gives the exit status. Refused for
/// words that aren't UTF-8, or for want of memory for them and the closures.
fn run(rt: &HostRuntime) -> Result<u8, Failure> {
    let alloc = rt.alloc();
    let words = given_words(rt)?;
    let digits: FieldCall = Box::new(alloc, |datum: &Datum, _attrs: &Attrs| luhn(datum))?;
    let listed: FieldCall = Box::new(alloc, |datum: &Datum, attrs: &Attrs| one_of(datum, attrs))?;
    let ordered: ObjectCall = Box::new(
        alloc,
        |object: &Object, attrs: &Attrs| not_after(object, attrs),
    )?;
    let summed: ObjectCall = Box::new(
        alloc,
        |object: &Object, attrs: &Attrs| sum_is(object, attrs),
    )?;
    let Ok(registry) = house_registry(alloc, digits, listed, ordered, summed) else {
        return Err(Failure::Memory);
    };
    Ok(run_words(
        rt,
        &words,
        registry,
        &mut rt.stdin(),
        &mut rt.stdout(),
        &mut rt.stderr(),
        &mut MachineClock::new(rt),
    ))
}

fn main(rt: HostRuntime) -> ExitCode {
    ExitCode::from(match run(&rt) {
        Ok(status) => status,
        Err(failure) => failure.report(&mut rt.stderr()),
    })
}
