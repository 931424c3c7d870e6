//! What is found at a place in an object, with its locus.
use crate::given::{Rows, built, bundle_of, check_rows};
use fv_datum::write_datum;
use fv_extract::{Place, Step, find};
use std::alloc::Global;
use std::test::Fail;

/// The object's type.
const TYPE: &str =
    "A = deep: T in L in P, empty: T in O, m: T in P, none: T in L, opts: T in O in L";

/// The object.
const OBJECT: &str =
    r#"{"root":"a","objects":{"a":{"type":"A","fields":{"deep":{"k":["x",null],"l":null},"empty":[],"m":{"b":null,"a\"]":"x"},"opts":[null,[],[""]]}}}}"#;

/// A field's number, and steps: `e` to each element, `k` to each key, `v` to each value, `c` to the content.
/// Each part that is found is told by its locus and its datum.
const PLACES: &str = r#"
4  => [] [null,[],[""]];
4 e => [Index(0)] null;[Index(1)] [];[Index(2)] [""];
4 ec => [Index(1)] null;[Index(2)] "";
2 k => [Key("a\"]")] "a\"]";[Key("b")] "b";
2 v => [Key("a\"]")] "x";[Key("b")] null;
1 c => [] null;
0 ve => [Key("k"), Index(0)] "x";[Key("k"), Index(1)] null;
3  => [] null;
"#;

/// The step of a letter.
fn step_of(letter: char) -> Step {
    match letter {
        'e' => Step::Element,
        'k' => Step::Key,
        'v' => Step::Value,
        _ => Step::Content,
    }
}

/// Steps as letters.
fn steps_of(alloc: Global, letters: &str) -> Result<Vec<Step>, Fail> {
    let mut steps = Vec::new(alloc);
    for letter in letters.chars() {
        steps.push(step_of(letter))?;
    }
    Ok(steps)
}

struct Parts;

impl Rows for Parts {
    fn found(alloc: Global, given: &str) -> Result<String, Fail> {
        let (field, letters) = given.split_once(' ').ok_or("a field")?;
        let steps = steps_of(alloc, letters)?;
        let place = Place {
            field: field.parse::<usize>()?,
            steps: &steps,
        };
        let bundle = bundle_of(alloc, &built(alloc, TYPE)?, OBJECT)?;
        let object = bundle.object("a").ok_or("an object")?;
        let mut text = String::new(alloc);
        for (locus, datum) in find(alloc, object, place)? {
            let json = write_datum(alloc, datum)?.to_string(alloc)?;
            write!(text, "{locus:?} {json};")?;
        }
        Ok(text)
    }
}

#[test]
fn parts_are_found_at_places(rt: HostRuntime) -> Result<(), Fail> {
    check_rows::<Parts>(&rt, rt.alloc(), PLACES)
}
