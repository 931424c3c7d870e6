//! Uses of constraints, flattened without any rules.
use crate::given::{Rows, attributes, check_rows};
use fv_constraint::{meant_by, unknown_composing};
use fv_constraint_tree::Target;
use fv_datum::{Kind, read_text};
use fv_declare_definition::{Definition, definitions_of};
use fv_flatten::{Occurrence, Use, flatten};
use fv_message::Messages;
use indexmap::IndexMap;
use std::alloc::Global;
use std::collections::BTreeMap;
use std::test::Fail;
use test_commands::NoRules;

/// Constraints as declarations have them.
const DEFINITIONS: &str = r#"{
    "Inner":{"attributes":{"limit":{"kind":"integer","default":9}},
        "compose":[{"constraint":"Size","override":{"max":"limit"}}],"message":"at most {limit}","single":true},
    "Outer":{"attributes":{"top":{"kind":"integer","default":5}},"compose":[{"constraint":"Inner","override":{"limit":"top"}}]}
}"#;

/// A constraint, perhaps with a message behind `'`, and attributes: its nodes at a text, by their numbers, each with its constraint and its message,
/// or the fault.
const TREES: &str = r#"
Outer {"top":2} => 0 Outer {Outer.message};1 Inner at most 2;2 Size size must be between 0 and 2;
Outer {} => 0 Outer {Outer.message};1 Inner at most 5;2 Size size must be between 0 and 5;
Inner {} => 0 Inner at most 9;1 Size size must be between 0 and 9;
Inner'{none}! {"limit":3} => 0 Inner {none}!;1 Size size must be between 0 and 3;
Inner {"limit":"x"} => Attribute
Past {} => UnexpectedType
Pattern {"regexp":"("} => BadPattern
"#;

/// The nodes of a use.
fn nodes_told(alloc: Global, occurrence: &Occurrence) -> Result<String, Fail> {
    let messages = Messages::read(alloc, IndexMap::new(alloc))?;
    let mut text = String::new(alloc);
    for number in 0..1024 {
        let Some(node) = occurrence.node(number) else {
            break;
        };
        let constraint = node.constraint();
        let message = messages.text(alloc, node.message(), &node.attributes)?;
        write!(text, "{number} {constraint} {message};")?;
    }
    Ok(text)
}

/// Of `NAME'MESSAGE` the name.
fn name_in(used: &str) -> &str {
    match used.split_once("'") {
        Some((name, _)) => name,
        None => used,
    }
}

/// Of `NAME'MESSAGE` the message.
fn message_in(used: &str) -> Option<&str> {
    let (_, message) = used.split_once("'")?;
    Some(message)
}

/// What a use of a constraint is flattened to at a place.
fn flattened(
    alloc: Global,
    definitions: &BTreeMap<String, Definition>,
    (used, with): (&str, &str),
    place: Target,
) -> Result<String, Fail> {
    let constraint = name_in(used);
    if unknown_composing(definitions).is_some() || meant_by(definitions, constraint).is_none() {
        return Err("a constraint".into());
    }
    let given = attributes(alloc, with)?;
    let used = Use {
        constraint,
        message: message_in(used),
        given: &given,
        place,
    };
    match flatten(alloc, &NoRules, definitions, &used) {
        Ok(occurrence) => nodes_told(alloc, &occurrence),
        Err(fault) => Ok(String::from_str(alloc, fault.name())?),
    }
}

struct Trees;

impl Rows for Trees {
    fn found(alloc: Global, given: &str) -> Result<String, Fail> {
        let used = given.split_once(' ').ok_or("a constraint")?;
        let document = read_text(alloc, DEFINITIONS)?;
        let definitions = definitions_of(alloc, Some(&document))?.ok_or("definitions")?;
        flattened(alloc, &definitions, used, Target::Data(Kind::Text))
    }
}

#[test]
fn uses_are_flattened(rt: HostRuntime) -> Result<(), Fail> {
    check_rows::<Trees>(&rt, rt.alloc(), TREES)
}
