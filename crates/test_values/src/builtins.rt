//! The built-in constraints: read with attributes, and asked about data.
use crate::given::{Rows, attributes, check_rows, type_use};
use fv_builtin::{Builtin, is_builtin};
use fv_datum::{moment_ok, read_text};
use fv_model::read_value;
use std::alloc::Global;
use std::test::Fail;

/// A constraint, attributes, a moment, what a field holds and a value: whether the constraint holds, or
/// the fault.
const BUILTINS: &str = r#"
NotBlank {} 0 T : "\u00a0" => false
NotBlank {} 0 T : "" => false
NotBlank {} 0 T : " x" => true
Digits {"integer":2,"fraction":1} 0 D : "-07.50" => WrongKind
Digits {"integer":2,"fraction":1} 0 D : "12.50" => true
Digits {"integer":2,"fraction":1} 0 D : "12.05" => false
Digits {"integer":2,"fraction":1} 0 D : "123" => false
Digits {"integer":0,"fraction":0} 0 D : "0" => true
DecimalMin {"value":"0.5","inclusive":false} 0 D : "0.50" => false
Min {"value":1} 0 D : "0.999999999" => false
Size {"min":1,"max":3} 0 T : "😀bc" => false
Pattern {"regexp":"x|yz"} 0 T : "yz" => true
Pattern {"regexp":"x|yz"} 0 T : "xyz" => false
Size {"min":3,"max":2} 0 T : null => Attribute
Size {"min":3,"max":2} 0 I : null => Attribute
Size {} 0 I : null => UnexpectedType
Pattern {"regexp":"("} 0 I : null => UnexpectedType
Pattern {"regexp":"("} 0 T : null => BadPattern
"#;

struct Asked;

impl Rows for Asked {
    fn found(alloc: Global, given: &str) -> Result<String, Fail> {
        let (name, rest) = given.split_once(' ').ok_or("a name")?;
        let (with, rest) = rest.split_once(' ').ok_or("attributes")?;
        let (now, rest) = rest.split_once(' ').ok_or("a moment")?;
        let (held, value) = rest.split_once(" : ").ok_or("a value")?;
        let now = now.parse::<i64>()?;
        if !is_builtin(name) || !moment_ok(now) {
            return Err("a constraint and a moment".into());
        }
        let held = type_use(alloc, held)?;
        let attrs = attributes(alloc, with)?;
        let builtin = match Builtin::read(alloc, name, &attrs, held.kind()) {
            Ok(builtin) => builtin,
            Err(fault) => return Ok(String::from_str(alloc, fault.name())?),
        };
        match read_value(alloc, &held, &read_text(alloc, value)?) {
            Ok(datum) => {
                let holds = builtin.holds(alloc, &datum, now)?;
                Ok(format!(in alloc; "{holds}")?)
            }
            Err(fault) => Ok(String::from_str(alloc, fault.name())?),
        }
    }
}

#[test]
fn constraints_hold_or_not(rt: HostRuntime) -> Result<(), Fail> {
    check_rows::<Asked>(&rt, rt.alloc(), BUILTINS)
}
