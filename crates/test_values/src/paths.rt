//! Texts, and the paths that they are.
use crate::given::{Rows, check_rows};
use fv_path::read;
use std::alloc::Global;
use std::test::Fail;

/// Texts: the nodes of the path, or `none`.
const PATHS: &str = r#"
lines[1].quantity => [Field(Name { text: "lines" }), Index(1), Field(Name { text: "quantity" })]
g[0].<list element>[2].<list element> => [Field(Name { text: "g" }), Index(0), ListElement, Index(2), ListElement]
m["a\"]"].<map key> => [Field(Name { text: "m" }), Key("a\"]"), MapKey]
m["\u0001"].<map value>[4294967295] => [Field(Name { text: "m" }), Key("\u{1}"), MapValue, Index(4294967295)]
 => []
a[01] => none
a[0].<map key> => none
a..b => none
[0] => none
a["\u0061"] => none
a[4294967296] => none
a[0][1] => none
"#;

struct Paths;

impl Rows for Paths {
    fn found(alloc: Global, given: &str) -> Result<String, Fail> {
        let Some(path) = read(alloc, given)? else {
            return Ok(String::from_str(alloc, "none")?);
        };
        if path.write(alloc)?.as_str() != given {
            return Err("the text that was read".into());
        }
        let nodes = path.nodes();
        Ok(format!(in alloc; "{nodes:?}")?)
    }
}

#[test]
fn paths_are_read_and_written(rt: HostRuntime) -> Result<(), Fail> {
    check_rows::<Paths>(&rt, rt.alloc(), PATHS)
}
