ghost use Rattle.std.specs.Prelude.{Err, IfOk, IfErr};
ghost use Rattle.fv_builtin.specs.Given.{IsBuilt};
ghost use Rattle.fv_builtin.specs.Matches.{anchored, IsReadFrom};
ghost use Rattle.fv_builtin.specs.Patterns.{AreRead, AreRead-prop};

use crate::compiled::Compiled;
use crate::fault::BuiltinFault;
use crate::pattern;
use std::alloc::Global;
use std::collections::BTreeMap;
use std::rc::Rc;

/// The patterns that are built, by their texts.
#[derive(Drop)]
pub struct Patterns {
    built: BTreeMap<String, Rc<Compiled>>,
    ghost read: { AreRead built } by { AreRead-prop built },
}

impl Patterns {
    /// No patterns.
    pub fn new(alloc: Global) -> Patterns {
        Patterns {
            built: BTreeMap::new(alloc),
        }
    }

    /// The pattern of a text between anchors. It is built where it isn't there yet.
    pub(crate) fn find_or_build(
        &mut self,
        alloc: Global,
        regexp: &str,
    ) -> Result<Rc<Compiled>, BuiltinFault>
        ensures read { IfOk result (λ regex. IsReadFrom (anchored regexp.now) regex.value.regex.now) }
        ensures refused { IfErr result (λ fault. IsBuilt regexp.now (Err fault)) }
    {
        if let Some(regex) = self.built.get(regexp) {
            return Ok(regex.clone()?);
        }
        let regex = Rc::new(alloc, Compiled::new(alloc, pattern::build(alloc, regexp)?)?)?;
        let text = String::from_str(alloc, regexp)?;
        let _ = self.built.insert(text, regex.clone()?)?;
        Ok(regex)
    }
}
