//! Rules that several rulebooks hold: that of the declarations in force, and that of those that are to
//! be in force.
ghost use Rattle.std.specs.Prelude.{◌≡◌, IfOk, refl};

use fv_bundle::Object;
use fv_datum::{Attrs, Datum, Kind};
use fv_registry::{RuleSet, Ruled};
use std::alloc::{AllocError, Global};
use std::marker::Model;
use std::rc::Rc;

/// Rules, counted by those that hold them. Contracts see them as the rules.
#[derive(Drop)]
pub struct SharedRules<R: RuleSet> {
    rules: Rc<Ruled<R>, Global>,
}

impl<R: RuleSet> Model for SharedRules<R> {
    ghost Value = { R };

    ghost coded = { R.code };

    ghost view = { λ s. s.rules.value.rules };
}

impl<R: RuleSet + Drop> SharedRules<R> {
    /// These rules. Where memory is refused, they are dropped.
    pub fn new(alloc: Global, rules: R) -> Result<SharedRules<R>, AllocError>
        requires { R.means rules }
        ensures { IfOk result (λ s. s ≡ rules) }
    {
        match Rc::new(alloc, Ruled::new(rules)) {
            Ok(rules) => Ok(SharedRules { rules }),
            Err(_) => Err(AllocError),
        }
    }

    /// The same rules, held once more.
    pub fn share(&self) -> Result<SharedRules<R>, AllocError>
        ensures { IfOk result (λ s. s ≡ self.now) }
    {
        Ok(SharedRules {
            rules: self.rules.clone()?,
        })
    }
}

impl<R: RuleSet> RuleSet for SharedRules<R> {
    ghost meaning = { R.meaning };

    ghost means = { λ s. Unit {0} };

    ghost means_prop = { λ s a b. refl };

    ghost known = { λ s. R.known s };

    fn answer(&self, rule: u32, datum: &Datum, attrs: &Attrs) -> Option<bool> {
        self.rules.ask(rule, datum, attrs)
    }

    fn answer_object(&self, rule: u32, object: &Object, attrs: &Attrs) -> Option<bool> {
        self.rules.ask_object(rule, object, attrs)
    }

    fn takes(&self, rule: u32, kind: Kind) -> bool {
        self.rules.rules.takes(rule, kind)
    }

    fn knows_field(&self, rule: u32) -> bool {
        self.rules.rules.knows_field(rule)
    }

    fn knows_object(&self, rule: u32) -> bool {
        self.rules.rules.knows_object(rule)
    }

    fn named_fields(&self, rule: u32) -> &'static [(&'static str, Kind)] {
        self.rules.rules.named_fields(rule)
    }
}
