ghost use Rattle.std.proofs.Props.{props};
ghost use Rattle.std.specs.Prelude.{true, []};

use fv_bundle::Object;
use fv_datum::{Attrs, Datum, Kind};
use fv_registry::RuleSet;

/// No rules at all.
#[derive(Drop)]
pub struct NoRules;

impl RuleSet for NoRules {
    ghost meaning = { record { decides = λ _ _ _. true; decides_object = λ _ _ _. true } };

    ghost means = { λ _. Unit {0} };

    ghost means_prop = { λ _. Prim.hlevel props };

    ghost known = { λ _. record { fields = []; objects = [] } };

    fn answer(&self, _rule: u32, _datum: &Datum, _attrs: &Attrs) -> Option<bool> {
        None
    }

    fn answer_object(&self, _rule: u32, _object: &Object, _attrs: &Attrs) -> Option<bool> {
        None
    }

    fn takes(&self, _rule: u32, _kind: Kind) -> bool {
        false
    }

    fn knows_field(&self, _rule: u32) -> bool {
        false
    }

    fn knows_object(&self, _rule: u32) -> bool {
        false
    }
}
