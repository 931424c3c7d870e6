//! Rules of which one is there: the rule 3 of the house, of two dates in order.
ghost use Rattle.std.proofs.Props.{props};
ghost use Rattle.std.specs.Prelude.{[], ◌∷◌, true};
ghost use Rattle.fv_house.specs.Objects.{not_after};

use fv_bundle::Object;
use fv_datum::{Attrs, Datum, Kind};
use fv_house::not_after;
use fv_registry::RuleSet;

/// The rule 3 of objects.
#[derive(Drop)]
pub(crate) struct Ordered;

impl RuleSet for Ordered {
    ghost meaning = { record { decides = λ _ _ _. true; decides_object = λ _ object attrs. not_after object attrs } };

    ghost means = { λ _. Unit {0} };

    ghost means_prop = { λ _. Prim.hlevel props };

    ghost known = { λ _. record { fields = []; objects = 3 ∷ [] } };

    fn answer(&self, _rule: u32, _datum: &Datum, _attrs: &Attrs) -> Option<bool> {
        None
    }

    fn answer_object(&self, rule: u32, object: &Object, attrs: &Attrs) -> Option<bool> {
        if rule == 3 {
            Some(not_after(object, attrs))
        } else {
            None
        }
    }

    fn takes(&self, _rule: u32, _kind: Kind) -> bool {
        false
    }

    fn knows_field(&self, _rule: u32) -> bool {
        false
    }

    fn knows_object(&self, rule: u32) -> bool {
        rule == 3
    }
}
