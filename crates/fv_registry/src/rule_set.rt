ghost use Rattle.std.proofs.Props.{props};
ghost use Rattle.std.specs.Prelude.{◌≡◌, map};
ghost use Rattle.fv_datum.specs.View.{view};
ghost use Rattle.fv_bundle.specs.Views.{object_view};
ghost use Rattle.fv_registry.specs.Meanings.{Meanings, FieldsMean, ObjectsMean, answered, object_answered};
ghost use Rattle.fv_registry.specs.NamedFields.{NeedsAll};
ghost use Rattle.fv_registry.specs.Rules.{Known, knows_field, knows_object, rule_takes_kind};

use crate::meaning::Meaning;
use crate::registry::Registry;
use crate::validator::{FieldCall, ObjectCall};
use fv_bundle::Object;
use fv_datum::{Attrs, Datum, Kind};

/// Rules that can be asked by their numbers: what the crates above know of a registry.
pub trait RuleSet {
    /// What the rules decide.
    ghost meaning: { Meanings };

    /// Each validator answers what its rule decides.
    ghost means: { Self → Type 0 };

    ghost means_prop: { (r : Self) → IsProp (means r) };

    /// The rules that are there.
    ghost known: { Self → Known };

    /// What a rule says of a datum; none where it isn't there.
    fn answer(&self, rule: u32, datum: &Datum, attrs: &Attrs) -> Option<bool>
        requires { means self.now }
        ensures { result ≡ answered meaning (known self.now) rule (view datum.now) attrs.now };

    /// What a rule says of an object; none where it isn't there.
    fn answer_object(&self, rule: u32, object: &Object, attrs: &Attrs) -> Option<bool>
        requires { means self.now }
        ensures { result ≡ object_answered meaning (known self.now) rule (object_view object.now) attrs.now };

    /// Whether a rule of data is there and takes data of the kind.
    fn takes(&self, rule: u32, kind: Kind) -> bool
        ensures { result ≡ rule_takes_kind rule kind (known self.now) };

    /// Whether a rule of data is there.
    fn knows_field(&self, rule: u32) -> bool
        ensures { result ≡ knows_field rule (known self.now) };

    /// Whether a rule of objects is there.
    fn knows_object(&self, rule: u32) -> bool
        ensures { result ≡ knows_object rule (known self.now) };

    /// The attributes of a rule of objects that name fields, each with the kind that the field has to have for
    /// the rule to refuse anything; none where the rules don't tell. Warnings of declarations ask it; no judgement does.
    fn named_fields(&self, rule: u32) -> &'static [(&'static str, Kind)]
        ensures { NeedsAll (meaning.decides_object rule) result.now }
    {
        &[]
    }
}

impl<M: Meaning> RuleSet for Registry<M> {
    ghost meaning = { record { decides = M.decides; decides_object = M.decides_object } };

    ghost means = { λ r. FieldsMean (λ v. v.rule) (λ v. FieldCall.post v.call) M.decides r.fields.items
        × ObjectsMean (λ v. v.rule) (λ v. ObjectCall.post v.call) M.decides_object r.objects.items };

    ghost means_prop = { λ r. Prim.hlevel props };

    ghost known = { λ r. record {
      fields = map (λ v. (v.rule, v.kinds.items)) r.fields.items;
      objects = map
          (λ v. v.rule) r.objects.items;
    } };

    fn answer(&self, rule: u32, datum: &Datum, attrs: &Attrs) -> Option<bool> {
        self.ask(rule, datum, attrs)
    }

    fn answer_object(&self, rule: u32, object: &Object, attrs: &Attrs) -> Option<bool> {
        self.ask_object(rule, object, attrs)
    }

    fn takes(&self, rule: u32, kind: Kind) -> bool {
        self.takes(rule, kind)
    }

    fn knows_field(&self, rule: u32) -> bool {
        self.has_field_rule(rule)
    }

    fn knows_object(&self, rule: u32) -> bool {
        self.has_object_rule(rule)
    }

    fn named_fields(&self, rule: u32) -> &'static [(&'static str, Kind)] {
        M::named_fields(rule)
    }
}

/// Rules whose validators answer what they mean.
#[derive(Drop)]
pub struct Ruled<R: RuleSet> {
    pub rules: R,
    pub ghost means: { R.means rules } by { R.means_prop rules },
}

impl<R: RuleSet> Ruled<R> {
    /// These rules.
    pub fn new(rules: R) -> Ruled<R>
        requires { R.means rules }
        ensures { result.rules ≡ rules }
    {
        Ruled { rules }
    }

    /// What a rule says of a datum; none where it isn't there.
    pub fn ask(&self, rule: u32, datum: &Datum, attrs: &Attrs) -> Option<bool>
        ensures { result ≡ answered R.meaning (R.known self.now.rules) rule (view datum.now) attrs.now }
    {
        self.rules.answer(rule, datum, attrs)
    }

    /// What a rule says of an object; none where it isn't there.
    pub fn ask_object(&self, rule: u32, object: &Object, attrs: &Attrs) -> Option<bool>
        ensures { result ≡ object_answered R.meaning (R.known self.now.rules) rule (object_view object.now) attrs.now }
    {
        self.rules.answer_object(rule, object, attrs)
    }
}
