ghost use Rattle.std.specs.Prelude.{◌≡◌, ◌++◌, map, IfOk, None, if◌then◌else◌, Some};
ghost use Rattle.fv_datum.specs.View.{view};
ghost use Rattle.fv_bundle.specs.Views.{object_view};
ghost use Rattle.fv_registry.specs.Meanings.{FieldsMean, ObjectsMean, FieldAnswers, ObjectAnswers};
ghost use Rattle.fv_registry.specs.Rules.{refused, Refuses, has_rule, lists_kind};

use crate::fault::RegistryFault;
use crate::kinds::lists;
use crate::meaning::Meaning;
use crate::rules::{has_twice, numbers};
use crate::validator::{FieldCall, FieldValidator, ObjectCall, ObjectValidator};
use fv_bundle::Object;
use fv_datum::{Attrs, Datum, Kind};
use std::alloc::Global;
use std::marker::PhantomData;

/// The most validators.
const MOST_RULES: usize = 256;

/// The validators of a meaning, by their rules' numbers.
#[derive(Drop)]
pub struct Registry<M> {
    pub(crate) fields: Vec<FieldValidator>,
    pub(crate) objects: Vec<ObjectValidator>,
    pub(crate) of: PhantomData<M>,
}

impl<M: Meaning> Registry<M> {
    /// A registry of these validators. That they answer what `M` says of their rules is asked where
    /// the registry is used.
    ///
    /// Refused by `DuplicateRule`, then by `TooMany`; by `Memory` at any place. A refusal drops the
    /// validators.
    pub fn new(
        alloc: Global,
        fields: Vec<FieldValidator>,
        objects: Vec<ObjectValidator>,
    ) -> Result<Registry<M>, RegistryFault>
        ensures refuses { Refuses result (refused (map (λ v. v.rule) fields.items ++ map (λ v. v.rule) objects.items)) }
        ensures keeps { IfOk result (λ r. (r.fields ≡ fields) × (r.objects ≡ objects)) }
    {
        let rules = numbers(alloc, &fields, &objects)?;
        if has_twice(&rules) {
            return Err(RegistryFault::DuplicateRule);
        }
        if rules.len() > MOST_RULES {
            return Err(RegistryFault::TooMany);
        }
        Ok(Registry {
            fields,
            objects,
            of: PhantomData,
        })
    }

    /// The validators of data.
    pub fn fields(&self) -> &[FieldValidator]
        ensures { result.now ≡ self.now.fields.items }
    {
        &self.fields
    }

    /// The validators of objects.
    pub fn objects(&self) -> &[ObjectValidator]
        ensures { result.now ≡ self.now.objects.items }
    {
        &self.objects
    }

    /// What the validator of data answers for a rule; none where no such validator has the number.
    pub fn ask(&self, rule: u32, datum: &Datum, attrs: &Attrs) -> Option<bool>
        requires { FieldsMean (λ v. v.rule) (λ v. FieldCall.post v.call) M.decides self.now.fields.items }
        ensures { result ≡ (if has_rule rule (map (λ v. v.rule) self.now.fields.items)
            then Some (M.decides rule (view datum.now) attrs.now) else None) }
    {
        for validator in &self.fields {
            if validator.rule == rule {
                return Some(field_answer::<M>(validator, datum, attrs));
            }
        }
        None
    }

    /// What the validator of objects answers for a rule; none where no such validator has the
    /// number.
    pub fn ask_object(&self, rule: u32, object: &Object, attrs: &Attrs) -> Option<bool>
        requires { ObjectsMean (λ v. v.rule) (λ v. ObjectCall.post v.call) M.decides_object self.now.objects.items }
        ensures { result ≡ (if has_rule rule (map (λ v. v.rule) self.now.objects.items)
            then Some (M.decides_object rule (object_view object.now) attrs.now) else None) }
    {
        for validator in &self.objects {
            if validator.rule == rule {
                return Some(object_answer::<M>(validator, object, attrs));
            }
        }
        None
    }

    /// Whether the validator of data that has the number lists the kind.
    pub fn takes(&self, rule: u32, kind: Kind) -> bool
        ensures { result ≡ lists_kind rule kind (map (λ v. (v.rule, v.kinds.items)) self.now.fields.items) }
    {
        for validator in &self.fields {
            if validator.rule == rule {
                return lists(&validator.kinds, kind);
            }
        }
        false
    }

    /// Whether a validator of data has the number.
    pub fn has_field_rule(&self, rule: u32) -> bool
        ensures { result ≡ has_rule rule (map (λ v. v.rule) self.now.fields.items) }
    {
        for validator in &self.fields {
            if validator.rule == rule {
                return true;
            }
        }
        false
    }

    /// Whether a validator of objects has the number.
    pub fn has_object_rule(&self, rule: u32) -> bool
        ensures { result ≡ has_rule rule (map (λ v. v.rule) self.now.objects.items) }
    {
        for validator in &self.objects {
            if validator.rule == rule {
                return true;
            }
        }
        false
    }
}

fn field_answer<M: Meaning>(validator: &FieldValidator, datum: &Datum, attrs: &Attrs) -> bool
    requires { FieldAnswers (FieldCall.post validator.now.call) (M.decides validator.now.rule) }
    ensures { result ≡ M.decides validator.now.rule (view datum.now) attrs.now }
{
    (validator.call)(datum, attrs)
}

fn object_answer<M: Meaning>(validator: &ObjectValidator, object: &Object, attrs: &Attrs) -> bool
    requires { ObjectAnswers (ObjectCall.post validator.now.call) (M.decides_object validator.now.rule) }
    ensures { result ≡ M.decides_object validator.now.rule (object_view object.now) attrs.now }
{
    (validator.call)(object, attrs)
}
