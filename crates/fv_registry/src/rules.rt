ghost use Rattle.std.specs.Prelude.{◌≡◌, ◌++◌, map, IfOk};
ghost use Rattle.fv_registry.specs.Rules.{has_twice, has_rule};

use crate::validator::{FieldValidator, ObjectValidator};
use std::alloc::{AllocError, Global};

/// The rules' numbers, in order.
pub(crate) fn numbers(
    alloc: Global,
    fields: &[FieldValidator],
    objects: &[ObjectValidator],
) -> Result<Vec<u32>, AllocError>
    ensures { IfOk result (λ v. v.items ≡ map (λ v. v.rule) fields.now ++ map (λ v. v.rule) objects.now) }
{
    let mut rules = Vec::new(alloc);
    for field in fields {
        rules.push(field.rule)?;
    }
    for object in objects {
        rules.push(object.rule)?;
    }
    Ok(rules)
}

/// Whether a number stands twice.
pub(crate) fn has_twice(rules: &[u32]) -> bool
    ensures { result ≡ has_twice rules.now }
{
    for i in 0..rules.len() {
        if is_among(rules[i], &rules[i + 1..]) {
            return true;
        }
    }
    false
}

fn is_among(rule: u32, rules: &[u32]) -> bool
    ensures { result ≡ has_rule rule rules.now }
{
    rules.iter().any(|other| *other == rule)
}
