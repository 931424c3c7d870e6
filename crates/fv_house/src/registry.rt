ghost use Rattle.std.specs.Prelude.{◌≡◌, [], ◌∷◌, map, IfOk, IfErr};
ghost use Rattle.fv_registry.specs.Meanings.{FieldAnswers, FieldsMean, ObjectAnswers, ObjectsMean};
ghost use Rattle.fv_house.specs.House.{decides, decides_object, house_rules};

use crate::house::House;
use fv_datum::Kind;
use fv_registry::{
    FieldCall, FieldValidator, ObjectCall, ObjectValidator, Registry, RegistryFault, RuleSet,
};
use std::alloc::{AllocError, Global};

/// The validators of data: rule 1 by a call of `luhn`, and rule 2 by one of `one_of`.
fn field_validators(
    alloc: Global,
    digits: FieldCall,
    listed: FieldCall,
) -> Result<Vec<FieldValidator>, AllocError>
    requires callable { FieldCall.IsAlwaysCallable digits × FieldCall.IsAlwaysCallable listed }
    requires digits { FieldAnswers (FieldCall.post digits) (decides 1) }
    requires listed { FieldAnswers (FieldCall.post listed) (decides 2) }
    ensures means { IfOk result (λ v. FieldsMean (λ v. v.rule) (λ v. FieldCall.post v.call) decides v.items) }
    ensures rules { IfOk result (λ v. map (λ v. (v.rule, v.kinds.items)) v.items ≡ house_rules.fields) }
    ensures numbers { IfOk result (λ v. map (λ v. v.rule) v.items ≡ 1 ∷ 2 ∷ []) }
{
    let validators = vec![in alloc;
        FieldValidator {
            rule: 1,
            kinds: vec![in alloc; Kind::Text]?,
            call: digits
        },
        FieldValidator {
            rule: 2,
            kinds: vec![in alloc; Kind::Text]?,
            call: listed
        },
    ]?;
    Ok(validators)
}

/// The validators of objects: rule 3 by a call of `not_after`, and rule 4 by one of `sum_is`.
fn object_validators(
    alloc: Global,
    ordered: ObjectCall,
    summed: ObjectCall,
) -> Result<Vec<ObjectValidator>, AllocError>
    requires callable { ObjectCall.IsAlwaysCallable ordered × ObjectCall.IsAlwaysCallable summed }
    requires ordered { ObjectAnswers (ObjectCall.post ordered) (decides_object 3) }
    requires summed { ObjectAnswers (ObjectCall.post summed) (decides_object 4) }
    ensures means { IfOk result (λ v. ObjectsMean (λ v. v.rule) (λ v. ObjectCall.post v.call) decides_object v.items) }
    ensures rules { IfOk result (λ v. map (λ v. v.rule) v.items ≡ house_rules.objects) }
{
    let validators = vec![in alloc;
        ObjectValidator {
            rule: 3,
            call: ordered
        },
        ObjectValidator {
            rule: 4,
            call: summed
        },
    ]?;
    Ok(validators)
}

/// The registry of the rules of the house, of closures that the caller makes: `digits` calls `luhn`,
/// `listed` calls `one_of`, `ordered` calls `not_after` and `summed` calls `sum_is`.
///
/// Refused by `Memory` alone.
pub fn house_registry(
    alloc: Global,
    digits: FieldCall,
    listed: FieldCall,
    ordered: ObjectCall,
    summed: ObjectCall,
) -> Result<Registry<House>, RegistryFault>
    requires fields { FieldCall.IsAlwaysCallable digits × FieldCall.IsAlwaysCallable listed }
    requires objects { ObjectCall.IsAlwaysCallable ordered × ObjectCall.IsAlwaysCallable summed }
    // Each answers what its rule decides.
    requires digits { FieldAnswers (FieldCall.post digits) (decides 1) }
    requires listed { FieldAnswers (FieldCall.post listed) (decides 2) }
    requires ordered { ObjectAnswers (ObjectCall.post ordered) (decides_object 3) }
    requires summed { ObjectAnswers (ObjectCall.post summed) (decides_object 4) }
    // So does the registry, which has these rules and no others.
    ensures means { IfOk result (λ r. ⟦<Registry<House> as RuleSet>⟧.means r) }
    ensures rules { IfOk result (λ r. ⟦<Registry<House> as RuleSet>⟧.known r ≡ house_rules) }
    ensures memory { IfErr result (λ fault. fault ≡ RegistryFault.Memory) }
{
    let fields = field_validators(alloc, digits, listed)?;
    let objects = object_validators(alloc, ordered, summed)?;
    Registry::new(alloc, fields, objects)
}
