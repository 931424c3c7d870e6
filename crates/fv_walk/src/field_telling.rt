//! What fails in a field of an object, as it is told of the object.
ghost use Rattle.std.specs.Prelude.{◌≡◌, ◌++◌, ℕ, All, true, map, IfOk, OnOk};
ghost use Rattle.fv_local.specs.FailureView.{IsFoundIn};
ghost use Rattle.fv_local.specs.FailureView as local;
ghost use Rattle.fv_bundle.specs.Views.{object_view};
ghost use Rattle.fv_walk.specs.Ranks.{violation_in};
ghost use Rattle.fv_local.specs.Sound.{IsSound};
ghost use Rattle.fv_walk_traces.specs.OneField.{is_in_field};
ghost use Rattle.fv_walk.specs.FailureView.{failure_view};

use crate::failure::Failure;
use fv_bundle::Object;
use fv_local::{LocalFailure, Spot, push_spot};
use fv_path::Path;
use std::alloc::{AllocError, Global};

/// What a failure in a field is: its path begins at the field.
fn failure_of(alloc: Global, object: &Object, failure: &LocalFailure) -> Result<Failure, AllocError>
    requires sound { IsSound (object_view object.now) }
    requires found { IsFoundIn (object_view object.now) failure.now.spot }
    requires field { (n : ℕ) × (is_in_field n (local.failure_view failure.now) ≡ true) }
    ensures { IfOk result (λ f. failure_view f ≡ violation_in (object_view object.now) (local.failure_view failure.now)) }
{
    let Spot::Part(place, locus, datum) = &failure.spot else {
        unreachable!()
    };
    let Some((name, _)) = object.field_at(place.field) else {
        unreachable!()
    };
    let mut path = Path::new(alloc);
    push_spot(alloc, &mut path, name, place.steps, locus)?;
    Ok(Failure {
        path,
        number: failure.number,
        value: datum.copy(alloc)?,
    })
}

/// Adds what failures in a field are.
pub(crate) fn add_failures(
    alloc: Global,
    failures: &mut Vec<Failure>,
    object: &Object,
    found: &[LocalFailure],
) -> Result<(), AllocError>
    requires sound { IsSound (object_view object.now) }
    requires found { All (λ f. IsFoundIn (object_view object.now) f.spot) found.now }
    requires field { All (λ f. (n : ℕ) × (is_in_field n (local.failure_view f) ≡ true)) found.now }
    ensures { OnOk result (map failure_view failures.new.items ≡ map failure_view failures.old.items
        ++ map (violation_in (object_view object.now)) (map local.failure_view found.now)) }
{
    for failure in found {
        failures.push(failure_of(alloc, object, failure)?)?;
    }
    Ok(())
}
