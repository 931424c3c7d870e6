//! Parts are made in order on the records on the way.
ghost use Rattle.std.specs.Prelude.{◌≡◌, ◌≢◌, ◌∷◌, [], MatchResult, OnOk, Ok, Err, map, option_map};
ghost use Rattle.fv_datum.specs.Outcomes.{Gives};
ghost use Rattle.fv_bundle.specs.Views.{bundle_view};
ghost use Rattle.fv_engine_pending.specs.Fits.{Keeps};
ghost use Rattle.fv_engine_pending.specs.Steps.{set_step, left_as, set_on, removed_on, step_view, step_made, steps_made};
ghost use Rattle.fv_engine_pending.specs.Ways.{pending_view, standing_at, left_at};
ghost use Rattle.fv_store.specs.Stored.{stored_view};
ghost use Rattle.fv_bundle.specs.TypesView.{types_view};
ghost use Rattle.serde_json.specs.View.{view as json_view};
ghost use Rattle.std.specs.Result.{result_map_both};

use crate::fault::PartFault;
use crate::parts::{SetStep, Step};
use crate::pending::Pending;
use fv_bundle::{Bundle, Types};
use fv_model::{BundleFault, set_field};
use fv_store::Stored;
use std::alloc::Global;

/// The fault of a part whose bundle, or the value for it, has a fault.
pub(crate) fn part_fault(fault: BundleFault) -> PartFault
    ensures memory { fault ≡ BundleFault.Memory → result ≡ PartFault.Memory }
    ensures other { fault ≢ BundleFault.Memory → result ≡ PartFault.Bundle fault }
{
    match fault {
        BundleFault::Memory => PartFault::Memory,
        _ => PartFault::Bundle(fault),
    }
}

/// Leaves a record at an id, or none.
fn leave<'a>(
    pending: &mut Pending<'a>,
    id: &'a str,
    stored: Option<Stored>,
) -> Result<(), PartFault>
    ensures { Gives PartFault.Memory (λ _. pending_view pending.new) result
        (Ok (left_at id.now (option_map stored_view stored) (pending_view pending.old))) }
{
    match pending.leave(id, stored) {
        Ok(()) => Ok(()),
        Err(_) => Err(PartFault::Memory),
    }
}

/// Puts a bundle in as the record of an id.
fn put<'a>(
    pending: &mut Pending<'a>,
    alloc: Global,
    id: &'a str,
    form: &str,
    bundle: Result<Bundle, PartFault>,
) -> Result<(), PartFault>
    ensures { Gives PartFault.Memory (λ _. pending_view pending.new) result
        (left_as id.now form.now (pending_view pending.old) (result_map_both bundle_view (λ e. e) bundle)) }
{
    let bundle = bundle?;
    match String::from_str(alloc, form) {
        Ok(form) => leave(pending, id, Some(Stored { form, bundle })),
        Err(_) => Err(PartFault::Memory),
    }
}

/// Changes one datum of the record that stands at an id.
fn set<'a>(
    pending: &mut Pending<'a>,
    alloc: Global,
    types: &Types,
    step: &SetStep<'a>,
) -> Result<(), PartFault>
    ensures made { Gives PartFault.Memory (λ _. pending_view pending.new) result
        (set_on (types_view types.now) step.now.id.now step.now.object.now step.now.field.now (json_view step.now.value.now)
        (pending_view pending.old) (standing_at step.now.id.now (pending_view pending.old))) }
    ensures keeps { OnOk result (Keeps (types_view types.now)
        (set_step step.now.id.now step.now.object.now step.now.field.now (json_view step.now.value.now) ∷ [])
        (pending_view pending.old) (pending_view pending.new)) }
{
    let Some(mut stored) = pending.take(step.id) else {
        return Err(PartFault::NoRecord);
    };
    match set_field(
        alloc,
        &mut stored.bundle,
        types,
        step.object,
        step.field,
        step.value,
    ) {
        Ok(()) => leave(pending, step.id, Some(stored)),
        Err(fault) => Err(part_fault(fault)),
    }
}

/// Leaves no record at an id where one stands.
fn remove<'a>(pending: &mut Pending<'a>, id: &'a str) -> Result<(), PartFault>
    ensures { Gives PartFault.Memory (λ _. pending_view pending.new) result
        (removed_on id.now (pending_view pending.old) (standing_at id.now (pending_view pending.old))) }
{
    match pending.take(id) {
        None => Err(PartFault::NoRecord),
        Some(_) => leave(pending, id, None),
    }
}

/// Makes one part.
fn apply<'a>(
    pending: &mut Pending<'a>,
    alloc: Global,
    types: &Types,
    step: Step<'a>,
) -> Result<(), PartFault>
    ensures made { Gives PartFault.Memory (λ _. pending_view pending.new) result
        (step_made (types_view types.now) (step_view step.entry) (pending_view pending.old)) }
    ensures keeps { OnOk result (Keeps (types_view types.now) (step_view step.entry ∷ []) (pending_view pending.old)
        (pending_view pending.new)) }
{
    match step {
        Step::Put { id, form, bundle } => put(pending, alloc, id, form, bundle),
        Step::Set(step) => set(pending, alloc, types, &step),
        Step::Remove { id } => remove(pending, id),
    }
}

/// Makes the parts in order, each of what the parts before have left.
///
/// Refused by the first part that can't be done, with its number from 0: `UnknownForm`, a fault of
/// the bundle of a put or of the value of a set, or `NoRecord`; by `Memory` at any place. The records
/// on the way are of no use then.
pub fn apply_all<'a>(
    pending: &mut Pending<'a>,
    alloc: Global,
    types: &Types,
    steps: Vec<Step<'a>>,
) -> Result<(), (usize, PartFault)>
    ensures made { MatchResult result
        (λ _. steps_made (types_view types.now) 0 (map step_view steps.entry.items) (pending_view pending.old) ≡ Ok (pending_view pending.new))
        (λ e. e.1 ≢ PartFault.Memory
        → steps_made (types_view types.now) 0 (map step_view steps.entry.items) (pending_view pending.old) ≡ Err e) }
    ensures keeps { OnOk result (Keeps (types_view types.now) (map step_view steps.entry.items)
        (pending_view pending.old) (pending_view pending.new)) }
{
    let mut number = 0;
    for step in steps {
        match apply(pending, alloc, types, step) {
            Ok(()) => number += 1,
            Err(fault) => return Err((number, fault)),
        }
    }
    Ok(())
}
