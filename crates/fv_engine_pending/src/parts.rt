//! The bundles of puts are read.
ghost use Rattle.std.specs.Prelude.{◌≡◌, ◌≢◌, Err, IfOk, IfSome, MatchOption, false, if◌then◌else◌, is_some, map, true};
ghost use Rattle.std.specs.List.{AllByRecursion};
ghost use Rattle.std.specs.Result.{result_map_both};
ghost use Rattle.fv_engine_command.specs.CommandView.{part_view};
ghost use Rattle.fv_engine_command.specs.Commands.{put};
ghost use Rattle.fv_bundle.specs.Views.{bundle_view};
ghost use Rattle.fv_engine_pending.specs.Parts.{is_misshapen, are_misshapen};
ghost use Rattle.fv_engine_pending.specs.Steps.{StepFits, put_step, staged, step_view};
ghost use Rattle.serde_json.specs.View.{view as json_view};

use crate::applying::part_fault;
use crate::fault::PartFault;
use fv_bundle::{Bundle, TypeId};
use fv_declare_schema::Schema;
use fv_engine_command::Part;
use fv_model::{BundleFault, read_bundle};
use serde_json::Value;
use std::alloc::{AllocError, Global};
/// One datum of the record of an id is what a value spells.
#[derive(Clone, Copy)]
pub struct SetStep<'a> {
    pub id: &'a str,
    pub object: &'a str,
    pub field: &'a str,
    pub value: &'a Value,
}

/// A part of a command, its bundle read.
#[derive(Drop)]
pub enum Step<'a> {
    /// The record of the id is this one; or why there is no bundle.
    Put {
        id: &'a str,
        form: &'a str,
        bundle: Result<Bundle, PartFault>,
    },
    /// One datum changes.
    Set(SetStep<'a>),
    /// The id's record goes.
    Remove {
        id: &'a str,
    },
}

/// A put with its bundle, where its form is declared.
fn put_as<'a>(
    id: &'a str,
    form: &'a str,
    root: Option<TypeId>,
    bundle: Result<Bundle, PartFault>,
) -> Step<'a>
    ensures { step_view result ≡ put_step id.now form.now
        (if is_some root then result_map_both bundle_view (λ e. e) bundle else Err PartFault.UnknownForm) }
{
    match root {
        Some(_) => Step::Put { id, form, bundle },
        None => Step::Put {
            id,
            form,
            bundle: Err(PartFault::UnknownForm),
        },
    }
}

/// A put whose bundle has a fault; none where it isn't of a bundle's form.
fn misread<'a>(
    id: &'a str,
    form: &'a str,
    root: Option<TypeId>,
    fault: BundleFault,
) -> Result<Option<Step<'a>>, AllocError>
    ensures { IfOk result (λ o. MatchOption o (fault ≡ BundleFault.Shape)
        (λ s. (fault ≢ BundleFault.Shape) × (fault ≢ BundleFault.Memory) × (step_view s ≡ put_step id.now form.now
        (if is_some root then Err (PartFault.Bundle fault) else Err PartFault.UnknownForm)))) }
{
    match fault {
        BundleFault::Shape => Ok(None),
        BundleFault::Memory => Err(AllocError),
        _ => Ok(Some(put_as(id, form, root, Err(part_fault(fault))))),
    }
}

/// A put with its bundle, or with why there is none; none where the JSON isn't of a bundle's form.
fn read_put<'a>(
    alloc: Global,
    schema: &Schema,
    id: &'a str,
    form: &'a str,
    bundle: &Value,
) -> Result<Option<Step<'a>>, AllocError>
    ensures read { IfOk result (λ o. MatchOption o
        (is_misshapen schema.now.types schema.now.forms (put id.now form.now (json_view bundle.now)) ≡ true)
        (λ s. (is_misshapen schema.now.types schema.now.forms (put id.now form.now (json_view bundle.now)) ≡ false)
        × (step_view s ≡ staged schema.now.types schema.now.forms (put id.now form.now (json_view bundle.now))))) }
    ensures fits { IfOk result (λ o. IfSome o (λ s. StepFits schema.now.types schema.now.forms (step_view s))) }
{
    let root = schema.root_of(form);
    match read_bundle(alloc, schema.types(), root, bundle) {
        Ok(bundle) => Ok(Some(put_as(id, form, root, Ok(bundle)))),
        Err(fault) => misread(id, form, root, fault),
    }
}

/// A part with its bundle read; none where it isn't of a bundle's form.
fn read_part<'a>(
    alloc: Global,
    schema: &Schema,
    part: &Part<'a>,
) -> Result<Option<Step<'a>>, AllocError>
    ensures read { IfOk result (λ o. MatchOption o (is_misshapen schema.now.types schema.now.forms (part_view part.now) ≡ true)
        (λ s. (is_misshapen schema.now.types schema.now.forms (part_view part.now) ≡ false)
        × (step_view s ≡ staged schema.now.types schema.now.forms (part_view part.now)))) }
    ensures fits { IfOk result (λ o. IfSome o (λ s. StepFits schema.now.types schema.now.forms (step_view s))) }
{
    match *part {
        Part::Put { id, form, bundle } => read_put(alloc, schema, id, form, bundle),
        Part::Set {
            id,
            object,
            field,
            value,
        } => Ok(Some(Step::Set(SetStep {
            id,
            object,
            field,
            value,
        }))),
        Part::Remove { id } => Ok(Some(Step::Remove { id })),
    }
}

/// The parts, the bundle of each put read once, or why it isn't one; none where the JSON of one isn't
/// of a bundle's form.
pub fn read_parts<'a>(
    alloc: Global,
    schema: &Schema,
    parts: &[Part<'a>],
) -> Result<Option<Vec<Step<'a>>>, AllocError>
    ensures read { IfOk result (λ o. MatchOption o
        (are_misshapen schema.now.types schema.now.forms (map part_view parts.now) ≡ true)
        (λ v. (are_misshapen schema.now.types schema.now.forms (map part_view parts.now) ≡ false)
        × (map step_view v.items ≡ map (staged schema.now.types schema.now.forms) (map part_view parts.now)))) }
    ensures fits { IfOk result (λ o. IfSome o (λ v. AllByRecursion (StepFits schema.now.types schema.now.forms)
        (map step_view v.items))) }
{
    let mut steps = Vec::with_capacity(alloc, parts.len())?;
    for part in parts {
        match read_part(alloc, schema, part)? {
            None => return Ok(None),
            Some(step) => steps.push(step)?,
        }
    }
    Ok(Some(steps))
}
