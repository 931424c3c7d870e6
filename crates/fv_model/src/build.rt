//! The bundle that a draft is, where its types are declared and its data are of their kinds.
ghost use Rattle.std.specs.Prelude.{◌≡◌, All, true, false, not, IfOk, map, option_map, is_some};
ghost use Rattle.std.specs.List.{list_any};
ghost use Rattle.std.specs.Map.{keys_of};
ghost use Rattle.serde_json.specs.Find.{get_member};
ghost use Rattle.serde_json.specs.View.{view as json_view};
ghost use Rattle.fv_datum.specs.Lookup.{at_name};
ghost use Rattle.fv_datum.specs.Outcomes.{Gives};
ghost use Rattle.fv_datum.specs.View.{view};
ghost use Rattle.fv_bundle.specs.Bundles.{IsAscending};
ghost use Rattle.fv_bundle.specs.Types.{type_use_view, fields_view};
ghost use Rattle.fv_model.specs.Views.{types_view, given_view, part_view, draft_view, object_view, objects_view, bundle_view};
ghost use Rattle.fv_model.specs.Reading.{object_types, datum_at, given_field, object_of, bundle_of};
ghost use Rattle.fv_model.specs.Fitting.{misfits_given, field_misfits, part_misfits, unless_wrong};
ghost use Rattle.fv_model.specs.Writing.{IsWritten};

use crate::fault::BundleFault;
use crate::parts::{Draft, Part};
use crate::spelled::spelled_datum;
use fv_bundle::{Bundle, Fields, Object, Objects, TypeUse, Types};
use fv_datum::Datum;
use indexmap::IndexMap;
use serde_json::{Map, Value};
use std::alloc::Global;

fn find_given<'a>(given: Option<&'a Map<String, Value>>, name: &str) -> Option<&'a Value>
    ensures { option_map (λ v. json_view v.now) result ≡ get_member name.now (given_view given.entry) }
{
    match given {
        None => None,
        Some(members) => members.get(name),
    }
}

/// The datum of a field: null where the field isn't given.
fn datum_for(alloc: Global, type_use: &TypeUse, value: Option<&Value>) -> Result<Datum, BundleFault>
    ensures exact { Gives BundleFault.Memory view result (unless_wrong
        (misfits_given (type_use_view type_use.now) (option_map (λ v. json_view v.now) value.entry))
        (datum_at (type_use_view type_use.now) (option_map (λ v. json_view v.now) value.entry))) }
    ensures written { IfOk result (λ d. IsWritten (view d)) }
{
    match value {
        None => Ok(Datum::Null),
        Some(value) => spelled_datum(alloc, type_use, value),
    }
}

/// A datum for each of a type's fields, in the fields' order.
fn data_for(
    alloc: Global,
    fields: &Fields,
    given: Option<&Map<String, Value>>,
) -> Result<Vec<Datum>, BundleFault>
    ensures exact { Gives BundleFault.Memory (λ v. map view v.items) result (unless_wrong
        (list_any (field_misfits (given_view given.entry)) (fields_view fields.now))
        (map (λ f. (given_field (given_view given.entry) f).1) (fields_view fields.now))) }
    ensures written { IfOk result (λ v. All (λ d. IsWritten (view d)) v.items) }
{
    let mut out = Vec::with_capacity(alloc, fields.len())?;
    for (name, type_use) in fields.iter() {
        out.push(datum_for(alloc, type_use, find_given(given, name.as_str()))?)?;
    }
    Ok(out)
}

fn object_for(alloc: Global, types: &Types, part: &Part) -> Result<Object, BundleFault>
    requires declared { is_some (at_name part.now.type_name.now (types_view types.now)) ≡ true }
    ensures { Gives BundleFault.Memory object_view result (unless_wrong
        (part_misfits (types_view types.now) (part_view part.now))
        (object_of (types_view types.now) (part_view part.now)).1) }
{
    let Some((type_id, fields)) = types.find_with_fields(part.type_name) else {
        unreachable!()
    };
    let data = data_for(alloc, fields, part.given)?;
    Ok(Object::new(types.share()?, type_id, data))
}

fn objects_for(alloc: Global, types: &Types, parts: &[Part]) -> Result<Objects, BundleFault>
    requires ascending { IsAscending (keys_of (object_types (map part_view parts.now))) }
    requires declared { list_any (λ p. not (is_some (at_name p.type_name (types_view types.now)))) (map part_view parts.now) ≡ false }
    ensures { Gives BundleFault.Memory objects_view result (unless_wrong
        (list_any (part_misfits (types_view types.now)) (map part_view parts.now))
        (map (object_of (types_view types.now)) (map part_view parts.now))) }
{
    let mut out = IndexMap::with_capacity(alloc, parts.len())?;
    for part in parts {
        let object = object_for(alloc, types, part)?;
        out.insert(String::from_str(alloc, part.name)?, object)?;
    }
    Ok(out)
}

/// The bundle, or `WrongKind` where a datum that a field is given is of another kind.
pub(crate) fn build(alloc: Global, types: &Types, draft: &Draft) -> Result<Bundle, BundleFault>
    requires declared { list_any (λ p. not (is_some (at_name p.type_name (types_view types.now)))) (draft_view draft.now).objects ≡ false }
    ensures bundle { Gives BundleFault.Memory bundle_view result (unless_wrong
        (list_any (part_misfits (types_view types.now)) (draft_view draft.now).objects)
        (bundle_of (types_view types.now) (draft_view draft.now))) }
    ensures ascending { IfOk result (λ b. IsAscending (keys_of (bundle_view b).objects)) }
{
    let root = String::from_str(alloc, draft.root)?;
    let objects = objects_for(alloc, types, &draft.objects)?;
    Ok(Bundle::new(root, objects))
}
