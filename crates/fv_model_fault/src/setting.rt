ghost use Rattle.std.specs.Prelude.{◌≡◌, Some, None, Err, IfOk, IfSome, IsSome, if◌then◌else◌, map, option_map};
ghost use Rattle.serde_json.specs.View.{view as json_view};
ghost use Rattle.fv_bundle.specs.Views.{bundle_view, objects_view};
ghost use Rattle.fv_datum.specs.Lookup.{at_name};
ghost use Rattle.fv_model.specs.Reading.{fields_of};
ghost use Rattle.fv_model.specs.Setting.{bundle_set};
ghost use Rattle.fv_model_fault.specs.SetPlaces.{IsInSet};
ghost use Rattle.fv_model_fault.specs.Views.{set_place_view};
ghost use Rattle.fv_bundle.specs.Names.{object_types_view};
ghost use Rattle.fv_bundle.specs.Types.{type_use_view};
ghost use Rattle.fv_bundle.specs.TypesView.{types_view};

use crate::place::{DatumSet, SetPlace};
use crate::placing::place_in_value;
use fv_bundle::{Bundle, Objects, TypeNames, TypeUse, Types, use_in};
use fv_model::BundleFault;
use indexmap::IndexMap;
use std::alloc::{AllocError, Global};

/// What the field of that name of a type holds.
fn use_of<'t>(types: &'t Types, type_name: &str, field: &str) -> Option<&'t TypeUse>
    ensures { option_map (λ u. type_use_view u.now) result ≡ at_name field.now (fields_of (types_view types.now) type_name.now) }
{
    use_in(types.fields(type_name)?, field)
}

/// The names of objects' types, each by its object's name.
fn object_types<'b>(alloc: Global, objects: &'b Objects) -> Result<TypeNames<'b>, AllocError>
    ensures { IfOk result (λ m. object_types_view m ≡ map (λ o. (o.0, o.1.type_name)) (objects_view objects.now)) }
{
    let mut names = IndexMap::with_capacity(alloc, objects.len())?;
    for (name, object) in objects.iter() {
        names.insert(name.as_str(), object.type_name())?;
    }
    Ok(names)
}

/// What a set names and isn't there, where that is the fault.
fn absent<'t, 'a>(is_fault: bool, named: SetPlace<'t, 'a>) -> Option<SetPlace<'t, 'a>>
    ensures { result ≡ if is_fault then Some named.entry else None }
{
    if is_fault { Some(named) } else { None }
}

/// Where a set of a bundle's datum has a fault: the object that isn't there, the field that the object's type doesn't
/// have, or the first and innermost value in the datum.
///
/// There is a place where `set_field` refuses the datum by the fault. Refused where an allocation is.
pub fn place_in_set<'t, 'a>(
    alloc: Global,
    types: &'t Types,
    bundle: &Bundle,
    set: &DatumSet<'a>,
    fault: BundleFault,
) -> Result<Option<SetPlace<'t, 'a>>, AllocError>
    ensures placed { IfOk result (λ r. IfSome r (λ p. IsInSet (types_view types.now) (bundle_view bundle.now)
        set.now.object.now set.now.field.now (json_view set.now.value.now) fault (set_place_view p))) }
    ensures found { IfOk result (λ r. bundle_set (types_view types.now) (bundle_view bundle.now)
        set.now.object.now set.now.field.now (json_view set.now.value.now) ≡ Err fault → IsSome r) }
{
    let Some(found) = bundle.object(set.object) else {
        return Ok(absent(fault == BundleFault::NoObject, SetPlace::Object));
    };
    let Some(type_use) = use_of(types, found.type_name(), set.field) else {
        return Ok(absent(fault == BundleFault::UnknownField, SetPlace::Field));
    };
    let names = object_types(alloc, bundle.objects())?;
    let place = place_in_value(alloc, type_use, &names, set.value, fault)?;
    Ok(place.map(SetPlace::Datum))
}
