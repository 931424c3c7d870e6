ghost use Rattle.std.specs.Prelude.{◌≡◌, ◌≢◌, IfOk, IfSome, IsSome, Some, None, Err, option_map, is_some, not, false, if◌then◌else◌, length, nat_lt};
ghost use Rattle.std.specs.Option.{option_map_or};
ghost use Rattle.serde_json.specs.View.{view as json_view, members_view};
ghost use Rattle.fv_datum.specs.Lookup.{at_name};
ghost use Rattle.fv_datum.specs.Members.{pairs};
ghost use Rattle.fv_model.specs.Reading.{bundle_read, value_read};
ghost use Rattle.fv_bundle.specs.Flaws.{is_other};
ghost use Rattle.fv_bundle.specs.Names.{object_types_view};
ghost use Rattle.fv_bundle.specs.Types.{name_at, type_use_view};
ghost use Rattle.fv_bundle.specs.TypesView.{types_view};
ghost use Rattle.fv_model_fault.specs.Faults.{HasFault};
ghost use Rattle.fv_model_fault.specs.Given.{objects_in, root_in};
ghost use Rattle.fv_model_fault.specs.Places.{IsAlone, of_bundle, of_object};
ghost use Rattle.fv_model_fault.specs.Sought.{HasFlaw, flaw_of};
ghost use Rattle.fv_model_fault.specs.Told.{has_fault};
ghost use Rattle.fv_model_fault.specs.Views.{member_view, place_view};

use crate::given::{root_of, type_names};
use crate::objects::{Member, badly_named, untyped};
use crate::place::FaultPlace;
use crate::search::Search;
use fv_bundle::{TypeId, TypeNames, TypeUse, Types, is_other, type_at};
use fv_datum::object_at;
use fv_model::BundleFault;
use serde_json::{Map, Value};
use std::alloc::{AllocError, Global};

/// The most objects.
const MOST_OBJECTS: usize = 256;

/// The bundle as a whole, where it has a fault.
fn of_bundle<'t, 'a>(alloc: Global, value: &'a Value, faulty: bool) -> Option<FaultPlace<'t, 'a>>
    ensures { option_map place_view result ≡ if faulty then Some (of_bundle (json_view value.now)) else None }
{
    if !faulty {
        return None;
    }
    Some(FaultPlace {
        object: None,
        field: None,
        steps: Vec::new(alloc),
        value,
        type_use: None,
    })
}

/// An object as a whole, where one has a fault.
fn of_object<'t, 'a>(alloc: Global, found: Option<Member<'a>>) -> Option<FaultPlace<'t, 'a>>
    ensures { option_map place_view result ≡ option_map (λ m. of_object (member_view m)) found.entry }
{
    let (name, value) = found?;
    Some(FaultPlace {
        object: Some(name),
        field: None,
        steps: Vec::new(alloc),
        value,
        type_use: None,
    })
}

/// Whether the root names no object.
fn lacks_root(value: &Value, type_names: &TypeNames) -> bool
    ensures { result ≡ not (is_some (at_name (root_in (json_view value.now)) (object_types_view type_names.now))) }
{
    type_at(type_names, root_of(value)).is_none()
}

/// Whether the root is of another type than asked.
fn has_other_root(
    types: &Types,
    asked: Option<TypeId>,
    value: &Value,
    type_names: &TypeNames,
) -> bool
    ensures { result ≡ option_map_or (λ type. is_other type (at_name (root_in (json_view value.now)) (object_types_view type_names.now)))
        (option_map (λ t. name_at (types_view types.now) t.index) asked) false }
{
    match asked {
        None => false,
        Some(id) => is_other(types.name(id), type_at(type_names, root_of(value))),
    }
}

/// Whether there are more objects than a bundle may have.
fn are_too_many(objects: &Map<String, Value>) -> bool
    ensures { result ≡ nat_lt 256 (length (pairs (members_view objects.now.entries))) }
{
    objects.len() > MOST_OBJECTS
}

/// The place where the objects of a bundle, or the bundle as a whole, have a fault.
fn place_among<'t, 'a>(
    alloc: Global,
    types: &'t Types,
    asked: Option<TypeId>,
    value: &'a Value,
    objects: &'a Map<String, Value>,
    fault: BundleFault,
) -> Result<Option<FaultPlace<'t, 'a>>, AllocError>
    requires { objects_in (json_view value.now) ≡ pairs (members_view objects.now.entries) }
    ensures told { IfOk result (λ r. is_some r ≡ has_fault (types_view types.now)
        (option_map (λ t. name_at (types_view types.now) t.index) asked) (json_view value.now) fault) }
    ensures placed { IfOk result (λ r. IfSome r (λ p. HasFault (types_view types.now)
        (option_map (λ t. name_at (types_view types.now) t.index) asked) (json_view value.now) fault (place_view p))) }
{
    let type_names = type_names(alloc, objects)?;
    let search = Search {
        alloc,
        fault,
        type_names: &type_names,
    };
    match fault {
        BundleFault::BadName => Ok(of_object(alloc, badly_named(objects))),
        BundleFault::RootMissing => Ok(of_bundle(alloc, value, lacks_root(value, &type_names))),
        BundleFault::UnknownType => Ok(of_object(alloc, untyped(types, objects))),
        BundleFault::UnknownField
        | BundleFault::WrongKind
        | BundleFault::DanglingRef
        | BundleFault::RefType => search.place_in_objects(types, objects),
        BundleFault::TooLarge => {
            if are_too_many(objects) {
                return Ok(of_bundle(alloc, value, true));
            }
            search.place_in_objects(types, objects)
        }
        BundleFault::RootType => Ok(of_bundle(
            alloc,
            value,
            has_other_root(types, asked, value, &type_names),
        )),
        BundleFault::Shape | BundleFault::NoObject | BundleFault::Memory => Ok(None),
    }
}

/// Where the JSON of a bundle has a fault, its root asked to be of a type where one is asked: the first object
/// in the order of their names, in it the first field that is given, and in its datum the first and innermost
/// value.
///
/// There is a place where `read_bundle` refuses the bundle by the fault, but none for `Shape`. Refused where
/// an allocation is.
pub fn place_in_bundle<'t, 'a>(
    alloc: Global,
    types: &'t Types,
    asked: Option<TypeId>,
    value: &'a Value,
    fault: BundleFault,
) -> Result<Option<FaultPlace<'t, 'a>>, AllocError>
    ensures placed { IfOk result (λ r. IfSome r (λ p. HasFault (types_view types.now)
        (option_map (λ t. name_at (types_view types.now) t.index) asked) (json_view value.now) fault (place_view p))) }
    ensures found { IfOk result (λ r. bundle_read (types_view types.now)
        (option_map (λ t. name_at (types_view types.now) t.index) asked) (json_view value.now) ≡ Err fault
        → fault ≢ BundleFault.Shape → IsSome r) }
{
    match object_at(value, "objects") {
        None => Ok(None),
        Some(objects) => place_among(alloc, types, asked, value, objects, fault),
    }
}

/// Where a datum by itself has a fault, among objects whose types have these names: the first and innermost value
/// in it.
/// The place has no object and no field.
///
/// There is a place where `read_value` refuses the datum by the fault: it looks up no reference, so no object is
/// needed. A set's is told by `place_in_set`. Refused where an allocation is.
pub fn place_in_value<'t, 'a>(
    alloc: Global,
    type_use: &'t TypeUse,
    type_names: &TypeNames,
    value: &'a Value,
    fault: BundleFault,
) -> Result<Option<FaultPlace<'t, 'a>>, AllocError>
    ensures placed { IfOk result (λ r. IfSome r (λ p. HasFlaw (flaw_of fault (object_types_view type_names.now))
        (Some (type_use_view type_use.now)) (json_view value.now) (place_view p))) }
    ensures alone { IfOk result (λ r. IfSome r (λ p. IsAlone (place_view p))) }
    ensures found { IfOk result (λ r. is_some r ≡ flaw_of fault (object_types_view type_names.now)
        (Some (type_use_view type_use.now)) (json_view value.now)) }
    ensures read { IfOk result (λ r. value_read (type_use_view type_use.now) (json_view value.now) ≡ Err fault → IsSome r) }
{
    let search = Search {
        alloc,
        fault,
        type_names,
    };
    if !search.has_flaw(type_use, value)? {
        return Ok(None);
    }
    Ok(Some(search.descend(type_use, value)?))
}
