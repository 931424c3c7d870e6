//! The first object with a fault, and the first of its fields.
ghost use Rattle.std.specs.Prelude.{◌≡◌, IfOk, IfSome, find, is_some, option_map};
ghost use Rattle.std.specs.List.{list_any};
ghost use Rattle.serde_json.specs.View.{view as json_view, members_view};
ghost use Rattle.fv_datum.specs.Members.{pairs};
ghost use Rattle.fv_bundle.specs.TypesView.{types_view};
ghost use Rattle.fv_bundle.specs.Types.{fields_view};
ghost use Rattle.fv_model_fault.specs.Faults.{is_badly_named, is_untyped, is_flawed, has_flawed, IsInObject, IsInFirst};
ghost use Rattle.fv_model_fault.specs.SearchViews.{sought};
ghost use Rattle.fv_model_fault.specs.Views.{member_view, place_view};

use crate::given::type_of;
use crate::place::FaultPlace;
use crate::search::Search;
use fv_bundle::{Fields, Types, use_in};
use fv_datum::{is_name, object_at};
use serde_json::{Map, Value};
use std::alloc::AllocError;

/// A member: its name with its value.
pub(crate) type Member<'a> = (&'a str, &'a Value);

/// The first object whose name is no name.
pub(crate) fn badly_named<'a>(objects: &'a Map<String, Value>) -> Option<Member<'a>>
    ensures { option_map member_view result ≡ find is_badly_named (pairs (members_view objects.now.entries)) }
{
    for (name, object) in objects.iter() {
        if !is_name(name.as_str()) {
            return Some((name.as_str(), object));
        }
    }
    None
}

/// The first object whose type isn't declared.
pub(crate) fn untyped<'a>(types: &Types, objects: &'a Map<String, Value>) -> Option<Member<'a>>
    ensures { option_map member_view result ≡ find (is_untyped (types_view types.now)) (pairs (members_view objects.now.entries)) }
{
    for (name, object) in objects.iter() {
        if types.fields(type_of(object)).is_none() {
            return Some((name.as_str(), object));
        }
    }
    None
}

impl Search<'_, '_> {
    /// The first datum that has the flaw, of those that are given for an object's fields.
    fn flawed_field<'a>(
        &self,
        fields: &Fields,
        given: &'a Map<String, Value>,
    ) -> Result<Option<Member<'a>>, AllocError>
        ensures { IfOk result (λ r. option_map member_view r
            ≡ find (is_flawed (sought self.now) (fields_view fields.now)) (pairs (members_view given.now.entries))) }
    {
        for (name, value) in given.iter() {
            if self.has_flaw_at(use_in(fields, name.as_str()), value)? {
                return Ok(Some((name.as_str(), value)));
            }
        }
        Ok(None)
    }

    /// The place in the first datum that has the flaw, of those that are given for an object's fields.
    fn place_in_object<'t, 'a>(
        &self,
        types: &'t Types,
        name: &'a str,
        object: &'a Value,
    ) -> Result<Option<FaultPlace<'t, 'a>>, AllocError>
        ensures told { IfOk result (λ r. is_some r
            ≡ has_flawed (sought self.now) (types_view types.now) (name.now, json_view object.now)) }
        ensures placed { IfOk result (λ r. IfSome r (λ p.
            IsInObject (sought self.now) (types_view types.now) (name.now, json_view object.now) (place_view p))) }
    {
        let Some(fields) = types.fields(type_of(object)) else {
            return Ok(None);
        };
        let Some(given) = object_at(object, "fields") else {
            return Ok(None);
        };
        let Some((field, value)) = self.flawed_field(fields, given)? else {
            return Ok(None);
        };
        let place = self.descend_at(use_in(fields, field), value)?;
        Ok(Some(FaultPlace {
            object: Some(name),
            field: Some(field),
            ..place
        }))
    }

    /// The same of the first object of which a datum has the flaw.
    pub(crate) fn place_in_objects<'t, 'a>(
        &self,
        types: &'t Types,
        objects: &'a Map<String, Value>,
    ) -> Result<Option<FaultPlace<'t, 'a>>, AllocError>
        ensures told { IfOk result (λ r. is_some r
            ≡ list_any (has_flawed (sought self.now) (types_view types.now)) (pairs (members_view objects.now.entries))) }
        ensures placed { IfOk result (λ r. IfSome r (λ p.
            IsInFirst (sought self.now) (types_view types.now) (pairs (members_view objects.now.entries)) (place_view p))) }
    {
        for (name, object) in objects.iter() {
            if let Some(place) = self.place_in_object(types, name.as_str(), object)? {
                return Ok(Some(place));
            }
        }
        Ok(None)
    }
}
