ghost use Rattle.std.specs.Prelude.{◌≡◌, All, IfOk, IsSome, map, option_map, slice_get, string_bytes};
ghost use Rattle.std.proofs.Props.{props};
ghost use Rattle.fv_datum.specs.Lookup.{at_name};
ghost use Rattle.fv_datum.specs.View.{view};
ghost use Rattle.fv_bundle.specs.FieldViews.{types_view, field_view, fields_left};
ghost use Rattle.fv_bundle.specs.Types.{fields_view, fields_at};
ghost use Rattle.fv_bundle.specs.Replaced.{thing_with, bundle_with};
ghost use Rattle.fv_bundle.specs.Writing.{IsWritten};

use crate::fields::ObjectFields;
use crate::types::{Fields, TypeId, Types};
use crate::typing::object_in;
use fv_datum::Datum;
use indexmap::IndexMap;
use std::alloc::{AllocError, Global};

/// An object: its type, and a datum for each field of the type, in the fields' order.
///
/// The names of its type and of its fields are those of the types, which it shares.
#[derive(Drop)]
pub struct Object {
    types: Types,
    type_id: TypeId,
    data: Vec<Datum>,
    ghost typed: { IsSome (slice_get (types_view types) type_id.index) },
    pub ghost written: { All (λ d. IsWritten (view d)) data.items },
}

/// Copies of data.
fn copied(alloc: Global, data: &[Datum]) -> Result<Vec<Datum>, AllocError>
    ensures { IfOk result (λ v. map view v.items ≡ map view data.now) }
{
    let mut copies = Vec::with_capacity(alloc, data.len())?;
    for datum in data {
        copies.push(datum.copy(alloc)?)?;
    }
    Ok(copies)
}

impl Object {
    ghost use Rattle.fv_bundle.specs.Views.{thing_of, object_view};

    /// The object of the type of that number, with these data for its fields, in their order.
    ///
    /// The type is declared, and the keys of each map in the data are texts in order.
    pub fn new(types: Types, type_id: TypeId, data: Vec<Datum>) -> Object
        requires declared { IsSome (slice_get (types_view types) type_id.index) }
        requires written { All (λ d. IsWritten (view d)) data.items }
        ensures { object_view result ≡ thing_of (types_view types) type_id.index (map view data.items) }
    {
        Object {
            types,
            type_id,
            data,
        }
    }

    /// A copy of the object, which shares its types.
    pub fn copy(&self, alloc: Global) -> Result<Object, AllocError>
        ensures { IfOk result (λ o. object_view o ≡ object_view self.now) }
    {
        Ok(Object {
            types: self.types.share()?,
            type_id: self.type_id,
            data: copied(alloc, &self.data)?,
        })
    }

    /// The name of the object's type.
    pub fn type_name(&self) -> &str
        ensures { result.now ≡ (object_view self.now).type_name }
    {
        self.types.name(self.type_id)
    }

    /// What the object's type declares.
    fn declared(&self) -> &Fields
        ensures { fields_view result.now ≡ fields_at (types_view self.now.types) self.now.type_id.index }
    {
        match self.types.fields_at(self.type_id) {
            Some(fields) => fields,
            None => unreachable!(),
        }
    }

    /// The fields of the object's type, each name with its datum, in the fields' order.
    pub fn fields(&self) -> ObjectFields<'_>
        ensures { fields_left result ≡ (object_view self.now).fields }
    {
        ObjectFields::new(self.declared(), &self.data)
    }

    /// The name of the field of that number, with its datum.
    pub fn field_at(&self, index: usize) -> Option<(&str, &Datum)>
        ensures { option_map field_view result ≡ slice_get (object_view self.now).fields index }
    {
        let (name, _) = self.declared().get_index(index)?;
        Some((name.as_str(), self.data.get(index)?))
    }

    /// The datum of the field of that name.
    pub fn field(&self, name: &str) -> Option<&Datum>
        ensures { option_map (λ d. view d.now) result ≡ at_name name.now (object_view self.now).fields }
    {
        let index = self.declared().get_index_of(name)?;
        self.data.get(index)
    }

    /// Puts a datum into the field of that name, where there is one.
    fn put(&mut self, field: &str, datum: Datum)
        requires { IsWritten (view datum) }
        ensures { object_view self.new ≡ thing_with field.now (view datum) (object_view self.old) }
    {
        if let Some(index) = self.declared().get_index_of(field) {
            if index < self.data.len() {
                self.data[index] = datum;
            }
        }
    }
}

/// Objects, each by its name.
pub type Objects = IndexMap<String, Object>;

/// Named objects, one of which is the root.
#[derive(Drop)]
pub struct Bundle {
    root: String,
    objects: Objects,
}

impl Bundle {
    ghost use Rattle.fv_bundle.specs.Views.{object_view, objects_view, bundle_view};

    /// The bundle of these objects, whose root has that name. It need not be well-typed.
    pub fn new(root: String, objects: Objects) -> Bundle
        ensures { bundle_view result ≡ (record { root = string_bytes root; objects = objects_view objects }) }
    {
        Bundle { root, objects }
    }

    /// The name of the root.
    pub fn root(&self) -> &str
        ensures { result.now ≡ (bundle_view self.now).root }
    {
        self.root.as_str()
    }

    /// The objects, in their order; in a well-typed bundle they ascend by the bytes of their names.
    pub fn objects(&self) -> &Objects
        ensures { objects_view result.now ≡ (bundle_view self.now).objects }
    {
        &self.objects
    }

    /// The object of that name.
    pub fn object(&self, name: &str) -> Option<&Object>
        ensures { option_map (λ o. object_view o.now) result ≡ at_name name.now (bundle_view self.now).objects }
    {
        object_in(&self.objects, name)
    }

    /// Puts a datum into a field of the object of that name, where there are both. The bundle need
    /// not be well-typed afterwards.
    ///
    /// The keys of each map in the datum are texts in order.
    pub fn put(&mut self, object: &str, field: &str, datum: Datum)
        requires { IsWritten (view datum) }
        ensures { bundle_view self.new ≡ bundle_with object.now field.now (view datum) (bundle_view self.old) }
    {
        if let Some(object) = self.objects.get_mut(object) {
            object.put(field, datum);
        }
    }
}
