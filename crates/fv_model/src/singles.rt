//! An object with a datum in one field.
ghost use Rattle.std.specs.Prelude.{◌≡◌, All, cond, map, option_map, IfOk};
ghost use Rattle.std.specs.Str.{bytes_eq};
ghost use Rattle.fv_datum.specs.Data.{null};
ghost use Rattle.fv_datum.specs.View.{view};
ghost use Rattle.fv_model.specs.Single.{kept, single_field, single_of};
ghost use Rattle.fv_model.specs.Views.{types_view, object_view};
ghost use Rattle.fv_model.specs.Writing.{IsWritten};
ghost use Rattle.fv_bundle.specs.Types.{fields_view};

use crate::writable::is_writable;
use fv_bundle::{Fields, Object, TypeId, Types, use_in};
use fv_datum::Datum;
use std::alloc::{AllocError, Global};

/// A copy of a datum where the names are the same, and null elsewhere.
fn datum_where(alloc: Global, field: &str, name: &str, datum: &Datum) -> Result<Datum, AllocError>
    requires { IsWritten (view datum.now) }
    ensures exact { IfOk result (λ d. view d ≡ cond (bytes_eq field.now name.now) (view datum.now) null) }
    ensures written { IfOk result (λ d. IsWritten (view d)) }
{
    if field == name {
        datum.copy(alloc)
    } else {
        Ok(Datum::Null)
    }
}

/// A datum for each of a type's fields, in the fields' order: this one in the field of that name, and
/// null in the others.
fn data_with(
    alloc: Global,
    fields: &Fields,
    field: &str,
    datum: &Datum,
) -> Result<Vec<Datum>, AllocError>
    requires { IsWritten (view datum.now) }
    ensures exact { IfOk result (λ v. map view v.items
        ≡ map (λ f. (single_field field.now (view datum.now) f).1) (fields_view fields.now)) }
    ensures written { IfOk result (λ v. All (λ d. IsWritten (view d)) v.items) }
{
    let mut data = Vec::with_capacity(alloc, fields.len())?;
    for (name, _) in fields.iter() {
        data.push(datum_where(alloc, field, name.as_str(), datum)?)?;
    }
    Ok(data)
}

/// The same of a datum that can be written.
fn written_single(
    alloc: Global,
    types: &Types,
    type_id: TypeId,
    field: &str,
    datum: &Datum,
) -> Result<Option<Object>, AllocError>
    requires { IsWritten (view datum.now) }
    ensures { IfOk result (λ o. option_map object_view o
        ≡ single_of (types_view types.now) type_id.index field.now (view datum.now)) }
{
    let Some(fields) = types.fields_at(type_id) else {
        return Ok(None);
    };
    if use_in(fields, field).is_none() {
        return Ok(None);
    }
    let data = data_with(alloc, fields, field, datum)?;
    Ok(Some(Object::new(types.share()?, type_id, data)))
}

/// The object of a type with a copy of a datum in the field of that name, and null in the others;
/// `None` exactly where the type has no such field.
///
/// A datum that can't be written, since the keys of a map in it aren't texts in order, stands there as
/// null.
pub fn single(
    alloc: Global,
    types: &Types,
    type_id: TypeId,
    field: &str,
    datum: &Datum,
) -> Result<Option<Object>, AllocError>
    ensures { IfOk result (λ o. option_map object_view o
        ≡ single_of (types_view types.now) type_id.index field.now (kept (view datum.now))) }
{
    if is_writable(datum) {
        return written_single(alloc, types, type_id, field, datum);
    }
    written_single(alloc, types, type_id, field, &Datum::Null)
}
