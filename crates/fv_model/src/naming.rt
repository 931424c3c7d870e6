//! The objects of a bundle by their types' names.
ghost use Rattle.std.specs.Prelude.{◌≡◌, map, IfOk};
ghost use Rattle.fv_bundle.specs.Names.{object_types_view};
ghost use Rattle.fv_model.specs.Views.{objects_view};

use fv_bundle::{Objects, TypeNames};
use indexmap::IndexMap;
use std::alloc::{AllocError, Global};

/// The names of objects' types, each by its object's name.
pub(crate) fn type_names<'a>(
    alloc: Global,
    objects: &'a Objects,
) -> Result<TypeNames<'a>, AllocError>
    ensures { IfOk result (λ m. object_types_view m ≡ map (λ o. (o.0, o.1.type_name)) (objects_view objects.now)) }
{
    let mut out = IndexMap::with_capacity(alloc, objects.len())?;
    for (name, object) in objects.iter() {
        out.insert(name.as_str(), object.type_name())?;
    }
    Ok(out)
}
