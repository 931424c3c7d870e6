//! The objects of a bundle with the references that they hold.
ghost use Rattle.std.specs.Prelude.{◌≡◌, IfOk, map};
ghost use Rattle.fv_declare_schema.specs.Ordered.{AreOrdered};
ghost use Rattle.fv_bundle.specs.Views.{bundle_view, objects_view};
ghost use Rattle.fv_bundle.specs.WellTyped.{IsWellTyped};
ghost use Rattle.fv_local.specs.Graphs.{ways_view, links_of, IsGraphOf};

use crate::way::{Way, number_in, ways_of};
use fv_bundle::{Bundle, Objects};
use fv_declare_schema::Schema;
use std::alloc::{AllocError, Global};

/// A bundle with the references that its objects hold at the valid places of their types. The number
/// of an object is its place in the order of the objects' names.
#[derive(Drop)]
pub struct ObjectGraph<'s, 'b> {
    pub bundle: &'b Bundle,
    /// The references of each object, in order.
    pub ways: Vec<Vec<Way<'s, 'b>>>,
    /// The root's number.
    pub root: usize,
}

/// The declarations are in order: a law, which a caller's proof may cite.
fn is_ordered(schema: &Schema)
    ensures { AreOrdered schema.now }
{
    schema.occurrences();
}

/// The references of each object.
fn all_ways<'s, 'b>(
    alloc: Global,
    schema: &'s Schema,
    objects: &'b Objects,
) -> Result<Vec<Vec<Way<'s, 'b>>>, AllocError>
    ensures { IfOk result (λ v. ways_view v.items
        ≡ map (λ o. links_of schema.now (objects_view objects.now) o.1) (objects_view objects.now)) }
{
    let mut ways = Vec::with_capacity(alloc, objects.len())?;
    for (_, object) in objects {
        ways.push(ways_of(alloc, schema, objects, object)?)?;
    }
    Ok(ways)
}

impl<'s, 'b> ObjectGraph<'s, 'b> {
    /// The graph of a bundle. References alone are looked at, each once.
    pub fn new(
        alloc: Global,
        schema: &'s Schema,
        bundle: &'b Bundle,
    ) -> Result<ObjectGraph<'s, 'b>, AllocError>
        requires { IsWellTyped schema.now.types (bundle_view bundle.now) }
        ensures graph { IfOk result (λ g. IsGraphOf schema.now g) }
        ensures bundle { IfOk result (λ g. bundle_view g.bundle.now ≡ bundle_view bundle.now) }
        ensures ordered { AreOrdered schema.now }
    {
        is_ordered(schema);
        let objects = bundle.objects();
        let ways = all_ways(alloc, schema, objects)?;
        let Some(root) = number_in(objects, bundle.root()) else {
            unreachable!()
        };
        Ok(ObjectGraph { bundle, ways, root })
    }
}
