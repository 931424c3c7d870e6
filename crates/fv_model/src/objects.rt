//! A bundle of objects that are given each by itself.
ghost use Rattle.std.specs.Prelude.{◌≡◌, None, map, IfOk, Ok};
ghost use Rattle.std.specs.Map.{keys_of};
ghost use Rattle.fv_datum.specs.Outcomes.{Gives};
ghost use Rattle.fv_bundle.specs.Bundles.{Bundled, IsAscending};
ghost use Rattle.fv_bundle.specs.Typing.{ascend_behind};
ghost use Rattle.fv_bundle.specs.WellTyped.{IsWellTyped};
ghost use Rattle.fv_model.specs.Draft.{part_written};
ghost use Rattle.fv_model.specs.Reading.{object_types, objects_read};
ghost use Rattle.fv_model.specs.Views.{types_view, part_view, bundle_view};
ghost use Rattle.fv_model.specs.Writing.{bundle_written};

use crate::draft::object_types_of;
use crate::fault::BundleFault;
use crate::parts::{Draft, Part};
use crate::spelled::judged;
use fv_bundle::{Bundle, Types};
use std::alloc::Global;

/// Whether the names of objects ascend.
fn are_ascending(objects: &[Part]) -> bool
    ensures { result ≡ ascend_behind None (keys_of (object_types (map part_view objects.now))) }
{
    let mut last: Option<&str> = None;
    for object in objects {
        if let Some(last) = last {
            if last >= object.name {
                return false;
            }
        }
        last = Some(object.name);
    }
    true
}

/// The bundle of these objects, whose root has that name, as `read_bundle` gives it of JSON that has them.
///
/// It is well-typed. Of the objects of a well-typed bundle, each given as it is written, it is that bundle.
/// Refused by `Shape` where the names of the objects don't ascend, then as `read_bundle` refuses; `Memory`
/// at any place.
pub fn read_objects<'a>(
    alloc: Global,
    types: &Types,
    root: &'a str,
    objects: Vec<Part<'a>>,
) -> Result<Bundle, BundleFault>
    ensures exact { Gives BundleFault.Memory bundle_view result
        (objects_read (types_view types.now) (record { root = root.now; objects = map part_view objects.entry.items })) }
    ensures well_typed { IfOk result (λ b. IsWellTyped (types_view types.now) (bundle_view b)) }
    ensures read_back { (b : Bundled) → IsWellTyped (types_view types.now) b
        → (root.now, map part_written (map part_view objects.entry.items)) ≡ bundle_written b
        → Gives BundleFault.Memory bundle_view result (Ok b) }
{
    given_objects(alloc, types, root, objects)
}

/// The same, by the definition alone.
fn given_objects<'a>(
    alloc: Global,
    types: &Types,
    root: &'a str,
    objects: Vec<Part<'a>>,
) -> Result<Bundle, BundleFault>
    ensures exact { Gives BundleFault.Memory bundle_view result
        (objects_read (types_view types.now) (record { root = root.now; objects = map part_view objects.entry.items })) }
    ensures ascending { IfOk result (λ b. IsAscending (keys_of (bundle_view b).objects)) }
{
    if !are_ascending(&objects) {
        return Err(BundleFault::Shape);
    }
    let type_names = object_types_of(alloc, &objects)?;
    let draft = Draft {
        root,
        objects,
        type_names,
    };
    judged(alloc, types, None, &draft)
}
