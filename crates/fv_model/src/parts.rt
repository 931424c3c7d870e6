//! The parts of a bundle as it is given, before it is judged.
ghost use Rattle.std.specs.Prelude.{◌≡◌, map, option_map};
ghost use Rattle.std.specs.Map.{keys_of};
ghost use Rattle.std.proofs.Props.{props};
ghost use Rattle.fv_datum.specs.Lookup.{at_name};
ghost use Rattle.fv_datum.specs.Ascending.{IsAscending};
ghost use Rattle.fv_bundle.specs.Names.{object_types_view};
ghost use Rattle.fv_model.specs.Reading.{object_types};
ghost use Rattle.fv_model.specs.PartViews.{part_view};

use fv_bundle::{TypeNames, type_at};
use serde_json::{Map, Value};

/// An object as it is given.
#[derive(Drop)]
pub struct Part<'a> {
    pub name: &'a str,
    pub type_name: &'a str,
    /// The member `fields`, where there is one.
    pub given: Option<&'a Map<String, Value>>,
}

/// A bundle as it is given.
#[derive(Drop)]
pub(crate) struct Draft<'a> {
    pub(crate) root: &'a str,
    pub(crate) objects: Vec<Part<'a>>,
    /// The names of the objects' types, each by its object's name.
    pub(crate) type_names: TypeNames<'a>,
    ghost ascending: { IsAscending (keys_of (object_types (map part_view objects.items))) } by { Prim.hlevel props },
    ghost known: { object_types_view type_names ≡ object_types (map part_view objects.items) },
}

impl<'a> Draft<'a> {
    ghost use Rattle.fv_model.specs.Views.{draft_view};

    /// The name of the type of the object of that name.
    pub(crate) fn type_at(&self, name: &str) -> Option<&'a str>
        ensures { option_map (λ s. s.now) result ≡ at_name name.now (object_types (draft_view self.now).objects) }
    {
        type_at(&self.type_names, name)
    }
}
