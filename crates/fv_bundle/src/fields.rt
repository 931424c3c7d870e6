//! The fields of an object, each name with its datum.
ghost use Rattle.std.specs.Prelude.{◌≡◌, length, map, zip};
ghost use Rattle.std.specs.Iterator.{at_most};
ghost use Rattle.std.specs.Map.{keys_of};
ghost use Rattle.std.specs.Map.Iter.{TakesFirst};
ghost use Rattle.fv_datum.specs.View.{view};
ghost use Rattle.fv_bundle.specs.Types.{fields_view};
ghost use Rattle.fv_bundle.specs.FieldViews.{field_view, fields_left};

use crate::type_use::TypeUse;
use crate::types::Fields;
use fv_datum::Datum;
use indexmap::map::Keys;
use std::slice;

/// The fields of an object that are left, each name with its datum.
#[derive(Drop)]
pub struct ObjectFields<'a> {
    names: Keys<'a, String, TypeUse>,
    data: slice::Iter<'a, Datum>,
}

impl<'a> ObjectFields<'a> {
    /// The fields of a type, with these data.
    pub(crate) fn new(fields: &'a Fields, data: &'a [Datum]) -> ObjectFields<'a>
        ensures { fields_left result ≡ zip (keys_of (fields_view fields.now)) (map view data.now) }
    {
        ObjectFields {
            names: fields.keys(),
            data: data.iter(),
        }
    }
}

impl<'a> Iterator for ObjectFields<'a> {
    type Item = (&'a str, &'a Datum);

    ghost next_gives = { λ s r t. TakesFirst field_view (fields_left s) r (fields_left t) };

    ghost remaining = { λ s. at_most (length (fields_left s)) };

    fn next(&mut self) -> Option<(&'a str, &'a Datum)> {
        let name = self.names.next()?;
        let datum = self.data.next()?;
        Some((name.as_str(), datum))
    }
}
