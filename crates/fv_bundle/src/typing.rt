//! Whether data, objects and bundles are of what is declared.
ghost use Rattle.std.specs.Prelude.{◌≡◌, ◌↔◌, ◌&&◌, IsTrue, Some, None, length, map, nat_le, option_map};
ghost use Rattle.std.specs.List.{list_all};
ghost use Rattle.std.specs.Map.{keys_of};
ghost use Rattle.fv_datum.specs.Lookup.{at_name};
ghost use Rattle.fv_datum.specs.Json.{is_of_64_bits};
ghost use Rattle.fv_datum.specs.View.{view, items_view, entries_view};
ghost use Rattle.fv_bundle.specs.Typing.{naming, fits_use, items_fit, entries_fit, fields_fit, thing_fits, is_named_thing, is_above, ascend_behind, is_well_typed};
ghost use Rattle.fv_bundle.specs.Views.{types_view, object_view, objects_view, bundle_view};
ghost use Rattle.fv_bundle.specs.WellTyped.{AnyName, IsOfType, IsWellTyped};
ghost use Rattle.fv_datum.specs.Written.{keys_fit};
ghost use Rattle.fv_bundle.specs.Fits.{Fits};
ghost use Rattle.fv_bundle.specs.TypeLimits.{most_entries};
ghost use Rattle.fv_bundle.specs.Types.{type_use_view, fields_view};

use crate::bundle::{Bundle, Object, Objects};
use crate::type_use::TypeUse;
use crate::types::{Fields, Types};
use fv_datum::{Datum, day_of, decimal_units, is_name, key_of, keys_fit, moment_ok};

/// The most bytes of a text or a map's key.
const LONGEST: usize = 65536;

/// The most items of a list and entries of a map.
const MOST_ENTRIES: usize = 65536;

/// The most objects of a bundle.
const MOST_OBJECTS: usize = 256;

/// The object of that name.
pub(crate) fn object_in<'a>(objects: &'a Objects, name: &str) -> Option<&'a Object>
    ensures { option_map (λ o. object_view o.now) result ≡ at_name name.now (objects_view objects.now) }
{
    objects.get(name)
}

/// Whether a reference to an object of a type may have a name: that of such an object among these, and
/// any where there are none to look among.
fn may_name(among: Option<&Objects>, type_name: &str, name: &str) -> bool
    ensures { result ≡ naming (option_map (λ m. objects_view m.now) among.entry) type_name.now name.now }
{
    match among {
        None => true,
        Some(objects) => match object_in(objects, name) {
            None => false,
            Some(object) => object.type_name() == type_name,
        },
    }
}

/// A whole number of 64 bits is an integer.
fn is_integer(number: i64) -> bool
    ensures { result ≡ is_of_64_bits number }
{
    true
}

/// Whether a datum is null or of a type use, within the limits.
#[cycle(fits)]
fn fits(among: Option<&Objects>, datum: &Datum, type_use: &TypeUse) -> bool
    ensures { result ≡ fits_use (naming (option_map (λ m. objects_view m.now) among.entry))
        (type_use_view type_use.now) (view datum.now) }
{
    match datum {
        Datum::Null => true,
        Datum::Text(text) => matches!(type_use, TypeUse::Text) && text.len() <= LONGEST,
        Datum::Integer(number) => matches!(type_use, TypeUse::Integer) && is_integer(*number),
        Datum::Decimal(text) => {
            matches!(type_use, TypeUse::Decimal) && decimal_units(text.as_str()).is_some()
        }
        Datum::Boolean(_) => matches!(type_use, TypeUse::Boolean),
        Datum::Date(text) => matches!(type_use, TypeUse::Date) && day_of(text.as_str()).is_some(),
        Datum::Instant(seconds) => matches!(type_use, TypeUse::Instant) && moment_ok(*seconds),
        Datum::Ref(name) => match type_use.target() {
            Some(target) => may_name(among, target, name.as_str()),
            None => false,
        },
        Datum::List(items) => match type_use.items() {
            Some(held) => list_fits(among, items, held),
            None => false,
        },
        Datum::Map(entries) => match type_use.values() {
            Some(held) => map_fits(among, entries, held),
            None => false,
        },
        Datum::Optional(content) => match type_use.content() {
            Some(held) => fits(among, content, held),
            None => false,
        },
    }
}

/// Whether a list of these items is within the limits, and each item is of what it holds.
#[cycle(fits)]
fn list_fits(among: Option<&Objects>, items: &Vec<Datum>, held: &TypeUse) -> bool
    ensures { result ≡ (nat_le (length items.now.items) most_entries && items_fit (naming (option_map (λ m. objects_view m.now) among.entry))
        (type_use_view held.now) (items_view items.now.items)) }
{
    items.len() <= MOST_ENTRIES && items_fit(among, items, held)
}

/// Whether a map of these entries is within the limits, its keys are texts in order, and each value is
/// of what it leads to.
#[cycle(fits)]
fn map_fits(among: Option<&Objects>, entries: &Vec<(Datum, Datum)>, held: &TypeUse) -> bool
    ensures { result ≡ (nat_le (length entries.now.items) most_entries && (keys_fit (entries_view entries.now.items)
        && entries_fit (naming (option_map (λ m. objects_view m.now) among.entry)) (type_use_view held.now) (entries_view entries.now.items))) }
{
    entries.len() <= MOST_ENTRIES && keys_fit(entries) && entries_fit(among, entries, held)
}

/// Whether each item is.
#[cycle(fits)]
fn items_fit(among: Option<&Objects>, items: &Vec<Datum>, held: &TypeUse) -> bool
    ensures { result ≡ items_fit (naming (option_map (λ m. objects_view m.now) among.entry))
        (type_use_view held.now) (items_view items.now.items) }
{
    for item in items {
        if !fits(among, item, held) {
            return false;
        }
    }
    true
}

/// Whether each value is, and no key is too long.
#[cycle(fits)]
fn entries_fit(among: Option<&Objects>, entries: &Vec<(Datum, Datum)>, held: &TypeUse) -> bool
    ensures { result ≡ entries_fit (naming (option_map (λ m. objects_view m.now) among.entry))
        (type_use_view held.now) (entries_view entries.now.items) }
{
    for entry in entries {
        if key_of(&entry.0).len() > LONGEST || !fits(among, &entry.1, held) {
            return false;
        }
    }
    true
}

/// Whether a datum is null or of a type use, within the limits: a text or a key has at most 65,536
/// bytes, a list or a map at most 65,536 entries. A reference may be any name.
pub fn is_of_use(datum: &Datum, type_use: &TypeUse) -> bool
    ensures { IsTrue result ↔ Fits AnyName (type_use_view type_use.now) (view datum.now) }
{
    fits(None, datum, type_use)
}

/// Whether an object has the fields of a type, in order, each with a datum that fits.
fn fields_fit(among: Option<&Objects>, declared: &Fields, object: &Object) -> bool
    ensures { result ≡ fields_fit (naming (option_map (λ m. objects_view m.now) among.entry))
        (fields_view declared.now) (object_view object.now).fields }
{
    let mut fields = object.fields();
    for (name, type_use) in declared.iter() {
        match fields.next() {
            None => return false,
            Some((own, datum)) => {
                if own != name.as_str() || !fits(among, datum, type_use) {
                    return false;
                }
            }
        }
    }
    fields.next().is_none()
}

/// Whether an object is of a declared type.
fn is_typed(among: Option<&Objects>, types: &Types, object: &Object) -> bool
    ensures { result ≡ thing_fits (naming (option_map (λ m. objects_view m.now) among.entry))
        (types_view types.now) (object_view object.now) }
{
    match types.fields(object.type_name()) {
        None => false,
        Some(declared) => fields_fit(among, declared, object),
    }
}

/// Whether a name is above the one before, if there is one.
fn is_above(last: Option<&str>, name: &str) -> bool
    ensures { result ≡ is_above (option_map (λ s. s.now) last.entry) name.now }
{
    match last {
        None => true,
        Some(last) => last < name,
    }
}

/// Whether the names of objects ascend.
fn are_ascending(objects: &Objects) -> bool
    ensures { result ≡ ascend_behind None (keys_of (objects_view objects.now)) }
{
    let mut last = None;
    for (name, _) in objects.iter() {
        if !is_above(last, name.as_str()) {
            return false;
        }
        last = Some(name.as_str());
    }
    true
}

/// Whether each object has a name and is of a declared type.
fn are_typed(types: &Types, objects: &Objects) -> bool
    ensures { result ≡ list_all (is_named_thing (naming (Some (objects_view objects.now))) (types_view types.now)) (objects_view objects.now) }
{
    for (name, object) in objects.iter() {
        if !is_name(name.as_str()) || !is_typed(Some(objects), types, object) {
            return false;
        }
    }
    true
}

/// Whether a bundle is well-typed.
fn is_sound(types: &Types, bundle: &Bundle) -> bool
    ensures { result ≡ is_well_typed (types_view types.now) (bundle_view bundle.now) }
{
    if bundle.objects().len() > MOST_OBJECTS || bundle.object(bundle.root()).is_none() {
        return false;
    }
    are_ascending(bundle.objects()) && are_typed(types, bundle.objects())
}

impl Object {
    /// Whether the object is of a type that is declared: it has the fields of the type of its name, in
    /// order, each with null or a datum of its type use within the limits. A reference may be any name.
    pub fn is_of_type(&self, types: &Types) -> bool
        ensures { IsTrue result ↔ IsOfType (types_view types.now) (object_view self.now) }
    {
        is_typed(None, types, self)
    }
}

impl Bundle {
    /// Whether the bundle is well-typed: it has at most 256 objects, ascending by their names, the root
    /// among them, each of a type that is declared, each datum is of its field's type use within the
    /// limits, and each reference names an object of its type.
    pub fn is_well_typed(&self, types: &Types) -> bool
        ensures { IsTrue result ↔ IsWellTyped (types_view types.now) (bundle_view self.now) }
    {
        is_sound(types, self)
    }
}
