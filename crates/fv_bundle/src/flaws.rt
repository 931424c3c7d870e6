//! What can be wrong with data that are given, apart from their kinds, in one pass.
ghost use Rattle.std.specs.Prelude.{◌≡◌, ◌||◌, false, not, nat_lt, length, Some, is_some, option_map};
ghost use Rattle.std.specs.List.{list_any};
ghost use Rattle.std.specs.Map.{keys_of};
ghost use Rattle.std.specs.Option.{option_map_or};
ghost use Rattle.serde_json.specs.Find.{as_str};
ghost use Rattle.serde_json.specs.View.{view as json_view, items_view as json_items, members_view};
ghost use Rattle.fv_datum.specs.Lookup.{at_name};
ghost use Rattle.fv_datum.specs.Members.{pairs, listed};
ghost use Rattle.fv_datum.specs.Ascending.{IsAscending};
ghost use Rattle.fv_bundle.specs.Names.{object_types_view};
ghost use Rattle.fv_bundle.specs.Types.{type_use_view, fields_view};
ghost use Rattle.fv_bundle.specs.Tells.{Tells};
ghost use Rattle.fv_bundle.specs.Flaws.{is_other, is_long, IsNeverFlawed};

use crate::type_use::TypeUse;
use crate::types::{Fields, use_in};
use indexmap::IndexMap;
use serde_json::{Map, Value};

/// The most bytes of a text or a map's key.
const LONGEST: usize = 65536;

/// The most items of a list and entries of a map.
const MOST_ENTRIES: usize = 65536;

/// The names of the types of objects, each by its object's name.
pub type TypeNames<'a> = IndexMap<&'a str, &'a str>;

/// What is wrong with data that are given, apart from their kinds.
#[derive(Clone, Copy)]
pub struct Flaws {
    /// An object's type has no such field.
    pub undeclared: bool,
    /// A reference names no object.
    pub dangling: bool,
    /// A reference names an object of another type than its field's.
    pub stray: bool,
    /// A text, a key, a list or a map is too large.
    pub large: bool,
}

impl Flaws {
    /// Nothing is wrong.
    pub fn none() -> Flaws
        ensures undeclared { result.undeclared ≡ false }
        ensures dangling { result.dangling ≡ false }
        ensures stray { result.stray ≡ false }
        ensures large { result.large ≡ false }
    {
        Flaws {
            undeclared: false,
            dangling: false,
            stray: false,
            large: false,
        }
    }

    /// Only that something is too large, where it is.
    fn of_size(large: bool) -> Flaws
        ensures undeclared { result.undeclared ≡ false }
        ensures dangling { result.dangling ≡ false }
        ensures stray { result.stray ≡ false }
        ensures large { result.large ≡ large }
    {
        Flaws {
            undeclared: false,
            dangling: false,
            stray: false,
            large,
        }
    }

    /// These and those.
    pub fn and(self, others: Flaws) -> Flaws
        ensures undeclared { result.undeclared ≡ (self.undeclared || others.undeclared) }
        ensures dangling { result.dangling ≡ (self.dangling || others.dangling) }
        ensures stray { result.stray ≡ (self.stray || others.stray) }
        ensures large { result.large ≡ (self.large || others.large) }
    {
        Flaws {
            undeclared: self.undeclared || others.undeclared,
            dangling: self.dangling || others.dangling,
            stray: self.stray || others.stray,
            large: self.large || others.large,
        }
    }
}

/// The name of the type of the object of that name.
pub fn type_at<'a>(types: &TypeNames<'a>, name: &str) -> Option<&'a str>
    ensures { option_map (λ s. s.now) result ≡ at_name name.now (object_types_view types.now) }
{
    types.get(name).copied()
}

/// An object is of another type than this one.
pub fn is_other(type_name: &str, own: Option<&str>) -> bool
    ensures { result ≡ is_other type_name.now (option_map (λ s. s.now) own.entry) }
{
    match own {
        None => false,
        Some(own) => type_name != own,
    }
}

/// What is wrong with a reference to an object of this type.
fn reference_flaws(types: &TypeNames, target: &str, value: &Value) -> Flaws
    ensures undeclared { result.undeclared ≡ false }
    ensures dangling { result.dangling ≡ option_map_or
        (λ name. not (is_some (at_name name (object_types_view types.now)))) (as_str (json_view value.now)) false }
    ensures stray { result.stray ≡ option_map_or
        (λ name. is_other target.now (at_name name (object_types_view types.now))) (as_str (json_view value.now)) false }
    ensures large { result.large ≡ false }
{
    match value.as_str() {
        None => Flaws::none(),
        Some(name) => {
            let own = type_at(types, name);
            Flaws {
                undeclared: false,
                dangling: own.is_none(),
                stray: is_other(target, own),
                large: false,
            }
        }
    }
}

/// A text of more bytes than a field may hold.
fn is_long(text: &str) -> bool
    ensures { result ≡ is_long text.now }
{
    text.len() > LONGEST
}

/// The same of a value that is a text.
fn is_long_text(value: &Value) -> bool
    ensures { result ≡ option_map_or is_long (as_str (json_view value.now)) false }
{
    match value.as_str() {
        None => false,
        Some(text) => is_long(text),
    }
}

/// A key of more bytes than a text may have.
fn has_long_key(members: &Map<String, Value>) -> bool
    ensures { result ≡ list_any (λ m. is_long m.0) (pairs (members_view members.now.entries)) }
{
    for (name, _) in members.iter() {
        if is_long(name.as_str()) {
            return true;
        }
    }
    false
}

/// More entries than a map may have, or a key that is too long.
fn is_large_map(members: &Map<String, Value>) -> bool
    ensures { result ≡ (nat_lt 65536 (length (pairs (members_view members.now.entries)))
        || list_any (λ m. is_long m.0) (pairs (members_view members.now.entries))) }
{
    members.len() > MOST_ENTRIES || has_long_key(members)
}

/// Whether more than the kind of a value that is given for a type use may be wrong: it may not where
/// that is a number, a truth value, a date or a moment.
fn can_be_flawed(type_use: &TypeUse) -> bool
    ensures { result ≡ false → IsNeverFlawed (type_use_view type_use.now) }
{
    match type_use {
        TypeUse::Integer => false,
        TypeUse::Decimal => false,
        TypeUse::Boolean => false,
        TypeUse::Date => false,
        TypeUse::Instant => false,
        _ => true,
    }
}

/// What is wrong with a value that is given for a type use, and with what stands in it.
pub fn flaws_of(types: &TypeNames, type_use: &TypeUse, value: &Value) -> Flaws
    ensures { Tells result (object_types_view types.now)
        (λ flaw. flaw (Some (type_use_view type_use.now)) (json_view value.now)) }
{
    value_flaws(types, value, type_use)
}

#[cycle(flaws)]
fn value_flaws(types: &TypeNames, value: &Value, type_use: &TypeUse) -> Flaws
    ensures { Tells result (object_types_view types.now)
        (λ flaw. flaw (Some (type_use_view type_use.now)) (json_view value.now)) }
{
    match type_use {
        TypeUse::Text => Flaws::of_size(is_long_text(value)),
        TypeUse::Ref(target) => reference_flaws(types, target.as_str(), value),
        TypeUse::List(held) => match value {
            Value::Array(items) => Flaws::of_size(items.len() > MOST_ENTRIES).and(item_flaws(
                types, items, held,
            )),
            _ => Flaws::none(),
        },
        TypeUse::Map(held) => match value {
            Value::Object(members) => Flaws::of_size(is_large_map(members)).and(member_flaws(
                types, members, held,
            )),
            _ => Flaws::none(),
        },
        TypeUse::Optional(held) => match value {
            Value::Array(items) => item_flaws(types, items, held),
            _ => Flaws::none(),
        },
        _ => Flaws::none(),
    }
}

/// What is wrong with the items of an array.
#[cycle(flaws)]
fn item_flaws(types: &TypeNames, items: &Vec<Value>, held: &TypeUse) -> Flaws
    ensures { Tells result (object_types_view types.now)
        (λ flaw. list_any (flaw (Some (type_use_view held.now))) (listed (json_items items.now.items))) }
{
    if !can_be_flawed(held) {
        return Flaws::none();
    }
    let mut flaws = Flaws::none();
    for item in items {
        flaws = flaws.and(value_flaws(types, item, held));
    }
    flaws
}

/// What is wrong with the values of an object.
#[cycle(flaws)]
fn member_flaws(types: &TypeNames, members: &Map<String, Value>, held: &TypeUse) -> Flaws
    ensures { Tells result (object_types_view types.now)
        (λ flaw. list_any (λ m. flaw (Some (type_use_view held.now)) m.1) (pairs (members_view members.now.entries))) }
{
    if !can_be_flawed(held) {
        return Flaws::none();
    }
    let mut flaws = Flaws::none();
    for (_, value) in members.iter() {
        flaws = flaws.and(value_flaws(types, value, held));
    }
    flaws
}

/// What is wrong with a given datum. `type_use` is its field's, `None` where its object's type has no
/// such field.
fn flaws_at(types: &TypeNames, type_use: Option<&TypeUse>, value: &Value) -> Flaws
    ensures { Tells result (object_types_view types.now)
        (λ flaw. flaw (option_map (λ u. type_use_view u.now) type_use.entry) (json_view value.now)) }
{
    match type_use {
        None => Flaws {
            undeclared: true,
            dangling: false,
            stray: false,
            large: false,
        },
        Some(type_use) => flaws_of(types, type_use, value),
    }
}

/// What is wrong with the data that are given for a type's fields.
pub fn flaws_among(types: &TypeNames, fields: &Fields, given: &Map<String, Value>) -> Flaws
    ensures told { Tells result (object_types_view types.now)
        (λ flaw. list_any (λ g. flaw (at_name g.0 (fields_view fields.now)) g.1) (pairs (members_view given.now.entries))) }
    ensures ascending { IsAscending (keys_of (pairs (members_view given.now.entries))) }
{
    let mut flaws = Flaws::none();
    for (name, value) in given.iter() {
        flaws = flaws.and(flaws_at(types, use_in(fields, name.as_str()), value));
    }
    flaws
}
